//! Numbers that no cell is read for.

ghost use Rattle.std.specs.Prelude.{◌≡◌, ◌++◌, [], OnOk, slice_get, slice_index_or, take};
ghost use Rattle.std.specs.Fmt.{decimal};
ghost use Rattle.bypass_mean.specs.Text.{atom_text};
ghost use Rattle.synth_print.specs.Texts.{written_in};
ghost use Rattle.trace_core.specs.View.{atom_tree};
ghost use Rattle.trace_mean.specs.Trace.{taken_number};

use crate::cells::push_called;
use crate::scope::Scope;
use crate::written::Spot;
use msg_core::Memory;
use report_lines::Line;
use trace_core::Atom;

/// A word and a number.
pub(crate) fn push_numbered(line: &mut Line, word: &[u8], number: u32) -> Result<(), Memory>
    ensures { OnOk result (line.new ≡ line.old ++ word.now ++ decimal number) }
{
    line.text(word)?;
    line.number(u64::from(number))
}

/// The queue of the row of a number, where it may be named.
fn row_at(scope: &Scope<'_>, number: u32) -> Option<Spot>
    ensures { result ≡ slice_get (take scope.now.rows scope.now.written.now.rows.items) number }
{
    let number = number as usize;
    if number < scope.rows {
        scope.written.rows.get(number).copied()
    } else {
        None
    }
}

/// What a number of a taken row is called.
#[tactic(auto, using(crate::proofs::Notes::no_row))]
fn push_row_called(line: &mut Line, scope: &Scope<'_>, row: u32, number: u8) -> Result<(), Memory>
    ensures { OnOk result
        (line.new ≡ line.old ++ slice_index_or (slice_index_or (written_in scope.now).rows row []) number []) }
{
    match row_at(scope, row) {
        Some(row) => push_called(line, scope.stack, row.place, row.cell, number),
        None => Ok(()),
    }
}

/// A number of a taken row.
fn push_taken(line: &mut Line, scope: &Scope<'_>, row: u32, number: u8) -> Result<(), Memory>
    ensures { OnOk result (line.new ≡ line.old ++ atom_text (written_in scope.now) (taken_number row number)) }
{
    push_numbered(line, b"row.", row)?;
    line.text(b".")?;
    push_row_called(line, scope, row, number)
}

/// A number that no cell is read for.
pub(crate) fn push_atom(line: &mut Line, scope: &Scope<'_>, atom: Atom) -> Result<(), Memory>
    ensures { OnOk result (line.new ≡ line.old ++ atom_text (written_in scope.now) (atom_tree atom)) }
{
    match atom {
        Atom::Number(number) => line.number(u64::from(number)),
        Atom::Peer => line.text(b"peer"),
        Atom::Field(number) => push_numbered(line, b"in.", number),
        Atom::Bound(number) => push_numbered(line, b"t.", number),
        Atom::Taken { row, number } => push_taken(line, scope, row, number),
        Atom::Value(number) => push_numbered(line, b"v.", number),
    }
}
