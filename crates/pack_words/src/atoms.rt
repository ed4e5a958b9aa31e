//! Numbers and messages that no cell is read for, by name.

ghost use Rattle.std.specs.Prelude.{◌≡◌, ◌<◌, ◌∷◌, [], IfOk, length, option_map, slice_index_or};
ghost use Rattle.pack_mean.specs.Named as named;
ghost use Rattle.trace_core.specs.View.{atom_tree, core_tree};
ghost use Rattle.pack_words.specs.Names.{words_in};
ghost use Rattle.pack_words.specs.View.{items_shown, named_in};

use crate::cells::{below, item_place, items_named, kept, load_of};
use crate::name::Name;
use crate::scope::Scope;
use script_text::number_within;
use std::alloc::AllocError;
use trace_core::{Atom, Core};
use typed_layer::Items;

/// A number of one word.
fn plain_atom(_scope: &Scope<'_>, word: &[u8]) -> Option<Atom>
    ensures { option_map atom_tree result ≡ named.atom_named (named_in _scope.now) (word.now ∷ []) }
{
    if word == b"peer".as_slice() {
        return Some(Atom::Peer);
    }
    let number = number_within(0, u32::MAX, word)?;
    Some(Atom::Number(number))
}

/// A number of two words.
fn numbered_atom(scope: &Scope<'_>, kind: &[u8], number: &[u8]) -> Option<Atom>
    ensures { option_map atom_tree result ≡ named.atom_named (named_in scope.now) (kind.now ∷ number.now ∷ []) }
{
    if kind == b"in".as_slice() {
        let field = below(scope.fields as usize, number)?;
        Some(Atom::Field(field))
    } else if kind == b"t".as_slice() {
        let bound = below(scope.binds as usize, number)?;
        Some(Atom::Bound(bound))
    } else {
        None
    }
}

/// What a taken row has, if there is such a row.
#[tactic(auto, using(crate::proofs::Places::made_at))]
fn row_items<'a>(scope: &Scope<'a>, row: u32) -> Option<&'a Items>
    requires { row < length scope.now.rows.now }
    ensures { items_shown result ≡ slice_index_or (named_in scope.now).rows row named.no_items }
{
    items_named(scope.stack, scope.rows[row as usize])
}

/// A number of a taken row.
fn row_atom(scope: &Scope<'_>, row: &[u8], word: &[u8]) -> Result<Option<Atom>, AllocError>
    ensures { IfOk result (λ atom. option_map atom_tree atom ≡ named.row_number (named_in scope.now) row.now word.now) }
{
    let Some(taken) = below(scope.rows.len(), row) else {
        return Ok(None);
    };
    match kept(item_place(row_items(scope, taken), word))? {
        Some(number) => Ok(Some(Atom::Taken { row: taken, number })),
        None => Ok(None),
    }
}

/// The number of a name.
pub fn atom_named(scope: &Scope<'_>, name: Name<'_>) -> Result<Option<Atom>, AllocError>
    ensures { IfOk result
        (λ atom. option_map atom_tree atom ≡ named.atom_named (named_in scope.now) (words_in name.entry)) }
{
    match name {
        Name::One(word) => Ok(plain_atom(scope, word)),
        Name::Two(kind, number) => Ok(numbered_atom(scope, kind, number)),
        Name::Three(kind, row, word) => {
            if kind == b"row".as_slice() {
                row_atom(scope, row, word)
            } else {
                Ok(None)
            }
        }
        _ => Ok(None),
    }
}

/// A message of one word.
fn plain_core(_scope: &Scope<'_>, word: &[u8]) -> Option<Core>
    ensures { option_map core_tree result ≡ named.core_named (named_in _scope.now) (word.now ∷ []) }
{
    if word == b"body".as_slice() {
        Some(Core::Body)
    } else if word == b"nothing".as_slice() {
        Some(Core::Nothing)
    } else {
        None
    }
}

/// The message of a taken row.
fn row_core(scope: &Scope<'_>, row: &[u8]) -> Option<Core>
    ensures { option_map core_tree result ≡ named.row_message (named_in scope.now) row.now }
{
    let taken = below(scope.rows.len(), row)?;
    let load = load_of(row_items(scope, taken))?;
    Some(Core::Taken { row: taken, load })
}

/// A message of two words.
fn numbered_core(scope: &Scope<'_>, kind: &[u8], number: &[u8]) -> Option<Core>
    ensures { option_map core_tree result ≡ named.core_named (named_in scope.now) (kind.now ∷ number.now ∷ []) }
{
    if kind == b"m".as_slice() {
        let noted = below(scope.notes as usize, number)?;
        Some(Core::Noted(noted))
    } else if kind == b"row".as_slice() {
        row_core(scope, number)
    } else {
        None
    }
}

/// The message of a name.
pub fn core_named(scope: &Scope<'_>, name: Name<'_>) -> Option<Core>
    ensures { option_map core_tree result ≡ named.core_named (named_in scope.now) (words_in name.entry) }
{
    match name {
        Name::One(word) => plain_core(scope, word),
        Name::Two(kind, number) => numbered_core(scope, kind, number),
        _ => None,
    }
}
