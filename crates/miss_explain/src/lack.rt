//! The words of what a case lacks.

ghost use Rattle.std.specs.Prelude.{◌≡◌, ◌++◌, [], OnOk, codes, option_map, slice_index_or};
ghost use Rattle.std.specs.Fmt.{decimal};
ghost use Rattle.std.specs.Option.{option_map_or};
ghost use Rattle.bypass_mean.specs.Lines.{reason_text};
ghost use Rattle.stack_judge.specs.Answer.{stack_tree};
ghost use Rattle.layer_ast.specs.View.{file_tree};
ghost use Rattle.layer_mean.specs.Tree.{no_layer};
ghost use Rattle.miss_mean.specs.Text.{entry_spots, entry_text, known_at, lack_text, spot_text};
ghost use Rattle.shape_core.specs.Cases.{reason_tree};
ghost use Rattle.stack_shapes.specs.Shapes.{short_shapes};
ghost use Rattle.stack_shapes.specs.Trees.{plans_tree};
ghost use Rattle.step_misses.specs.Misses.{entry_meant, lack_meant};
ghost use Rattle.miss_explain.specs.Spot.{spot_tree};
ghost use Rattle.miss_explain.specs.Told.{HasShape};

use crate::kept::kept_spot;
use crate::spot::Spot;
use crate::texts::Texts;
use layer_mean::Case;
use msg_core::Memory;
use report_lines::{Line, NamedStack};
use shape_core::Absent;
use stack_shapes::EntryOf;
use step_misses::Lack;

/// A word and a number.
fn push_numbered(line: &mut Line, word: &[u8], number: u64) -> Result<(), Memory>
    ensures { OnOk result (line.new ≡ line.old ++ word.now ++ decimal number) }
{
    line.text(word)?;
    line.number(number)
}

/// `cast`, `send`, `plan K`, or `none` for a packet that fits no plan.
pub(crate) fn push_entry(line: &mut Line, entry: EntryOf) -> Result<(), Memory>
    ensures { OnOk result (line.new ≡ line.old ++ entry_text (entry_meant entry)) }
{
    match entry {
        EntryOf::Cast => line.text(b"cast"),
        EntryOf::Send => line.text(b"send"),
        EntryOf::Plan(number) => push_numbered(line, b"plan ", u64::from(number)),
        EntryOf::None => line.text(b"none"),
    }
}

/// Why there is no shape.
fn push_reason(line: &mut Line, reason: Absent) -> Result<(), Memory>
    ensures { OnOk result (line.new ≡ line.old ++ reason_text (reason_tree reason)) }
{
    match reason {
        Absent::Loop(place) => push_numbered(line, b"loop ", u64::from(place)),
        Absent::Rare(place) => push_numbered(line, b"rare ", u64::from(place)),
        Absent::Stored(place) => push_numbered(line, b"stored ", u64::from(place)),
        Absent::Long => line.text(b"long"),
        Absent::Same => line.text(b"same"),
    }
}

/// The name of the layer at a place; there is none past the last.
#[tactic(auto, using(crate::proofs::Numbers::no_name))]
fn push_layer_name(line: &mut Line, stack: &NamedStack, place: u8) -> Result<(), Memory>
    ensures { OnOk result (line.new ≡ line.old ++ (slice_index_or (stack_tree stack.now) place no_layer).name) }
{
    if place < stack.places() {
        line.text(stack.layer(place).name.bytes())
    } else {
        Ok(())
    }
}

/// `visit V place P LAYER line L`
fn push_spot(line: &mut Line, stack: &NamedStack, spot: Spot) -> Result<(), Memory>
    ensures { OnOk result (line.new ≡ line.old ++ spot_text (stack_tree stack.now) (spot_tree spot)) }
{
    push_numbered(line, b"visit ", spot.visit)?;
    push_numbered(line, b" place ", u64::from(spot.place))?;
    line.text(b" ")?;
    push_layer_name(line, stack, spot.place)?;
    push_numbered(line, b" line ", u64::from(spot.line))
}

/// `visit V place P LAYER line L` if there is such a decision, and else nothing.
fn push_found(line: &mut Line, stack: &NamedStack, spot: Option<Spot>) -> Result<(), Memory>
    ensures { OnOk result
        (line.new ≡ line.old ++ option_map_or (spot_text (stack_tree stack.now)) (option_map spot_tree spot) []) }
{
    match spot {
        Some(spot) => push_spot(line, stack, spot),
        None => Ok(()),
    }
}

/// `absent`, and why there is no shape.
fn push_absent(line: &mut Line, reason: Absent) -> Result<(), Memory>
    ensures { OnOk result (line.new ≡ line.old ++ codes "absent " ++ reason_text (reason_tree reason)) }
{
    line.text(b"absent ")?;
    push_reason(line, reason)
}

/// What a case of an entry lacks.
pub(crate) fn push_lack(
    line: &mut Line,
    texts: Texts<'_>,
    case: Case,
    entry: EntryOf,
    lack: Lack,
) -> Result<(), Memory>
    requires entries { texts.entries.now ≡ short_shapes (stack_tree texts.stack.now) (plans_tree texts.plans.now) }
    requires told { HasShape (stack_tree texts.stack.now) case
        (known_at (plans_tree texts.plans.now) (entry_meant entry)) (lack_meant lack) }
    ensures { OnOk result (line.new ≡ line.old ++ lack_text (stack_tree texts.entry.stack.now)
        (entry_spots case (file_tree texts.entry.file.now) (stack_tree texts.entry.stack.now)
        (known_at (plans_tree texts.entry.plans.now) (entry_meant entry)))
        (lack_meant lack)) }
{
    match lack {
        Lack::NoPlan => line.text(b"noplan"),
        Lack::Absent(reason) => push_absent(line, reason),
        Lack::Check(number) => push_found(line, texts.stack, kept_spot(texts, case, entry, number)),
    }
}
