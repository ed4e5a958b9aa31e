//! The line of a step that wasn't common.

ghost use Rattle.std.specs.Prelude.{◌≡◌, ◌++◌, ◌∷◌, [], OnOk, option_map};
ghost use Rattle.stack_judge.specs.Answer.{stack_tree};
ghost use Rattle.layer_ast.specs.View.{file_tree};
ghost use Rattle.layer_mean.specs.declared.run.Case.TheVariants.{Second};
ghost use Rattle.miss_mean.specs.Text.{entry_spots, known_at, miss_line};
ghost use Rattle.outside.specs.Lines.{Wrote};
ghost use Rattle.outside.specs.Tells.{tells_of};
ghost use Rattle.stack_shapes.specs.Shapes.{short_shapes};
ghost use Rattle.stack_shapes.specs.Trees.{plans_tree};
ghost use Rattle.step_misses.specs.Misses.{entry_meant, lack_meant, miss_meant};
ghost use Rattle.miss_explain.specs.Told.{HaveShape, IsTold};
ghost use Rattle.miss_explain.specs.Words.{front_text, second_part};

use crate::lack::{push_entry, push_lack};
use crate::texts::Texts;
use layer_mean::Case;
use msg_core::Memory;
use outside::{Sink, SinkError, put_line};
use report_lines::Line;
use stack_shapes::EntryOf;
use step_misses::{Lack, Miss};

/// A step of a member at an event of a script, which its number names.
#[derive(Clone, Copy)]
pub struct Step {
    pub event: u64,
    pub member: u8,
}

/// `miss I M E `
fn push_front(line: &mut Line, event: u64, member: u8, entry: EntryOf) -> Result<(), Memory>
    ensures { OnOk result (line.new ≡ line.old ++ front_text event member (entry_meant entry)) }
{
    line.text(b"miss ")?;
    line.number(event)?;
    line.text(b" ")?;
    line.number(u64::from(member))?;
    line.text(b" ")?;
    push_entry(line, entry)?;
    line.text(b" ")
}

/// ` or`, and what the second case lacks, where it is made.
fn push_second(
    line: &mut Line,
    texts: Texts<'_>,
    entry: EntryOf,
    second: Option<Lack>,
) -> Result<(), Memory>
    requires entries { texts.entries.now ≡ short_shapes (stack_tree texts.stack.now) (plans_tree texts.plans.now) }
    requires told { HaveShape (stack_tree texts.stack.now) Second
        (known_at (plans_tree texts.plans.now) (entry_meant entry)) (option_map lack_meant second) }
    ensures { OnOk result (line.new ≡ line.old ++ second_part (stack_tree texts.entry.stack.now)
        (entry_spots Second (file_tree texts.entry.file.now) (stack_tree texts.entry.stack.now)
        (known_at (plans_tree texts.entry.plans.now) (entry_meant entry)))
        (option_map lack_meant second)) }
{
    match second {
        Some(lack) => {
            line.text(b" or ")?;
            push_lack(line, texts, Case::Second, entry, lack)
        }
        None => Ok(()),
    }
}

/// Builds the line of a step that wasn't common, of a member at an event.
fn build_miss(line: &mut Line, texts: Texts<'_>, step: Step, miss: &Miss) -> Result<(), Memory>
    requires entries { texts.entries.now ≡ short_shapes (stack_tree texts.stack.now) (plans_tree texts.plans.now) }
    requires told { IsTold (stack_tree texts.stack.now) (plans_tree texts.plans.now) (miss_meant miss.now) }
    ensures { OnOk result
        (line.new ≡ line.old ++ miss_line (file_tree texts.entry.file.now) (stack_tree texts.entry.stack.now)
        (plans_tree texts.entry.plans.now) step.event step.member (miss_meant miss.now)) }
{
    push_front(line, step.event, step.member, miss.entry)?;
    push_lack(line, texts, Case::First, miss.entry, miss.first)?;
    push_second(line, texts, miss.entry, miss.second)?;
    line.text(b"\n")
}

/// Puts the line of a step that wasn't common, of a member at an event of a script. The line is built in one that is
/// kept from line to line.
pub fn write_miss<O: Sink>(
    line: &mut Line,
    texts: Texts<'_>,
    step: Step,
    miss: &Miss,
    out: &mut O,
) -> Result<(), SinkError>
    requires entries { texts.entries.now ≡ short_shapes (stack_tree texts.stack.now) (plans_tree texts.plans.now) }
    requires told { IsTold (stack_tree texts.stack.now) (plans_tree texts.plans.now) (miss_meant miss.now) }
    ensures { Wrote (miss_line (file_tree texts.entry.file.now) (stack_tree texts.entry.stack.now)
        (plans_tree texts.entry.plans.now) step.event step.member
        (miss_meant miss.now) ∷ []) (tells_of O.Sink out.old) (tells_of O.Sink out.new) result }
{
    line.clear();
    build_miss(line, texts, step, miss)?;
    put_line(line.slice(), out)
}
