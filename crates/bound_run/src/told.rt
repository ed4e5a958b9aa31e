//! The lines of an output.

ghost use Rattle.std.specs.Prelude.{◌≡◌, ◌++◌, IfOk, OnOk, codes};
ghost use Rattle.std.specs.Fmt.{decimal};
ghost use Rattle.bound_mean.specs.Told.{bounds_text, holds_line, holds_to_line};

use breach_text::law_word;
use family_search::Trial;
use family_world::{Bounds, Scene};
use msg_core::Memory;
use report_lines::Line;
use std::alloc::Global;

/// Appends what was checked.
fn tell_bounds(line: &mut Line, bounds: Bounds, members: u8, scripts: u64) -> Result<(), Memory>
    ensures { OnOk result (line.new ≡ line.old ++
        bounds_text bounds.law bounds.events bounds.repeats members scripts) }
{
    line.text(law_word(bounds.law))?;
    line.text(b" events ")?;
    line.number(u64::from(bounds.events))?;
    line.text(b" repeats ")?;
    line.number(u64::from(bounds.repeats))?;
    line.text(b" members ")?;
    line.number(u64::from(members))?;
    line.text(b" scripts ")?;
    line.number(scripts)?;
    line.text(b"\n")
}

/// The line that says that each script keeps the law.
pub(crate) fn holds_line(alloc: Global, scene: &Scene, scripts: u64) -> Result<Line, Memory>
    ensures { IfOk result (λ line. line ≡ holds_line scene.now scripts) }
{
    let mut line = Line::new(alloc);
    line.text(b"holds ")?;
    tell_bounds(&mut line, scene.bounds(), scene.members(), scripts)?;
    Ok(line)
}

/// The line that says that each script of at most this many events does.
pub(crate) fn holds_to_line(
    alloc: Global,
    scene: &Scene,
    most: u16,
    scripts: u64,
) -> Result<Line, Memory>
    ensures { IfOk result (λ line. line ≡ holds_to_line scene.now most scripts) }
{
    let mut line = Line::new(alloc);
    line.text(b"holds to ")?;
    line.number(u64::from(most))?;
    line.text(b" ")?;
    tell_bounds(&mut line, scene.bounds(), scene.members(), scripts)?;
    Ok(line)
}
