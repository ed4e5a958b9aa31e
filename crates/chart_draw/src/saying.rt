//! What is said of how the program ended.
ghost use Rattle.std.specs.Prelude.{◌≡◌, ◌++◌, IfOk, codes};
ghost use Rattle.std.specs.Fmt.{decimal};
ghost use Rattle.std.specs.String.{string_bytes};
ghost use Rattle.outside.specs.Said.{errors};
ghost use Rattle.outside.specs.Tells.{tells_of};
ghost use Rattle.chart_mean.specs.Ends.{Said};
ghost use Rattle.chart_mean.specs.declared.types.ChartEnding.TheVariants as ending;

use chart_mean::ChartEnding;
use outside::{NO_MEMORY, Sink, say_line};
use std::alloc::{AllocError, Global};

/// The status where the file is refused.
const FILE_REFUSED: u8 = 1;

/// Says how the program ended, and answers its status.
pub(crate) fn say<E: Sink>(alloc: Global, ending: ChartEnding, err: &mut E) -> u8
    ensures { Said ending (errors (tells_of E.Sink err.old) (tells_of E.Sink err.new) result) }
{
    match ending {
        ChartEnding::Done => 0,
        ChartEnding::TooLarge => say_line(b"file: too large\n", FILE_REFUSED, err),
        ChartEnding::Line(number) => say_number(alloc, number, err),
        ChartEnding::Words => say_line(b"words: refused\n", 2, err),
        ChartEnding::Read => say_line(b"read fault\n", 4, err),
        ChartEnding::Write => say_line(b"write fault\n", 5, err),
        ChartEnding::Memory => say_line(b"no memory\n", NO_MEMORY, err),
    }
}

/// Says which line of the file is out of form.
fn say_number<E: Sink>(alloc: Global, number: u32, err: &mut E) -> u8
    ensures { Said (ending.Line number) (errors (tells_of E.Sink err.old) (tells_of E.Sink err.new) result) }
{
    match numbered(alloc, number) {
        Ok(line) => say_line(line.as_bytes(), FILE_REFUSED, err),
        Err(_) => NO_MEMORY,
    }
}

fn numbered(alloc: Global, number: u32) -> Result<String, AllocError>
    ensures { IfOk result (λ text. string_bytes text ≡ codes "file: line " ++ decimal number ++ codes "\n") }
{
    format!(in alloc; "file: line {number}\n")
}
