//! Files of traces, read from a shelf and judged for a stack.

ghost use Rattle.std.specs.Prelude.{◌≡◌};
ghost use Rattle.bypass_laws.specs.Making.{IsSound};
ghost use Rattle.stack_judge.specs.Answer.{stack_tree};
ghost use Rattle.job_ends.specs.Shown.{shown_end};
ghost use Rattle.play_jobs.specs.Traces.{FetchesTraces, JudgesTraces, refused_as};

use job_ends::Ending;
use outside::{Got, Shelf};
use pack_judge::{BypassError, LONGEST_FILE, read_bypasses};
use stack_judge::Stack;
use std::alloc::Global;
use trace_core::Bypasses;

/// Reads a file of traces, and makes a stack's bypasses of these; or answers how the job ends.
pub(crate) fn fetch_traces<S: Shelf>(
    alloc: Global,
    stack: &Stack,
    name: &str,
    shelf: &mut S,
) -> Result<Bypasses, Ending>
    requires { IsSound (stack_tree stack.now) }
    ensures { FetchesTraces (stack_tree stack.now) name.now (S.told shelf.old) (S.faults shelf.old) (S.faults shelf.new)
        result }
{
    let mut text = Vec::new(alloc);
    match shelf.read(name, &mut text, LONGEST_FILE as u64)? {
        Got::Whole => judged(alloc, stack, &text),
        Got::TooLong => Err(Ending::TracesTooLarge),
    }
}

/// The bypasses of the traces that a text holds for a stack, or why it is refused.
fn judged(alloc: Global, stack: &Stack, text: &[u8]) -> Result<Bypasses, Ending>
    requires { IsSound (stack_tree stack.now) }
    ensures { JudgesTraces (stack_tree stack.now) text.now result }
{
    match read_bypasses(alloc, stack, text) {
        Ok(bypasses) => Ok(bypasses),
        Err(error) => Err(refusal(error)),
    }
}

/// How a job ends whose file of traces is refused.
fn refusal(error: BypassError) -> Ending
    ensures { shown_end result ≡ refused_as error }
{
    match error {
        BypassError::TooLarge => Ending::TracesTooLarge,
        BypassError::Line(line) => Ending::TracesLine(line),
        BypassError::Differs { entry, case, act } => Ending::TracesDiffer(entry, case, act),
        BypassError::Memory => Ending::Memory,
    }
}
