//! What is written of a breach.

ghost use Rattle.std.specs.Prelude.{IfOk, IfSome};
ghost use Rattle.family_mean.specs.Family.{IsShortestBreach};
ghost use Rattle.family_search.specs.Trying.{events_of};
ghost use Rattle.bound_run.specs.Looks.{IsBreach, Looks, Spells, TellsOf};

use crate::output::{Kind, Output};
use crate::same::is_same;
use audit_judge::{AuditError, Finding, Law, audit};
use breach_text::{Breach, tell};
use family_search::{Choice, Trial};
use family_world::Scene;
use job_ends::Ending;
use msg_core::Memory;
use report_lines::{Line, journal_line};
use script_mean::Script;
use script_text::{ScriptError, read_script};
use std::alloc::{AllocError, Global};

/// Two lines of a report that break a law.
#[derive(Clone, Copy)]
struct Lines {
    first: u32,
    second: u32,
}

/// The two lines of a report that break a law, if it does.
fn breach_in(alloc: Global, law: Law, report: &[u8]) -> Result<Option<Lines>, AllocError>
    ensures { IfOk result (λ found. IfSome found (λ lines. IsBreach law report.now lines.first lines.second)) }
{
    match audit(alloc, report, law) {
        Ok(Finding::Breach(first, second)) => Ok(Some(Lines { first, second })),
        Err(AuditError::Memory) => Err(AllocError),
        _ => Ok(None),
    }
}

/// The text of a script. It is read back before it is written anywhere.
fn text_of(alloc: Global, script: &Script) -> Result<Vec<u8>, Memory> {
    let mut line = Line::new(alloc);
    line.text(b"group")?;
    line.spaced(script.group)?;
    line.text(b" stamp")?;
    line.spaced(script.stamp)?;
    line.text(b" members")?;
    line.spaced(u32::from(script.members))?;
    line.text(b"\n")?;
    let mut text = Vec::new(alloc);
    text.extend_from_slice(line.slice())?;
    for event in script.events.slice() {
        line.clear();
        journal_line(&mut line, event)?;
        if let Some(event) = line.slice().strip_prefix(b"> ".as_slice()) {
            text.extend_from_slice(event)?;
        }
    }
    Ok(text)
}

/// Whether a text spells a script.
fn spells(alloc: Global, text: &[u8], script: &Script) -> Result<bool, AllocError>
    ensures { IfOk result (Spells text.now script.now) }
{
    match read_script(alloc, text) {
        Ok(read) => Ok(is_same(&read, script)),
        Err(ScriptError::Memory) => Err(AllocError),
        Err(_) => Ok(false),
    }
}

/// A script after comments that tell of the breach in its report; a text that doesn't spell the script, or a report
/// without a breach, is none.
fn told(alloc: Global, law: Law, report: &[u8], script: &Script) -> Result<Option<Line>, AllocError>
    ensures { IfOk result (λ found. IfSome found (TellsOf law report.now script.now)) }
{
    let Some(Lines { first, second }) = breach_in(alloc, law, report)? else {
        return Ok(None);
    };
    let Ok(draft) = text_of(alloc, script) else {
        return Err(AllocError);
    };
    let breach = Breach {
        report,
        first,
        second,
    };
    let Ok(text) = tell(alloc, law, breach, &draft) else {
        return Err(AllocError);
    };
    if !spells(alloc, text.slice(), script)? {
        return Ok(None);
    }
    Ok(Some(text))
}

/// What is written of a shortest script that breaks the law.
pub(crate) fn broken(alloc: Global, scene: &mut Scene, past: &[Choice]) -> Result<Output, Ending>
    requires { IsShortestBreach scene.old (events_of scene.old past.now) }
    ensures { Looks scene.old result }
{
    let script = scene.script(alloc, past)?;
    let law = scene.bounds().law;
    let report = scene.report(alloc, past)?;
    match told(alloc, law, &report, &script)? {
        Some(text) => Ok(Output {
            text,
            kind: Kind::Breach,
        }),
        None => Err(Ending::Memory),
    }
}
