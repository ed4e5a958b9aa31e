//! The job of what was given.

ghost use Rattle.std.specs.Prelude.{◌≡◌, IfOk, option_map, ◌≤◌, IfSome, length};
ghost use Rattle.job_mean.specs.Job as spec;
ghost use Rattle.group_mean.specs.Shown.{shown_mode};
ghost use Rattle.job_text.specs.Shown.{node_of, shown_given, shown_job, text};
ghost use Rattle.msg_core.specs.View.{most_members};

use crate::given::Given;
use crate::named::{Audit, Explain, Job, Load, NodeJob, Replay, ReplayWith};
use crate::numbers::{a_number, a_number_or_zero, some_members};
use audit_mean::Law;
use group_mean::Mode;
use msg_core::MOST_MEMBERS;
use std::alloc::{AllocError, Global};

/// The most events of a generated script.
pub const MOST_GENERATED: u32 = 99_999;

/// The most turns of a node.
const MOST_NODE_TURNS: u32 = 1_000_000;

/// The most failed receives that a node bears.
const MOST_PATIENCE: u32 = 1_000;

/// The job of what was given, if it is one.
pub(crate) fn job_of<'w>(alloc: Global, given: &Given<'w>) -> Result<Option<Job<'w>>, AllocError>
    ensures { IfOk result (λ job. option_map shown_job job ≡ spec.job (shown_given given.now)) }
{
    if given.job == "check" {
        Ok(check(given))
    } else if given.job == "synth" {
        Ok(synth(given))
    } else if given.job == "pack" {
        Ok(pack(given))
    } else if given.job == "replay" {
        Ok(replay(given))
    } else if given.job == "explain" {
        Ok(explain(given))
    } else if given.job == "load" {
        Ok(load(given))
    } else if given.job == "node" {
        node(alloc, given)
    } else if given.job == "audit" {
        Ok(audit(given))
    } else {
        Ok(None)
    }
}

/// A replay, which alone tells its events.
pub(crate) fn telling_job<'w>(given: &Given<'w>) -> Option<Job<'w>>
    ensures { option_map shown_job result ≡ spec.telling_job (shown_given given.now) }
{
    if given.job == "replay" {
        replay(given)
    } else {
        None
    }
}

/// `check FILE`
fn check<'w>(given: &Given<'w>) -> Option<Job<'w>>
    ensures { option_map shown_job result ≡ spec.check_job (shown_given given.now) }
{
    if given.has_only(&[]) {
        Some(Job::Check(given.file))
    } else {
        None
    }
}

/// `synth FILE`
fn synth<'w>(given: &Given<'w>) -> Option<Job<'w>>
    ensures { option_map shown_job result ≡ spec.synth_job (shown_given given.now) }
{
    if given.has_only(&[]) {
        Some(Job::Synth(given.file))
    } else {
        None
    }
}

/// `pack FILE`
fn pack<'w>(given: &Given<'w>) -> Option<Job<'w>>
    ensures { option_map shown_job result ≡ spec.pack_job (shown_given given.now) }
{
    if given.has_only(&[]) {
        Some(Job::Pack(given.file))
    } else {
        None
    }
}

/// `replay FILE SCRIPT`, may have `--run MODE`, `--with TRACES`, `--events`, `--wire` and `--count`.
fn replay<'w>(given: &Given<'w>) -> Option<Job<'w>>
    ensures { option_map shown_job result ≡ spec.replay_job (shown_given given.now) }
{
    if !given.has_only(&["second", "run", "with", "wire", "count"]) {
        return None;
    }
    let script = given.second?;
    let mode = mode_of(given.run)?;
    replay_by(given, script, mode)
}

/// A replay in a mode: only one by bypasses may be given the traces of a file.
fn replay_by<'w>(given: &Given<'w>, script: &'w str, mode: Mode) -> Option<Job<'w>>
    ensures { option_map shown_job result
        ≡ spec.replay_by (shown_given given.now) script.entry.now (shown_mode mode) (shown_given given.now).traces }
{
    let Some(traces) = given.traces else {
        return Some(Job::Replay(Replay {
            file: given.file,
            script,
            mode,
            events: given.telling,
            wire: given.wire,
            count: given.count,
        }));
    };
    match mode {
        Mode::Layered => None,
        Mode::Bypass => Some(Job::ReplayWith(ReplayWith {
            file: given.file,
            script,
            traces,
            events: given.telling,
            wire: given.wire,
            count: given.count,
        })),
    }
}

/// `explain FILE SCRIPT`
fn explain<'w>(given: &Given<'w>) -> Option<Job<'w>>
    ensures { option_map shown_job result ≡ spec.explain_job (shown_given given.now) }
{
    if !given.has_only(&["second"]) {
        return None;
    }
    let script = given.second?;
    Some(Job::Explain(Explain {
        file: given.file,
        script,
    }))
}

/// `load FILE --seed S --events E --members N`, may have `--run MODE` and `--raw`.
fn load<'w>(given: &Given<'w>) -> Option<Job<'w>>
    ensures { option_map shown_job result ≡ spec.load_job (shown_given given.now) }
{
    if !given.has_only(&["seed", "events", "members", "run", "raw"]) {
        return None;
    }
    let seed = a_number(0, u32::MAX, given.seed)?;
    let events = a_number(0, MOST_GENERATED, given.events)?;
    let members = a_number(1, u32::from(MOST_MEMBERS), given.members)?;
    let mode = mode_of(given.run)?;
    Some(Job::Load(Load {
        file: given.file,
        seed,
        events,
        members,
        raw: given.raw,
        mode,
    }))
}

/// `node FILE PLAN --turns T --me IDS`, may have `--run MODE` and `--patience P`.
fn node<'w>(alloc: Global, given: &Given<'w>) -> Result<Option<Job<'w>>, AllocError>
    ensures { IfOk result (λ job. option_map shown_job job ≡ spec.node_job (shown_given given.now)) }
{
    if !given.has_only(&["second", "turns", "me", "run", "patience"]) {
        return Ok(None);
    }
    let members = some_members(alloc, given.me)?;
    Ok(node_of(given, members))
}

/// The job of a node whose own members are read.
fn node_of<'w>(given: &Given<'w>, members: Option<Vec<u32>>) -> Option<Job<'w>>
    requires few { IfSome members (λ m. length m.items ≤ most_members) }
    ensures { option_map shown_job result ≡ node_of (shown_given given.now) (option_map (λ m. m.items) members) }
{
    let plan = given.second?;
    let turns = a_number(0, MOST_NODE_TURNS, given.turns)?;
    let members = members?;
    let mode = mode_of(given.run)?;
    let patience = a_number_or_zero(MOST_PATIENCE, given.patience)?;
    Some(Job::Node(NodeJob {
        file: given.file,
        plan,
        turns,
        members,
        patience,
        mode,
    }))
}

/// `audit FILE --law L`
fn audit<'w>(given: &Given<'w>) -> Option<Job<'w>>
    ensures { option_map shown_job result ≡ spec.audit_job (shown_given given.now) }
{
    if !given.has_only(&["law"]) {
        return None;
    }
    let law = law_of(given.law)?;
    Some(Job::Audit(Audit {
        file: given.file,
        law,
    }))
}

/// The mode of `--run`; without it, the bypasses.
fn mode_of(given: Option<&str>) -> Option<Mode>
    ensures { option_map shown_mode result ≡ spec.mode_of (text given.entry) }
{
    let Some(name) = given else {
        return Some(Mode::Bypass);
    };
    if name == "layered" {
        Some(Mode::Layered)
    } else if name == "bypass" {
        Some(Mode::Bypass)
    } else {
        None
    }
}

/// The law of `--law`, which has to be given.
pub fn law_of(given: Option<&str>) -> Option<Law>
    ensures { result ≡ spec.law_of (text given.entry) }
{
    let name = given?;
    if name == "sender" {
        Some(Law::Sender)
    } else if name == "total" {
        Some(Law::Total)
    } else if name == "same" {
        Some(Law::Same)
    } else {
        None
    }
}
