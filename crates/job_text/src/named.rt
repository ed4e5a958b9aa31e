//! The jobs of the program.

ghost use Rattle.std.specs.Prelude.{◌≤◌, length};
ghost use Rattle.msg_core.specs.View.{most_members};
ghost use Rattle.job_mean.specs.Job.{most_generated};

use audit_mean::Law;
use group_mean::Mode;

/// What the program is to do. Files are named as in the words.
#[derive(Drop)]
pub enum Job<'w> {
    /// Judges this stack file.
    Check(&'w str),
    /// Prints the bypasses of this stack file.
    Synth(&'w str),
    /// Writes the traces of these as a file.
    Pack(&'w str),
    Replay(Replay<'w>),
    ReplayWith(ReplayWith<'w>),
    Explain(Explain<'w>),
    Load(Load<'w>),
    Node(NodeJob<'w>),
    Audit(Audit<'w>),
}

/// Replays a script over a stack file.
#[derive(Clone, Copy)]
pub struct Replay<'w> {
    pub file: &'w str,
    pub script: &'w str,
    pub mode: Mode,
    /// Whether each event is written before what came of it.
    pub events: bool,
    /// Whether each packet's bytes are written.
    pub wire: bool,
    /// Whether the number of visits is written.
    pub count: bool,
}

/// Replays a script over a stack file by the bypasses whose traces a file holds.
#[derive(Clone, Copy)]
pub struct ReplayWith<'w> {
    pub file: &'w str,
    pub script: &'w str,
    pub traces: &'w str,
    /// Whether each event is written before what came of it.
    pub events: bool,
    /// Whether each packet's bytes are written.
    pub wire: bool,
    /// Whether the number of visits is written.
    pub count: bool,
}

/// Tells why the steps of a script over a stack file weren't common.
#[derive(Clone, Copy)]
pub struct Explain<'w> {
    pub file: &'w str,
    pub script: &'w str,
}

/// Replays a script that is made from a seed, and counts the lines of its report.
#[derive(Clone, Copy)]
pub struct Load<'w> {
    pub file: &'w str,
    pub seed: u32,
    /// How many events the script has, at most 99,999.
    pub events: u32,
    /// How many members the group has, 1 to 32.
    pub members: u32,
    /// Whether the script has datagrams.
    pub raw: bool,
    pub mode: Mode,
    ghost few: { events ≤ most_generated },
    ghost within: { (1 ≤ members) × (members ≤ most_members) },
}

/// Runs members of a group over a network.
#[derive(Drop)]
pub struct NodeJob<'w> {
    pub file: &'w str,
    pub plan: &'w str,
    /// How many turns are made, at most 1,000,000.
    pub turns: u32,
    /// The ids of the own members, 0 to 31, ascending, and so at most 32.
    pub members: Vec<u32>,
    /// How many failed receives are borne, at most 1,000.
    pub patience: u32,
    pub mode: Mode,
    ghost few: { length members.items ≤ most_members },
}

/// Judges a law of the group on a report.
#[derive(Clone, Copy)]
pub struct Audit<'w> {
    pub file: &'w str,
    pub law: Law,
}
