//! Scripts that are made from a number, event by event.
ghost use Rattle.std.specs.Prelude.{◌≡◌, ◌<◌, ◌≤◌, IfOk};
ghost use Rattle.script_text.specs.Course.{IsNext};
ghost use Rattle.msg_core.specs.View.{most_members};

use crate::maker::Maker;
use crate::seed::Seed;
use script_mean::ScriptEvent;
use std::alloc::{AllocError, Global};
use std::marker::Model;

/// What a script is made from: a seed, how many events and members it has, and whether datagrams are among the events.
#[derive(Clone, Copy)]
pub struct Workload {
    pub seed: u32,
    pub events: u32,
    pub members: u8,
    pub raw: bool,
}

/// A script that is made while it is played, so that no more than one event of it is in memory. Contracts see what it
/// is made from, and how many events are made.
#[derive(Drop)]
pub struct Generation {
    /// The seed that it began with, and how many events it has.
    seed: u32,
    events: u32,
    maker: Maker,
    made: u32,
}

impl Model for Generation {
    ghost use Rattle.std.specs.Prelude.{◌≤◌};
    ghost use Rattle.script_text.specs.Course.{Course, IsAt};

    ghost Value = { Course };

    ghost view = { λ g. record {
      workload = record { seed = g.seed; events = g.events; members = g.maker.members; raw = g.maker.raw };
      made = g.made;
    } };

    ghost invariant = { λ g. IsAt g.seed g.made g.maker × (g.events ≤ 2147483647) };
}

impl Generation {
    /// The script of a workload of 1 to 32 members and at most 2,147,483,647 events, of which none is made yet.
    pub fn new(alloc: Global, workload: Workload) -> Result<Generation, AllocError>
        requires members { (1 ≤ workload.members) × (workload.members ≤ most_members) }
        requires few { workload.events ≤ 2147483647 }
        ensures { IfOk result (λ script. script ≡ record { workload = workload; made = 0 }) }
    {
        Ok(Generation {
            seed: workload.seed,
            events: workload.events,
            maker: Maker {
                raw: workload.raw,
                members: workload.members,
                seed: Seed {
                    value: workload.seed,
                },
                cursors: vec![in alloc; 0; usize::from(workload.members)]?,
                spare: Vec::new(alloc),
            },
            made: 0,
        })
    }

    /// Makes the next event. It fails only where memory runs out; after that no more are made.
    pub fn next(&mut self, alloc: Global) -> Result<ScriptEvent, AllocError>
        requires more { self.old.made < self.old.workload.events }
        ensures { IfOk result (IsNext self.old self.new) }
    {
        let seed = self.maker.seed;
        match self.maker.event(alloc, self.made) {
            Ok(event) => {
                self.made += 1;
                Ok(event)
            }
            Err(error) => {
                self.maker.seed = seed;
                Err(error)
            }
        }
    }

    /// Takes an event back that was played: the next body is made in its memory.
    pub fn take_back(&mut self, event: ScriptEvent)
        ensures { self.new ≡ self.old }
    {
        match event {
            ScriptEvent::Cast(_, body) => self.maker.spare = body.into_vec(),
            ScriptEvent::Send(_, _, body) => self.maker.spare = body.into_vec(),
            ScriptEvent::Raw(_, bytes) => self.maker.spare = bytes.into_vec(),
            _ => {}
        }
    }
}
