//! Scripts that are tried.

ghost use Rattle.std.specs.Prelude.{◌≡◌, []};
ghost use Rattle.family_mean.specs.Family.{Family, MayFollow};
ghost use Rattle.family_search.specs.Coming.{AnswersSent, AnswersTakes};
ghost use Rattle.family_search.specs.Trying.{AnswersKeeps, events_of};

use crate::choice::Choice;
use script_mean::ScriptEvent;
use std::alloc::{AllocError, Global};

/// A group in which the scripts of a family are tried.
pub trait Trial {
    /// The family.
    ghost family: { Self → Family };

    /// The acts of the family.
    fn acts(&self) -> &[ScriptEvent]
        ensures { result.now ≡ (family self.now).acts.events };

    /// How many members there are.
    fn members(&self) -> u8
        ensures { result ≡ (family self.now).acts.members };

    /// How often a packet may be repeated.
    fn repeats(&self) -> u16
        ensures { result ≡ (family self.now).repeats };

    /// How many packets were sent after these events.
    fn sent(&mut self, alloc: Global, past: &[Choice]) -> Result<u32, AllocError>
        requires { MayFollow (family self.old) [] (events_of (family self.old) past.now) }
        ensures { AnswersSent (family self.old) past.now (family self.new) result };

    /// Whether a member takes an event after these.
    fn takes(&mut self, alloc: Global, past: &[Choice], choice: Choice) -> Result<bool, AllocError>
        requires { MayFollow (family self.old) [] (events_of (family self.old) past.now) }
        ensures { AnswersTakes (family self.old) past.now choice (family self.new) result };

    /// Whether the report of these events keeps the law.
    fn keeps(&mut self, alloc: Global, past: &[Choice]) -> Result<bool, AllocError>
        requires { MayFollow (family self.old) [] (events_of (family self.old) past.now) }
        ensures { AnswersKeeps (family self.old) past.now (family self.new) result };
}
