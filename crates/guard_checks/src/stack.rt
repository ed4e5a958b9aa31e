//! The checks of a stack's traces.

ghost use Rattle.std.specs.Prelude.{◌≡◌, ◌≤◌, IfOk, length, map, option_map};
ghost use Rattle.std.specs.List.{AllByRecursion};
ghost use Rattle.msg_core.specs.Parts.{longest_body};
ghost use Rattle.msg_core.specs.View.{most_members};
ghost use Rattle.live_layer.specs.Layer.{IsInOrder, state_in};
ghost use Rattle.trace_core.specs.Bypasses.{bypasses_tree};
ghost use Rattle.code_tests.specs.Registers.{input_of};
ghost use Rattle.step_misses.specs.Misses.{entry_meant, miss_meant};
ghost use Rattle.miss_laws.specs.Asked.{all_asked, miss_asked};

use crate::cases::{CaseChecks, all_checks, case_checks, of_plan};
use crate::lacks::{States, entry_miss, plan_miss};
use crate::needs::{all_numbers, case_numbers, larger};
use code_tests::{Given, Needs, Values};
use live_layer::FileLayer;
use slot_pool::Pool;
use stack_shapes::EntryOf;
use std::alloc::{AllocError, Global};
use std::marker::Model;
use step_misses::Miss;
use trace_core::Bypasses;

/// The checks of a stack's traces, and places for the numbers that their tests make, of which nothing is kept between
/// two calls.
pub struct StackChecks {
    cast: CaseChecks,
    send: CaseChecks,
    plans: Vec<CaseChecks>,
    values: Values,
}

impl Model for StackChecks {
    ghost use Rattle.miss_laws.specs.Asked.{AllAsked};

    ghost Value = { AllAsked };

    ghost use Rattle.std.specs.Prelude.{vec_capacity};
    ghost use Rattle.code_tests.specs.Registers.{IsEmpty};
    ghost use Rattle.guard_checks.specs.Places.{AreWithin};
    ghost use Rattle.guard_checks.specs.Trees.{stack_tree};

    ghost view = { λ c. stack_tree c.cast c.send c.plans.items };

    ghost invariant = { λ c. IsEmpty c.values × AreWithin (vec_capacity c.values.numbers) c.cast c.send c.plans.items };
}

impl StackChecks {
    /// The checks of bypasses. Err comes where memory runs out, and where a trace has 2^32 checks or more or its tests
    /// make more than 2^32 numbers.
    pub fn of(alloc: Global, bypasses: &Bypasses) -> Result<StackChecks, AllocError>
        ensures { IfOk result (λ c. c ≡ all_asked (bypasses_tree bypasses.now)) }
    {
        let cast = case_checks(alloc, &bypasses.cast)?;
        let send = case_checks(alloc, &bypasses.send)?;
        let plans = all_checks(alloc, bypasses.plans.as_slice())?;
        let apps = larger(case_numbers(&cast), case_numbers(&send));
        let numbers = larger(apps, all_numbers(plans.as_slice()));
        let values = Values::with_room(
            alloc,
            Needs {
                numbers,
                messages: 0,
                rows: 0,
            },
        )?;
        Ok(StackChecks {
            cast,
            send,
            plans,
            values,
        })
    }

    /// What a step that begins with this entry lacks: in each of its cases, the first check that isn't passed on the
    /// layers as they are.
    pub fn miss(
        &mut self,
        entry: EntryOf,
        given: &Given<'_>,
        layers: &[FileLayer],
        pool: &Pool,
    ) -> Miss
        requires order { AllByRecursion (IsInOrder pool.now) layers.now }
        requires members { given.now.count ≤ most_members }
        requires body { length given.now.body.now ≤ longest_body }
        ensures miss { miss_meant result ≡
            miss_asked self.old (entry_meant entry) (input_of given.now) (map (state_in pool.now) layers.now) }
        ensures same { self.new ≡ self.old }
    {
        let states = States { layers, pool };
        match entry {
            EntryOf::Cast => entry_miss(entry, &self.cast, given, &mut self.values, &states),
            EntryOf::Send => entry_miss(entry, &self.send, given, &mut self.values, &states),
            EntryOf::Plan(number) => match of_plan(self.plans.as_slice(), number) {
                Some(checks) => entry_miss(entry, checks, given, &mut self.values, &states),
                None => plan_miss(entry),
            },
            EntryOf::None => plan_miss(entry),
        }
    }

    /// Ends them.
    pub fn close(self) {
        let StackChecks {
            cast: _,
            send: _,
            plans: _,
            values,
        } = self;
        values.close();
    }
}
