//! What an entry lacks.

ghost use Rattle.std.specs.Prelude.{◌≡◌, ◌≤◌, length, map, option_map, vec_capacity};
ghost use Rattle.std.specs.List.{AllByRecursion};
ghost use Rattle.std.specs.Option.{option_map_or};
ghost use Rattle.guard_mean.specs.Checks.{check_at};
ghost use Rattle.msg_core.specs.Parts.{longest_body};
ghost use Rattle.msg_core.specs.View.{most_members};
ghost use Rattle.lack_mean.specs.Lacks as lack;
ghost use Rattle.live_layer.specs.Layer.{IsInOrder, state_in};
ghost use Rattle.code_tests.specs.Registers.{IsEmpty, input_of};
ghost use Rattle.step_misses.specs.Misses.{entry_meant, lack_meant, miss_meant};
ghost use Rattle.miss_laws.specs.Asked.{lack_at};
ghost use Rattle.guard_checks.specs.Places.{EntryWithin, IfWithin, IsWithin};
ghost use Rattle.guard_checks.specs.Told.{entry_lacks, lacks_plan};
ghost use Rattle.guard_checks.specs.Trees.{asked_tree, entry_asked};

use crate::asked::Asked;
use crate::cases::CaseChecks;
use code_make::Checks;
use code_tests::{Given, Values, first_failing};
use live_layer::FileLayer;
use slot_pool::Pool;
use stack_shapes::EntryOf;
use step_misses::{Lack, Miss};

/// The states of a member's layers: the layers, and the pool in which their messages lie.
#[derive(Clone, Copy)]
pub(crate) struct States<'a> {
    pub layers: &'a [FileLayer],
    pub pool: &'a Pool,
}

/// The check of a test that isn't passed.
fn missed(checks: &Checks, test: Option<usize>) -> Lack
    ensures { lack_meant result ≡ lack.missed (option_map_or (λ k. k) (option_map (check_at checks.now) test) 0) }
{
    match test {
        Some(test) => Lack::Check(checks.check_at(test)),
        None => Lack::Check(0),
    }
}

/// What a case lacks. Nothing is kept before or after.
fn lack(asked: &Asked, given: &Given<'_>, values: &mut Values, states: &States<'_>) -> Lack
    requires order { AllByRecursion (IsInOrder states.now.pool.now) states.now.layers.now }
    requires members { given.now.count ≤ most_members }
    requires body { length given.now.body.now ≤ longest_body }
    requires empty { IsEmpty values.old }
    requires places { IsWithin (vec_capacity values.old.numbers) (asked_tree asked.now) }
    ensures lacks { lack_meant result ≡ lack_at (input_of given.now)
        (map (state_in states.now.pool.now) states.now.layers.now) (asked_tree asked.now) }
    ensures empty { IsEmpty values.new }
    ensures places { vec_capacity values.new.numbers ≡ vec_capacity values.old.numbers }
{
    match asked {
        Asked::Passes(checks) => {
            let test = first_failing(checks.tests(), given, values, states.layers, states.pool);
            values.numbers.clear();
            missed(checks, test)
        }
        Asked::Nothing(reason) => Lack::Absent(*reason),
    }
}

/// What a second case lacks, where there is one.
fn second_lack(
    asked: &Option<Asked>,
    given: &Given<'_>,
    values: &mut Values,
    states: &States<'_>,
) -> Option<Lack>
    requires order { AllByRecursion (IsInOrder states.now.pool.now) states.now.layers.now }
    requires members { given.now.count ≤ most_members }
    requires body { length given.now.body.now ≤ longest_body }
    requires empty { IsEmpty values.old }
    requires places { IfWithin (vec_capacity values.old.numbers) (option_map asked_tree asked.now) }
    ensures lacks { option_map lack_meant result ≡
        option_map (lack_at (input_of given.now) (map (state_in states.now.pool.now) states.now.layers.now))
        (option_map asked_tree asked.now) }
    ensures empty { IsEmpty values.new }
    ensures places { vec_capacity values.new.numbers ≡ vec_capacity values.old.numbers }
{
    match asked {
        Some(asked) => Some(lack(asked, given, values, states)),
        None => None,
    }
}

/// What an entry lacks.
pub(crate) fn entry_miss(
    entry: EntryOf,
    checks: &CaseChecks,
    given: &Given<'_>,
    values: &mut Values,
    states: &States<'_>,
) -> Miss
    requires order { AllByRecursion (IsInOrder states.now.pool.now) states.now.layers.now }
    requires members { given.now.count ≤ most_members }
    requires body { length given.now.body.now ≤ longest_body }
    requires empty { IsEmpty values.old }
    requires places { EntryWithin (vec_capacity values.old.numbers) (entry_asked checks.now) }
    ensures miss { miss_meant result ≡ entry_lacks (entry_meant entry) (input_of given.now)
        (map (state_in states.now.pool.now) states.now.layers.now) (entry_asked checks.now) }
    ensures empty { IsEmpty values.new }
    ensures places { vec_capacity values.new.numbers ≡ vec_capacity values.old.numbers }
{
    let first = lack(&checks.first, given, values, states);
    let second = second_lack(&checks.second, given, values, states);
    Miss {
        entry,
        first,
        second,
    }
}

/// What is lacking without an entry.
pub(crate) fn plan_miss(entry: EntryOf) -> Miss
    ensures { miss_meant result ≡ lacks_plan (entry_meant entry) }
{
    Miss {
        entry,
        first: Lack::NoPlan,
        second: None,
    }
}
