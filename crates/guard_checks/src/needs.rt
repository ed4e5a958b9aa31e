//! How many numbers tests make.

ghost use Rattle.std.specs.Prelude.{◌≤◌, map, option_map};
ghost use Rattle.std.specs.List.{AllByRecursion};
ghost use Rattle.guard_checks.specs.Places.{EntryWithin, IfWithin, IsWithin};
ghost use Rattle.guard_checks.specs.Trees.{asked_tree, entry_asked};

use crate::asked::Asked;
use crate::cases::CaseChecks;

/// The larger of two numbers.
pub(crate) fn larger(first: usize, second: usize) -> usize
    ensures first { first ≤ result }
    ensures second { second ≤ result }
{
    if first <= second { second } else { first }
}

/// How many numbers a case's tests make at most.
#[tactic(auto, using(crate::proofs::Within::tests_within))]
fn numbers(asked: &Asked) -> usize
    ensures { IsWithin result (asked_tree asked.now) }
{
    match asked {
        Asked::Passes(checks) => checks.tests().len(),
        Asked::Nothing(_) => 0,
    }
}

/// That of a second case, where there is one.
fn second_numbers(asked: &Option<Asked>) -> usize
    ensures { IfWithin result (option_map asked_tree asked.now) }
{
    match asked {
        Some(asked) => numbers(asked),
        None => 0,
    }
}

/// The larger number of an entry's two cases.
#[tactic(auto, using(crate::proofs::Within::both_cases))]
pub(crate) fn case_numbers(checks: &CaseChecks) -> usize
    ensures { EntryWithin result (entry_asked checks.now) }
{
    larger(numbers(&checks.first), second_numbers(&checks.second))
}

/// The largest of entries.
pub(crate) fn all_numbers(all: &[CaseChecks]) -> usize
    ensures { AllByRecursion (EntryWithin result) (map entry_asked all.now) }
{
    let mut most = 0;
    for checks in all {
        most = larger(most, case_numbers(checks));
    }
    most
}
