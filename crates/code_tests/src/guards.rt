//! Tests.

ghost use Rattle.std.specs.Prelude.{◌≡◌, ◌+◌, ◌≤◌, ◌∷◌, [], length, map, true, vec_capacity, slice_index};
ghost use Rattle.std.specs.Prelude.{if◌then◌else◌, IfSome, IfNone};
ghost use Rattle.std.specs.List.{AllByRecursion};
ghost use Rattle.msg_core.specs.Parts.{longest_body};
ghost use Rattle.msg_core.specs.View.{most_members};
ghost use Rattle.layer_words.specs.declared.operators.Operator.TheVariants.{Equal};
ghost use Rattle.layer_mean.specs.Value.{applied, is_true};
ghost use Rattle.guard_mean.specs.Checks as check;
ghost use Rattle.trace_mean.specs.Worth.{nothing_kept};
ghost use Rattle.guard_mean.specs.Machine as machine;
ghost use Rattle.live_layer.specs.Layer.{IsInOrder, state_in};
ghost use Rattle.code_make.specs.Trees.{test_tree};
ghost use Rattle.code_tests.specs.Registers.{IsEmpty, SamePlaces, ValuesLie, a_prepare, input_of, kept_in};
ghost use Rattle.code_tests.specs.Registers.{prepared_numbers};

use crate::given::Given;
use crate::numbers::{field_number, made_number, operand};
use crate::reads::{element, reading, rows};
use crate::values::Values;
use code_make::Test;
use layer_words::Operator;
use live_layer::FileLayer;
use slot_pool::Pool;
use typed_layer::applied;

/// One of two numbers that were made, as a third says.
#[inline(always)]
fn picked(values: &Values, condition: u32, first: u32, second: u32) -> u32
    ensures { result ≡ (if is_true (slice_index values.now.numbers.items condition)
        then slice_index values.now.numbers.items first
        else slice_index values.now.numbers.items second) }
{
    if made_number(values, condition) != 0 {
        made_number(values, first)
    } else {
        made_number(values, second)
    }
}

/// What an operator makes of two numbers that were made.
#[inline(always)]
fn made_of_both(values: &Values, operator: Operator, left: u32, right: u32) -> u32
    ensures { result ≡ applied operator (slice_index values.now.numbers.items left)
        (slice_index values.now.numbers.items right) }
{
    let left = made_number(values, left);
    let right = made_number(values, right);
    applied(operator, left, right)
}

/// Whether a variable field is a number that was made.
#[inline(always)]
fn is_field(given: &Given<'_>, values: &Values, field: u32, made: u32) -> bool
    ensures { result ≡ is_true (applied Equal (slice_index given.now.fields.now field)
        (slice_index values.now.numbers.items made)) }
{
    let field = field_number(given, field);
    let made = made_number(values, made);
    applied(Operator::Equal, field, made) != 0
}

/// Whether a test is passed, once those before it are. There is a place for its number, if it makes one.
#[inline(always)]
fn passes_one(
    test: &Test,
    given: &Given<'_>,
    values: &mut Values,
    layers: &[FileLayer],
    pool: &Pool,
) -> bool
    requires order { AllByRecursion (IsInOrder pool.now) layers.now }
    requires members { given.now.count ≤ most_members }
    requires body { length given.now.body.now ≤ longest_body }
    requires lie { ValuesLie pool.now values.old }
    requires place { length values.old.numbers.items + a_prepare (test_tree test.now) ≤ vec_capacity
        values.old.numbers }
    ensures passes { machine.tests (input_of given.now) (map (state_in pool.now) layers.now)
        (record { kept = kept_in pool.now values.old; passes = true })
        (test_tree test.now) ≡ record { kept = kept_in pool.now values.new; passes = result } }
    ensures numbers { length values.new.numbers.items ≡
        length values.old.numbers.items + a_prepare (test_tree test.now) }
    ensures capacity { vec_capacity values.new.numbers ≡ vec_capacity values.old.numbers }
    ensures rest { values.new ≡ record values.old { numbers = values.new.numbers } }
{
    match test {
        Test::Prepare(how) => {
            let number = reading(given, values, layers, pool, how);
            values.numbers.push_reserved(number);
            true
        }
        Test::PrepareKnown { place, cell, index } => {
            let number = element(layers, *place, *cell, *index);
            values.numbers.push_reserved(number);
            true
        }
        Test::PreparePeer { place, cell } => {
            let number = element(layers, *place, *cell, given.peer);
            values.numbers.push_reserved(number);
            true
        }
        Test::PrepareOf {
            operator,
            made,
            number,
        } => {
            let made = made_number(values, *made);
            let number = applied(*operator, made, *number);
            values.numbers.push_reserved(number);
            true
        }
        Test::PrepareBoth {
            operator,
            left,
            right,
        } => {
            let number = made_of_both(values, *operator, *left, *right);
            values.numbers.push_reserved(number);
            true
        }
        Test::PrepareRows { place, cell, index } => {
            let number = rows(layers, *place, *cell, *index);
            values.numbers.push_reserved(number);
            true
        }
        Test::PreparePick {
            condition,
            first,
            second,
        } => {
            let number = picked(values, *condition, *first, *second);
            values.numbers.push_reserved(number);
            true
        }
        Test::Require(how) => reading(given, values, layers, pool, how) != 0,
        Test::RequireEqual { left, right } => {
            let left = operand(given, values, *left);
            let right = operand(given, values, *right);
            applied(Operator::Equal, left, right) != 0
        }
        Test::RequireMade { made, number } => {
            let made = made_number(values, *made);
            applied(Operator::Equal, made, *number) != 0
        }
        Test::RequireOf {
            operator,
            made,
            number,
        } => {
            let made = made_number(values, *made);
            applied(*operator, made, *number) != 0
        }
        Test::RequireBoth {
            operator,
            left,
            right,
        } => made_of_both(values, *operator, *left, *right) != 0,
        Test::RequireField { field, made } => is_field(given, values, *field, *made),
        Test::RequireOperand(named) => operand(given, values, *named) != 0,
    }
}

/// The first of some tests, and those after it.
fn first_of(tests: &[Test]) -> Option<(&Test, &[Test])>
    ensures some { IfSome result (λ r. tests.now ≡ r.0.now ∷ r.1.now) }
    ensures none { IfNone result (tests.now ≡ []) }
{
    tests.split_first()
}

/// Whether all tests are passed; none is looked at after the first that isn't. Nothing is kept before, and the numbers
/// that the tests made are kept after. It isn't inlined, so that what it reads stays in registers.
#[inline(never)]
pub fn passes(
    tests: &[Test],
    given: &Given<'_>,
    values: &mut Values,
    layers: &[FileLayer],
    pool: &Pool,
) -> bool
    requires order { AllByRecursion (IsInOrder pool.now) layers.now }
    requires members { given.now.count ≤ most_members }
    requires body { length given.now.body.now ≤ longest_body }
    requires empty { IsEmpty values.old }
    requires places { prepared_numbers (map test_tree tests.now) ≤ vec_capacity values.old.numbers }
    ensures passes { result ≡
        (machine.tested (input_of given.now) (map test_tree tests.now) (map (state_in pool.now) layers.now)).passes }
    ensures kept { result ≡ true → kept_in pool.now values.new ≡
        (machine.tested (input_of given.now) (map test_tree tests.now) (map (state_in pool.now)
        layers.now)).kept }
    ensures numbers { length values.new.numbers.items ≤ prepared_numbers (map test_tree tests.now) }
    ensures rest { values.new ≡ record values.old { numbers = values.new.numbers } }
    ensures same { SamePlaces values.old values.new }
{
    let mut left = tests;
    while let Some((test, more)) = first_of(left) {
        if !passes_one(test, given, values, layers, pool) {
            return false;
        }
        left = more;
    }
    true
}

/// The number of the first test that isn't passed; none after it is looked at. Nothing is kept before, and the numbers
/// that the tests made are kept after.
#[tactic(auto, using(crate::proofs::Failing::none_failing))]
pub fn first_failing(
    tests: &[Test],
    given: &Given<'_>,
    values: &mut Values,
    layers: &[FileLayer],
    pool: &Pool,
) -> Option<usize>
    requires order { AllByRecursion (IsInOrder pool.now) layers.now }
    requires members { given.now.count ≤ most_members }
    requires body { length given.now.body.now ≤ longest_body }
    requires empty { IsEmpty values.old }
    requires places { prepared_numbers (map test_tree tests.now) ≤ vec_capacity values.old.numbers }
    ensures failing { result ≡ check.failing_from (input_of given.now) (map (state_in pool.now) layers.now) 0
        nothing_kept (map test_tree tests.now) }
    ensures numbers { length values.new.numbers.items ≤ prepared_numbers (map test_tree tests.now) }
    ensures rest { values.new ≡ record values.old { numbers = values.new.numbers } }
    ensures same { SamePlaces values.old values.new }
{
    for k in 0..tests.len() {
        if !passes_one(&tests[k], given, values, layers, pool) {
            return Some(k);
        }
    }
    None
}
