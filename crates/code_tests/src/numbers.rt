//! Numbers that are there.

ghost use Rattle.std.specs.Prelude.{◌≡◌, List, length, map, slice_index, slice_index_or, None};
ghost use Rattle.slot_pool.specs.Held.{Held};
ghost use Rattle.layer_words.specs.declared.operators.Operator.TheVariants.{Add};
ghost use Rattle.layer_mean.specs.Value.{applied, number_in};
ghost use Rattle.guard_mean.specs.Machine.{operand_at};
ghost use Rattle.code_make.specs.Kept.{zero_operand};
ghost use Rattle.code_make.specs.Trees.{operand_tree};
ghost use Rattle.code_tests.specs.Registers.{input_of, kept_in, row_kept};

use crate::given::Given;
use crate::values::Values;
use code_make::{Operand, Operands};
use layer_words::Operator;
use msg_core::Fields;
use pool_message::PoolRow;
use typed_layer::applied;

/// The number at place `k`; 0 where there is none.
#[inline]
fn number_at(numbers: &[u32], k: u32) -> u32
    ensures { result ≡ slice_index numbers.now k }
{
    match numbers.get(k as usize) {
        Some(number) => *number,
        None => 0,
    }
}

/// A variable field of the input; 0 where there is none.
#[inline]
pub(crate) fn field_number(given: &Given<'_>, k: u32) -> u32
    ensures { result ≡ slice_index given.now.fields.now k }
{
    number_at(given.fields, k)
}

/// The number that was made after `k` others; 0 where there is none.
#[inline]
pub fn made_number(values: &Values, k: u32) -> u32
    ensures { result ≡ slice_index values.now.numbers.items k }
{
    number_at(values.numbers.as_slice(), k)
}

/// The sum of a number that was made after `k` others and one that is known.
#[inline]
pub fn made_sum(values: &Values, k: u32, number: u32) -> u32
    ensures { result ≡ applied Add (slice_index values.now.numbers.items k) number }
{
    applied(Operator::Add, made_number(values, k), number)
}

/// A number of the row at place `k`; 0 where there is none.
#[inline]
fn taken_number(rows: &[PoolRow], k: u32, number: u8) -> u32
    ensures { (p : List Held) → result ≡ number_in number (slice_index_or (map (row_kept p) rows.now) k None) }
{
    match rows.get(k as usize) {
        Some(row) => row.numbers.at(u32::from(number)),
        None => 0,
    }
}

/// The number that an operand names; 0 where there is none.
#[inline]
pub fn operand(given: &Given<'_>, values: &Values, operand: Operand) -> u32
    ensures { (p : List Held) → result ≡ operand_at (input_of given.now) (kept_in p values.now) (operand_tree operand) }
{
    match operand {
        Operand::Number(number) => number,
        Operand::Me => given.me,
        Operand::Count => given.count,
        Operand::Ltime => given.ltime,
        Operand::Peer => given.peer,
        Operand::Field(k) => number_at(given.fields, k),
        Operand::Made(k) => number_at(values.numbers.as_slice(), k),
        Operand::Taken { row, number } => taken_number(values.rows.as_slice(), row, number),
    }
}

/// The number that operand `k` of a list names; 0 where there is none.
#[inline]
#[tactic(auto, using(crate::proofs::Found::operand_missing))]
fn operand_in(given: &Given<'_>, values: &Values, operands: &Operands, k: u32) -> u32
    ensures { (p : List Held) →
        result ≡ operand_at (input_of given.now) (kept_in p values.now)
        (operand_tree (slice_index_or operands.now k zero_operand)) }
{
    match operands.get(k) {
        Some(named) => operand(given, values, named),
        None => 0,
    }
}

/// The number that one operand names.
#[inline(always)]
fn one_operand(given: &Given<'_>, values: &Values, operands: &Operands) -> Fields
    requires { length operands.now ≡ 1 }
    ensures { (p : List Held) →
        result ≡ map (operand_at (input_of given.now) (kept_in p values.now)) (map operand_tree operands.now) }
{
    let first = operand_in(given, values, operands, 0);
    let mut numbers = Fields::new();
    numbers.push(first);
    numbers
}

/// The numbers that two operands name.
#[inline(always)]
fn two_operands(given: &Given<'_>, values: &Values, operands: &Operands) -> Fields
    requires { length operands.now ≡ 2 }
    ensures { (p : List Held) →
        result ≡ map (operand_at (input_of given.now) (kept_in p values.now)) (map operand_tree operands.now) }
{
    let first = operand_in(given, values, operands, 0);
    let second = operand_in(given, values, operands, 1);
    let mut numbers = Fields::new();
    numbers.push(first);
    numbers.push(second);
    numbers
}

/// The numbers that operands name.
#[inline(always)]
fn all_operands(given: &Given<'_>, values: &Values, operands: &Operands) -> Fields
    ensures { (p : List Held) →
        result ≡ map (operand_at (input_of given.now) (kept_in p values.now)) (map operand_tree operands.now) }
{
    let mut numbers = Fields::new();
    for k in 0..operands.len() {
        numbers.push(operand_in(given, values, operands, k));
    }
    numbers
}

/// The numbers that operands name. Most lists have one or two, which need no loop.
#[inline(always)]
pub fn operands(given: &Given<'_>, values: &Values, operands: &Operands) -> Fields
    ensures { (p : List Held) →
        result ≡ map (operand_at (input_of given.now) (kept_in p values.now)) (map operand_tree operands.now) }
{
    let count = operands.len();
    if count == 1 {
        return one_operand(given, values, operands);
    }
    if count == 2 {
        return two_operands(given, values, operands);
    }
    all_operands(given, values, operands)
}
