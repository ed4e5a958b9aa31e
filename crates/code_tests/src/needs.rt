//! How many places code wants for what it makes.

ghost use Rattle.std.specs.Prelude.{◌≡◌, List, length, map, ◌≤◌};
ghost use Rattle.code_make.specs.Trees.{step_tree, test_tree};
ghost use Rattle.code_make.specs.declared.code.Heading.{Heading};
ghost use Rattle.code_tests.specs.Registers.{a_keep, a_make, a_prepare, a_take, needed_room, prepared_numbers};
ghost use Rattle.code_tests.specs.Registers.{steps_needed};

use code_make::{Code, Step, Test};

/// How many numbers, messages and rows a run keeps at most.
#[derive(Clone, Copy)]
pub struct Needs {
    pub numbers: usize,
    pub messages: usize,
    pub rows: usize,
}

impl Needs {
    ghost use Rattle.std.specs.Prelude.{◌≡◌};
    ghost use Rattle.code_make.specs.Trees.{code_tree};
    ghost use Rattle.code_tests.specs.Registers.{most_needed, needed_room, needs_of, none_needed};

    /// Nothing.
    pub fn new() -> Needs
        ensures { needed_room result ≡ none_needed }
    {
        Needs {
            numbers: 0,
            messages: 0,
            rows: 0,
        }
    }

    /// What a run of code wants.
    pub fn of(code: &Code) -> Needs
        ensures { needed_room result ≡ needs_of (code_tree code.now) }
    {
        let prepared = prepared_by(code.tests.as_slice());
        let needs = needs_of_steps(code.steps.as_slice());
        Needs {
            numbers: prepared + needs.numbers,
            messages: needs.messages,
            rows: needs.rows,
        }
    }

    /// What two runs want that aren't made at the same time: the larger of each count.
    pub fn both(self, other: Needs) -> Needs
        ensures { needed_room result ≡ most_needed (needed_room self) (needed_room other) }
    {
        Needs {
            numbers: self.numbers.max(other.numbers),
            messages: self.messages.max(other.messages),
            rows: self.rows.max(other.rows),
        }
    }
}

/// How many numbers a test makes.
fn prepares(test: &Test) -> usize
    ensures prepares { result ≡ a_prepare (test_tree test.now) }
    ensures few { result ≤ 1 }
{
    match test {
        Test::Require(_) | Test::RequireEqual { .. } | Test::RequireOperand(_) => 0,
        Test::RequireMade { .. } | Test::RequireField { .. } => 0,
        Test::RequireOf { .. } | Test::RequireBoth { .. } => 0,
        _ => 1,
    }
}

/// How many numbers tests make.
fn prepared_by(tests: &[Test]) -> usize
    ensures prepared { result ≡ prepared_numbers (map test_tree tests.now) }
    ensures few { result ≤ length tests.now }
{
    let mut numbers = 0;
    for test in tests {
        numbers += prepares(test);
    }
    numbers
}

/// How many numbers a step makes.
fn makes(step: &Step) -> usize
    ensures makes { (hs : List Heading) → result ≡ a_make (step_tree hs step.now) }
    ensures few { result ≤ 1 }
{
    match step {
        Step::Make(_) | Step::MakeSum { .. } => 1,
        Step::MakeKnown { .. } | Step::MakePeer { .. } => 1,
        _ => 0,
    }
}

/// How many messages a step makes.
fn keeps(step: &Step) -> usize
    ensures keeps { (hs : List Heading) → result ≡ a_keep (step_tree hs step.now) }
    ensures few { result ≤ 1 }
{
    match step {
        Step::Keep(_) => 1,
        _ => 0,
    }
}

/// How many rows a step takes.
fn takes(step: &Step) -> usize
    ensures takes { (hs : List Heading) → result ≡ a_take (step_tree hs step.now) }
    ensures few { result ≤ 1 }
{
    match step {
        Step::Take { .. } => 1,
        _ => 0,
    }
}

/// What steps keep.
fn needs_of_steps(steps: &[Step]) -> Needs
    ensures needed { (hs : List Heading) → needed_room result ≡ steps_needed (map (step_tree hs) steps.now) }
    ensures few { result.numbers ≤ length steps.now }
{
    let mut needs = Needs::new();
    for step in steps {
        needs.numbers += makes(step);
        needs.messages += keeps(step);
        needs.rows += takes(step);
    }
    needs
}
