//! The sorts of a few arguments.

ghost use Rattle.std.specs.Prelude.{◌≤◌};

use layer_words::Sort;

/// The sorts of one argument or two.
#[derive(Clone, Copy)]
pub struct Sorts {
    both: [Sort; 2],
    count: usize,
    ghost few: { count ≤ 2 },
}

impl Sorts {
    ghost use Rattle.std.specs.Prelude.{◌≡◌, ◌∷◌, []};
    ghost use Rattle.file_scope.specs.Sorts.{sorts_of};

    /// Of one argument.
    pub fn one(first: Sort) -> Sorts
        ensures { sorts_of result ≡ first ∷ [] }
    {
        Sorts {
            both: [first, first],
            count: 1,
        }
    }

    /// Of two arguments.
    pub fn two(first: Sort, second: Sort) -> Sorts
        ensures { sorts_of result ≡ first ∷ second ∷ [] }
    {
        Sorts {
            both: [first, second],
            count: 2,
        }
    }

    /// All of them.
    pub fn slice(&self) -> &[Sort]
        ensures { result.now ≡ sorts_of self.now }
    {
        &self.both[..self.count]
    }
}
