//! How many things a list has.

ghost use Rattle.std.specs.Prelude.{◌≡◌, ◌==◌, length, option_map};
ghost use Rattle.layer_ast.specs.View.{arguments_tree, names_tree};
ghost use Rattle.fault_mean.specs.Declared.{names_in};
ghost use Rattle.fault_mean.specs.Uses.{arguments_in};
ghost use Rattle.file_types.specs.Counts.{count_of};

use layer_ast::{Arguments, Names};

/// How many things a list has.
#[derive(Clone, Copy)]
pub enum Count {
    Nothing,
    /// One, and this many after it.
    After(usize),
}

/// Whether two lists have as many things.
pub fn is_same_count(a: Count, b: Count) -> bool
    ensures { result ≡ (count_of a == count_of b) }
{
    match a {
        Count::Nothing => match b {
            Count::Nothing => true,
            Count::After(_) => false,
        },
        Count::After(j) => match b {
            Count::Nothing => false,
            Count::After(k) => j == k,
        },
    }
}

/// How many names there are.
pub fn count_names(names: &Option<Names>) -> Count
    ensures { count_of result ≡ length (names_in (option_map names_tree names.now)) }
{
    match names {
        None => Count::Nothing,
        Some(names) => Count::After(names.rest.len()),
    }
}

/// How many arguments there are.
#[tactic(auto, using(crate::proofs::Counts::trees_count))]
pub fn count_arguments(arguments: &Option<Arguments>) -> Count
    ensures { count_of result ≡ length (arguments_in (option_map arguments_tree arguments.now)) }
{
    match arguments {
        None => Count::Nothing,
        Some(arguments) => Count::After(arguments.rest.len()),
    }
}
