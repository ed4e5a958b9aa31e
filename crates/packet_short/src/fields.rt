//! The fields of packets that plans leave variable, as numbers.

ghost use Rattle.std.specs.Prelude.{◌≡◌, ◌+◌, ◌≤◌, ◌∷◌, ◌++◌, [], vec_len, vec_capacity};
ghost use Rattle.std.specs.List.{AllByRecursion};
ghost use Rattle.packet_mean.specs.Plan.{variable};
ghost use Rattle.stack_shapes.specs.Trees.{plans_tree};
ghost use Rattle.packet_short.specs.Keeping.{HasAtMost};

use stack_shapes::Plans;

/// The most fields that a plan has.
pub fn most_fields(plans: &Plans) -> usize
    ensures { AllByRecursion (HasAtMost result) (plans_tree plans.now) }
{
    let mut most = 0;
    for plan in plans.slice() {
        most = most.max(plan.fields.len());
    }
    most
}

/// Puts a number after others, unless it is planned as a constant.
pub(crate) fn keep_variable(planned: Option<u32>, number: u32, into: &mut Vec<u32>)
    requires { vec_len into.old + 1 ≤ vec_capacity into.old }
    ensures items { into.new.items ≡ into.old.items ++ variable (planned ∷ []) (number ∷ []) }
    ensures len { vec_len into.new ≤ vec_len into.old + 1 }
    ensures capacity { vec_capacity into.new ≡ vec_capacity into.old }
{
    match planned {
        Some(_) => {}
        None => into.push_reserved(number),
    }
}
