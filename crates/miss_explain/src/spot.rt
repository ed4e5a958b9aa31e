//! Where decisions stand.

ghost use Rattle.std.specs.Prelude.{◌≡◌, option_map, slice_get};
ghost use Rattle.stack_judge.specs.Answer.{stack_tree};
ghost use Rattle.layer_ast.specs.View.{file_tree};
ghost use Rattle.miss_mean.specs.Spots as mean;
ghost use Rattle.shape_core.specs.Sketch.{shape_tree, visit_tree};
ghost use Rattle.miss_explain.specs.Search.{Passes};
ghost use Rattle.miss_explain.specs.Spot.{spot_tree};

use crate::handlers::pass_handler;
use crate::meeting::{handler_at, handler_number};
use crate::search::Search;
use layer_ast::File;
use layer_mean::Case;
use shape_core::{Shape, ShapeVisit};
use stack_judge::Stack;

/// A decision on the way of a shape: the visit in which it is made, counted from 1, the visit's place, and its line in
/// the text of the place's layer.
#[derive(Clone, Copy, Debug, PartialEq, Eq)]
pub(crate) struct Spot {
    pub visit: u64,
    pub place: u8,
    pub line: u32,
}

/// Passes the decisions of a visit.
#[tactic(auto, using(crate::proofs::Passing::passes_none))]
fn pass_visit(search: &mut Search, case: Case, file: &File, stack: &Stack, visit: ShapeVisit)
    ensures { Passes search.old (mean.visit_lines case (file_tree file.now) (stack_tree stack.now) (visit_tree visit))
        search.new }
{
    match handler_number(stack, visit) {
        Some(number) => match handler_at(file, visit.place, number) {
            Some(handler) => pass_handler(search, case, handler),
            None => {}
        },
        None => {}
    }
}

/// Where the decision of a number stands among those of a shape, counted from 0, if there is one.
pub(crate) fn find_spot(
    case: Case,
    file: &File,
    stack: &Stack,
    shape: &Shape,
    number: u32,
) -> Option<Spot>
    ensures { option_map spot_tree result ≡
        slice_get (mean.shape_spots case (file_tree file.now) (stack_tree stack.now) (shape_tree shape.now)) number }
{
    let mut search = Search::Ahead(number);
    for index in 0..shape.visits.len() {
        let visit = shape.visits[index];
        pass_visit(&mut search, case, file, stack, visit);
        if let Search::Found(line) = search {
            return Some(Spot {
                visit: index as u64 + 1,
                place: visit.place,
                line,
            });
        }
    }
    None
}
