//! What a group is opened with.

use code_table::Codes;
use stack_judge::Stack;
use stack_shapes::{EntryShapes, PlanStarts, Plans};
use std::rc::Rc;

/// A group to be opened: the stack that its members run, with its plans, the shapes of its entries and the numbers of
/// their first plans, the code of its bypasses, if its members are to run by these, the group's number, and its stamp.
#[derive(Clone, Copy)]
pub struct Opening<'a> {
    pub stack: &'a Rc<Stack>,
    pub plans: &'a Rc<Plans>,
    pub entries: &'a Rc<EntryShapes>,
    pub starts: PlanStarts,
    pub codes: Option<&'a Rc<Codes>>,
    pub group: u32,
    pub stamp: u32,
}
