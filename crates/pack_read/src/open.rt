//! A case as it is read.

ghost use Rattle.std.specs.Prelude.{◌≡◌, ◌+◌, IfOk};
ghost use Rattle.stack_judge.specs.Answer.{stack_tree};
ghost use Rattle.trace_core.specs.Trees.{trace_tree};
ghost use Rattle.pack_read.specs.Open.{Adds, AreParts, IsEmpty, LeavesAfter, Names, Puts, SaysIn, held_in};

use crate::line::operation;
use crate::store::Store;
use pack_words::{LineError, Scope, Spot};
use stack_judge::Stack;
use std::alloc::{AllocError, Global};
use trace_core::{Arena, Links, Operation, Trace};

/// How many operations a case may have beside its notes.
pub(crate) const MOST_OPERATIONS: u32 = 4_096;

/// A case whose lines are read: its operations so far, what its next line may name, and how many operations it may
/// still have.
#[derive(Drop)]
pub(crate) struct Open {
    store: Store,
    operations: Vec<Operation>,
    fields: u32,
    binds: u32,
    notes: u32,
    /// The queue of each row that was taken.
    rows: Vec<Spot>,
    left: u32,
}

/// How many operations a case may have after this one, if it may have this one. Notes don't count.
fn left_after(left: u32, operation: &Operation) -> Result<u32, LineError>
    ensures { LeavesAfter left operation.now result }
{
    match operation {
        Operation::Note(_) => Ok(left),
        _ => {
            if left == 0 {
                return Err(LineError::Form);
            }
            Ok(left - 1)
        }
    }
}

/// One more, where there is a number for it.
fn one_more(count: u32) -> Result<u32, AllocError>
    ensures { IfOk result (λ more. more ≡ count + 1) }
{
    if count == u32::MAX {
        return Err(AllocError);
    }
    Ok(count + 1)
}

impl Open {
    /// A case before its first line.
    pub(crate) fn new(alloc: Global, fields: u32) -> Open
        ensures { IsEmpty fields result }
    {
        Open {
            store: Store {
                nodes: Arena::new(alloc),
                links: Links::new(alloc),
            },
            operations: Vec::new(alloc),
            fields,
            binds: 0,
            notes: 0,
            rows: Vec::new(alloc),
            left: MOST_OPERATIONS,
        }
    }

    /// What lines may name after an operation.
    fn name(&mut self, operation: &Operation) -> Result<(), AllocError>
        ensures { Names self.old self.new operation.now result }
    {
        match operation {
            Operation::Bind(_) => {
                self.binds = one_more(self.binds)?;
                Ok(())
            }
            Operation::Note(_) => {
                self.notes = one_more(self.notes)?;
                Ok(())
            }
            Operation::Take {
                place,
                cell,
                index: _,
            } => {
                self.rows.push(Spot {
                    place: *place,
                    cell: *cell,
                })?;
                Ok(())
            }
            _ => Ok(()),
        }
    }

    /// One more operation.
    fn put(&mut self, operation: Operation) -> Result<(), AllocError>
        ensures { Puts self.old self.new operation result }
    {
        self.name(&operation)?;
        self.operations.push(operation)?;
        Ok(())
    }

    /// The operation of a line.
    fn said(&mut self, stack: &Stack, line: &[u8]) -> Result<Operation, LineError>
        ensures { SaysIn (stack_tree stack.now) line.now self.old self.new result }
    {
        let scope = Scope {
            stack,
            fields: self.fields,
            binds: self.binds,
            notes: self.notes,
            rows: self.rows.as_slice(),
        };
        operation(line, &scope, &mut self.store)
    }

    /// One more operation, which a line spells.
    pub(crate) fn add(&mut self, stack: &Stack, line: &[u8]) -> Result<(), LineError>
        requires { AreParts self.old }
        ensures { Adds (stack_tree stack.now) line.now self.old self.new result }
    {
        let operation = self.said(stack, line)?;
        self.left = left_after(self.left, &operation)?;
        self.put(operation)?;
        Ok(())
    }

    /// The trace that was read.
    #[tactic(auto, using(trace_core::proofs::Parts::parts_hold))]
    pub(crate) fn finish(self) -> Trace
        requires { AreParts self }
        ensures { trace_tree result ≡ held_in self }
    {
        let Open {
            store,
            operations,
            fields: _,
            binds: _,
            notes: _,
            rows: _,
            left: _,
        } = self;
        let Store { nodes, links } = store;
        Trace {
            nodes,
            links,
            operations,
        }
    }
}
