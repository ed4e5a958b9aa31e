//! A file as it is read, line by line.

ghost use Rattle.std.specs.Prelude.{◌≡◌, List, map};
ghost use Rattle.stack_judge.specs.Answer.{stack_tree};
ghost use Rattle.pack_mean.specs.File as file;
ghost use Rattle.pack_read.specs.Open.{AreParts, held_in};
ghost use Rattle.layer_mean.specs.Tree.{LayerTree};
ghost use Rattle.trace_core.specs.Trees.{trace_tree};
ghost use Rattle.pack_read.specs.declared.reading.FilePart.TheVariants.{Within};
ghost use Rattle.pack_read.specs.Files.{Closes, Goes, GoesOn, IsBegun, Reads, due_tree, line_from, reading_in};

use crate::due::Due;
use crate::error::ReadError;
use crate::heading::begins;
use crate::open::Open;
use pack_words::LineError;
use stack_judge::Stack;
use std::alloc::{AllocError, Global};
use std::mem::replace;
use trace_core::Trace;

/// Where in a file a line stands: after its first, in a case, or after `end`.
#[derive(Clone, Copy)]
pub(crate) enum FilePart {
    Idle,
    Within,
    Ended,
}

/// What was read of a file, and the cases that are still due.
#[derive(Drop)]
pub(crate) struct Reading<'a> {
    stage: FilePart,
    due: &'a [Due],
    current: Open,
    traces: Vec<Trace>,
}

impl<'a> Reading<'a> {
    /// A file after its first line.
    pub(crate) fn new(alloc: Global, due: &'a [Due]) -> Reading<'a>
        ensures { IsBegun due.now result }
    {
        Reading {
            stage: FilePart::Idle,
            due,
            current: Open::new(alloc, 0),
            traces: Vec::new(alloc),
        }
    }

    /// The next case that is due begins, or the file ends where none is.
    fn go_on(&mut self, alloc: Global)
        ensures { GoesOn self.old self.new }
    {
        match self.due {
            [first, rest @ ..] => {
                self.current = Open::new(alloc, first.fields);
                self.due = rest;
                self.stage = FilePart::Within;
            }
            [] => {
                self.current = Open::new(alloc, 0);
                self.stage = FilePart::Ended;
            }
        }
    }

    /// The trace of the case that is open is put after the others.
    fn close(&mut self, alloc: Global) -> Result<(), AllocError>
        requires { AreParts self.old.current }
        ensures { Closes self.old self.new result }
    {
        let open = replace(&mut self.current, Open::new(alloc, 0));
        self.traces.push(open.finish())?;
        Ok(())
    }

    /// A line after `bypasses 1`, before the first case.
    fn idle_line(&mut self, alloc: Global, line: &[u8]) -> Result<(), LineError>
        ensures { (stack : List LayerTree) → Goes (file.next_case (map due_tree self.old.due.now)
            (map trace_tree self.old.traces.items) line.now) stack self.new result }
    {
        if !begins(self.due, line) {
            return Err(LineError::Form);
        }
        self.go_on(alloc);
        Ok(())
    }

    /// A line in a case.
    fn case_line(&mut self, alloc: Global, stack: &Stack, line: &[u8]) -> Result<(), LineError>
        requires stage { self.old.stage ≡ Within }
        requires parts { AreParts self.old.current }
        ensures { Goes (line_from (stack_tree stack.now) self.old line.now) (stack_tree stack.now) self.new result }
    {
        if !begins(self.due, line) {
            return self.current.add(stack, line);
        }
        self.close(alloc)?;
        self.go_on(alloc);
        Ok(())
    }

    /// One more line.
    pub(crate) fn line(
        &mut self,
        alloc: Global,
        stack: &Stack,
        line: &[u8],
    ) -> Result<(), LineError>
        requires { AreParts self.old.current }
        ensures { Goes (line_from (stack_tree stack.now) self.old line.now) (stack_tree stack.now) self.new result }
    {
        match self.stage {
            FilePart::Idle => self.idle_line(alloc, line),
            FilePart::Within => self.case_line(alloc, stack, line),
            FilePart::Ended => Err(LineError::Form),
        }
    }

    /// The traces of a file that ends before the line of this number.
    pub(crate) fn finish(self, number: u32) -> Result<Vec<Trace>, ReadError>
        ensures { (stack : List LayerTree) → Reads (file.traces_at_end (reading_in stack self.entry).stage number
            (reading_in stack self.entry).traces) result }
    {
        let Reading {
            stage,
            due: _,
            current: _,
            traces,
        } = self;
        match stage {
            FilePart::Ended => Ok(traces),
            _ => Err(ReadError::Line(number)),
        }
    }
}
