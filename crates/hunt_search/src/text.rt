//! Scripts as they are written.

use crate::error::SearchError;
use msg_core::Memory;
use report_lines::{Line, journal_line};
use script_mean::ScriptEvent;
use std::alloc::Global;

/// A script that is written line by line.
#[derive(Drop)]
pub(crate) struct Text {
    bytes: Vec<u8>,
    line: Line,
}

impl Text {
    /// The script of a group of this many members in which nothing happens, after a comment that tells the run from
    /// which it comes.
    pub(crate) fn of(
        alloc: Global,
        run: u64,
        events: u32,
        members: u8,
    ) -> Result<Text, SearchError> {
        let mut line = Line::new(alloc);
        begin(&mut line, run, events, members)?;
        let mut bytes = Vec::new(alloc);
        bytes.extend_from_slice(line.slice())?;
        Ok(Text { bytes, line })
    }

    /// Puts the line of an event, which stands in a journal after a sign and a space.
    pub(crate) fn put(&mut self, event: &ScriptEvent) -> Result<(), SearchError> {
        self.line.clear();
        journal_line(&mut self.line, event)?;
        if let Some(line) = self.line.slice().strip_prefix(b"> ".as_slice()) {
            self.bytes.extend_from_slice(line)?;
        }
        Ok(())
    }

    /// The bytes of the text, which itself is ended.
    pub(crate) fn into_bytes(self) -> Vec<u8> {
        let Text { bytes, line: _ } = self;
        bytes
    }
}

/// Puts the comment that tells the run, and the line of the group.
fn begin(line: &mut Line, run: u64, events: u32, members: u8) -> Result<(), Memory> {
    line.text(b"# run ")?;
    line.number(run)?;
    line.text(b" of ")?;
    line.number(u64::from(events))?;
    line.text(b" events\ngroup 1 stamp 1 members ")?;
    line.number(u64::from(members))?;
    line.text(b"\n")
}
