//! Rows as they are shown.

use msg_core::{Fields, Headers};

/// A message that a row ends with.
#[derive(Drop)]
pub struct MessageView<'b> {
    pub headers: &'b Headers,
    pub body: &'b [u8],
}

/// A row of a queue: its numbers, and the message that it may end with.
#[derive(Drop)]
pub struct RowView<'b> {
    pub numbers: &'b Fields,
    pub message: Option<MessageView<'b>>,
}
