//! Rows as they are shown.

ghost use Rattle.std.specs.Prelude.{◌≡◌, option_map};
ghost use Rattle.pool_message.specs.Seen.{row_seen, content_seen, Lies, RowLies};
ghost use Rattle.member_reads.specs.Rows.{message_meant, row_meant};

use msg_core::{Fields, Headers};
use pool_message::{PoolMessage, PoolRow};
use slot_pool::Pool;

/// A message that a row ends with.
#[derive(Drop)]
pub struct MessageView<'b> {
    pub headers: &'b Headers,
    pub body: &'b [u8],
}

/// A row of a queue: its numbers, and the message that it may end with.
#[derive(Drop)]
pub struct RowView<'b> {
    pub numbers: &'b Fields,
    pub message: Option<MessageView<'b>>,
}

/// What a message in a pool shows.
fn message_of<'b>(message: &'b PoolMessage, pool: &'b Pool) -> MessageView<'b>
    requires { Lies pool.now message.now }
    ensures { message_meant result ≡ content_seen pool.now message.now }
{
    MessageView {
        headers: message.headers(),
        body: message.body(pool),
    }
}

/// What a row whose message lies in a pool shows.
pub(crate) fn row_of<'b>(row: &'b PoolRow, pool: &'b Pool) -> RowView<'b>
    requires { RowLies pool.now row.now }
    ensures { row_meant result ≡ row_seen pool.now row.now }
{
    match &row.message {
        Some(message) => RowView {
            numbers: &row.numbers,
            message: Some(message_of(message, pool)),
        },
        None => RowView {
            numbers: &row.numbers,
            message: None,
        },
    }
}
