//! Packets as bytes, in full: written, and read again; and the parts of this that serve other forms too.
#![tactic(auto)]

mod cursor;
mod ends;
mod form;
mod front;
mod laws;
mod opened;
mod scan;
mod view;
mod write;

pub use cursor::Cursor;
pub use ends::{close, open};
pub use form::{Form, form_at};
pub use front::{FULL_FORM, Preamble, SHORT_FORM};
pub use laws::{read_in_steps, written_is_read};
pub use opened::Opened;
pub use scan::Scan;
pub use view::PacketView;
pub use write::{put_body, put_full_of, put_number, put_preamble, room_of};
