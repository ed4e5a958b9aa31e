//! What operations may name: bound numbers, taken rows and noted messages.

ghost use Rattle.std.specs.Prelude.{◌≡◌, true, length};
ghost use Rattle.synth_print.specs.Within.{are_within};

/// A cell of a layer: the layer's place, and the cell's number in it.
#[derive(Clone, Copy)]
pub(crate) struct Spot {
    pub place: u8,
    pub cell: u8,
}

/// The nodes of the indexes of a number of a square cell.
#[derive(Clone, Copy)]
pub(crate) struct Indexes {
    pub row: u32,
    pub column: u32,
}

/// How a noted message is told: by the number of its note; or written out, from its node and from how many rows were
/// taken before it, since it names these and the messages noted before it.
#[derive(Clone, Copy)]
pub(crate) enum Note {
    Called,
    Spelled { message: u32, rows: usize },
}

/// How many numbers were bound, which rows were taken and which messages noted by the operations so far.
#[derive(Drop)]
pub(crate) struct Written {
    pub binds: u64,
    /// Of each row the queue that it was taken from, which tells what its numbers are called.
    pub rows: Vec<Spot>,
    pub notes: Vec<Note>,
    ghost within: { are_within (length rows.items) notes.items ≡ true },
}
