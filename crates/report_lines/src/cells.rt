//! What the lines of a state are made of: the names of cells, and the rows of queues.

ghost use Rattle.std.specs.Prelude.{◌≡◌, ◌++◌, OnOk, ◌∷◌, [], None, Some, codes, length};
ghost use Rattle.std.specs.Fmt.{decimal};
ghost use Rattle.std.specs.List.{join_by};
ghost use Rattle.stack_judge.specs.Answer.{stack_tree};
ghost use Rattle.run_mean.specs.Text.{message_text, row_text};
ghost use Rattle.report_lines.specs.Lead.{lead};
ghost use Rattle.report_lines.specs.Cells.{cell_front, index_text};

use crate::chain::{push_chain, push_fields, push_lead};
use crate::line::Line;
use crate::named::NamedStack;
use msg_core::{Fields, Headers, Memory};

/// Appends `cell M P LAYER.CELL`: a cell of the layer at place P of member M. What it holds stands after a space.
pub fn push_cell(
    line: &mut Line,
    id: u8,
    place: u8,
    layer: &[u8],
    cell: &[u8],
) -> Result<(), Memory>
    ensures { OnOk result (line.new ≡ line.old ++ cell_front id place layer.now cell.now) }
{
    line.text(b"cell")?;
    line.spaced(u32::from(id))?;
    line.spaced(u32::from(place))?;
    line.text(b" ")?;
    line.text(layer)?;
    line.text(b".")?;
    line.text(cell)
}

/// Appends `[I]`: a queue of an array.
pub fn push_index(line: &mut Line, index: u32) -> Result<(), Memory>
    ensures { OnOk result (line.new ≡ line.old ++ index_text index) }
{
    line.text(b"[")?;
    line.number(u64::from(index))?;
    line.text(b"]")
}

/// `CHAIN:HEX`: a message with these headers and bytes.
fn push_message(
    line: &mut Line,
    stack: &NamedStack,
    headers: &Headers,
    body: &[u8],
) -> Result<(), Memory>
    ensures { OnOk result
        (line.new ≡ line.old ++
        message_text (stack_tree stack.now) (record { headers = headers.now; body = body.now })) }
{
    push_chain(line, stack, headers)?;
    line.text(b":")?;
    line.hex(body)
}

/// Appends numbers in brackets.
fn push_in_brackets(line: &mut Line, numbers: &Fields) -> Result<(), Memory>
    ensures { OnOk result (line.new ≡ line.old ++ (codes "[" ++ join_by decimal (44 ∷ []) numbers.now ++ codes "]")) }
{
    line.text(b"[")?;
    push_fields(line, numbers)?;
    line.text(b"]")
}

/// Appends `[N,N]`: a row of numbers alone.
pub fn push_numbers_row(
    line: &mut Line,
    _stack: &NamedStack,
    numbers: &Fields,
) -> Result<(), Memory>
    ensures { OnOk result
        (line.new ≡ line.old ++ row_text (stack_tree _stack.now) (record { numbers = numbers.now; message = None })) }
{
    push_in_brackets(line, numbers)
}

/// Appends numbers in brackets, and a message after them.
fn push_with_message(
    line: &mut Line,
    stack: &NamedStack,
    numbers: &Fields,
    headers: &Headers,
    body: &[u8],
) -> Result<(), Memory>
    ensures { OnOk result (line.new ≡ line.old
        ++ (codes "[" ++ join_by decimal (44 ∷ []) numbers.now ++ lead (44 ∷ []) (length numbers.now)
        ++ message_text (stack_tree stack.now) (record { headers = headers.now; body = body.now }) ++ codes "]")) }
{
    line.text(b"[")?;
    push_fields(line, numbers)?;
    push_lead(line, b",", numbers.len())?;
    push_message(line, stack, headers, body)?;
    line.text(b"]")
}

/// Appends `[N,N,CHAIN:HEX]`: a row of numbers that ends with a message.
pub fn push_message_row(
    line: &mut Line,
    stack: &NamedStack,
    numbers: &Fields,
    headers: &Headers,
    body: &[u8],
) -> Result<(), Memory>
    ensures { OnOk result (line.new ≡ line.old ++ row_text (stack_tree stack.now)
        (record { numbers = numbers.now; message = Some (record { headers = headers.now; body = body.now }) })) }
{
    push_with_message(line, stack, numbers, headers, body)
}
