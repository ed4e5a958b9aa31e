//! The handlers of a layer, each found by a table.

ghost use Rattle.std.specs.Prelude.{◌≡◌, ◌≤◌, All, List, IfOk, length, map, slice_set, vec_len};
ghost use Rattle.std.specs.Option.{option_map};
ghost use Rattle.std.specs.List.{find};
ghost use Rattle.layer_mean.specs.Visit.{is_for};
ghost use Rattle.typed_layer.specs.View.{handler_tree};
ghost use Rattle.typed_layer.specs.Table.{IsTagged, code, handler_code, table_from};

use crate::tree::Handler;
use layer_words::{Dir, Kind};
use std::alloc::{AllocError, Global};
use std::marker::Model;

/// The most handlers of a layer.
pub const MOST_HANDLERS: usize = 64;

/// How many kinds of events there are.
const KINDS: usize = 12;

/// How many tags a layer's headers can have, `none` counted.
const TAGS: u8 = 8;

/// How many numbers there are for a direction, a kind and a tag together.
const CODES: usize = 192;

/// What stands in the table where no handler is.
const NO_HANDLER: u8 = 255;

/// The handlers of a layer, which contracts see as their list: at most 64, of tags that its headers can have.
#[derive(Drop)]
pub struct Handlers {
    items: Vec<Handler>,
    /// For each number of a direction, a kind and a tag, that of the first handler that has it.
    table: Vec<u8>,
}

impl Model for Handlers {
    ghost use Rattle.std.specs.Prelude.{◌≡◌, List, ◌≤◌, All, length};
    ghost use Rattle.std.specs.Coded.{codes};
    ghost use Rattle.typed_layer.specs.declared.tree.Handler.{Handler};
    ghost use Rattle.typed_layer.specs.contracts.tree.Handler as handler;
    ghost use Rattle.typed_layer.specs.Table.{IsTagged, table_from};
    ghost use Rattle.typed_layer.specs.declared.handlers.TheConstants.{MOST_HANDLERS};

    ghost Value = { List Handler };

    ghost coded = { Prim.hlevel (codes, handler.the_row.coded) };

    ghost view = { λ h. h.items.items };

    ghost invariant = { λ h.
        (length h.items.items ≤ MOST_HANDLERS) × All IsTagged h.items.items ×
        (h.table.items ≡ table_from 0 h.items.items) };
}

impl Handlers {
    /// These handlers, at most 64, of tags below 8. Err only where memory runs out.
    pub fn of(alloc: Global, items: Vec<Handler>) -> Result<Handlers, AllocError>
        requires few { vec_len items ≤ MOST_HANDLERS }
        requires tagged { All IsTagged items.items }
        ensures { IfOk result (λ handlers. handlers ≡ items.items) }
    {
        let table = table_of(alloc, &items)?;
        Ok(Handlers { items, table })
    }

    /// All of them, in order.
    pub fn slice(&self) -> &[Handler]
        ensures { result.now ≡ self.now }
    {
        self.items.as_slice()
    }

    /// The first handler for a direction, a kind and a popped tag, if there is one; no search is made.
    pub fn find(&self, direction: Dir, kind: Kind, tag: u8) -> Option<&Handler>
        ensures { option_map (λ h. handler_tree h.now) result ≡
            find (is_for direction kind tag) (map handler_tree self.now) }
    {
        let items = self.items.as_slice();
        if tag >= TAGS {
            return None;
        }
        let entry = usize::from(self.table[code_of(direction, kind, tag)]);
        if entry < items.len() {
            Some(&items[entry])
        } else {
            None
        }
    }
}

/// The number for a direction, a kind and a tag together.
fn code_of(direction: Dir, kind: Kind, tag: u8) -> usize
    ensures { result ≡ code direction kind tag }
{
    (direction as usize * KINDS + kind as usize) * usize::from(TAGS) + usize::from(tag)
}

/// The number that a handler has.
fn handler_number(handler: &Handler) -> usize
    ensures { result ≡ handler_code handler.now }
{
    code_of(handler.direction, handler.kind, handler.tag)
}

/// The table of handlers: a handler before others of its number stands in it.
fn table_of(alloc: Global, handlers: &[Handler]) -> Result<Vec<u8>, AllocError>
    requires { length handlers.now ≤ MOST_HANDLERS }
    ensures { IfOk result (λ table. table.items ≡ table_from 0 handlers.now) }
{
    let mut table = vec![in alloc; NO_HANDLER; CODES]?;
    let mut left = handlers.len();
    while left > 0 {
        left -= 1;
        enter(&mut table, left as u8, &handlers[left]);
    }
    Ok(table)
}

/// Enters a handler before those that the table has.
fn enter(table: &mut Vec<u8>, number: u8, handler: &Handler)
    ensures { table.new.items ≡ slice_set table.old.items (handler_code handler.now) number }
{
    let code = handler_number(handler);
    if code < table.len() {
        table[code] = number;
    }
}
