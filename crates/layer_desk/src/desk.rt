//! The operations of a desk.

ghost use Rattle.std.specs.Prelude.{◌≡◌, ℕ, ◌+◌, List, [], true, length, slice_index, slice_index_or, OnOk, IfOk};
ghost use Rattle.std.specs.Prelude.{Option, Some, None};
ghost use Rattle.slot_pool.specs.Held.{Held};
ghost use Rattle.slot_pool.specs.References.{Moved};
ghost use Rattle.msg_core.specs.Chain.{plain};
ghost use Rattle.msg_core.specs.Parts as parts;
ghost use Rattle.layer_words.specs.declared.sorts.Shape.{Shape};
ghost use Rattle.layer_mean.specs.State.{number_at, flat_index, rows_at, row_at, has_room};
ghost use Rattle.layer_mean.specs.Value.{number_in, message_in};
ghost use Rattle.typed_layer.specs.View.{carried_tree, taken_tree};
ghost use Rattle.layer_desk.specs.Laid.{Laid, bound, assigned, assigned_square, lifted, front_changed, front_joined};
ghost use Rattle.layer_desk.specs.Laid.{queued};
ghost use Rattle.layer_desk.specs.Laid.{queued_first, is_found, taken_row, sends, sends_first, sends_local};
ghost use Rattle.layer_desk.specs.Laid.{first_header};
ghost use Rattle.layer_desk.specs.Laid.{header_popped, enters, passes_on, left};
ghost use Rattle.layer_mean.specs.Envelope.{event_in};
ghost use Rattle.layer_mean.specs.Headers.{said_tag, said_fields};
ghost use Rattle.layer_desk.specs.Need.{Layout, Room, nothing_needed, one_slot, one_place, one_in_hand, held_need};
ghost use Rattle.layer_desk.specs.Need.{room_need, taken_need, entry_need, passing_need};
ghost use Rattle.layer_desk.specs.Spent.{Begun, SpentAtMost, Spent, Lifted, Suffices};

use crate::no_room::NoRoom;
use crate::places::{Queue, RowAt, Sending, Square};
use layer_mean::Envelope;
use layer_words::Dir;
use msg_core::Fields;
use slot_pool::Pool;
use std::marker::Brand;
use typed_layer::{Carried, Handler, Taken};

/// How a visit began; contracts alone read it.
pub trait Start {
    ghost begun: { Begun };
}

impl Start for Brand {
    ghost begun = { record {
      pool = [];
      refs = [];
      layout = record { rows = []; numbers = 0; messages = 0; hand = 0; places = 0 };
      list = 0;
      forms = [];
    } };
}

/// What a layer works at while it takes an event. Bodies of messages stand in the pool beside it, and no operation
/// takes memory. What isn't there is read as 0 or as no bytes, and isn't written.
pub trait Desk {
    /// The references that the desk has: those of its rows, its scope, what arrived, what is in hand and what was sent.
    ghost refs: { Self → List ℕ };

    /// What the desk is made for.
    ghost layout: { Self → Layout };

    /// The capacity of the list to which the desk adds the events that it sends.
    ghost list: { Self → ℕ };

    /// What its cells are, which no operation changes: the shape of each, and the capacity where it has queues.
    ghost forms: { Self → List (Shape × Option ℕ) };

    /// Since this beginning the references of the desk, and no others, have moved in the pool; and the desk is in
    /// order.
    ghost ready: { Begun → List Held → Self → Type 0 };

    /// What lies on it, with the bodies that the pool holds.
    ghost shown: { List Held → Self → Laid };

    /// The room that is left: unused slots, places for events, places of the hand.
    ghost free: { List Held → Self → Room };

    /// The own rank.
    fn me<K: Start>(&self, pool: &Pool) -> u32
        requires { ready K.begun pool.now self.now }
        ensures { result ≡ (shown pool.now self.now).state.me };

    /// The number of members.
    fn count<K: Start>(&self, pool: &Pool) -> u32
        requires { ready K.begun pool.now self.now }
        ensures { result ≡ (shown pool.now self.now).state.count };

    /// How many views came before.
    fn ltime<K: Start>(&self, pool: &Pool) -> u32
        requires { ready K.begun pool.now self.now }
        ensures { result ≡ (shown pool.now self.now).state.ltime };

    /// A number of the scope.
    fn local<K: Start>(&self, pool: &Pool, slot: u8) -> u32
        requires { ready K.begun pool.now self.now }
        ensures { result ≡ slice_index (shown pool.now self.now).scope.numbers slot };

    /// A number of a cell.
    fn number<K: Start>(&self, pool: &Pool, cell: u8, index: u32) -> u32
        requires { ready K.begun pool.now self.now }
        ensures { result ≡ number_at (shown pool.now self.now).state cell index };

    /// A number of a square cell.
    fn square<K: Start>(&self, pool: &Pool, cell: u8, row: u32, column: u32) -> u32
        requires { ready K.begun pool.now self.now }
        ensures { result ≡ number_at (shown pool.now self.now).state cell
            (flat_index (shown pool.now self.now).state.count row column) };

    /// How many rows a queue has.
    fn rows<K: Start>(&self, pool: &Pool, cell: u8, index: u32) -> u32
        requires { ready K.begun pool.now self.now }
        ensures { result ≡ length (rows_at (shown pool.now self.now).state cell index) };

    /// A number of a row.
    fn item<K: Start>(&self, pool: &Pool, at: RowAt, number: u8) -> u32
        requires { ready K.begun pool.now self.now }
        ensures { result ≡ number_in number (row_at (shown pool.now self.now).state at.cell at.index at.row) };

    /// Whether a queue is there and has fewer rows than its capacity.
    fn has_room<K: Start>(&self, pool: &Pool, queue: Queue) -> bool
        requires { ready K.begun pool.now self.now }
        ensures { result ≡ has_room (shown pool.now self.now).state queue.cell queue.index queue.capacity };

    /// The number of bytes of a message of the scope.
    fn local_size<K: Start>(&self, pool: &Pool, slot: u8) -> u32
        requires { ready K.begun pool.now self.now }
        ensures { result ≡ length (slice_index_or (shown pool.now self.now).scope.messages slot (plain [])).body };

    /// The number of bytes of a row's message.
    fn row_size<K: Start>(&self, pool: &Pool, at: RowAt, carried: Carried) -> u32
        requires { ready K.begun pool.now self.now }
        ensures { result ≡ length (message_in (carried_tree carried)
            (row_at (shown pool.now self.now).state at.cell at.index at.row)).body };

    /// Sets a number of the scope.
    fn bind<K: Start>(&mut self, pool: &Pool, slot: u8, value: u32)
        requires { ready K.begun pool.now self.old }
        ensures ready { ready K.begun pool.now self.new }
        ensures shown { shown pool.now self.new ≡ bound slot value (shown pool.now self.old) }
        ensures free { free pool.now self.new ≡ free pool.now self.old };

    /// Sets a number of a cell.
    fn assign<K: Start>(&mut self, pool: &Pool, cell: u8, index: u32, value: u32)
        requires { ready K.begun pool.now self.old }
        ensures ready { ready K.begun pool.now self.new }
        ensures shown { shown pool.now self.new ≡ assigned cell index value (shown pool.now self.old) }
        ensures free { free pool.now self.new ≡ free pool.now self.old };

    /// Sets a number of a square cell.
    fn assign_square<K: Start>(&mut self, pool: &Pool, square: Square, value: u32)
        requires { ready K.begun pool.now self.old }
        ensures ready { ready K.begun pool.now self.new }
        ensures shown { shown pool.now self.new ≡
            assigned_square square.cell square.row square.column value (shown pool.now self.old) }
        ensures free { free pool.now self.new ≡ free pool.now self.old };

    /// Takes a message of the scope into the hand; the scope keeps it.
    fn lift<K: Start>(&mut self, pool: &mut Pool, slot: u8) -> Result<(), NoRoom>
        requires { ready K.begun pool.old self.old }
        ensures ready { ready K.begun pool.new self.new }
        ensures shown { OnOk result (shown pool.new self.new ≡
            lifted (slice_index_or (shown pool.old self.old).scope.messages slot (plain []))
            (shown pool.old self.old)) }
        ensures spent { Lifted (free pool.old self.old) (free pool.new self.new) one_in_hand result };

    /// Takes a message without bytes into the hand.
    fn lift_nothing<K: Start>(&mut self, pool: &Pool) -> Result<(), NoRoom>
        requires { ready K.begun pool.now self.old }
        ensures ready { ready K.begun pool.now self.new }
        ensures shown { OnOk result (shown pool.now self.new ≡ lifted (plain []) (shown pool.now self.old)) }
        ensures spent { Lifted (free pool.now self.old) (free pool.now self.new) one_in_hand result };

    /// Takes the message of a row into the hand; the row keeps it.
    fn lift_row<K: Start>(
        &mut self,
        pool: &mut Pool,
        at: RowAt,
        carried: Carried,
    ) -> Result<(), NoRoom>
        requires { ready K.begun pool.old self.old }
        ensures ready { ready K.begun pool.new self.new }
        ensures shown { OnOk result (shown pool.new self.new ≡ lifted
            (message_in (carried_tree carried) (row_at (shown pool.old self.old).state at.cell at.index at.row))
            (shown pool.old self.old)) }
        ensures spent { Lifted (free pool.old self.old) (free pool.new self.new) (held_need (carried_tree carried))
            result };

    /// Leaves of the newest message in hand `count` bytes from a place on, and none of its headers.
    fn cut<K: Start>(&mut self, pool: &Pool, from: u32, count: u32)
        requires { ready K.begun pool.now self.old }
        ensures ready { ready K.begun pool.now self.new }
        ensures shown { shown pool.now self.new ≡
            front_changed (λ m. parts.cut m from count) (shown pool.now self.old) }
        ensures free { free pool.now self.new ≡ free pool.now self.old };

    /// Leaves of the newest message in hand the bytes from a place on, and its headers.
    fn tail<K: Start>(&mut self, pool: &Pool, from: u32)
        requires { ready K.begun pool.now self.old }
        ensures ready { ready K.begun pool.now self.new }
        ensures shown { shown pool.now self.new ≡ front_changed (λ m. parts.tail m from) (shown pool.now self.old) }
        ensures free { free pool.now self.new ≡ free pool.now self.old };

    /// Joins the two newest messages in hand, with the older as the front part.
    fn join<K: Start>(&mut self, pool: &mut Pool) -> Result<(), NoRoom>
        requires { ready K.begun pool.old self.old }
        ensures ready { ready K.begun pool.new self.new }
        ensures shown { OnOk result (shown pool.new self.new ≡ front_joined (shown pool.old self.old)) }
        ensures spent { Spent (free pool.old self.old) (free pool.new self.new) one_slot result };

    /// Puts a row of numbers alone at the back of a queue.
    fn push<K: Start>(&mut self, pool: &Pool, queue: Queue, numbers: Fields) -> Result<(), NoRoom>
        requires ready { ready K.begun pool.now self.old }
        requires room { has_room (shown pool.now self.old).state queue.cell queue.index queue.capacity ≡ true }
        ensures ready { ready K.begun pool.now self.new }
        ensures shown { OnOk result (shown pool.now self.new ≡
            queued queue.cell queue.index (record { numbers = numbers; message = None }) (shown pool.now self.old)) }
        ensures spent { Spent (free pool.now self.old) (free pool.now self.new)
            (room_need K.begun.layout queue.cell queue.capacity) result };

    /// Puts a row with the newest message in hand at the back of a queue.
    fn push_first<K: Start>(
        &mut self,
        pool: &Pool,
        queue: Queue,
        numbers: Fields,
    ) -> Result<(), NoRoom>
        requires ready { ready K.begun pool.now self.old }
        requires room { has_room (shown pool.now self.old).state queue.cell queue.index queue.capacity ≡ true }
        ensures ready { ready K.begun pool.now self.new }
        ensures shown { OnOk result
            (shown pool.now self.new ≡ queued_first queue.cell queue.index numbers (shown pool.now self.old)) }
        ensures spent { Spent (free pool.now self.old) (free pool.now self.new)
            (room_need K.begun.layout queue.cell queue.capacity) result };

    /// Takes the front row of a queue into the scope, and says whether there was one. Messages that stood there go
    /// back.
    fn take<K: Start>(
        &mut self,
        pool: &mut Pool,
        cell: u8,
        index: u32,
        taken: &Taken,
    ) -> Result<bool, NoRoom>
        requires { ready K.begun pool.old self.old }
        ensures ready { ready K.begun pool.new self.new }
        ensures found { IfOk result (λ found. found ≡ is_found (row_at (shown pool.old self.old).state cell index 0)) }
        ensures shown { OnOk result
            (shown pool.new self.new ≡ taken_row cell index (taken_tree taken.now) (shown pool.old self.old)) }
        ensures spent { Spent (free pool.old self.old) (free pool.new self.new) (taken_need (taken_tree taken.now))
            result };

    /// Sends an event without a message.
    fn send<K: Start>(
        &mut self,
        pool: &Pool,
        direction: Dir,
        envelope: Envelope,
    ) -> Result<(), NoRoom>
        requires { ready K.begun pool.now self.old }
        ensures ready { ready K.begun pool.now self.new }
        ensures shown { OnOk result
            (shown pool.now self.new ≡ sends direction (event_in envelope None) (shown pool.now self.old)) }
        ensures spent { Spent (free pool.now self.old) (free pool.now self.new) one_place result };

    /// Sends an event with the newest message in hand, going down after a header.
    fn send_first<K: Start>(&mut self, pool: &Pool, sending: &Sending) -> Result<(), NoRoom>
        requires { ready K.begun pool.now self.old }
        ensures ready { ready K.begun pool.now self.new }
        ensures shown { OnOk result (shown pool.now self.new ≡
            sends_first sending.now.direction sending.now.envelope sending.now.header (shown pool.now self.old)) }
        ensures spent { Spent (free pool.now self.old) (free pool.now self.new) one_place result };

    /// Sends an event with a message of the scope, which the scope keeps, going down after a header. It doesn't go
    /// through the hand.
    fn send_local<K: Start>(
        &mut self,
        pool: &mut Pool,
        sending: &Sending,
        slot: u8,
    ) -> Result<(), NoRoom>
        requires { ready K.begun pool.old self.old }
        ensures ready { ready K.begun pool.new self.new }
        ensures shown { OnOk result (shown pool.new self.new ≡
            sends_local sending.now.direction sending.now.envelope sending.now.header slot
            (shown pool.old self.old)) }
        ensures spent { Spent (free pool.old self.old) (free pool.new self.new) one_place result };

    /// Sends an event with a message of the scope, going down after a header, and lets what the visit leaves behind go,
    /// as `leave` does it. The message goes on from where it lies, since the scope doesn't keep it.
    fn send_local_and_leave<K: Start>(
        &mut self,
        pool: &mut Pool,
        sending: &Sending,
        slot: u8,
    ) -> Result<(), NoRoom>
        requires { ready K.begun pool.old self.old }
        ensures ready { ready K.begun pool.new self.new }
        ensures shown { OnOk result (shown pool.new self.new ≡ left
            (sends_local sending.now.direction sending.now.envelope sending.now.header slot
            (shown pool.old self.old))) }
        ensures spent { Spent (free pool.old self.old) (free pool.new self.new) one_place result };

    /// Takes the first header off the message that arrived: says its tag, 0 where there is none, and its fields.
    fn pop_header<K: Start>(&mut self, pool: &Pool, fields: &mut Fields) -> u8
        requires ready { ready K.begun pool.now self.old }
        requires none { fields.old ≡ [] }
        ensures ready { ready K.begun pool.now self.new }
        ensures tag { result ≡ said_tag (first_header (shown pool.now self.old).arrived) }
        ensures fields { fields.new ≡ said_fields (first_header (shown pool.now self.old).arrived) }
        ensures shown { shown pool.now self.new ≡ header_popped (shown pool.now self.old) }
        ensures free { free pool.now self.new ≡ free pool.now self.old };

    /// Makes the scope in which a handler's block is entered: the event's numbers, the fields of the popped header and
    /// the message that arrived, and after these the numbers and messages that the block declares, for which there is
    /// room. A scope that was there is let go.
    fn enter<K: Start>(
        &mut self,
        pool: &mut Pool,
        envelope: Envelope,
        fields: &Fields,
        handler: &Handler,
    )
        requires ready { ready K.begun pool.old self.old }
        requires room { Suffices (free pool.old self.old)
            (entry_need K.begun.layout handler.now.numbers handler.now.messages (shown pool.old self.old).arrived) }
        ensures ready { ready K.begun pool.new self.new }
        ensures shown { shown pool.new self.new ≡
            enters envelope fields.now handler.now.numbers handler.now.messages (shown pool.old self.old) }
        ensures spent { SpentAtMost (free pool.old self.old) (free pool.new self.new)
            (entry_need K.begun.layout handler.now.numbers handler.now.messages (shown pool.old self.old).arrived) };

    /// Sends an event with the message that arrived, if one did, going down after a header.
    fn pass_on<K: Start>(&mut self, pool: &Pool, sending: &Sending) -> Result<(), NoRoom>
        requires { ready K.begun pool.now self.old }
        ensures ready { ready K.begun pool.now self.new }
        ensures shown { OnOk result (shown pool.now self.new ≡
            passes_on sending.now.direction sending.now.envelope sending.now.header (shown pool.now self.old)) }
        ensures spent { Spent (free pool.now self.old) (free pool.now self.new)
            (passing_need (shown pool.now self.old).arrived) result };

    /// Lets the scope go, and what arrived.
    fn leave<K: Start>(&mut self, pool: &mut Pool)
        requires { ready K.begun pool.old self.old }
        ensures ready { ready K.begun pool.new self.new }
        ensures shown { shown pool.new self.new ≡ left (shown pool.old self.old) }
        ensures spent { SpentAtMost (free pool.old self.old) (free pool.new self.new) nothing_needed };

    /// A desk that is ready has moved its references alone.
    ghost moved: { (b : Begun) (p : List Held) (desk : Self) → ready b p desk → Moved b.pool p b.refs (refs desk) };

    /// It is made for what it was made for at the beginning.
    ghost kept: { (b : Begun) (p : List Held) (desk : Self) → ready b p desk → layout desk ≡ b.layout };

    /// The list's capacity is that of the beginning.
    ghost listed: { (b : Begun) (p : List Held) (desk : Self) → ready b p desk → list desk ≡ b.list };

    /// The messages in hand and the places left add up to how many its hand takes.
    ghost hand: { (b : Begun) (p : List Held) (desk : Self) → ready b p desk →
        (free p desk).hand + length (shown p desk).hand ≡ b.layout.hand };

    /// The events that were sent and the places left add up to how many may be sent.
    ghost places: { (b : Begun) (p : List Held) (desk : Self) → ready b p desk →
        (free p desk).places + length (shown p desk).sent ≡ b.layout.places };
}
