//! The desk, as an evaluator works at it.

use crate::desk::FileDesk;
use crate::{enters, leaves, lifts, puts, reads, sends, takes, writes};
use layer_desk::{Desk, NoRoom, Queue, RowAt, Sending, Square, Start};
use layer_mean::Envelope;
use layer_words::Dir;
use msg_core::Fields;
use slot_pool::Pool;
use typed_layer::{Carried, Handler, Taken};

impl Desk for FileDesk {
    ghost use Rattle.live_layer.specs.Stock.{stock_refs, laid};
    ghost use Rattle.live_layer.specs.Ready.{stock_of, layout_of, forms_of, room_of, IsReady};
    ghost use Rattle.live_layer.specs.Laws.{hand_left, places_left};

    ghost refs = { λ d. stock_refs (stock_of d) };

    ghost layout = { layout_of };

    ghost list = { λ d. d.tray.sent.capacity };

    ghost forms = { forms_of };

    ghost ready = { IsReady };

    ghost shown = { λ p d. laid p (stock_of d) };

    ghost free = { room_of };

    fn me<K: Start>(&self, pool: &Pool) -> u32 {
        reads::me::<K>(self, pool)
    }

    fn count<K: Start>(&self, pool: &Pool) -> u32 {
        reads::count::<K>(self, pool)
    }

    fn ltime<K: Start>(&self, pool: &Pool) -> u32 {
        reads::ltime::<K>(self, pool)
    }

    fn local<K: Start>(&self, pool: &Pool, slot: u8) -> u32 {
        reads::local::<K>(self, pool, slot)
    }

    fn number<K: Start>(&self, pool: &Pool, cell: u8, index: u32) -> u32 {
        reads::number::<K>(self, pool, cell, index)
    }

    fn square<K: Start>(&self, pool: &Pool, cell: u8, row: u32, column: u32) -> u32 {
        reads::square::<K>(self, pool, cell, row, column)
    }

    fn rows<K: Start>(&self, pool: &Pool, cell: u8, index: u32) -> u32 {
        reads::rows::<K>(self, pool, cell, index)
    }

    fn item<K: Start>(&self, pool: &Pool, at: RowAt, number: u8) -> u32 {
        reads::item::<K>(self, pool, at, number)
    }

    fn has_room<K: Start>(&self, pool: &Pool, queue: Queue) -> bool {
        reads::has_room::<K>(self, pool, queue)
    }

    fn local_size<K: Start>(&self, pool: &Pool, slot: u8) -> u32 {
        reads::local_size::<K>(self, pool, slot)
    }

    fn row_size<K: Start>(&self, pool: &Pool, at: RowAt, carried: Carried) -> u32 {
        reads::row_size::<K>(self, pool, at, carried)
    }

    fn bind<K: Start>(&mut self, pool: &Pool, slot: u8, value: u32) {
        writes::bind::<K>(self, pool, slot, value);
    }

    fn assign<K: Start>(&mut self, pool: &Pool, cell: u8, index: u32, value: u32) {
        writes::assign::<K>(self, pool, cell, index, value);
    }

    fn assign_square<K: Start>(&mut self, pool: &Pool, square: Square, value: u32) {
        writes::assign_square::<K>(self, pool, square, value);
    }

    #[inline(always)]
    fn lift<K: Start>(&mut self, pool: &mut Pool, slot: u8) -> Result<(), NoRoom> {
        lifts::lift::<K>(self, pool, slot)
    }

    fn lift_nothing<K: Start>(&mut self, pool: &Pool) -> Result<(), NoRoom> {
        lifts::lift_nothing::<K>(self, pool)
    }

    fn lift_row<K: Start>(
        &mut self,
        pool: &mut Pool,
        at: RowAt,
        carried: Carried,
    ) -> Result<(), NoRoom> {
        takes::lift_row::<K>(self, pool, at, carried)
    }

    fn cut<K: Start>(&mut self, pool: &Pool, from: u32, count: u32) {
        lifts::cut::<K>(self, pool, from, count);
    }

    fn tail<K: Start>(&mut self, pool: &Pool, from: u32) {
        lifts::tail::<K>(self, pool, from);
    }

    fn join<K: Start>(&mut self, pool: &mut Pool) -> Result<(), NoRoom> {
        lifts::join::<K>(self, pool)
    }

    fn push<K: Start>(&mut self, pool: &Pool, queue: Queue, numbers: Fields) -> Result<(), NoRoom> {
        puts::push::<K>(self, pool, queue, numbers)
    }

    fn push_first<K: Start>(
        &mut self,
        pool: &Pool,
        queue: Queue,
        numbers: Fields,
    ) -> Result<(), NoRoom> {
        puts::push_first::<K>(self, pool, queue, numbers)
    }

    fn take<K: Start>(
        &mut self,
        pool: &mut Pool,
        cell: u8,
        index: u32,
        taken: &Taken,
    ) -> Result<bool, NoRoom> {
        takes::take::<K>(self, pool, cell, index, taken)
    }

    #[inline(always)]
    fn send<K: Start>(
        &mut self,
        pool: &Pool,
        direction: Dir,
        envelope: Envelope,
    ) -> Result<(), NoRoom> {
        sends::send::<K>(self, pool, direction, envelope)
    }

    fn send_first<K: Start>(&mut self, pool: &Pool, sending: &Sending) -> Result<(), NoRoom> {
        sends::send_first::<K>(self, pool, sending)
    }

    fn send_local<K: Start>(
        &mut self,
        pool: &mut Pool,
        sending: &Sending,
        slot: u8,
    ) -> Result<(), NoRoom> {
        sends::send_local::<K>(self, pool, sending, slot)
    }

    fn send_local_and_leave<K: Start>(
        &mut self,
        pool: &mut Pool,
        sending: &Sending,
        slot: u8,
    ) -> Result<(), NoRoom> {
        sends::send_local_and_leave::<K>(self, pool, sending, slot)
    }

    fn pop_header<K: Start>(&mut self, pool: &Pool, fields: &mut Fields) -> u8 {
        sends::pop_header::<K>(self, pool, fields)
    }

    fn enter<K: Start>(
        &mut self,
        pool: &mut Pool,
        envelope: Envelope,
        fields: &Fields,
        handler: &Handler,
    ) {
        enters::enter::<K>(self, pool, envelope, fields, handler);
    }

    fn pass_on<K: Start>(&mut self, pool: &Pool, sending: &Sending) -> Result<(), NoRoom> {
        sends::pass_on::<K>(self, pool, sending)
    }

    fn leave<K: Start>(&mut self, pool: &mut Pool) {
        leaves::leave::<K>(self, pool);
    }

    ghost moved = { λ b p d is. is.pool.moved };

    ghost kept = { λ b p d is. is.layout };

    ghost listed = { λ b p d is. is.sent.kept };

    ghost hand = { hand_left };

    ghost places = { places_left };
}
