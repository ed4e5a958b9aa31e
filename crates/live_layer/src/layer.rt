//! A file's layer, as a stage of a run.

ghost use Rattle.std.specs.Prelude.{◌≡◌};
ghost use Rattle.layer_stage.specs.Taken.{one_more};
ghost use Rattle.msg_core.specs.View.{most_members};

use crate::desk::FileDesk;
use crate::maker::Maker;
use crate::makes::{close, make, restart};
use crate::passes::{lets_pass, none_header};
use crate::visits::visit;
use cell_store::Membership;
use layer_eval::Predicted;
use layer_stage::Stage;
use layer_words::Dir;
use pool_message::{Events, PoolEvent, PoolRow, pass_message};
use slot_pool::Pool;
use std::alloc::{AllocError, Global};
use std::rc::Rc;
use typed_layer::TypedLayer;

/// A layer at its place in a stack, with its desk, and how many events it took.
pub struct FileLayer {
    pub(crate) place: u8,
    pub(crate) layer: Rc<TypedLayer>,
    pub(crate) desk: FileDesk,
    pub(crate) taken: u64,
}

impl FileLayer {
    ghost use Rattle.std.specs.Prelude.{◌≡◌, ℕ, ◌<◌, ◌≤◌, ◌^◌, length, List, option_map, IfSome};
    ghost use Rattle.slot_pool.specs.Held.{Held};
    ghost use Rattle.slot_pool.specs.References.{Covers};
    ghost use Rattle.layer_mean.specs.State.{number_at, numbers_in, queues_in, cell_at, rows_at, row_at};
    ghost use Rattle.chain_laws.specs.Runs.{TypedStack};
    ghost use Rattle.pool_message.specs.Moves.{Returned};
    ghost use Rattle.pool_message.specs.Seen.{row_seen, RowLies};
    ghost use Rattle.live_layer.specs.Layer.{refs_of, state_in, most_of, IsInOrder, BeginsAgain};
    ghost use Rattle.live_layer.specs.Making.{making, Makes};

    /// The layer at a place of the maker's stack before its first event, at a member of a view. All memory is taken
    /// here. A layer with more rows, or a larger hand, than a desk may have is answered as want of memory; within the
    /// language's limits there are never too many rows.
    #[tactic(auto, unfolding(crate::specs::Making::making))]
    pub fn new(
        alloc: Global,
        maker: &mut Maker,
        place: u8,
        membership: Membership,
    ) -> Result<FileLayer, AllocError>
        requires place { place < length (making maker.old).stack }
        requires members { (membership.me < membership.count) × (membership.count ≤ most_members) }
        requires typed { TypedStack (making maker.old).stack }
        requires made { (making maker.old).made ≤ 2 ^ 63 }
        ensures { Makes place membership.me membership.count membership.ltime (making maker.old) (making maker.new)
            result }
    {
        maker.stack.law_within_limits();
        let layer = maker.stack.layer(place).clone()?;
        let desk = make(alloc, &layer, membership)?;
        maker.made += 1;
        Ok(FileLayer {
            place,
            layer,
            desk,
            taken: 0,
        })
    }

    /// Begins again, at a member of a view; there is room for the view's members. Its rows go back.
    #[tactic(auto, unfolding(crate::specs::Layer::layer_parts))]
    pub fn reset(&mut self, pool: &mut Pool, membership: Membership)
        requires order { IsInOrder pool.old self.old }
        requires covers { Covers pool.old (refs_of self.old) }
        requires members { (membership.me < membership.count) × (membership.count ≤ most_of self.old) }
        ensures returned { Returned pool.old pool.new (refs_of self.old) }
        ensures begun { BeginsAgain membership.me membership.count membership.ltime self.old self.new }
    {
        restart(&mut self.desk, pool, &self.layer, membership);
    }

    /// Ends it, and gives its references and its memory back.
    #[tactic(auto, unfolding(crate::specs::Layer::refs_of, crate::specs::Layer::IsInOrder))]
    pub fn close(self, pool: &mut Pool)
        requires order { IsInOrder pool.old self }
        requires covers { Covers pool.old (refs_of self) }
        ensures { Returned pool.old pool.new (refs_of self) }
    {
        let FileLayer {
            place: _,
            layer,
            desk,
            taken: _,
        } = self;
        close(desk, pool, &layer);
    }

    /// The number of members, which is no more than there is room for.
    #[tactic(auto, unfolding(crate::specs::Layer::state_in, crate::specs::Layer::most_of))]
    pub fn count(&self) -> u32
        ensures count { (p : List Held) → result ≡ (state_in p self.now).count }
        ensures few { result ≤ most_of self.now }
    {
        self.desk.cells.count()
    }

    /// A number of a cell; 0 outside.
    #[tactic(auto, unfolding(crate::specs::Layer::state_in))]
    pub fn number(&self, cell: u8, index: u32) -> u32
        ensures { (p : List Held) → result ≡ number_at (state_in p self.now) cell index }
    {
        self.desk.cells.get(cell, index)
    }

    /// How many numbers a cell has.
    #[tactic(auto, unfolding(crate::specs::Layer::state_in))]
    pub fn numbers_count(&self, cell: u8) -> u32
        ensures { (p : List Held) → result ≡ length (numbers_in (cell_at (state_in p self.now) cell)) }
    {
        self.desk.cells.numbers_count(cell)
    }

    /// How many queues a cell has.
    #[tactic(auto, unfolding(crate::specs::Layer::state_in))]
    pub fn queues_count(&self, cell: u8) -> u32
        ensures { (p : List Held) → result ≡ length (queues_in (cell_at (state_in p self.now) cell)) }
    {
        self.desk.cells.queues_count(cell)
    }

    /// How many rows a queue has.
    #[tactic(auto, unfolding(crate::specs::Layer::state_in))]
    pub fn rows(&self, cell: u8, index: u32) -> u32
        ensures { (p : List Held) → result ≡ length (rows_at (state_in p self.now) cell index) }
    {
        self.desk.cells.len(cell, index)
    }

    /// A row of a queue, the front being 0.
    #[tactic(auto, unfolding(crate::specs::Layer::state_in, crate::specs::Layer::IsInOrder))]
    pub fn row(&self, cell: u8, index: u32, row: u32) -> Option<&PoolRow>
        ensures row { (p : List Held) → option_map (λ r. row_seen p r.now) result ≡
            row_at (state_in p self.now) cell index row }
        ensures lies { (p : List Held) → IsInOrder p self.now → IfSome result (λ r. RowLies p r.now) }
    {
        self.desk.cells.row(cell, index, row)
    }
}

/// One event more was taken.
fn count_one(taken: &mut u64)
    ensures { taken.new ≡ one_more taken.old }
{
    *taken = taken.saturating_add(1);
}

impl Stage for FileLayer {
    ghost use Rattle.live_layer.specs.Layer.{place_of, tree_of, refs_of, state_in, taken_by, IsInOrder};
    ghost use Rattle.live_layer.specs.Staged.{layer_stays, layer_keeps_few, layer_keeps};

    ghost place = { place_of };

    ghost layer = { tree_of };

    ghost refs = { refs_of };

    ghost ready = { IsInOrder };

    ghost state = { state_in };

    ghost taken = { taken_by };

    #[tactic(auto, unfolding(crate::specs::Layer::layer_parts))]
    fn take(&mut self, pool: &mut Pool, events: &mut Events) -> Predicted {
        count_one(&mut self.taken);
        visit(self.place, &self.layer, &mut self.desk, pool, events)
    }

    #[tactic(auto, unfolding(crate::specs::Layer::layer_parts))]
    fn pass(&mut self, direction: Dir, event: &mut PoolEvent) -> bool {
        if !lets_pass(&self.layer, direction, event) {
            return false;
        }
        count_one(&mut self.taken);
        pass_message(direction, none_header(self.place), &mut event.message);
        true
    }

    ghost frame = { layer_stays };

    ghost few = { layer_keeps_few };

    ghost kept = { layer_keeps };
}
