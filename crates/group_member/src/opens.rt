//! What a member works with, made and ended.

ghost use Rattle.std.specs.Prelude.{◌≡◌, ◌<◌, ◌≤◌, ◌^◌, [], true, is_some, IfOk, length};
ghost use Rattle.std.specs.List.{AllByRecursion, flat_map};
ghost use Rattle.chain_laws.specs.Runs.{TypedStack};
ghost use Rattle.circular_buffer.specs.Buffer.{buffer};
ghost use Rattle.stack_judge.specs.Answer.{stack_tree};
ghost use Rattle.live_layer.specs.Layer.{refs_of, IsInOrder};
ghost use Rattle.live_layer.specs.Making.{making};
ghost use Rattle.msg_core.specs.View as members;
ghost use Rattle.packet_short.specs.Layouts.{AreLaidOut};
ghost use Rattle.slot_pool.specs.References.{Covers};
ghost use Rattle.stack_mean.specs.Acceptance.{largest_weight, rows_of, most_rows};
ghost use Rattle.group_member.specs.Making.{MakesAll, OpensKit, OpensWorks};
ghost use Rattle.group_member.specs.Opening.{codes_in, plans_in, stack_in, CanOpen};
ghost use Rattle.group_member.specs.Serving.{IsSpare};
ghost use Rattle.group_member.specs.Working.{refs_in};

use crate::kit::Kit;
use crate::opening::Opening;
use crate::scratch::{close_scratch, open_scratch};
use crate::works::Works;
use cell_store::Membership;
use live_layer::{FileLayer, Maker};
use msg_core::{Memory, View};
use packet_short::Layouts;
use pool_message::Events;
use slot_pool::Pool;
use stack_judge::Stack;
use stack_queue::{Tasks, events_for};
use std::alloc::{AllocError, Global};
use view_masks::{member_count, rank};

/// How many slots a member's pool has beyond one for each row with a message: one for the body of the event that begins
/// a run, and one for each join of the run.
const SLOTS_BEYOND: u32 = 1025;

/// The lists of a run, which are empty between two runs.
struct Lists {
    tasks: Tasks,
    outs: Events,
}

impl Lists {
    fn fresh(alloc: Global, stack: &Stack) -> Result<Lists, AllocError>
        ensures tasks { IfOk result (λ l. l.tasks ≡ buffer [] (largest_weight (stack_tree stack.now))) }
        ensures outs { IfOk result (λ l. l.outs ≡ buffer [] (largest_weight (stack_tree stack.now))) }
    {
        let tasks = Tasks::new(alloc, stack)?;
        match events_for(alloc, stack) {
            Ok(outs) => Ok(Lists { tasks, outs }),
            Err(error) => {
                tasks.end();
                Err(error)
            }
        }
    }

    fn close(self)
        requires { (self.tasks.items ≡ []) × (self.outs.items ≡ []) }
    {
        let Lists { tasks, outs } = self;
        tasks.end();
        outs.close();
    }
}

/// Ends layers, and gives back what they refer to.
fn close_layers(mut layers: Vec<FileLayer>, pool: &mut Pool)
    requires order { AllByRecursion (IsInOrder pool.old) layers.items }
    requires covers { Covers pool.old (flat_map refs_of layers.items) }
{
    while let Some(layer) = layers.pop() {
        layer.close(pool);
    }
    layers.destroy_empty();
}

/// All layers of a maker's stack, at a member of a view; none where memory runs out.
fn make_layers(
    alloc: Global,
    maker: &mut Maker,
    places: u8,
    pool: &mut Pool,
    membership: Membership,
) -> Result<Vec<FileLayer>, AllocError>
    requires places { places ≡ length (making maker.old).stack }
    requires typed { TypedStack (making maker.old).stack }
    requires made { (making maker.old).made ≤ 2 ^ 62 }
    requires members { (membership.me < membership.count) × (membership.count ≤ members.most_members) }
    ensures all { MakesAll membership.me membership.count membership.ltime (making maker.old) (making maker.new)
        result }
    ensures pool { IfOk result (λ _. pool.new ≡ pool.old) }
{
    let mut layers = Vec::with_capacity(alloc, usize::from(places))?;
    for place in 0..places {
        match FileLayer::new(alloc, maker, place, membership) {
            Ok(layer) => layers.push_reserved(layer),
            Err(error) => {
                close_layers(layers, pool);
                return Err(error);
            }
        }
    }
    Ok(layers)
}

/// What a member of a view works with, with room for `rows` rows with messages.
pub(crate) fn open_works(
    alloc: Global,
    maker: &mut Maker,
    stack: &Stack,
    view: View,
    id: u8,
    rows: u32,
) -> Result<Works, AllocError>
    requires same { (making maker.old).stack ≡ stack_tree stack.now }
    requires typed { TypedStack (stack_tree stack.now) }
    requires made { (making maker.old).made ≤ 2 ^ 62 }
    requires member { is_some (members.rank view id) ≡ true }
    requires rows { rows ≡ rows_of (stack_tree stack.now) (members.member_count view) }
    requires few { rows ≤ most_rows }
    ensures { OpensWorks (stack_tree stack.now) view id (making maker.old) (making maker.new) result }
{
    let me = match rank(view, id) {
        Some(me) => me,
        None => unreachable!(),
    };
    let membership = Membership {
        me: u32::from(me),
        count: member_count(view),
        ltime: view.ltime,
    };
    let mut pool = Pool::with_slots(alloc, rows + SLOTS_BEYOND)?;
    let lists = Lists::fresh(alloc, stack)?;
    match make_layers(alloc, maker, stack.places(), &mut pool, membership) {
        Ok(layers) => {
            let Lists { tasks, outs } = lists;
            Ok(Works {
                layers,
                pool,
                tasks,
                outs,
            })
        }
        Err(error) => {
            lists.close();
            Err(error)
        }
    }
}

/// The plans of a group that is to be opened, laid out where its members run by code.
pub(crate) fn lay_out(alloc: Global, opening: Opening<'_>) -> Result<Layouts, Memory>
    ensures { IfOk result (AreLaidOut (stack_in opening.entry) (plans_in opening.entry)) }
{
    match opening.codes {
        Some(_) => Layouts::of(alloc, opening.stack, opening.plans),
        None => Ok(Layouts::new(alloc)),
    }
}

/// What a member of a view works with, and room for runs of its code.
pub(crate) fn open_kit(
    alloc: Global,
    maker: &mut Maker,
    opening: Opening<'_>,
    view: View,
    id: u8,
    rows: u32,
) -> Result<Kit, Memory>
    requires opening { CanOpen (2 ^ 62) (making maker.old) opening }
    requires member { is_some (members.rank view id) ≡ true }
    requires rows { rows ≡ rows_of (stack_in opening) (members.member_count view) }
    requires few { rows ≤ most_rows }
    ensures works { OpensKit (stack_in opening.entry) view id (making maker.old) (making maker.new) result }
    ensures spare { IfOk result (λ kit. IsSpare (codes_in opening.entry) (plans_in opening.entry) kit.scratch) }
{
    let scratch = open_scratch(alloc, opening.codes, opening.plans)?;
    match open_works(alloc, maker, opening.stack, view, id, rows) {
        Ok(works) => Ok(Kit { works, scratch }),
        Err(_) => {
            close_scratch(scratch);
            Err(Memory)
        }
    }
}

/// Ends the layers of a member and what they worked with.
pub(crate) fn close_works(works: Works)
    requires order { AllByRecursion (IsInOrder works.pool) works.layers.items }
    requires covers { Covers works.pool (refs_in works) }
    requires empty { (works.tasks.items ≡ []) × (works.outs.items ≡ []) }
{
    let Works {
        layers,
        mut pool,
        tasks,
        outs,
    } = works;
    close_layers(layers, &mut pool);
    let lists = Lists { tasks, outs };
    lists.close();
}
