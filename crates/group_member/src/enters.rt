//! The task with which a step begins.

ghost use Rattle.std.specs.Prelude.{◌≡◌, ◌<◌, ◌≤◌, [], ◌∷◌, drop, length};
ghost use Rattle.circular_buffer.specs.Buffer.{buffer};
ghost use Rattle.layer_words.specs.declared.events.Dir.TheVariants as dir;
ghost use Rattle.layer_words.specs.declared.events.Kind.TheVariants as kind;
ghost use Rattle.packet_mean.specs.Plan as mean;
ghost use Rattle.stack_judge.specs.Answer.{stack_tree};
ghost use Rattle.msg_core.specs.Parts.{longest_body};
ghost use Rattle.slot_pool.specs.Held.{IsFull};
ghost use Rattle.stack_queue.specs.Pending.{first_task};
ghost use Rattle.stack_queue.specs.Put.{carrying_task, PutLast};
ghost use Rattle.group_member.specs.Entering.{Brings};
ghost use Rattle.group_member.specs.Judged.{entry_meant, body_of, LiesWithin};
ghost use Rattle.group_member.specs.Stepping.{stack_of};

use crate::entry::Entry;
use crate::ground::Ground;
use layer_mean::Envelope;
use layer_words::{Dir, Kind};
use msg_core::Headers;
use packet_full::Scan;
use packet_short::kind_of;
use slot_pool::Pool;
use stack_judge::Stack;
use stack_queue::{BareTask, Tasks};

/// A task with a message of these headers and a copy of these bytes, in a pool that isn't full, becomes the last.
#[inline(always)]
fn carry(task: BareTask, headers: &Headers, body: &[u8], tasks: &mut Tasks, pool: &mut Pool)
    requires fits { length body.now ≤ longest_body }
    requires room { IsFull pool.old → ⊥ }
    requires places { length tasks.old.items < tasks.old.capacity }
    ensures { PutLast pool.old tasks.old (carrying_task task (record { headers = headers.now; body = body.now }))
        pool.new tasks.new }
{
    if !tasks.push_put(task, headers, body, pool) {
        unreachable!();
    }
}

/// The envelope of an event of the application or of a packet.
fn of_peer(kind: Kind, peer: u32) -> Envelope
    ensures { result ≡ record { kind = kind; peer = peer; a = 0; b = 0 } }
{
    Envelope {
        kind,
        peer,
        a: 0,
        b: 0,
    }
}

/// What entered becomes the only task, with its message in a pool that isn't full.
pub(crate) fn enter(entry: Entry<'_>, ground: &Ground<'_>, tasks: &mut Tasks, pool: &mut Pool)
    requires lies { LiesWithin entry }
    requires fits { length (body_of entry) ≤ longest_body }
    requires room { IsFull pool.old → ⊥ }
    requires bare { ground.now.bare.now ≡ [] }
    requires none { tasks.old.items ≡ [] }
    requires places { 0 < tasks.old.capacity }
    ensures brings { Brings (stack_of ground.now) ground.now.here.now.rank pool.old pool.new
        (entry_meant ground.now.here.now entry.entry) (first_task tasks.new.items) }
    ensures only { tasks.new ≡ buffer (first_task tasks.new.items ∷ []) tasks.old.capacity }
{
    match entry {
        Entry::Cast(body) => {
            let envelope = of_peer(Kind::Cast, u32::from(ground.here.rank));
            enter_above(envelope, body, ground, tasks, pool);
        }
        Entry::Send(to, body) => {
            enter_above(of_peer(Kind::Send, to), body, ground, tasks, pool);
        }
        Entry::Leave => tasks.push_bare(leaving(ground.stack)),
        Entry::Tick(moment) => tasks.push_bare(ticking(moment)),
        Entry::Packet(scan, bytes, _) => enter_packet(scan, bytes, tasks, pool),
    }
}

/// The application's leave, at the top.
fn leaving(stack: &Stack) -> BareTask
    ensures { result ≡ record {
      at = length (stack_tree stack.now);
      direction = dir.Down;
      envelope =
          record { kind = kind.Leave; peer = 0; a = 0; b = 0 };
    } }
{
    BareTask {
        at: u16::from(stack.places()),
        direction: Dir::Down,
        envelope: of_peer(Kind::Leave, 0),
    }
}

/// A tick of the clock at this moment, at the lowest place.
fn ticking(moment: u32) -> BareTask
    ensures { result ≡ record
        { at = 1; direction = dir.Up; envelope = record { kind = kind.Timer; peer = 0; a = moment; b = 0 } } }
{
    BareTask {
        at: 1,
        direction: Dir::Up,
        envelope: Envelope {
            kind: Kind::Timer,
            peer: 0,
            a: moment,
            b: 0,
        },
    }
}

/// A cast or a send of the application becomes the last task, at the top, without a header.
#[inline(always)]
fn enter_above(
    envelope: Envelope,
    body: &[u8],
    ground: &Ground<'_>,
    tasks: &mut Tasks,
    pool: &mut Pool,
)
    requires fits { length body.now ≤ longest_body }
    requires bare { ground.now.bare.now ≡ [] }
    requires room { IsFull pool.old → ⊥ }
    requires places { length tasks.old.items < tasks.old.capacity }
    ensures { PutLast pool.old tasks.old
        (carrying_task (record { at = length (stack_of ground.now); direction = dir.Down; envelope = envelope })
        (record { headers = []; body = body.now })) pool.new tasks.new }
{
    let task = BareTask {
        at: u16::from(ground.stack.places()),
        direction: Dir::Down,
        envelope,
    };
    carry(task, ground.bare, body, tasks, pool);
}

/// A packet that came becomes the last task, at the lowest place.
fn enter_packet(scan: &Scan, bytes: &[u8], tasks: &mut Tasks, pool: &mut Pool)
    requires lies { scan.now.body ≤ length bytes.now }
    requires fits { length (drop scan.now.body bytes.now) ≤ longest_body }
    requires room { IsFull pool.old → ⊥ }
    requires places { length tasks.old.items < tasks.old.capacity }
    ensures { PutLast pool.old tasks.old (carrying_task
        (record {
          at = 1;
          direction = dir.Up;
          envelope =
              record { kind = mean.kind_of scan.now.dest; peer = scan.now.sender; a = 0; b = 0 };
        })
        (record { headers = scan.now.headers; body = drop scan.now.body bytes.now })) pool.new tasks.new }
{
    let task = BareTask {
        at: 1,
        direction: Dir::Up,
        envelope: of_peer(kind_of(scan.dest), u32::from(scan.sender)),
    };
    carry(
        task,
        &scan.headers,
        &bytes[scan.body as usize..],
        tasks,
        pool,
    );
}
