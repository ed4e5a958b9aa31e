//! The outputs of a step.

ghost use Rattle.std.specs.Prelude.{◌≡◌, ◌<◌, ◌≤◌, true, false, List, [], ◌∷◌, ◌++◌, map, length, slice_get, is_some};
ghost use Rattle.std.specs.Prelude.{Some, None, IfOk};
ghost use Rattle.std.specs.List.{filter_map};
ghost use Rattle.stack_mean.specs.Acceptance.{largest_weight};
ghost use Rattle.stack_mean.specs.Plan.{Plan};
ghost use Rattle.stack_mean.specs.Plans.{plans_limit};
ghost use Rattle.msg_core.specs.Parts.{longest_body};
ghost use Rattle.stack_judge.specs.Answer.{stack_tree};
ghost use Rattle.layer_mean.specs.Envelope.{event_in};
ghost use Rattle.layer_mean.specs.Event.{carries};
ghost use Rattle.pool_message.specs.Seen.{event_seen, EventLies};
ghost use Rattle.run_mean.specs.Common.{with_plans};
ghost use Rattle.run_mean.specs.Member.{announced_ranks, output_of, Output};
ghost use Rattle.step_outputs.specs.Gathered.{full_output};
ghost use Rattle.step_outputs.specs.Views.{output_meant};

use crate::kept::{
    announces, body_of, keep, keep_bytes, shown, span_after, what_bare, what_carried, what_of,
};
use crate::list::KeptList;
use crate::view::OutputView;
use layer_mean::Envelope;
use layer_words::Dir;
use msg_core::{Headers, LONGEST_BODY, View};
use packet_mean::Here;
use pool_message::PoolEvent;
use slot_pool::Pool;
use stack_judge::Stack;
use std::alloc::{AllocError, Global};
use std::marker::Model;

/// The outputs of a step of a member, in order. All memory is taken at first: for as many outputs as the stack's
/// weight, each with a body of 8,192 bytes, of which only what is used is ever touched.
#[derive(Drop)]
pub struct Outputs {
    here: Here,
    list: KeptList,
    /// The bodies, one after the other.
    bytes: Vec<u8>,
    places: usize,
}

impl Model for Outputs {
    ghost use Rattle.std.specs.Prelude.{map, vec_capacity};
    ghost use Rattle.step_outputs.specs.Gathered.{Gathered};
    ghost use Rattle.step_outputs.specs.Kept.{output_in, AreKept};

    ghost Value = { Gathered };

    ghost view = { λ o. record {
      here = o.here;
      outputs = map (output_in o.here o.bytes.items) o.list.items;
      places = o.places;
    } };

    ghost invariant = { λ o. AreKept o.places o.list.capacity (vec_capacity o.bytes) o.bytes.items o.list.items };
}

impl Outputs {
    /// No output, with places for all that a step of a stack may have.
    pub fn new(alloc: Global, stack: &Stack) -> Result<Outputs, AllocError>
        ensures none { IfOk result (λ o. o.outputs ≡ []) }
        ensures places { IfOk result (λ o. o.places ≡ largest_weight (stack_tree stack.now)) }
    {
        let places = stack.weight() as usize;
        Ok(Outputs {
            here: Here {
                group: 0,
                stamp: 0,
                view: View { ltime: 0, mask: 0 },
                rank: 0,
            },
            list: KeptList::with_places(alloc, places)?,
            bytes: Vec::with_capacity(alloc, places * LONGEST_BODY as usize)?,
            places,
        })
    }

    /// Begins with the outputs of a step of the member that is here.
    pub fn begin(&mut self, here: Here)
        ensures { self.new ≡ record self.old { here = here; outputs = [] } }
    {
        self.here = here;
        self.list.clear();
        self.bytes.clear();
    }

    /// Lets all outputs go.
    pub fn clear(&mut self)
        ensures { self.new ≡ record self.old { outputs = [] } }
    {
        self.list.clear();
        self.bytes.clear();
    }

    /// Puts an event that leaves the stack, going up or down, after the others, as the output that it is.
    pub fn put(&mut self, direction: Dir, event: &PoolEvent, pool: &Pool)
        requires lies { EventLies pool.now event.now }
        requires brings { is_some event.now.message ≡ carries event.now.kind }
        requires room { length self.old.outputs < self.old.places }
        ensures { self.new ≡ record self.old {
          outputs = self.old.outputs ++ (output_of self.old.here (direction, event_seen pool.now event.now), None) ∷
              [];
        } }
    {
        let body = keep_bytes(body_of(event, pool), &mut self.bytes);
        let what = what_of(&self.here, direction, event);
        keep(&mut self.list, what, event, body);
    }

    /// Puts an event that leaves the stack, with a message of these headers and a copy of these bytes, after the
    /// others, as the output that it is.
    pub fn put_content(
        &mut self,
        direction: Dir,
        envelope: Envelope,
        headers: &Headers,
        body: &[u8],
    )
        requires carries { carries envelope.kind ≡ true }
        requires few { length body.now ≤ longest_body }
        requires room { length self.old.outputs < self.old.places }
        ensures { self.new ≡ record self.old {
          outputs = self.old.outputs
              ++ full_output self.old.here
              (direction, event_in envelope (Some (record { headers = headers.now; body = body.now }))) ∷ [];
        } }
    {
        let what = what_carried(&self.here, direction, envelope);
        let span = span_after(body, &self.bytes);
        self.list.push(what, headers, span);
        keep_bytes(body, &mut self.bytes);
    }

    /// Puts an event that leaves the stack without a message after the others, as the output that it is.
    pub fn put_bare(&mut self, direction: Dir, envelope: Envelope)
        requires carries { carries envelope.kind ≡ false }
        requires room { length self.old.outputs < self.old.places }
        ensures { self.new ≡ record self.old
            { outputs = self.old.outputs ++ full_output self.old.here (direction, event_in envelope None) ∷ [] } }
    {
        let body = keep_bytes(&[], &mut self.bytes);
        let what = what_bare(direction, envelope);
        self.list.push_bare(what, body);
    }

    /// Gives plans, of which there are `count`, to outputs that are sent in full: each packet, and each send that has
    /// nowhere to go, takes one number, in order, from `first` on.
    pub fn send_short(&mut self, first: u32, count: u32)
        requires { count ≤ plans_limit }
        ensures { (plans : List Plan) → length plans ≡ count → (outs : List Output) →
            self.old.outputs ≡ map (λ o. (o, None)) outs →
            self.new ≡ record self.old { outputs = with_plans plans (Some first) outs } }
    {
        self.list.number(first, count);
    }

    /// How many there are.
    pub fn len(&self) -> usize
        ensures { result ≡ length self.now.outputs }
    {
        self.list.len()
    }

    /// That there are no more than there are places for.
    pub fn law_places_for_all(&self)
        ensures { length self.now.outputs ≤ self.now.places }
    {
        let _list = &self.list;
    }

    /// Where they come from.
    pub fn here(&self) -> Here
        ensures { result ≡ self.now.here }
    {
        self.here
    }

    /// The output number `k`, the first being 0.
    pub fn at(&self, k: usize) -> OutputView<'_>
        requires { k < length self.now.outputs }
        ensures { slice_get self.now.outputs k ≡ Some (output_meant self.now.here result) }
    {
        let kept = &self.list.slice()[k];
        let from = kept.body.from;
        shown(kept, &self.bytes[from..from + kept.body.len])
    }

    /// The ranks of the first view that is announced, as bits, if one is.
    pub fn first_announced(&self) -> Option<u32>
        ensures { result ≡ slice_get (filter_map announced_ranks (map (λ o. o.0) self.now.outputs)) 0 }
    {
        for kept in self.list.slice() {
            if let Some(ranks) = announces(kept) {
                return Some(ranks);
            }
        }
        None
    }
}
