//! Members.

use crate::entry::judge;
use crate::error::OpenError;
use crate::ground::{Ground, Took, follow, lent, rank_in};
use crate::kit::Kit;
use crate::opening::Opening;
use crate::opens::{close_works, lay_out, open_kit};
use crate::probes::{Attempt, probed_of, try_common};
use crate::restarts::restart_works;
use crate::scratch::{close_scratch, share};
use crate::steps::take;
use crate::views::Seat;
use code_table::Codes;
use guard_checks::StackChecks;
use live_layer::Maker;
use member_reads::Shown;
use msg_core::{Headers, View};
use packet_full::Scan;
use packet_mean::Here;
use packet_short::{Known, Layouts};
use stack_judge::{MOST_ROWS, Stack};
use stack_shapes::{EntryShapes, PlanStarts, Plans};
use std::alloc::Global;
use std::marker::Model;
use std::rc::Rc;
use step_misses::Probed;
use step_outputs::Outputs;
use view_core::{Input, Refusal, Stepped};
use view_masks::member_count;

/// A member of a group, run layer by layer, or by the code of its bypasses. It takes memory as it begins, and no more.
/// It can't be let go: it is closed.
pub struct Member {
    stack: Rc<Stack>,
    plans: Rc<Plans>,
    entries: Rc<EntryShapes>,
    starts: PlanStarts,
    /// The code of its bypasses, if it runs by these.
    codes: Option<Rc<Codes>>,
    group: u32,
    stamp: u32,
    id: u8,
    /// How many members its first view had.
    most: u8,
    /// The view that it is in, if it is in one, its rank in it, and how many members it has.
    view: Option<View>,
    rank: u8,
    count: u32,
    /// What the last datagram said.
    scan: Scan,
    /// Its plans, laid out where it runs by code.
    layouts: Layouts,
    /// No headers.
    bare: Headers,
    kit: Kit,
}

impl Model for Member {
    ghost use Rattle.group_member.specs.Placed.{Placed};
    ghost use Rattle.group_member.specs.Codes.{placed_code};

    ghost Value = { Placed };

    ghost coded = { placed_code };

    ghost use Rattle.group_member.specs.Placing.{placed_member, IsMember};

    ghost view = { placed_member };

    ghost invariant = { IsMember };
}

impl Member {
    ghost use Rattle.std.specs.Prelude.{◌≡◌, ◌^◌, ◌+◌, ◌≤◌, true, length, is_some, Ok};
    ghost use Rattle.bypass_laws.specs.Making.{IsSound};
    ghost use Rattle.chain_laws.specs.Runs.{TypedStack};
    ghost use Rattle.live_layer.specs.Making.{making};
    ghost use Rattle.run_mean.specs.Mode.{bypass};
    ghost use Rattle.member_laws.specs.Members.{IsChainedMember};
    ghost use Rattle.miss_laws.specs.Told.{AreChecksOf};
    ghost use Rattle.msg_core.specs.View.{rank};
    ghost use Rattle.slot_pool.specs.References.{Exact};
    ghost use Rattle.pool_laws.specs.Room.{slots_beyond};
    ghost use Rattle.stack_mean.specs.Acceptance.{acceptance, largest_weight, rows_of};
    ghost use Rattle.stack_mean.specs.Plans.{plans_of};
    ghost use Rattle.view_core.specs.Steps.{input_meant};
    ghost use Rattle.group_member.specs.Opening.{CanOpen, Opens};
    ghost use Rattle.group_member.specs.Placed.{Steps, StandsAt};
    ghost use Rattle.group_member.specs.Probing.{ProbesMember, StandsWhere};
    ghost use Rattle.group_member.specs.Restarting.{Restarts};

    /// The member of a group that has this id, in its first view, its layers made by the maker of the group's stack. It
    /// runs by the code of the stack's bypasses, if the opening has it. All memory is taken here. Err where its layers
    /// may keep more than 8,192 rows with messages, or where memory runs out.
    pub fn begin(
        alloc: Global,
        maker: &mut Maker,
        opening: Opening<'_>,
        view: View,
        id: u8,
    ) -> Result<Member, OpenError>
        requires opening { CanOpen (2 ^ 62) (making maker.old) opening }
        requires member { is_some (rank view id) ≡ true }
        ensures { Opens opening.entry view id (making maker.old) (making maker.new) result }
    {
        let most = member_count(view) as u8;
        let rows = opening.stack.rows(most);
        if rows > MOST_ROWS {
            return Err(OpenError::TooLarge);
        }
        let stack = opening.stack.clone()?;
        let plans = opening.plans.clone()?;
        let entries = opening.entries.clone()?;
        let codes = share(opening.codes)?;
        let layouts = lay_out(alloc, opening)?;
        let kit = open_kit(alloc, maker, opening, view, id, rows)?;
        Ok(Member {
            stack,
            plans,
            entries,
            starts: opening.starts,
            codes,
            group: opening.group,
            stamp: opening.stamp,
            id,
            most,
            view: Some(view),
            rank: rank_in(view, id),
            count: member_count(view),
            scan: Scan::new(),
            layouts,
            bare: Headers::new(),
            kit,
        })
    }

    /// Takes an input, which makes one step, or refuses it, and then nothing has changed. What came out is told by
    /// `out`, and the visits of the step are added to `visits`.
    pub fn step(&mut self, input: Input<'_>, out: &mut Outputs, visits: &mut u64) -> Stepped
        requires out { out.old.places ≡ largest_weight self.old.stack }
        requires visits { visits.old ≤ 2 ^ 63 }
        ensures step { Steps self.old (input_meant input.entry) self.new out.new.outputs visits.old visits.new result }
        ensures places { out.new.places ≡ out.old.places }
        ensures here { StandsAt self.old out.new.here result }
    {
        out.clear();
        let Some(view) = self.view else {
            return Stepped::Refused(Refusal::Out)
        };
        let id = self.id;
        let here = Here {
            group: self.group,
            stamp: self.stamp,
            view,
            rank: self.rank,
        };
        let known = Known {
            stack: &self.stack,
            plans: &self.plans,
            layouts: &self.layouts,
        };
        let entry = match judge(
            &known,
            &here,
            input,
            &mut self.scan,
            &mut self.kit.scratch.fields,
        ) {
            Ok(entry) => entry,
            Err(reason) => return Stepped::Refused(reason),
        };
        let ground = Ground {
            stack: &self.stack,
            plans: &self.plans,
            entries: &self.entries,
            starts: &self.starts,
            codes: lent(&self.codes),
            bare: &self.bare,
            here: &here,
            count: self.count,
            id,
            most: self.most,
        };
        let Took { common, change } = take(&mut self.kit, &ground, entry, out, visits);
        follow(&mut self.view, &mut self.rank, &mut self.count, id, change);
        Stepped::Taken { common, change }
    }

    /// Tries an input as a common step. If it is one, the step is made by its code, as `step` would make it, and what
    /// came out is told by `out`. Else nothing changes; for a cast, a send or a packet that would be taken, the answer
    /// tells what each case of its entry lacks.
    pub fn probe(&mut self, checks: &mut StackChecks, input: Input<'_>, out: &mut Outputs) -> Probed
        requires mode { self.old.mode ≡ bypass }
        requires sound { IsSound self.old.stack }
        requires checks { AreChecksOf self.old.stack checks.old }
        requires out { out.old.places ≡ largest_weight self.old.stack }
        ensures probed { ProbesMember self.old (input_meant input.entry) self.new out.new.outputs result }
        ensures checks { checks.new ≡ checks.old }
        ensures places { out.new.places ≡ out.old.places }
        ensures here { StandsWhere self.old out.new.here result }
    {
        out.clear();
        let Some(view) = self.view else {
            return Probed::Other
        };
        let id = self.id;
        let here = Here {
            group: self.group,
            stamp: self.stamp,
            view,
            rank: self.rank,
        };
        let known = Known {
            stack: &self.stack,
            plans: &self.plans,
            layouts: &self.layouts,
        };
        let entry = match judge(
            &known,
            &here,
            input,
            &mut self.scan,
            &mut self.kit.scratch.fields,
        ) {
            Ok(entry) => entry,
            Err(_) => return Probed::Other,
        };
        let ground = Ground {
            stack: &self.stack,
            plans: &self.plans,
            entries: &self.entries,
            starts: &self.starts,
            codes: lent(&self.codes),
            bare: &self.bare,
            here: &here,
            count: self.count,
            id,
            most: self.most,
        };
        match try_common(&mut self.kit, &ground, &entry, checks, out) {
            Attempt::Made(change) => {
                follow(&mut self.view, &mut self.rank, &mut self.count, id, change);
                Probed::Common
            }
            Attempt::Left(miss) => probed_of(miss),
        }
    }

    /// Begins again in a view of no more members than its first one had, in the memory that it has, and answers whether
    /// it did. It doesn't where it isn't in that view or has come into a view of fewer members; then nothing has
    /// changed.
    pub fn restart(&mut self, view: View) -> bool
        ensures { Restarts view self.old self.new result }
    {
        let seat = Seat {
            stack: &self.stack,
            most: self.most,
            view,
            id: self.id,
        };
        if restart_works(&mut self.kit.works, seat) {
            self.view = Some(view);
            self.rank = rank_in(view, self.id);
            self.count = member_count(view);
            return true;
        }
        false
    }

    /// Where it is, and what its layers keep.
    pub fn shown(&self) -> Shown<'_>
        ensures { result ≡ self.now.member }
    {
        Shown::of(
            self.view,
            self.kit.works.layers.as_slice(),
            &self.kit.works.pool,
        )
    }

    /// Ends it, and gives its memory back.
    pub fn close(self) {
        let Member {
            stack: _,
            plans: _,
            entries: _,
            starts: _,
            codes: _,
            group: _,
            stamp: _,
            id: _,
            most: _,
            view: _,
            rank: _,
            count: _,
            scan: _,
            layouts: _,
            bare: _,
            kit,
        } = self;
        let Kit { works, scratch } = kit;
        close_works(works);
        close_scratch(scratch);
    }

    /// That its pool has a slot for each row with a message that its layers may keep, and those that a step asks for.
    pub fn has_slots(&self)
        ensures { length self.now.pool ≡ rows_of self.now.stack self.now.most + slots_beyond }
    {
        let _works = &self.kit.works;
    }

    /// That what its layers refer to is all that its pool counts.
    pub fn counts_are_exact(&self)
        ensures { Exact self.now.pool self.now.refs }
    {
        let _works = &self.kit.works;
    }

    /// That what its layers keep is chained.
    pub fn law_chained(&self)
        ensures { IsChainedMember self.now.stack self.now.member }
    {
        let _works = &self.kit.works;
    }

    /// That its stack is typed and accepted, and that its plans are the stack's.
    pub fn law_placed(&self)
        ensures typed { TypedStack self.now.stack }
        ensures plans { self.now.plans ≡ plans_of self.now.stack }
        ensures accepted { acceptance self.now.stack ≡ Ok self.now.stack }
    {
        self.stack.law_accepted();
    }
}
