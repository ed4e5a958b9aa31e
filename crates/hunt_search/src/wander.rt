//! What happens next in a run, drawn by its habits.

use crate::error::SearchError;
use crate::habits::Habits;
use crate::network::{Due, Network, only};
use crate::random::Random;
use crate::schedule::{Act, Body, Step};
use hunt_ground::Group;
use hunt_mean::Style;
use msg_core::Dest;
use std::alloc::Global;
use view_core::{Change, Stepped};

/// The most casts in a row.
const LONGEST_BURST: u32 = 40;

/// The most packets that are lost in a row.
const LOST_IN_ROW: u32 = 8;

/// By how many milliseconds the clock goes on at most in a run that becomes quiet: so few that nobody is suspected.
const QUIET_STRIDE: u32 = 60;

/// A run as it goes on: what was drawn last, how the run behaves, what is on its way, the moment of all clocks, how
/// many bodies there were, whose clock ticks next where it is quiet, who is out, how many more casts in a row come,
/// and whose these are.
#[derive(Drop)]
pub(crate) struct Wander {
    random: Random,
    habits: Habits,
    network: Network,
    members: u8,
    moment: u32,
    bodies: u8,
    turn: u8,
    is_quiet: bool,
    gone: u32,
    burst: u32,
    caster: u8,
}

impl Wander {
    /// A run of this many members, by its number, in a style.
    pub(crate) fn new(
        alloc: Global,
        members: u8,
        run: u64,
        style: Style,
    ) -> Result<Wander, SearchError> {
        let mut random = Random::of(run);
        let habits = Habits::draw(&mut random, style, members);
        Ok(Wander {
            random,
            habits,
            network: Network::new(alloc, members, habits.most_dues)?,
            members,
            moment: 0,
            bodies: 0,
            turn: 0,
            is_quiet: false,
            gone: 0,
            burst: 0,
            caster: 0,
        })
    }

    /// How many of this many events are unquiet.
    pub(crate) fn unquiet_of(&self, events: u32) -> u32 {
        (events / 4).saturating_mul(self.habits.unquiet)
    }

    /// From here on nothing is lost, and the members become quiet.
    pub(crate) fn calm(&mut self) {
        self.habits = self.habits.quiet();
        self.network.mend();
        self.is_quiet = true;
    }

    /// The next step, by this name.
    pub(crate) fn next(&mut self, name: u32) -> Result<Step, SearchError> {
        let (member, act) = self.draw()?;
        Ok(Step { name, member, act })
    }

    fn draw(&mut self) -> Result<(u8, Act), SearchError> {
        if self.is_quiet {
            return match self.give()? {
                Some(given) => Ok(given),
                None => Ok(self.tick_in_turn()),
            };
        }
        if self.random.percent(self.habits.parts) {
            self.part();
        }
        if self.habits.crashes > 0 && self.random.percent(self.habits.crashes) {
            self.crash();
        }
        if let Some(cast) = self.cast_in_row() {
            return Ok(cast);
        }
        let often = self.random.below(100);
        let casts = self.habits.casts;
        let sends = casts.saturating_add(self.habits.sends);
        let ticks = sends.saturating_add(self.habits.ticks);
        let leaves = ticks.saturating_add(self.habits.leaves);
        if often < casts {
            return self.cast_or_give();
        }
        if often < sends {
            return Ok(self.send());
        }
        if often < ticks {
            return Ok(self.tick());
        }
        if often < leaves && self.random.percent(10) {
            return Ok((self.someone(), Act::Leave));
        }
        match self.give()? {
            Some(given) => Ok(given),
            None => Ok(self.cast()),
        }
    }

    /// The network parts, or a member falls silent, or all is well again.
    fn part(&mut self) {
        if self.habits.in_three {
            self.part_in_three();
            return;
        }
        match self.random.below(3) {
            0 => self.network.side = self.random.below(u32::MAX),
            1 => self.network.silent = only(self.someone()),
            _ => self.network.mend(),
        }
    }

    /// The network heals, or parts into three; then what can't come any more may be lost.
    fn part_in_three(&mut self) {
        let was_parted = self.network.is_parted();
        self.network.mend();
        if was_parted && self.random.percent(70) {
            return;
        }
        for member in 0..self.members {
            match self.random.below(3) {
                0 => self.network.side |= only(member),
                1 => self.network.other_side |= only(member),
                _ => {}
            }
        }
        if self.random.percent(50) {
            self.network.lose_parted();
        }
    }

    /// A member crashes, if more may. Of what it sent all, some or nothing still comes.
    fn crash(&mut self) {
        if self.habits.most_crashed == 0 {
            return;
        }
        self.habits.most_crashed -= 1;
        let member = self.someone();
        let lost = 50 * self.random.below(3);
        self.network.crash(member);
        for place in (0..self.network.len()).rev() {
            if let Some(due) = self.network.at(place)
                && due.from == member
                && self.random.percent(lost)
            {
                self.network.take(place);
            }
        }
    }

    /// A member that casts many times in a row goes on, or one begins.
    fn cast_in_row(&mut self) -> Option<(u8, Act)> {
        if self.habits.bursts == 0 {
            return None;
        }
        if self.burst == 0 {
            if !self.random.percent(self.habits.bursts) {
                return None;
            }
            self.burst = self.random.below(LONGEST_BURST);
            self.caster = self.someone();
        }
        if !self.is_up(self.caster) || self.random.percent(20) {
            self.burst = self.burst.saturating_sub(4);
            return None;
        }
        self.burst = self.burst.saturating_sub(1);
        let body = self.body();
        Some((self.caster, Act::Cast(body)))
    }

    /// Whether a member is neither out, nor silent, nor crashed.
    fn is_up(&self, member: u8) -> bool {
        (self.gone | self.network.idle()) & only(member) == 0
    }

    /// The first member, from a drawn one on, that is neither out nor silent nor crashed, if there is one.
    fn someone(&mut self) -> u8 {
        let mut member = self.random.member(self.members);
        for _ in 0..32 {
            if self.is_up(member) {
                return member;
            }
            member = self.following(member);
        }
        member
    }

    /// The member after another, and the first after the last.
    fn following(&self, member: u8) -> u8 {
        let next = member.saturating_add(1);
        if next < self.members { next } else { 0 }
    }

    /// A member casts, unless much is on its way.
    fn cast_or_give(&mut self) -> Result<(u8, Act), SearchError> {
        if self.network.len() > self.habits.crowd.saturating_mul(usize::from(self.members))
            && let Some(given) = self.give()?
        {
            return Ok(given);
        }
        Ok(self.cast())
    }

    fn cast(&mut self) -> (u8, Act) {
        let body = self.body();
        (self.someone(), Act::Cast(body))
    }

    fn send(&mut self) -> (u8, Act) {
        let body = self.body();
        let rank = self.random.member(self.members);
        (self.someone(), Act::Send(rank, body))
    }

    /// The body of the next cast or send.
    fn body(&mut self) -> Body {
        self.bodies = self.bodies.wrapping_add(1);
        let count = if self.random.percent(self.habits.long) {
            2 + self.random.below(11) as u8
        } else {
            1
        };
        Body {
            first: self.bodies,
            count,
        }
    }

    fn tick(&mut self) -> (u8, Act) {
        let on = 1 + self.random.below(self.habits.stride.max(1));
        self.moment = self.moment.saturating_add(on);
        (self.someone(), Act::Tick(self.moment))
    }

    /// The clocks of the members that didn't crash tick in turn.
    fn tick_in_turn(&mut self) -> (u8, Act) {
        self.turn = self.following(self.turn);
        for _ in 0..32 {
            if self.network.is_crashed(self.turn) {
                self.turn = self.following(self.turn);
            }
        }
        self.moment = self.moment.saturating_add(QUIET_STRIDE);
        (self.turn, Act::Tick(self.moment))
    }

    /// A packet that can come is given; some that could come before it may be lost.
    fn give(&mut self) -> Result<Option<(u8, Act)>, SearchError> {
        for _ in 0..LOST_IN_ROW {
            let Some((place, due)) = self.coming() else {
                return Ok(None);
            };
            if self.random.percent(self.habits.loses) {
                self.network.take(place);
            } else {
                self.come(place)?;
                return Ok(Some((due.to, Act::Give(due.source))));
            }
        }
        Ok(None)
    }

    /// A packet that can come, and its place.
    fn coming(&mut self) -> Option<(usize, Due)> {
        let count = self.network.len();
        if count == 0 {
            return None;
        }
        let start = if self.random.percent(self.habits.overtakes) {
            self.random.place(count)
        } else {
            0
        };
        let place = self.network.first_from(start)?;
        let due = self.network.at(place)?;
        Some((place, due))
    }

    /// The packet at a place comes: it isn't on its way any more, or it will come again.
    fn come(&mut self, place: usize) -> Result<(), SearchError> {
        if self.random.percent(self.habits.repeats) {
            self.network.put_off(place)
        } else {
            self.network.take(place);
            Ok(())
        }
    }

    /// A step of another run is the next one of this run: its packet has come, and clocks don't go back.
    pub(crate) fn repeat(&mut self, step: Step) -> Step {
        match step.act {
            Act::Give(source) => self.network.arrive(source, step.member),
            Act::Tick(moment) => self.moment = self.moment.max(moment),
            _ => {}
        }
        step
    }

    /// Takes in what a step yielded: the packets that it sent to these are on their way, and a member that is in
    /// another view now hears that view alone.
    pub(crate) fn follow(
        &mut self,
        group: &Group,
        dests: &[Dest],
        step: Step,
        stepped: Stepped,
    ) -> Result<(), SearchError> {
        let Stepped::Taken { common: _, change } = stepped else {
            return Ok(());
        };
        let view = group.outputs().here().view;
        self.network.send(view, dests, step.name, step.member)?;
        match change {
            Some(Change::Into(view)) => self.network.enter(step.member, view.ltime),
            Some(Change::Out) => {
                self.gone |= only(step.member);
                self.network.leave(step.member)
            }
            None => Ok(()),
        }
    }
}
