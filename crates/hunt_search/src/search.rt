//! Runs, one after the other, and what is found in them.

ghost use Rattle.std.specs.Prelude.{◌≡◌, ◌+◌, IfOk, OnOk};
ghost use Rattle.bypass_laws.specs.Making.{IsSound};
ghost use Rattle.stack_judge.specs.Answer.{stack_tree};

use crate::error::SearchError;
use crate::judge::is_broken;
use crate::ledger::Ledger;
use crate::reduce::reduce;
use crate::schedule::{Course, Schedule, Step};
use crate::text::Text;
use crate::wander::Wander;
use audit_mean::Law;
use hunt_ground::{Ground, Group};
use hunt_mean::Style;
use msg_core::MOST_MEMBERS;
use stack_judge::Stack;
use std::alloc::Global;
use std::marker::Model;

/// What is looked for: a law that runs of this many members and events are to break, and what happens in them above
/// all.
#[derive(Clone, Copy)]
pub struct Aim {
    pub law: Law,
    pub members: u8,
    pub events: u32,
    pub style: Style,
}

/// A search over a stack, with what groups begin with, what is noted of a run, and the group of the last run, in whose
/// memory the next one begins, if it has as many members; and how many runs were made and judged, which is all that
/// contracts see. It can't be let go, only closed.
pub struct Search {
    alloc: Global,
    aim: Aim,
    ground: Ground,
    ledger: Ledger,
    spare: Option<Group>,
    made: u64,
}

impl Model for Search {
    ghost use Rattle.std.specs.Prelude.{ℕ};

    ghost Value = { ℕ };

    ghost view = { λ s. s.made };
}

impl Search {
    /// A search over a stack that is accepted, before its first run.
    pub fn new(alloc: Global, stack: Stack, aim: Aim) -> Result<Search, SearchError>
        requires { IsSound (stack_tree stack) }
        ensures { IfOk result (λ search. search ≡ 0) }
    {
        Ok(Search {
            alloc,
            aim,
            ground: Ground::of(alloc, stack)?,
            ledger: Ledger::new(alloc),
            spare: None,
            made: 0,
        })
    }

    /// Makes the run of a number and judges it, and answers its script, made small, where it breaks the law.
    pub fn run(&mut self, number: u64) -> Result<Option<Vec<u8>>, SearchError>
        ensures { OnOk result (self.new ≡ self.old + 1) }
    {
        let Some(made) = self.made.checked_add(1) else {
            return Err(SearchError::Memory);
        };
        let mut schedule = self.wander(number)?;
        if !self.is_broken(schedule.members)? {
            self.made = made;
            return Ok(None);
        }
        reduce(self, number, &mut schedule)?;
        let script = self.script_of(number, &schedule)?;
        self.made = made;
        Ok(Some(script))
    }

    /// Where a search takes its memory.
    pub(crate) fn alloc(&self) -> Global {
        self.alloc
    }

    /// Whether the run that was made last breaks the law.
    pub(crate) fn is_broken(&self, members: u8) -> Result<bool, SearchError> {
        is_broken(self.alloc, self.aim.law, members, self.ledger.notes())
    }

    /// Whether a schedule breaks the law.
    pub(crate) fn breaks(&mut self, schedule: &Schedule) -> Result<bool, SearchError> {
        self.breaks_before(schedule, schedule.steps.len())
    }

    /// Whether the steps of a schedule before a place break the law.
    pub(crate) fn breaks_before(
        &mut self,
        schedule: &Schedule,
        place: usize,
    ) -> Result<bool, SearchError> {
        self.perform(schedule, place)?;
        self.is_broken(schedule.members)
    }

    /// Begins a group of this many members, or of the nearest number that there may be, in the memory of the last group
    /// where that can begin again.
    fn open(&mut self, members: u8) -> Result<Group, SearchError> {
        let members = members.clamp(1, MOST_MEMBERS);
        if let Some(group) = renewed(self.spare.take(), members) {
            return Ok(group);
        }
        Ok(self.ground.begin(self.alloc, members)?)
    }

    /// Keeps a group in whose memory the next one may begin.
    fn put_by(&mut self, group: Group) {
        close(self.spare.replace(group));
    }

    /// Lets it go.
    pub fn close(self) {
        let Search {
            alloc: _,
            aim: _,
            ground: _,
            ledger: _,
            spare,
            made: _,
        } = self;
        close(spare);
    }

    /// Makes the run of a number, whose steps are drawn as it goes on.
    fn wander(&mut self, number: u64) -> Result<Schedule, SearchError> {
        let events = self.aim.events;
        let members = self.aim.members;
        let course = Course { first: &[], events };
        self.follow(number, members, course)
    }

    /// Makes the run of a number that begins as its course says, and whose other steps are drawn as it goes on.
    pub(crate) fn follow(
        &mut self,
        number: u64,
        members: u8,
        course: Course<'_>,
    ) -> Result<Schedule, SearchError> {
        let mut wander = Wander::new(self.alloc, members, number, self.aim.style)?;
        self.ledger.clear(course.events)?;
        let mut group = self.open(members)?;
        let steps = wander_on(
            self.alloc,
            &mut self.ledger,
            &mut group,
            &mut wander,
            course,
        );
        self.put_by(group);
        Ok(Schedule {
            members,
            names: course.events,
            steps: steps?,
        })
    }

    /// How many packets each step of the run that was made last sent, by its name.
    pub(crate) fn counts(&self) -> Result<Vec<u32>, SearchError> {
        self.ledger.counts(self.alloc)
    }

    /// Makes the run of the steps of a schedule before a place.
    fn perform(&mut self, schedule: &Schedule, place: usize) -> Result<(), SearchError> {
        let count = place.min(schedule.steps.len());
        self.ledger.clear(schedule.names)?;
        let mut group = self.open(schedule.members)?;
        let played = play_all(
            self.alloc,
            &mut self.ledger,
            &mut group,
            &schedule.steps[..count],
        );
        self.put_by(group);
        played
    }

    /// The script of a schedule that was made from the run of this number.
    fn script_of(&mut self, number: u64, schedule: &Schedule) -> Result<Vec<u8>, SearchError> {
        let mut text = Text::of(self.alloc, number, self.aim.events, schedule.members)?;
        self.ledger.clear(schedule.names)?;
        let mut group = self.open(schedule.members)?;
        let written = write_all(
            self.alloc,
            &mut self.ledger,
            &mut group,
            schedule.steps.as_slice(),
            &mut text,
        );
        self.put_by(group);
        written?;
        Ok(text.into_bytes())
    }
}

/// The group, begun again, if there is one, it has this many members and it can begin again.
fn renewed(group: Option<Group>, members: u8) -> Option<Group> {
    let mut group = group?;
    if group.members() == members && group.restart() {
        return Some(group);
    }
    group.close();
    None
}

/// Lets a group go, if there is one.
fn close(group: Option<Group>) {
    if let Some(group) = group {
        group.close();
    }
}

/// Plays the steps with which a run begins, draws the others and plays each: first unquiet ones, then quiet ones. It
/// answers all steps.
fn wander_on(
    alloc: Global,
    ledger: &mut Ledger,
    group: &mut Group,
    wander: &mut Wander,
    course: Course<'_>,
) -> Result<Vec<Step>, SearchError> {
    let mut steps = Vec::with_capacity(alloc, course.events as usize)?;
    let unquiet = wander.unquiet_of(course.events);
    for name in 0..course.events {
        if name == unquiet {
            wander.calm();
        }
        let step = match course.first.get(name as usize) {
            Some(step) => wander.repeat(*step),
            None => wander.next(name)?,
        };
        steps.push(step)?;
        if let Some(stepped) = ledger.play(alloc, group, step)? {
            wander.follow(group, ledger.dests(), step, stepped)?;
        }
    }
    Ok(steps)
}

/// Plays steps.
fn play_all(
    alloc: Global,
    ledger: &mut Ledger,
    group: &mut Group,
    steps: &[Step],
) -> Result<(), SearchError> {
    for step in steps {
        ledger.play(alloc, group, *step)?;
    }
    Ok(())
}

/// Plays steps, and writes the line of each that can happen.
fn write_all(
    alloc: Global,
    ledger: &mut Ledger,
    group: &mut Group,
    steps: &[Step],
    text: &mut Text,
) -> Result<(), SearchError> {
    for step in steps {
        if let Some(event) = ledger.event_of(alloc, *step)? {
            let put = text.put(&event);
            drop(event);
            put?;
            ledger.play(alloc, group, *step)?;
        }
    }
    Ok(())
}
