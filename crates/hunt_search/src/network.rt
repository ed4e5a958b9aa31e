//! The packets that are on their way.

ghost use Rattle.std.specs.Prelude.{◌≡◌, length};

use crate::error::SearchError;
use crate::schedule::Source;
use msg_core::{Dest, View};
use std::alloc::Global;

/// A packet on its way from a member to another, and the logical time of the view in which it was sent.
#[derive(Clone, Copy)]
pub(crate) struct Due {
    pub source: Source,
    pub from: u8,
    pub to: u8,
    pub ltime: u32,
}

/// The packets on their way, in the order in which they were sent; those of views that the members to whom they go
/// haven't entered yet; the most of each, where there are more the first is lost; the logical time of each member's
/// view; how many members there are; the members on one side, and those on another, where the network is parted; the
/// members that neither hear nor are heard; and those that crashed.
#[derive(Drop)]
pub(crate) struct Network {
    dues: Vec<Due>,
    waiting: Vec<Due>,
    most: usize,
    ltimes: Vec<u32>,
    members: u8,
    pub side: u32,
    pub other_side: u32,
    pub silent: u32,
    crashed: u32,
}

/// The set of this member alone.
pub(crate) fn only(member: u8) -> u32 {
    if member < 32 { 1u32 << member } else { 0 }
}

impl Network {
    /// A network of this many members, on which nothing is on its way, and may be at most so many packets.
    pub(crate) fn new(alloc: Global, members: u8, most: usize) -> Result<Network, SearchError> {
        Ok(Network {
            dues: Vec::new(alloc),
            waiting: Vec::new(alloc),
            most,
            ltimes: vec![in alloc; 0; usize::from(members)]?,
            members,
            side: 0,
            other_side: 0,
            silent: 0,
            crashed: 0,
        })
    }

    /// How many packets are on their way.
    pub(crate) fn len(&self) -> usize
        ensures { result ≡ length self.now.dues.items }
    {
        self.dues.len()
    }

    /// The network isn't parted, and no member is silent.
    pub(crate) fn mend(&mut self) {
        self.side = 0;
        self.other_side = 0;
        self.silent = 0;
    }

    /// Whether it is parted.
    pub(crate) fn is_parted(&self) -> bool {
        self.side != 0 || self.other_side != 0
    }

    /// A member crashes: what is on its way to it is lost.
    pub(crate) fn crash(&mut self, member: u8) {
        self.crashed |= only(member);
        lose(&mut self.dues, member, u32::MAX);
        lose(&mut self.waiting, member, u32::MAX);
    }

    /// The members that neither do nor hear anything, for now or for good.
    pub(crate) fn idle(&self) -> u32 {
        self.silent | self.crashed
    }

    /// Whether a member crashed.
    pub(crate) fn is_crashed(&self, member: u8) -> bool {
        self.crashed & only(member) != 0
    }

    /// Puts the packets of a step on their way, each to all to whom it goes, in the view in which the step was made.
    pub(crate) fn send(
        &mut self,
        view: View,
        dests: &[Dest],
        step: u32,
        from: u8,
    ) -> Result<(), SearchError> {
        let mut place = 0u32;
        for dest in dests {
            let due = Due {
                source: Source { step, place },
                from,
                to: from,
                ltime: view.ltime,
            };
            self.send_one(due, view.mask, *dest)?;
            place = place.saturating_add(1);
        }
        Ok(())
    }

    /// Puts a packet on its way to each member of a view to whom it goes, except its sender.
    fn send_one(&mut self, due: Due, mask: u32, dest: Dest) -> Result<(), SearchError> {
        let mut rank = 0u8;
        for to in 0..self.members {
            if mask & only(to) != 0 {
                if to != due.from && goes_to(dest, rank) {
                    self.put(Due { to, ..due })?;
                }
                rank = rank.saturating_add(1);
            }
        }
        Ok(())
    }

    /// Puts a packet on its way, or with those that wait for their view. A packet of a view that the member left is
    /// lost, and so is one to a member that crashed.
    fn put(&mut self, due: Due) -> Result<(), SearchError> {
        let ltime = self.ltime_of(due.to);
        if self.is_crashed(due.to) || due.ltime < ltime {
            Ok(())
        } else if due.ltime == ltime {
            put_last(&mut self.dues, self.most, due)
        } else {
            put_last(&mut self.waiting, self.most, due)
        }
    }

    /// The place of the first packet that can come, from a place on.
    pub(crate) fn first_from(&self, start: usize) -> Option<usize> {
        for place in start..self.dues.len() {
            if self.can_come(self.dues[place]) {
                return Some(place);
            }
        }
        None
    }

    /// Whether a packet can come: both members are on one side, and neither is silent.
    fn can_come(&self, due: Due) -> bool {
        let (from, to) = (only(due.from), only(due.to));
        are_together(self.side, from, to)
            && are_together(self.other_side, from, to)
            && self.silent & (from | to) == 0
    }

    /// The packets that can't come are lost.
    pub(crate) fn lose_parted(&mut self) {
        for place in (0..self.dues.len()).rev() {
            if let Some(due) = self.at(place)
                && !self.can_come(due)
            {
                self.take(place);
            }
        }
    }

    /// A packet that is on its way to a member has come.
    pub(crate) fn arrive(&mut self, source: Source, to: u8) {
        for place in 0..self.dues.len() {
            if let Some(due) = self.at(place)
                && due.to == to
                && due.source == source
            {
                self.take(place);
                return;
            }
        }
    }

    fn ltime_of(&self, member: u8) -> u32 {
        match self.ltimes.get(usize::from(member)) {
            Some(ltime) => *ltime,
            None => 0,
        }
    }

    /// The packet at a place, which stays on its way.
    pub(crate) fn at(&self, place: usize) -> Option<Due> {
        self.dues.get(place).copied()
    }

    /// Takes the packet at a place away.
    pub(crate) fn take(&mut self, place: usize) {
        take_at(&mut self.dues, place);
    }

    /// Puts the packet at a place after all others.
    pub(crate) fn put_off(&mut self, place: usize) -> Result<(), SearchError> {
        if place < self.dues.len() {
            let due = self.dues.remove(place);
            self.dues.push(due)?;
        }
        Ok(())
    }

    /// A member is in the view of this logical time: what was sent to it in earlier views is lost, and what waited for
    /// this view is on its way.
    pub(crate) fn enter(&mut self, member: u8, ltime: u32) -> Result<(), SearchError> {
        if let Some(now) = self.ltimes.get_mut(usize::from(member)) {
            *now = ltime;
        }
        lose(&mut self.dues, member, ltime);
        lose(&mut self.waiting, member, ltime);
        admit(&mut self.dues, self.most, &self.waiting, member, ltime)?;
        lose(&mut self.waiting, member, ltime.saturating_add(1));
        Ok(())
    }

    /// A member is in no view any more, and nothing reaches it.
    pub(crate) fn leave(&mut self, member: u8) -> Result<(), SearchError> {
        self.enter(member, u32::MAX)
    }
}

/// Puts a packet after others; where there are this many, the first is lost.
fn put_last(dues: &mut Vec<Due>, most: usize, due: Due) -> Result<(), SearchError> {
    if most > 0 && dues.len() >= most {
        let _ = dues.remove(0);
    }
    dues.push(due)?;
    Ok(())
}

/// Puts those that waited for the view of this logical time at a member after others.
fn admit(
    dues: &mut Vec<Due>,
    most: usize,
    waiting: &[Due],
    member: u8,
    ltime: u32,
) -> Result<(), SearchError> {
    for due in waiting {
        if due.to == member && due.ltime == ltime {
            put_last(dues, most, *due)?;
        }
    }
    Ok(())
}

/// Loses the packets to a member that were sent in views before a logical time.
fn lose(dues: &mut Vec<Due>, member: u8, ltime: u32) {
    for place in (0..dues.len()).rev() {
        match dues.get(place).copied() {
            Some(due) if due.to == member && due.ltime < ltime => take_at(dues, place),
            _ => {}
        }
    }
}

/// Takes the packet at a place away.
fn take_at(dues: &mut Vec<Due>, place: usize) {
    if place < dues.len() {
        let _ = dues.remove(place);
    }
}

/// Whether two members are both among some, or both not.
fn are_together(some: u32, from: u32, to: u32) -> bool {
    (some & from == 0) == (some & to == 0)
}

/// Whether a packet goes to a rank.
fn goes_to(dest: Dest, rank: u8) -> bool {
    match dest {
        Dest::All => true,
        Dest::Rank(other) => other == rank,
    }
}
