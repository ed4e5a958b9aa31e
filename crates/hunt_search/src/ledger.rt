//! Steps that happen in a group, and what is noted of them.

use crate::error::SearchError;
use crate::notes::{Content, Deed, Name, Note, number_of};
use crate::schedule::{Act, Body, Source, Step};
use hunt_ground::Group;
use msg_core::Dest;
use script_mean::{Bytes, ScriptEvent};
use std::alloc::Global;
use step_outputs::OutputView;
use view_core::{Change, Did, Stepped};

/// The packets that a step sent: the number of the first, and how many there are.
#[derive(Clone, Copy)]
pub(crate) struct Sent {
    pub first: u64,
    pub count: u32,
}

/// The packets of each step by its name, to whom those of the last step go, and what was noted.
#[derive(Drop)]
pub(crate) struct Ledger {
    sent: Vec<Sent>,
    dests: Vec<Dest>,
    notes: Vec<Note>,
}

impl Ledger {
    /// A ledger of no steps, which takes no memory yet.
    pub(crate) fn new(alloc: Global) -> Ledger {
        Ledger {
            sent: Vec::new(alloc),
            dests: Vec::new(alloc),
            notes: Vec::new(alloc),
        }
    }

    /// Forgets all, with room for the packets of this many steps.
    pub(crate) fn clear(&mut self, steps: u32) -> Result<(), SearchError> {
        self.notes.clear();
        self.sent.clear();
        self.sent
            .resize(steps as usize, Sent { first: 0, count: 0 })?;
        Ok(())
    }

    /// What was noted, in the order in which it happened.
    pub(crate) fn notes(&self) -> &[Note] {
        self.notes.as_slice()
    }

    /// How many packets each step sent, by its name.
    pub(crate) fn counts(&self, alloc: Global) -> Result<Vec<u32>, SearchError> {
        let mut counts = Vec::with_capacity(alloc, self.sent.len())?;
        for sent in self.sent.as_slice() {
            counts.push(sent.count)?;
        }
        Ok(counts)
    }

    /// To whom the packets of the last step that was taken go.
    pub(crate) fn dests(&self) -> &[Dest] {
        self.dests.as_slice()
    }

    /// A step as an event of a script, if the packet that it gives was sent.
    pub(crate) fn event_of(
        &self,
        alloc: Global,
        step: Step,
    ) -> Result<Option<ScriptEvent>, SearchError> {
        match step.act {
            Act::Cast(body) => Ok(Some(ScriptEvent::Cast(
                step.member,
                Bytes::of(bytes_of(alloc, body)?),
            ))),
            Act::Send(rank, body) => Ok(Some(ScriptEvent::Send(
                step.member,
                u32::from(rank),
                Bytes::of(bytes_of(alloc, body)?),
            ))),
            Act::Leave => Ok(Some(ScriptEvent::Leave(step.member))),
            Act::Tick(moment) => Ok(Some(ScriptEvent::Tick(step.member, moment))),
            Act::Give(source) => Ok(self.give(source, step.member)),
        }
    }

    /// The packet reaches the member, if it was sent.
    fn give(&self, source: Source, member: u8) -> Option<ScriptEvent> {
        let sent = self.sent.get(source.step as usize)?;
        if source.place >= sent.count {
            return None;
        }
        let number = sent.first.checked_add(u64::from(source.place))?;
        let number = u32::try_from(number).ok()?;
        Some(ScriptEvent::Give(number, member))
    }

    /// A step happens, if it can: the packet that it gives was sent, and the member took it.
    pub(crate) fn play(
        &mut self,
        alloc: Global,
        group: &mut Group,
        step: Step,
    ) -> Result<Option<Stepped>, SearchError> {
        let Some(event) = self.event_of(alloc, step)? else {
            return Ok(None);
        };
        let first = group.next_number();
        let fed = group.feed(&event);
        drop(event);
        match fed? {
            Some(Did::Stepped(stepped)) => {
                self.note(group, step, first, stepped)?;
                Ok(Some(stepped))
            }
            _ => Ok(None),
        }
    }

    /// Notes what a step yielded.
    fn note(
        &mut self,
        group: &Group,
        step: Step,
        first: u64,
        stepped: Stepped,
    ) -> Result<(), SearchError> {
        let Stepped::Taken { common: _, change } = stepped else {
            return Ok(());
        };
        self.note_outputs(group, step.member)?;
        let count = u32::try_from(self.dests.len()).unwrap_or(u32::MAX);
        if let Some(sent) = self.sent.get_mut(step.name as usize) {
            *sent = Sent { first, count };
        }
        match change {
            Some(Change::Into(view)) => self.put(
                step.member,
                Deed::Entered(Name {
                    ltime: view.ltime,
                    mask: view.mask,
                }),
            ),
            Some(Change::Out) => self.put(step.member, Deed::Left),
            None => Ok(()),
        }
    }

    /// Notes the deliveries among the outputs, and to whom the packets go.
    fn note_outputs(&mut self, group: &Group, member: u8) -> Result<(), SearchError> {
        let outputs = group.outputs();
        self.dests.clear();
        for k in 0..outputs.len() {
            match outputs.at(k) {
                OutputView::Cast(peer, body) => {
                    let body = number_of(body);
                    self.put(member, Deed::Delivered(Content { peer, body }))?;
                }
                OutputView::Packet(packet) => self.dests.push(packet.dest)?,
                _ => {}
            }
        }
        Ok(())
    }

    fn put(&mut self, member: u8, deed: Deed) -> Result<(), SearchError> {
        self.notes.push(Note { member, deed })?;
        Ok(())
    }
}

/// The bytes of a body.
fn bytes_of(alloc: Global, body: Body) -> Result<Vec<u8>, SearchError> {
    let mut bytes = Vec::with_capacity(alloc, usize::from(body.count))?;
    put_bytes(body, &mut bytes)?;
    Ok(bytes)
}

fn put_bytes(body: Body, bytes: &mut Vec<u8>) -> Result<(), SearchError> {
    for k in 0..body.count {
        bytes.push(body.first.wrapping_add(k))?;
    }
    Ok(())
}
