//! Ranges of slots.

ghost use Rattle.std.specs.Prelude.{◌+◌, ◌≤◌};
ghost use Rattle.msg_core.specs.Parts.{longest_body};

use slot_pool::{Pool, Slot, SlotRange};

/// Some bytes of a slot: `len` of them from `from` on. It has one reference to the slot.
pub struct Part {
    pub(crate) slot: Slot,
    pub(crate) from: u32,
    pub(crate) len: u32,
    ghost fits: { from + len ≤ longest_body },
}

impl Part {
    ghost use Rattle.std.specs.Prelude.{◌≡◌, [], ◌∷◌, take, drop};
    ghost use Rattle.slot_pool.specs.Held.{bytes_at, range};
    ghost use Rattle.slot_pool.specs.References.{Covers};
    ghost use Rattle.pool_message.specs.Seen.{LiesIn};
    ghost use Rattle.pool_message.specs.Moves.{CanKeep, Kept, Returned, Shortened};

    /// A copy of this part: its bytes in their slot, to which there is one more reference.
    pub(crate) fn keep(&self, pool: &mut Pool) -> Part
        requires there { Covers pool.old (self.now.slot ∷ []) }
        requires room { CanKeep pool.old (self.now.slot ∷ []) }
        ensures same { result ≡ self.now }
        ensures kept { Kept pool.old pool.new (self.now.slot ∷ []) }
    {
        Part {
            slot: pool.keep(&self.slot),
            from: self.from,
            len: self.len,
        }
    }

    /// Ends the reference.
    pub(crate) fn give_back(self, pool: &mut Pool)
        requires { Covers pool.old (self.slot ∷ []) }
        ensures { Returned pool.old pool.new (self.slot ∷ []) }
    {
        let Part {
            slot,
            from: _,
            len: _,
        } = self;
        pool.give_back(slot);
    }

    /// Where its bytes stand.
    pub(crate) fn range(&self) -> SlotRange<'_>
        ensures slot { result.slot.now ≡ self.now.slot }
        ensures from { result.from ≡ self.now.from }
        ensures len { result.len ≡ self.now.len }
    {
        SlotRange {
            slot: &self.slot,
            from: self.from,
            len: self.len,
        }
    }

    /// Its bytes.
    pub(crate) fn bytes<'p>(&'p self, pool: &'p Pool) -> &'p [u8]
        requires { LiesIn pool.now self.now }
        ensures { result.now ≡ range self.now.from self.now.len (bytes_at pool.now self.now.slot) }
    {
        let from = self.from as usize;
        &pool.bytes(&self.slot)[from..from + self.len as usize]
    }

    /// At most `count` bytes of it, from `from` on.
    pub(crate) fn cut(self, from: u32, count: u32) -> Part
        ensures { Shortened (λ bytes. take count (drop from bytes)) self result }
    {
        let Part {
            slot,
            from: start,
            len,
        } = self;
        let skipped = from.min(len);
        Part {
            slot,
            from: start + skipped,
            len: count.min(len - skipped),
        }
    }

    /// Its bytes from `from` on.
    pub(crate) fn tail(self, from: u32) -> Part
        ensures { Shortened (drop from) self result }
    {
        let Part {
            slot,
            from: start,
            len,
        } = self;
        let skipped = from.min(len);
        Part {
            slot,
            from: start + skipped,
            len: len - skipped,
        }
    }
}
