//! One place of the pool's block: a count with a short body, or a link of the list of free places.
ghost use Rattle.std.specs.Prelude.{◌≡◌, ℕ, ◌+◌, ◌-◌, ◌<◌, ◌≤◌, ◌↔◌, List, IsTrue, length, take};

/// The most bytes of a body that lies in its place.
pub(crate) const SHORT: usize = 512;

/// The most bytes of a body.
pub const LONGEST: usize = 8192;

/// With a count of 0 the place is free, and `next` is the free place after it. Otherwise its body has `len` bytes: they
/// are the first of `bytes` where they are at most `SHORT`, and else lie in a place of their own.
#[derive(Clone, Copy)]
pub struct SlotRecord {
    pub(crate) count: u32,
    pub(crate) next: u32,
    pub(crate) len: u32,
    pub(crate) bytes: [u8; SHORT],
}

impl SlotRecord {
    /// A place that was never used.
    pub(crate) fn new() -> SlotRecord
        ensures { result.len ≡ 0 }
    {
        SlotRecord {
            count: 0,
            next: 0,
            len: 0,
            bytes: [0; SHORT],
        }
    }

    /// From now on the place's one reference is to a copy of a short `body`.
    pub(crate) fn hold(&mut self, body: &[u8])
        requires { length body.now ≤ SHORT }
        ensures count { self.new.count ≡ 1 }
        ensures len { self.new.len ≡ length body.now }
        ensures body { take (length body.now) self.new.bytes ≡ body.now }
    {
        self.count = 1;
        self.len = body.len() as u32;
        self.bytes[..body.len()].copy_from_slice(body);
    }

    /// From now on the place's one reference is to a body of `len` bytes that lies elsewhere.
    pub(crate) fn hold_elsewhere(&mut self, len: u32)
        ensures { self.new ≡ record self.old { count = 1; len = len } }
    {
        self.count = 1;
        self.len = len;
    }

    /// Adds a reference to the body in this place.
    pub(crate) fn add_reference(&mut self)
        requires { self.old.count < 4294967295 }
        ensures { self.new ≡ record self.old { count = self.old.count + 1 } }
    {
        self.count += 1;
    }

    /// Ends a reference, and says whether it was the last.
    pub(crate) fn end_reference(&mut self) -> bool
        requires { 0 < self.old.count }
        ensures place { self.new ≡ record self.old { count = self.old.count - 1 } }
        ensures last { IsTrue result ↔ (self.old.count ≡ 1) }
    {
        self.count -= 1;
        self.count == 0
    }
}
