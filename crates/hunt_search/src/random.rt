//! Numbers that are drawn from one another.

ghost use Rattle.std.specs.Prelude.{◌<◌};

/// A number of 64 bits from which others are drawn.
#[derive(Clone, Copy)]
pub(crate) struct Random {
    state: u64,
}

impl Random {
    /// The numbers of a run.
    pub(crate) fn of(run: u64) -> Random {
        Random {
            state: run.wrapping_mul(0x9e37_79b9_7f4a_7c15),
        }
    }

    /// A number below a bound. The step and the mixing are those of Steele, Lea and Flood's SplitMix.
    pub(crate) fn below(&mut self, bound: u32) -> u32
        requires { 0 < bound }
        ensures { result < bound }
    {
        self.state = self.state.wrapping_add(0x9e37_79b9_7f4a_7c15);
        let mixed = (self.state ^ (self.state >> 30)).wrapping_mul(0xbf58_476d_1ce4_e5b9);
        let mixed = (mixed ^ (mixed >> 27)).wrapping_mul(0x94d0_49bb_1331_11eb);
        ((mixed >> 32) % u64::from(bound)) as u32
    }

    /// Whether something happens that happens this often in a hundred times.
    pub(crate) fn percent(&mut self, often: u32) -> bool {
        self.below(100) < often
    }

    /// One of this many members, if there are any.
    pub(crate) fn member(&mut self, members: u8) -> u8 {
        if members == 0 {
            return 0;
        }
        self.below(u32::from(members)) as u8
    }

    /// A place in a list that isn't empty.
    pub(crate) fn place(&mut self, count: usize) -> usize
        requires { 0 < count }
        ensures { result < count }
    {
        self.below(u32::MAX) as usize % count
    }
}
