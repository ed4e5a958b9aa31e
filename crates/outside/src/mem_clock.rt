// A clock whose moments are held in memory.
ghost use Rattle.std.specs.Prelude.{◌≡◌, Some, drop};

use crate::Clock;

/// A clock that gives these moments in turn, and after them 0.
#[derive(Drop)]
pub struct MemClock {
    moments: Vec<u32>,
    given: usize,
}

impl MemClock {
    /// A clock that hasn't been asked yet, with these moments to give in their order.
    pub fn new(moments: Vec<u32>) -> Self
        ensures { ⟦<MemClock as Clock>⟧.told result ≡ Some moments.items }
    {
        MemClock { moments, given: 0 }
    }
}

impl Clock for MemClock {
    ghost told = { λ clock. Some (drop clock.given clock.moments.items) };

    fn now(&mut self) -> u32 {
        match self.moments.get(self.given) {
            Some(moment) => {
                self.given += 1;
                *moment
            }
            None => 0,
        }
    }
}
