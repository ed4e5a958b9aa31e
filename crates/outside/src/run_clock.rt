// The time since the start of a run.
ghost use Rattle.std.specs.Prelude.{◌≡◌, ◌-◌, None};
ghost use Rattle.std.specs.Time.{instant_nanos};
ghost use Rattle.outside.specs.Clock.{moment_after};

use crate::Clock;
use std::rt::Clock as SystemClock;
use std::time::Instant;

/// Milliseconds since its making, modulo 2^32. Where the system's clock can't be read it stands at its last moment.
#[derive(Drop)]
pub struct RunClock<R: SystemClock + Drop> {
    system: R,
    start: Option<Instant>,
    last: u32,
}

impl<R: SystemClock + Drop> RunClock<R> {
    /// A clock over the runtime, as `RunClock::new(&rt)`.
    pub fn new(system: R) -> Self {
        let start = Instant::now(&system).ok();
        RunClock {
            system,
            start,
            last: 0,
        }
    }
}

impl<R: SystemClock + Drop> Clock for RunClock<R> {
    ghost told = { λ _. None };

    fn now(&mut self) -> u32 {
        if let Some(start) = self.start
            && let Ok(now) = Instant::now(&self.system)
        {
            self.last = moment(start, now);
        }
        self.last
    }
}

/// The moment at which the system's clock says `now`, in a run that began at `start`.
fn moment(start: Instant, now: Instant) -> u32
    ensures { result ≡ moment_after (instant_nanos now - instant_nanos start) }
{
    (now.duration_since(start).as_millis() % (1 << 32)) as u32
}
