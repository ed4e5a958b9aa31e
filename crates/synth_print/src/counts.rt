//! How many entries have a trace in a case, and how many have none.

ghost use Rattle.std.specs.Prelude.{◌≡◌, ◌+◌, IfOk, option_map};
ghost use Rattle.synth_print.specs.Counts.{counts_of, with_cases, with_made, with_second};
ghost use Rattle.trace_core.specs.Bypasses.{made_tree};

use msg_core::Memory;
use trace_core::{Bypasses, Cases, Made};

/// How many have a trace, and how many have none. More than 64 bits count, which no memory holds, are answered as want
/// of memory is.
#[derive(Clone, Copy)]
pub(crate) struct Counts {
    pub fused: u64,
    pub absent: u64,
}

/// One more.
fn one_more(count: u64) -> Result<u64, Memory>
    ensures { IfOk result (λ more. more ≡ count + 1) }
{
    if count < u64::MAX {
        Ok(count + 1)
    } else {
        Err(Memory)
    }
}

impl Counts {
    /// With what is made in one more case.
    fn with_made(self, made: &Made) -> Result<Counts, Memory>
        ensures { IfOk result (λ counts. counts ≡ with_made self (made_tree made.now)) }
    {
        match made {
            Made::Fused(_) => {
                let fused = one_more(self.fused)?;
                Ok(Counts {
                    fused,
                    absent: self.absent,
                })
            }
            Made::Absent(_) => {
                let absent = one_more(self.absent)?;
                Ok(Counts {
                    fused: self.fused,
                    absent,
                })
            }
        }
    }

    /// With what is made in a second case, if there is one.
    fn with_second(self, made: &Option<Made>) -> Result<Counts, Memory>
        ensures { IfOk result (λ counts. counts ≡ with_second self (option_map made_tree made.now)) }
    {
        match made {
            Some(made) => self.with_made(made),
            None => Ok(self),
        }
    }

    /// With what is made of one more entry.
    fn with_cases(self, cases: &Cases) -> Result<Counts, Memory>
        ensures { IfOk result (λ counts. counts ≡ with_cases self cases.now) }
    {
        let counts = self.with_made(&cases.first)?;
        counts.with_second(&cases.second)
    }

    /// Those of all entries.
    pub(crate) fn of(bypasses: &Bypasses) -> Result<Counts, Memory>
        ensures { IfOk result (λ counts. counts ≡ counts_of bypasses.now) }
    {
        let none = Counts {
            fused: 0,
            absent: 0,
        };
        let mut counts = none.with_cases(&bypasses.cast)?;
        counts = counts.with_cases(&bypasses.send)?;
        for cases in bypasses.plans.as_slice() {
            counts = counts.with_cases(cases)?;
        }
        Ok(counts)
    }
}
