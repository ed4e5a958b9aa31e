//! Whether a visit goes as it is predicted.

ghost use Rattle.std.specs.Prelude.{◌≡◌, false, [], ◌∷◌};
ghost use Rattle.layer_eval.specs.Did.{both, as_predicted, decision};

use layer_words::Likely;

/// Whether all decisions went as predicted, in the first of two common cases and in the second. A layer that names one
/// case is predicted alike in both.
#[derive(Clone, Copy, Debug, PartialEq, Eq)]
pub struct Predicted {
    pub first: bool,
    pub second: bool,
}

impl Predicted {
    /// No decision was made.
    pub fn usual() -> Predicted
        ensures { result ≡ as_predicted [] }
    {
        Predicted {
            first: true,
            second: true,
        }
    }

    /// A decision didn't go as predicted in any case.
    pub fn unusual() -> Predicted
        ensures { result ≡ record { first = false; second = false } }
    {
        Predicted {
            first: false,
            second: false,
        }
    }

    /// Counts a condition's decision in; most change nothing.
    pub fn choose(&mut self, holds: bool, likely: Likely)
        ensures { self.new ≡ both (as_predicted (decision holds likely ∷ [])) self.old }
    {
        match likely {
            Likely::First => {
                if !holds {
                    *self = Predicted::unusual();
                }
            }
            Likely::Else => {
                if holds {
                    *self = Predicted::unusual();
                }
            }
            Likely::Two => {
                if holds {
                    self.second = false;
                } else {
                    self.first = false;
                }
            }
        }
    }

    /// Both what was decided before and what was decided after it went as predicted.
    pub fn and(self, following: Predicted) -> Predicted
        ensures { result ≡ both self following }
    {
        Predicted {
            first: self.first & following.first,
            second: self.second & following.second,
        }
    }
}
