//! How it is told why a step wasn't common: where in the layers' texts a decision that left the prediction stands, and
//! the lines, as definitions.
#![tactic(auto)]
