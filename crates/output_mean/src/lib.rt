//! What each job writes, over the bytes of its files, and why a stack file is refused: definitions alone, in `specs/`.
#![tactic(auto)]
