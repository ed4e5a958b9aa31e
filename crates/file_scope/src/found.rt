//! The first fault so far.

ghost use Rattle.std.specs.Prelude.{◌≡◌, true, false, not, ◌∷◌, [], List, Some, None, map, option_map};
ghost use Rattle.std.specs.Option.{option_map_or};
ghost use Rattle.fault_mean.specs.Earliest.{precedes, unless};
ghost use Rattle.file_scope.specs.Found.{Finds, anywhere, fault_key, first_rank, moved_to};

use layer_words::At;

/// A fault at its place; of several at one place the one of the least rank comes first.
#[derive(Clone, Copy, PartialEq, Eq, Debug)]
pub struct Fault {
    pub at: At,
    pub rank: u8,
}

impl Fault {
    /// What faults are ordered by: line, column, and at one place the rank.
    fn key(&self) -> [u32; 3]
        ensures { result ≡ fault_key self.now }
    {
        [self.at.line, self.at.col, self.rank as u32]
    }

    fn precedes(&self, other: &Fault) -> bool
        ensures { result ≡ precedes fault_key self.now other.now }
    {
        self.key().as_slice() < other.key().as_slice()
    }
}

/// The first fault so far.
#[derive(Clone, Copy, Debug)]
pub struct Found {
    pub first: Option<Fault>,
    /// Where faults are moved: those of a library layer stand at the name of the place that names it.
    pub moved: Option<At>,
}

impl Found {
    /// Nothing so far, and faults stay at their places.
    pub fn new() -> Found
        ensures first { result.first ≡ None }
        ensures moved { result.moved ≡ None }
    {
        Found {
            first: None,
            moved: None,
        }
    }

    /// Nothing so far, and faults are moved to one place, whichever it will be: only their ranks count.
    pub fn moved() -> Found
        ensures first { result.first ≡ None }
        ensures moved { result.moved ≡ Some anywhere }
    {
        Found {
            first: None,
            moved: Some(At { line: 1, col: 1 }),
        }
    }

    /// The rank of the first fault.
    pub fn rank(&self) -> Option<u8>
        ensures { result ≡ option_map (λ f. f.rank) self.now.first }
    {
        self.first.map(|fault| fault.rank)
    }

    /// Takes into account faults that are moved to a place, by the rank of the first of them.
    #[tactic(auto, using(crate::proofs::Moved::none_moved, crate::proofs::Moved::rank_moved))]
    pub fn note_rank(&mut self, rank: Option<u8>, at: At)
        ensures { (faults : List Fault) → rank ≡ first_rank faults →
            Finds self.old (map (moved_to (Some at)) faults) self.new }
    {
        if let Some(rank) = rank {
            self.note(Fault { at, rank });
        }
    }

    /// Whether a fault is known to change nothing: it was found already, or one that comes before it was.
    #[tactic(auto, unfolding(crate::specs::Found::Finds))]
    pub fn is_past(&self, fault: Fault) -> bool
        ensures known { result ≡ true → Finds self.now (fault ∷ []) self.now }
        ensures is { result ≡ option_map_or (λ first. not (precedes fault_key (moved_to self.now.moved fault) first))
            self.now.first false }
    {
        let fault = Fault {
            at: self.moved.unwrap_or(fault.at),
            rank: fault.rank,
        };
        match self.first {
            None => false,
            Some(first) => !fault.precedes(&first),
        }
    }

    /// Takes a fault into account.
    #[tactic(auto, unfolding(crate::specs::Found::Finds))]
    pub fn note(&mut self, fault: Fault)
        ensures { Finds self.old (fault ∷ []) self.new }
    {
        let fault = Fault {
            at: self.moved.unwrap_or(fault.at),
            rank: fault.rank,
        };
        match self.first {
            None => self.first = Some(fault),
            Some(first) => {
                if fault.precedes(&first) {
                    self.first = Some(fault);
                }
            }
        }
    }

    /// Takes a fault into account, unless something holds.
    #[tactic(auto, using(crate::proofs::Finds::none_found))]
    pub fn note_unless(&mut self, holds: bool, fault: Fault)
        ensures { Finds self.old (unless holds fault) self.new }
    {
        if !holds {
            self.note(fault);
        }
    }
}
