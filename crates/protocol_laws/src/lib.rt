//! Laws by which a protocol is proved for every script: what each step of a member keeps holds along every run.
//! Each is the contract of a function that does nothing; the forms of them for all predicates are lemmas in
//! `proofs/`.
#![tactic(auto)]

ghost use Rattle.protocol_laws.specs.Runs.{RawIsGiven, TestsKeep};

/// A test that passes at first, and that each step of a member keeps, passes at the end of the run of every fair
/// script.
pub fn tests_keep()
    ensures { TestsKeep }
{}

/// A raw datagram that spells a packet which was sent is as good as its `give`.
pub fn raw_is_given()
    ensures { RawIsGiven }
{}
