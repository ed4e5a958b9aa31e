//! Lines of a report, and what they say.
ghost use Rattle.std.specs.Prelude.{◌≡◌, codes};
ghost use Rattle.chart_mean.specs.Says.{says_of, deliver, packet, view, out, other, give, ask, befall, aside};
ghost use Rattle.chart_mean.specs.Label.{label_of};

/// What lines say: those that tell of a member in form, and all others beside the members.
pub fn read_lines()
    ensures cast { says_of (codes "deliver 2 cast 0 21") ≡ deliver (codes "cast") 2 (codes "21") }
    ensures packet { says_of (codes "packet 7 0 2 bottom.net(1)/mnak.again(2) 21")
        ≡ packet (codes "7") 0 (codes "2") (codes "bottom.net(1)/mnak.again(2)") (codes "21") }
    ensures view { says_of (codes "view 1 3 5") ≡ view 1 3 5 }
    ensures out { says_of (codes "out 31") ≡ out 31 }
    ensures cell { says_of (codes "cell 2 1 mnak.next 4 0 0") ≡ other (codes "cell") 2 (codes "1") }
    ensures block { says_of (codes "block 2") ≡ other (codes "block") 2 (codes "") }
    ensures given { says_of (codes "> give 7 2") ≡ give (codes "7") 2 }
    ensures sent { says_of (codes "> send 0 2 21") ≡ ask (codes "send") 0 (codes "21") }
    ensures ticked { says_of (codes "> tick 0 200") ≡ befall (codes "tick") 0 (codes "200") }
    ensures wire { says_of (codes "wire 7 e5") ≡ aside }
    ensures no_member { says_of (codes "timer 32 100") ≡ aside }
    ensures short { says_of (codes "packet 7 0") ≡ aside }
{}

/// The words beside marks: headers without their layers' names, without those that say nothing and those of a layer
/// that is left out, and bodies as text where they are text.
#[tactic(auto, unfolding(hex::proofs::OnLiterals::hex_on_literals))]
pub fn read_labels()
    ensures packet { label_of (codes "bottom")
        (says_of (codes "packet 8 0 1 bottom.net(1)/selfs.none()/paxos.prom(66,35) 6869"))
        ≡ codes "prom(66,35) \"hi\"" }
    ensures all { label_of (codes "")
        (says_of (codes "packet 8 0 1 bottom.net(1)/selfs.none()/paxos.prom(66,35) 6869"))
        ≡ codes "net(1) prom(66,35) \"hi\"" }
    ensures bytes { label_of (codes "bottom") (says_of (codes "deliver 2 cast 0 ff01")) ≡ codes "delivers ff01" }
    ensures empty { label_of (codes "bottom") (says_of (codes "deliver 2 cast 0 -")) ≡ codes "delivers " }
    ensures tick { label_of (codes "bottom") (says_of (codes "> tick 0 200")) ≡ codes "tick 200" }
    ensures quiet { label_of (codes "bottom") (says_of (codes "timer 0 200")) ≡ codes "" }
{}
