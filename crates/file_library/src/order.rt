//! The layers that follow what has arrived at all members, and put casts into one order.

/// `collect`: acknowledges every sixteenth cast of each member.
pub(crate) const COLLECT: &[u8] = b"layer collect {
  state int got[n];
  up Cast(o, m) {
    set got[o] = (got[o] + 1);
    up Cast(o, m);
    if rare ((got[o] & 15) == 0) { up Ack(o, got[o]); }
  }
}
";

/// `stable`: tells how many of a member's casts have arrived at all others.
pub(crate) const STABLE: &[u8] = b"layer stable {
  state int has[n];
  state int low;
  header row(c) ends;
  up Ack(o, c) { down Send(o, nothing) with row(c); }
  up Send(o, m) with row(c) rare {
    set has[o] = c;
    set low = c;
    each i below n max 32 {
      if ((i != me) and (has[i] < low)) { set low = has[i]; }
    }
    if (low > 0) { down Stable(me, low); }
  }
}
";

/// `local`: delivers a member's own casts to itself.
pub(crate) const LOCAL: &[u8] = b"layer local {
  down Cast(p, m) { down Cast(p, m); up Cast(me, m); }
}
";

/// `total`: casts in one order at all members, which the member of rank 0 gives.
pub(crate) const TOTAL: &[u8] = b"layer total {
  state int out;
  state int next;
  header num(origin, seq) passes;
  header ask() passes;
  down Cast(p, m) {
    if (me == 0) { down Cast(p, m) with num(me, out); set out = (out + 1); }
    else { down Send(0, m) with ask(); }
  }
  up Send(o, m) with ask() {
    if (me == 0) { down Cast(me, m) with num(o, out); set out = (out + 1); }
  }
  up Cast(o, m) with num(origin, seq) common (seq == next) {
    if (seq == next) { set next = (next + 1); up Cast(origin, m); }
  }
}
";
