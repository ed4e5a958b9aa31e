//! The layers that hold the flow of messages within bounds: windows, and the size of a packet.

/// `pt2ptw`: at most a window of sends to each member that it has not acknowledged.
pub(crate) const PT2PTW: &[u8] = b"layer pt2ptw {
  param window = 16;
  state int used[n];
  state int got[n];
  state queue wait[n][32] of (m: msg);
  down Send(p, m) {
    if (used[p] < window) { set used[p] = (used[p] + 1); down Send(p, m); }
    else { push wait[p] (m) else { } }
  }
  up Ack(p, c) {
    set used[p] = (used[p] - (c - got[p]));
    set got[p] = c;
    each i below (window - used[p]) max 16 {
      take wait[p] (m) { set used[p] = (used[p] + 1); down Send(p, m); } else { }
    }
  }
}
";

/// `mflow`: at most a window of casts beyond the credit of the slowest member.
pub(crate) const MFLOW: &[u8] = b"layer mflow {
  param window = 16;
  state int out;
  state int low;
  state int got[n];
  state int cred[n];
  state queue wait[32] of (m: msg);
  header credit(c) ends;
  down Cast(p, m) {
    if (((out - low) < window) or (n == 1)) { set out = (out + 1); down Cast(p, m); }
    else { push wait (m) else { } }
  }
  up Cast(o, m) {
    set got[o] = (got[o] + 1);
    up Cast(o, m);
    if rare ((got[o] & 7) == 0) { down Send(o, nothing) with credit(got[o]); }
  }
  up Send(o, m) with credit(c) rare {
    set cred[o] = c;
    set low = out;
    each i below n max 32 {
      if ((i != me) and ((out - cred[i]) > (out - low))) { set low = cred[i]; }
    }
    each i below 16 max 16 {
      if ((out - low) < window) {
        take wait (w) { set out = (out + 1); down Cast(me, w); } else { }
      }
    }
  }
}
";

/// `frag`: casts with long bodies, cut into pieces and joined again.
pub(crate) const FRAG: &[u8] = b"layer frag {
  param piece = 1024;
  state int from;
  state queue parts[n][8] of (p: part);
  state queue whole[1] of (m: msg);
  header some() ends;
  header last() passes;
  down Cast(p, m) {
    if (size(m) <= piece) { down Cast(p, m); }
    else {
      set from = 0;
      each i below 7 max 7 {
        if (size(m) > (from + piece)) {
          down Cast(p, cut(m, from, piece)) with some();
          set from = (from + piece);
        }
      }
      down Cast(p, tail(m, from)) with last();
    }
  }
  up Cast(o, m) with some() { push parts[o] (m) else { } }
  up Cast(o, m) with last() rare {
    push whole (m) else { }
    each i below len(parts[o]) max 8 {
      take whole (w) {
        push whole (join(held(parts[o], ((len(parts[o]) - 1) - i)), w)) else { }
      } else { }
    }
    take whole (w) { up Cast(o, w); } else { }
    each i below 8 max 8 { take parts[o] (q) { } else { } }
  }
}
";
