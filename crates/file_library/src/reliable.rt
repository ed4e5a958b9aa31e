//! The lowest layers: the mark of the network, and delivery in order, where what is missed is sent again.

/// `bottom`: marks what goes over the network, and lets in only what is marked.
pub(crate) const BOTTOM: &[u8] = b"layer bottom {
  header net(v) passes;
  down Cast(p, m) { down Cast(p, m) with net(1); }
  down Send(p, m) { down Send(p, m) with net(1); }
  up Cast(o, m) with net(v) common (v == 1) { if (v == 1) { up Cast(o, m); } }
  up Send(o, m) with net(v) common (v == 1) { if (v == 1) { up Send(o, m); } }
}
";

/// `mnak`: casts in each sender's order; a member that misses one asks for it.
pub(crate) const MNAK: &[u8] = b"layer mnak {
  param keep = 64;
  param gap = 100;
  state int out;
  state int base;
  state int told;
  state int next[n];
  state queue kept[keep] of (m: msg);
  state queue early[n][16] of (seq: int, m: msg);
  header num(seq) passes;
  header nak(lo, hi) ends;
  header again(seq) passes;
  header last(upto) ends;
  down Cast(p, m) {
    push kept (m) else {
      take kept (old) {
        set base = (base + 1);
        push kept (m) else { }
      } else { }
    }
    down Cast(p, m) with num(out);
    set out = (out + 1);
  }
  up Cast(o, m) with num(seq) common (seq == next[o]) {
    if (seq == next[o]) {
      set next[o] = (seq + 1);
      up Cast(o, m);
      if rare (len(early[o]) > 0) {
        each i below len(early[o]) max 16 {
          each j below len(early[o]) max 16 {
            if (at(early[o], 0).seq != next[o]) {
              take early[o] (s, w) {
                if (s > next[o]) { push early[o] (s, w) else { } }
              } else { }
            }
          }
          if ((len(early[o]) > 0) and (at(early[o], 0).seq == next[o])) {
            take early[o] (s, w) { set next[o] = (s + 1); up Cast(o, w); } else { }
          }
        }
      }
    } else {
      if (seq > next[o]) {
        push early[o] (seq, m) else { }
        down Send(o, nothing) with nak(next[o], seq);
      }
    }
  }
  up Send(o, m) with again(seq) rare {
    if (seq == next[o]) {
      set next[o] = (seq + 1);
      up Cast(o, m);
      each i below len(early[o]) max 16 {
        each j below len(early[o]) max 16 {
          if (at(early[o], 0).seq != next[o]) {
            take early[o] (s, w) {
              if (s > next[o]) { push early[o] (s, w) else { } }
            } else { }
          }
        }
        if ((len(early[o]) > 0) and (at(early[o], 0).seq == next[o])) {
          take early[o] (s, w) { set next[o] = (s + 1); up Cast(o, w); } else { }
        }
      }
    } else {
      if (seq > next[o]) { push early[o] (seq, m) else { } }
    }
  }
  up Send(o, m) with nak(lo, hi) rare {
    each i below (hi - lo) max 16 {
      if (((lo + i) - base) < len(kept)) {
        down Send(o, held(kept, ((lo + i) - base))) with again((lo + i));
      }
    }
  }
  up Cast(o, m) with last(upto) rare {
    if (upto > next[o]) { down Send(o, nothing) with nak(next[o], upto); }
  }
  up Timer(t) {
    up Timer(t);
    if ((out > 0) and (t >= (told + gap))) {
      set told = t;
      down Cast(me, nothing) with last(out);
    }
  }
  down Stable(o, c) {
    if ((o == me) and (c > base)) {
      each i below (c - base) max 16 {
        take kept (old) { set base = (base + 1); } else { }
      }
    }
  }
}
";

/// `pt2pt`: sends in each sender's order, sent again until they are acknowledged.
pub(crate) const PT2PT: &[u8] = b"layer pt2pt {
  param keep = 16;
  param gap = 100;
  state int told;
  state int out[n];
  state int base[n];
  state int next[n];
  state queue sent[n][keep] of (m: msg);
  header num(seq) passes;
  header ack(upto) ends;
  down Send(p, m) {
    if (len(sent[p]) < keep) {
      push sent[p] (m) else { }
      down Send(p, m) with num(out[p]);
      set out[p] = (out[p] + 1);
    }
  }
  up Send(o, m) with num(seq) common (seq == next[o]) {
    if (seq == next[o]) {
      set next[o] = (seq + 1);
      up Send(o, m);
      down Send(o, nothing) with ack((seq + 1));
    } else {
      down Send(o, nothing) with ack(next[o]);
    }
  }
  up Send(o, m) with ack(upto) rare {
    if ((upto - base[o]) <= len(sent[o])) {
      each i below (upto - base[o]) max 16 {
        take sent[o] (old) { set base[o] = (base[o] + 1); } else { }
      }
      up Ack(o, base[o]);
    }
  }
  up Timer(t) {
    up Timer(t);
    if (t >= (told + gap)) {
      set told = t;
      each p below n max 32 {
        if (len(sent[p]) > 0) { down Send(p, held(sent[p], 0)) with num(base[p]); }
      }
    }
  }
}
";
