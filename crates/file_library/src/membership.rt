//! The layers that agree on who the members are.

/// `suspect`: suspects members that are silent, and those that leave.
pub(crate) const SUSPECT: &[u8] = b"layer suspect {
  param every = 100;
  param after = 500;
  state int began;
  state int now;
  state int told;
  state int bad;
  state int was;
  state int heard[n];
  header ping() ends;
  header bye() ends;
  up Timer(t) {
    set now = t;
    if (began == 0) {
      set began = 1;
      set told = t;
      each i below n max 32 { set heard[i] = t; }
    }
    if (t >= (told + every)) {
      set told = t;
      each i below n max 32 { if (i != me) { down Send(i, nothing) with ping(); } }
    }
    set was = bad;
    each i below n max 32 {
      if ((i != me) and (t > (heard[i] + after))) { set bad = (bad | bit(i)); }
    }
    if (bad != was) { up Suspect(bad); }
    down Timer((t + every));
    up Timer(t);
  }
  up Send(o, m) with ping() { set heard[o] = now; }
  up Send(o, m) with bye() rare {
    if ((bad & bit(o)) == 0) { set bad = (bad | bit(o)); up Suspect(bad); }
  }
  down Leave(x) {
    each i below n max 32 { if (i != me) { down Send(i, nothing) with bye(); } }
    down Leave(x);
  }
}
";

/// `elect`: elects the lowest member that is not suspected.
pub(crate) const ELECT: &[u8] = b"layer elect {
  up Suspect(s) {
    up Suspect(s);
    if (lowest(((bit(n) - 1) ^ s)) == me) { up Elect(s); }
  }
}
";

/// `sync`: stops the casts and gathers the members' consent before a new view.
pub(crate) const SYNC: &[u8] = b"layer sync {
  state int coord;
  state int boss;
  state int bad;
  state int ready;
  state int blocked;
  header block(s) ends;
  header flush() ends;
  up Elect(s) {
    set coord = 1;
    set boss = me;
    set bad = s;
    each i below n max 32 {
      if ((i != me) and ((bit(i) & s) == 0)) { down Send(i, nothing) with block(s); }
    }
    up Block(s);
  }
  up Send(o, m) with block(s) rare { set boss = o; set bad = s; up Block(s); }
  down BlockOk(s) {
    set blocked = 1;
    if (boss == me) { set ready = (ready | bit(me)); }
    else { down Send(boss, nothing) with flush(); }
    if ((coord == 1) and ((ready | bad) == (bit(n) - 1))) { up Flushed(bad); }
  }
  up Send(o, m) with flush() rare {
    set ready = (ready | bit(o));
    if ((coord == 1) and ((ready | bad) == (bit(n) - 1))) { up Flushed(bad); }
  }
  down Cast(p, m) { if (blocked == 0) { down Cast(p, m); } }
}
";

/// `intra`: tells the members the new view.
pub(crate) const INTRA: &[u8] = b"layer intra {
  header view(mask) ends;
  up Flushed(s) {
    each i below n max 32 {
      if ((i != me) and ((bit(i) & s) == 0)) {
        down Send(i, nothing) with view(((bit(n) - 1) ^ s));
      }
    }
    up View(((bit(n) - 1) ^ s));
  }
  up Send(o, m) with view(v) rare { up View(v); }
}
";

/// `top`: answers a request to block at once.
pub(crate) const TOP: &[u8] = b"layer top {
  up Block(s) { up Block(s); down BlockOk(s); }
}
";
