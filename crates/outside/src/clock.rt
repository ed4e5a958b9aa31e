// Clocks, whose moments are milliseconds.
ghost use Rattle.std.specs.Prelude.{◌≡◌, ℕ, List, Option, IfSome, drop};
ghost use Rattle.std.specs.Option.{option_map};
ghost use Rattle.outside.specs.Clock.{next_moment};

/// What tells the time, in milliseconds that begin again at 0 after 2^32 - 1.
pub trait Clock {
    /// The moments to come, where the clock tells them.
    ghost told: { Self → Option (List ℕ) };

    /// The moment.
    fn now(&mut self) -> u32
        ensures moment { IfSome (told self.old) (λ moments. result ≡ next_moment moments) }
        ensures kept { told self.new ≡ option_map (drop 1) (told self.old) };
}
