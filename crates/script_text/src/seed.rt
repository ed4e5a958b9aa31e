//! Numbers that are drawn from one another.
ghost use Rattle.std.specs.Prelude.{◌≡◌, ◌<◌};
ghost use Rattle.script_mean.specs.Generate as spec;

/// A number of 32 bits from which others are drawn, by a linear congruence.
#[derive(Clone, Copy)]
pub(crate) struct Seed {
    pub value: u32,
}

impl Seed {
    /// A number below the bound, from the upper half of the seed after the draw.
    pub(crate) fn below(&mut self, bound: u32) -> u32
        requires { 0 < bound }
        ensures drawn { spec.a_draw bound self.old.value ≡ (result, self.new.value) }
        ensures bound { result < bound }
    {
        self.value = next_seed(self.value);
        self.value / 65_536 % bound
    }
}

fn next_seed(seed: u32) -> u32
    ensures { result ≡ spec.next_seed seed }
{
    ((1_664_525 * u64::from(seed) + 1_013_904_223) % 4_294_967_296) as u32
}
