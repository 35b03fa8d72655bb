// Numbers that look random and are the same in every run.
ghost use Rattle.std.specs.Prelude.{◌≡◌};
ghost use Rattle.trials.specs.Sequence.{state_after, number_of};

#[derive(Clone, Copy)]
pub struct Sequence {
    pub state: u32,
}

impl Sequence {
    // The sequence that begins behind this state.
    pub fn behind(state: u32) -> Sequence
        ensures { result.state ≡ state }
    {
        Sequence { state }
    }

    // The next number from `least` on, one of `count`.
    pub fn next(&mut self, least: u32, count: u32) -> u32
        ensures answer { result ≡ number_of (state_after self.old.state) least count }
        ensures after { self.new.state ≡ state_after self.old.state }
    {
        self.state = self
            .state
            .wrapping_mul(1_664_525)
            .wrapping_add(1_013_904_223);
        least.wrapping_add((self.state >> 8) % count.max(1))
    }
}
