//! The generator of numbers.

ghost use Rattle.std.specs.Prelude.{◌≡◌, ◌+◌, ◌*◌, ◌≤◌, ◌<◌};
ghost use Rattle.inst_text.specs.Generator.{next_state, drawn};

/// A xorshift generator of 64 bits (George Marsaglia, "Xorshift RNGs", 2003). It makes small instances to try
/// things on, and nothing that has to be secret.
#[derive(Debug, Drop)]
pub(crate) struct Generator {
    state: u64,
}

impl Generator {
    /// The state that belongs to the seed.
    pub(crate) fn new(seed: u32) -> Generator
        ensures { result.state ≡ 2 * seed + 1 }
    {
        Generator {
            state: 2 * u64::from(seed) + 1,
        }
    }

    // Makes a step.
    #[tactic(auto, unfolding(crate::specs::Generator::next_state))]
    fn step(&mut self)
        ensures { self.new.state ≡ next_state self.old.state }
    {
        self.state ^= self.state << 13;
        self.state ^= self.state >> 7;
        self.state ^= self.state << 17;
    }

    /// Makes a step, and gives a number below `limit`.
    pub(crate) fn draw(&mut self, limit: u32) -> u32
        requires { 1 ≤ limit }
        ensures drawn { result ≡ drawn self.old.state limit }
        ensures below { result < limit }
        ensures state { self.new.state ≡ next_state self.old.state }
    {
        self.step();
        ((self.state >> 16) % u64::from(limit)) as u32
    }
}
