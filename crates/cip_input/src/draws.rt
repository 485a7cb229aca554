//! Draws of a linear congruential generator.
ghost use Rattle.std.specs.Prelude.{◌≡◌};
ghost use Rattle.cip_input.specs.Generated.{next_state, drawn_at};

/// What a state is multiplied by.
const FACTOR: u64 = 6_364_136_223_846_793_005;

/// What is added then.
const INCREMENT: u64 = 1_442_695_040_888_963_407;

/// A generator, whose state has 64 bits.
#[derive(Clone, Copy)]
pub(crate) struct Draws {
    pub(crate) state: u64,
}

impl Draws {
    /// Goes to the next state, and answers its upper 32 bits.
    pub(crate) fn draw(&mut self) -> u64
        ensures drawn { result ≡ drawn_at (next_state self.old.state) }
        ensures state { self.new.state ≡ next_state self.old.state }
    {
        self.state = self.state.wrapping_mul(FACTOR).wrapping_add(INCREMENT);
        self.state >> 32
    }
}
