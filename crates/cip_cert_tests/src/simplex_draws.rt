//! Numbers at random.
ghost use Rattle.std.specs.Prelude.{◌<◌};

use cip_frac::Frac;
use cip_lin::Sides;

/// A linear congruential generator of 64 bits.
#[derive(Drop)]
pub(crate) struct Random {
    state: u64,
}

impl Random {
    pub(crate) fn new(state: u64) -> Random {
        Random { state }
    }

    // a number below n
    pub(crate) fn below(&mut self, n: u32) -> u32
        requires { 0 < n }
        ensures { result < n }
    {
        self.state = self
            .state
            .wrapping_mul(6364136223846793005)
            .wrapping_add(1442695040888963407);
        ((self.state >> 33) % n as u64) as u32
    }

    // a low and a high side, of which the low one is open in a quarter of the cases, and the high one once in so many
    pub(crate) fn sides(&mut self, times: u32) -> Sides
        requires { 0 < times }
    {
        let low = self.below(11) as i64 - 5;
        let high = low + self.below(6) as i64;
        Sides {
            low: if self.below(4) == 0 {
                None
            } else {
                Some(Frac::from(low))
            },
            high: if self.below(times) == 0 {
                None
            } else {
                Some(Frac::from(high))
            },
        }
    }
}
