//! Numbers that look random, from a seed.
ghost use Rattle.std.specs.Prelude.{◌<◌};

use cip_frac::Frac;

/// Which numbers a case has.
#[derive(Clone, Copy, PartialEq, Eq)]
pub enum Numbers {
    /// Small whole ones.
    Whole,
    /// Small ones, some of them fractions.
    Mixed,
    /// Some whose products and sums overflow, too.
    Wild,
}

/// A linear congruential generator of 64 bits.
#[derive(Drop)]
pub struct Draws {
    state: u64,
}

/// A fraction, or 0 where it is out of range.
pub fn fraction(over: i128, under: i128) -> Frac {
    match Frac::new(over, under) {
        Ok(value) => value,
        Err(_) => Frac::zero(),
    }
}

impl Draws {
    /// A generator that begins with this state.
    pub fn new(seed: u64) -> Draws {
        Draws { state: seed }
    }

    /// A number below a limit.
    pub fn below(&mut self, limit: u32) -> u32
        requires { 0 < limit }
        ensures { result < limit }
    {
        let product = self.state.wrapping_mul(6_364_136_223_846_793_005);
        self.state = product.wrapping_add(1_442_695_040_888_963_407);
        ((self.state >> 32) % u64::from(limit)) as u32
    }

    /// True once in so many times.
    pub fn once_in(&mut self, times: u32) -> bool
        requires { 0 < times }
    {
        self.below(times) == 0
    }

    /// A whole number from -6 to 6.
    fn small(&mut self) -> i64 {
        i64::from(self.below(13)) - 6
    }

    /// A number whose products and sums overflow.
    fn large(&mut self) -> Frac {
        let size = match self.below(4) {
            0 => 170_141_183_460_469_231_731_687_303_715_884_105_727,
            1 => 85_070_591_730_234_615_865_843_651_857_942_052_864,
            2 => 1_000_000_000_000_000_000_000_000_000_003,
            _ => 18_446_744_073_709_551_629,
        };
        match self.below(3) {
            0 => fraction(size, 1),
            1 => fraction(-size, 3),
            _ => fraction(1, size),
        }
    }

    /// A number.
    pub fn number(&mut self, numbers: Numbers) -> Frac {
        if numbers == Numbers::Wild && self.once_in(5) {
            return self.large();
        }
        let over = self.small();
        if numbers != Numbers::Whole && self.once_in(4) {
            fraction(i128::from(over), i128::from(self.below(5) + 1))
        } else {
            Frac::from(over)
        }
    }

    /// A number above 0, or below it; once in 30 times any.
    pub fn signed(&mut self, numbers: Numbers, is_positive: bool) -> Frac {
        let number = self.number(numbers);
        if self.once_in(30) {
            return number;
        }
        let size = if number.is_zero() {
            Frac::one()
        } else {
            number.abs()
        };
        if is_positive { size } else { size.neg() }
    }
}
