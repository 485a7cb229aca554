// Integers of 128 bits in quarters of 32 bits, so that beside a small field no room is lost.
ghost use Rattle.std.specs.Prelude.{◌≡◌};

use std::fmt;
use std::marker::Model;

const TO_NEXT: u128 = 0x1_0000_0000;

const TO_THIRD: u128 = 0x1_0000_0000_0000_0000;

const TO_HIGH: u128 = 0x1_0000_0000_0000_0000_0000_0000;

// A number of 128 bits from 0 on; a contract sees it as the number.
#[derive(Clone, Copy)]
pub(crate) struct Unsigned {
    low: u32,
    next: u32,
    third: u32,
    high: u32,
}

impl Model for Unsigned {
    ghost use Rattle.std.specs.Prelude.{ℕ};

    ghost Value = { ℕ };

    ghost use Rattle.cip_frac.specs.Quarters.{number_of, AreItsQuarters, quarters_of, gives_quarters_back};

    ghost view = { number_of };

    ghost invariant = { AreItsQuarters };

    ghost inverse = { quarters_of };

    ghost inverse_ok = { gives_quarters_back };
}

impl Unsigned {
    #[inline]
    pub(crate) fn new(value: u128) -> Unsigned
        ensures { result ≡ value }
    {
        Unsigned {
            low: (value % TO_NEXT) as u32,
            next: (value / TO_NEXT % TO_NEXT) as u32,
            third: (value / TO_THIRD % TO_NEXT) as u32,
            high: (value / TO_HIGH) as u32,
        }
    }

    #[inline]
    pub(crate) fn get(self) -> u128
        ensures { result ≡ self }
    {
        self.high as u128 * TO_HIGH
            + self.third as u128 * TO_THIRD
            + self.next as u128 * TO_NEXT
            + self.low as u128
    }
}

// An integer of 128 bits; a contract sees it as the integer.
#[derive(Clone, Copy)]
pub(crate) struct Signed {
    bits: Unsigned,
}

impl Model for Signed {
    ghost use Rattle.std.specs.Prelude.{ℤ};

    ghost Value = { ℤ };

    ghost use Rattle.cip_frac.specs.SignedBits.{integer_of, IsInRange, bits_of, gives_bits_back};

    ghost view = { integer_of };

    ghost invariant = { IsInRange };

    ghost inverse = { bits_of };

    ghost inverse_ok = { gives_bits_back };
}

impl Signed {
    #[inline]
    pub(crate) fn new(value: i128) -> Signed
        ensures { result ≡ value }
    {
        Signed {
            bits: Unsigned::new(value.cast_unsigned()),
        }
    }

    #[inline]
    pub(crate) fn get(self) -> i128
        ensures { result ≡ self }
    {
        self.bits.get().cast_signed()
    }
}

impl fmt::Debug for Unsigned {
    fn fmt<W: fmt::Write>(&self, f: &mut fmt::Formatter<W>) -> fmt::Result {
        fmt::Debug::fmt(&self.get(), f)
    }
}

impl fmt::Debug for Signed {
    fn fmt<W: fmt::Write>(&self, f: &mut fmt::Formatter<W>) -> fmt::Result {
        fmt::Debug::fmt(&self.get(), f)
    }
}
