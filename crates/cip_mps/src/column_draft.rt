//! A column as far as it was read.
ghost use Rattle.std.specs.Prelude.{◌≡◌, true};
ghost use Rattle.cip_rational.specs.Numeral.{Numeral};
ghost use Rattle.cip_mps_lines.specs.MpsKinds.{bound_kind_in};
ghost use Rattle.cip_text_rules.specs.MpsBounds.{unbounded, with_low, with_high, with_bound, settled, own_sides, lacks_sides, is_mixed, is_semi, column_sides, choice_of};

use crate::semi_sides::{are_semi_sides, open_sides};
use cip_frac::Frac;
use cip_lin::{Choice, Sides};
use cip_mps_lines::{BoundKind, BoundNumber};
use std::marker::Model;

/// A column: its bounds so far, whether it is whole, whether a record made it semi-continuous, whether a record has set
/// the low bound, and whether there is any record of it.
#[derive(Clone, Copy)]
pub(crate) struct ColumnDraft {
    low: Option<Frac>,
    high: Option<Frac>,
    whole: bool,
    semi: bool,
    low_set: bool,
    named: bool,
}

impl Model for ColumnDraft {
    ghost use Rattle.cip_text_rules.specs.MpsBounds.{Bounded};
    ghost use Rattle.cip_mps.specs.ColumnDrafts.{bounded_code};

    ghost Value = { Bounded };

    ghost coded = { bounded_code };

    ghost view = { λ c. record {
      low = c.low;
      high = c.high;
      whole = c.whole;
      semi = c.semi;
      low_set = c.low_set;
      named = c.named;
    } };

    ghost inverse = { λ c. record {
      low = c.low;
      high = c.high;
      whole = c.whole;
      semi = c.semi;
      low_set = c.low_set;
      named = c.named;
    } };
}

impl ColumnDraft {
    /// A column without a bound record.
    pub(crate) fn new(whole: bool) -> ColumnDraft
        ensures { result ≡ unbounded whole }
    {
        ColumnDraft {
            low: Some(Frac::zero()),
            high: None,
            whole,
            semi: false,
            low_set: false,
            named: false,
        }
    }

    /// Sets the low bound.
    fn set_low(&mut self, value: &BoundNumber<'_>)
        ensures { self.new ≡ with_low self.old value.now }
    {
        self.low = value.value();
        self.low_set = true;
        self.named = true;
    }

    /// Sets the high bound; a negative one opens the low side where no record has set that.
    fn set_high(&mut self, value: &BoundNumber<'_>)
        ensures { self.new ≡ with_high self.old value.now }
    {
        if value.is_negative() && !self.low_set {
            self.low = None;
        }
        self.high = value.value();
        self.named = true;
    }

    /// Takes one bound record more.
    pub(crate) fn take(&mut self, kind: BoundKind, value: &BoundNumber<'_>)
        ensures { self.new ≡ with_bound self.old (bound_kind_in kind) value.now }
    {
        match kind {
            BoundKind::Low => self.set_low(value),
            BoundKind::High => self.set_high(value),
            BoundKind::WholeLow => {
                self.set_low(value);
                self.whole = true;
            }
            BoundKind::WholeHigh => {
                self.set_high(value);
                self.whole = true;
            }
            BoundKind::Fixed => self.set_sides(value.value(), value.value()),
            BoundKind::Unbounded => self.set_sides(None, None),
            BoundKind::NoLow => self.set_sides(None, self.high),
            BoundKind::NoHigh => {
                self.high = None;
                self.named = true;
            }
            BoundKind::Binary => {
                self.set_sides(Some(Frac::zero()), Some(Frac::one()));
                self.whole = true;
            }
            BoundKind::SemiContinuous => {
                self.high = value.value();
                self.semi = true;
                self.named = true;
            }
        }
    }

    /// Sets both sides.
    fn set_sides(&mut self, low: Option<Frac>, high: Option<Frac>)
        ensures { self.new ≡ record {
          low = low;
          high = high;
          whole = self.old.whole;
          semi = self.old.semi;
          low_set = true;
          named = true;
        } }
    {
        self.low = low;
        self.high = high;
        self.low_set = true;
        self.named = true;
    }

    /// Whether the column is whole.
    pub(crate) fn is_whole(self) -> bool
        ensures { result ≡ (settled self).whole }
    {
        self.whole
    }

    /// Whether a bound record of this type makes the column both whole and semi-continuous.
    pub(crate) fn is_mixed_by(self, kind: BoundKind) -> bool
        ensures { (value : Numeral) → result ≡ is_mixed (with_bound self (bound_kind_in kind) value) }
    {
        match kind {
            BoundKind::WholeLow | BoundKind::WholeHigh | BoundKind::Binary => self.semi,
            BoundKind::SemiContinuous => self.whole,
            _ => self.whole && self.semi,
        }
    }

    /// Low and high at the end of the text: a column between markers that no record names lies between 0 and 1.
    fn own_sides(self) -> Sides
        ensures { result ≡ own_sides (settled self) }
    {
        if self.whole && !self.named {
            return Sides {
                low: Some(Frac::zero()),
                high: Some(Frac::one()),
            };
        }
        Sides {
            low: self.low,
            high: self.high,
        }
    }

    /// Whether a semi-continuous column lacks one of the bounds that it must have at the end of the text.
    pub(crate) fn lacks_sides(self) -> bool
        ensures { result ≡ lacks_sides (settled self) }
    {
        self.semi && !are_semi_sides(self.own_sides())
    }

    /// Whether the column is semi-continuous, and such that the text isn't refused.
    pub(crate) fn is_semi(self) -> bool
        ensures { result ≡ is_semi (settled self) }
    {
        self.semi && !self.whole && are_semi_sides(self.own_sides())
    }

    /// The sides in the box of the program.
    pub(crate) fn sides(self) -> Sides
        ensures { result ≡ column_sides (settled self) }
    {
        let own = self.own_sides();
        if self.is_semi() { open_sides(own) } else { own }
    }

    /// The choice of the column: open where it is semi-continuous.
    pub(crate) fn choice(self) -> Choice
        ensures { result ≡ choice_of (settled self) }
    {
        if self.is_semi() {
            Choice::open(self.own_sides())
        } else {
            Choice::plain()
        }
    }
}
