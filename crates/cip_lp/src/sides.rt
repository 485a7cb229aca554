//! Sides of columns, and columns that are whole.
ghost use Rattle.std.specs.Prelude.{◌≡◌};
ghost use Rattle.cip_text_rules.specs.LpFacts as facts;
ghost use Rattle.cip_text_rules.specs.LpPlaces.{SetsLow, SetsHigh, SetsBoth, MakesWhole, MakesBinary};

use crate::draft::LpDraft;
use cip_frac::Frac;
use cip_lin::Sides;

impl LpDraft {
    /// Sets the low side of a column that was named; `None` opens it.
    pub fn set_low(&mut self, name: &[u8], side: Option<Frac>)
        ensures { self.new ≡ facts.facts_with self.old (SetsLow name.now side) }
    {
        if let Some(column) = self.find_column(name) {
            self.sides[column].low = side;
        }
    }

    /// Sets the high side of a column that was named; `None` opens it.
    pub fn set_high(&mut self, name: &[u8], side: Option<Frac>)
        ensures { self.new ≡ facts.facts_with self.old (SetsHigh name.now side) }
    {
        if let Some(column) = self.find_column(name) {
            self.sides[column].high = side;
        }
    }

    /// Sets both sides of a column that was named; `None` opens them.
    pub fn set_both(&mut self, name: &[u8], side: Option<Frac>)
        ensures { self.new ≡ facts.facts_with self.old (SetsBoth name.now side) }
    {
        if let Some(column) = self.find_column(name) {
            let high = side;
            self.sides[column] = Sides { low: side, high };
        }
    }

    /// Makes a column that was named whole.
    pub fn make_whole(&mut self, name: &[u8])
        ensures { self.new ≡ facts.facts_with self.old (MakesWhole name.now) }
    {
        if let Some(column) = self.find_column(name) {
            self.whole[column] = true;
        }
    }

    /// Makes a column that was named whole, from 0 to 1.
    pub fn make_binary(&mut self, name: &[u8])
        ensures { self.new ≡ facts.facts_with self.old (MakesBinary name.now) }
    {
        if let Some(column) = self.find_column(name) {
            self.whole[column] = true;
            self.sides[column] = Sides {
                low: Some(Frac::zero()),
                high: Some(Frac::one()),
            };
        }
    }
}
