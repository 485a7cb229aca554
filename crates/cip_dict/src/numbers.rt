//! What tells the entries of one line apart without a fraction: their numbers, where the line is whole, and their
//! signs.
ghost use Rattle.std.specs.Prelude.{◌≡◌, ◌<◌, length, slice_index_or};
ghost use Rattle.cip_rational.specs.Rational.{zeroℚ, lt_test};
ghost use Rattle.cip_problem.specs.Activity.{value_at};
ghost use Rattle.cip_dict.specs.SparseLines.{Kept, kept_of};

use crate::entries::is_above;
use crate::forms::Form;
use crate::whole::number_of;

impl Form {
    /// The number on a variable over the denominator of the line, where that is whole: numbers of one line compare as
    /// their entries do.
    #[inline(always)]
    pub(crate) fn number(&self, k: u32) -> Option<i64>
        requires { k < length self.now }
    {
        if self.is_whole {
            Some(number_of(self.wholes.as_slice(), k))
        } else {
            None
        }
    }

    /// The same of an entry that isn't 0, by its place.
    #[inline(always)]
    pub(crate) fn number_at(&self, at: usize) -> Option<i64>
        requires { at < length (kept_of (length self.now) (value_at self.now)) }
    {
        if self.is_whole {
            Some(self.wholes[at].1)
        } else {
            None
        }
    }

    /// The variable of an entry that isn't 0, and whether the entry is above 0.
    #[inline(always)]
    pub(crate) fn sign_at(&self, at: usize) -> (u32, bool)
        requires { at < length (kept_of (length self.now) (value_at self.now)) }
        ensures variable { (d : Kept)
            → result.0 ≡ (slice_index_or (kept_of (length self.now) (value_at self.now)) at d).0 }
        ensures above { (d : Kept)
            → result.1 ≡ lt_test zeroℚ (slice_index_or (kept_of (length self.now) (value_at self.now)) at d).1 }
    {
        if self.is_whole {
            let wholes = self.wholes.as_slice();
            (wholes[at].0, wholes[at].1 > 0)
        } else {
            let entries = self.entries.as_slice();
            let entry = entries[at];
            (entry.0, is_above(entry.1))
        }
    }
}
