//! A line of a dictionary: its entries on all variables.
ghost use Rattle.std.specs.Prelude.{◌≡◌, not, ◌^◌, ◌<◌, ◌≤◌, [], length, Some, None, OnOk, MatchResult, replicate, slice_set, slice_index_or};
ghost use Rattle.cip_rational.specs.Rational.{zeroℚ, lt_test, is_zero};
ghost use Rattle.cip_problem.specs.Activity.{value_at};
ghost use Rattle.cip_bland.specs.Tables.{form};
ghost use Rattle.cip_bland.specs.FirstState.{form_operations};
ghost use Rattle.cip_bland.specs.Operations.{first_overflow};
ghost use Rattle.cip_dict.specs.SparseLines.{Kept, kept_of};
ghost use Rattle.cip_dict.specs.WholeLines.{IsSpelled};

use crate::entries::{is_above, vanishes};
use crate::fault::OutOfRange;
use crate::form_values::entries_value;
use crate::kept::{entry_of, put_entry};
use crate::settle::{common_below, settle_entries};
use crate::spare::{Spare, taken};
use crate::whole::{fraction, number_of, spell_wholes};
use crate::whole_entries::{put_behind, wholes_value};
use cip_bland::Line;
use cip_frac::Frac;
use std::alloc::{AllocError, Global};
use std::marker::Model;

/// The most entries that the lines of a dictionary and the room beside them may hold: a host lends more memory than it
/// has, and then ends the program.
const MOST_ROOM: usize = 1 << 26;

/// The entries of a line on all variables; none where a variable has no line. Those that aren't 0 are kept, each with
/// its variable, by rising variable: as whole numbers over one denominator, all below 2^42, or as fractions.
#[derive(Drop)]
pub(crate) struct Form {
    /// The fractions, where it isn't whole.
    pub(crate) entries: Vec<(u32, Frac)>,
    /// The whole numbers, where it is.
    pub(crate) wholes: Vec<(u32, i64)>,
    /// Their denominator.
    pub(crate) below: u64,
    pub(crate) is_whole: bool,
    /// The number of variables.
    pub(crate) len: usize,
}

impl Model for Form {
    ghost use Rattle.std.specs.Prelude.{List};
    ghost use Rattle.std.specs.Coded.{coded_list};
    ghost use Rattle.cip_rational.specs.Rational.{ℚ, coded_ℚ};

    ghost Value = { List ℚ };

    ghost coded = { coded_list coded_ℚ };

    ghost use Rattle.cip_dict.specs.SparseLines.{dense};
    ghost use Rattle.cip_dict.specs.WholeLines.{kept_in, IsForm};

    ghost view = { λ f. dense f.len (kept_in f.is_whole f.below f.wholes.items f.entries.items) };

    ghost invariant = { λ f. IsForm f.len f.is_whole f.below f.wholes.items f.entries.items };
}

impl Form {
    /// So many entries of 0.
    pub(crate) fn zeros(alloc: Global, spare: &mut Spare, len: usize) -> Form
        ensures { result ≡ replicate len zeroℚ }
    {
        let entries = taken(alloc, &mut spare.entries, &mut spare.room);
        let wholes = taken(alloc, &mut spare.wholes, &mut spare.room);
        Form {
            entries,
            wholes,
            below: 1,
            is_whole: true,
            len,
        }
    }

    /// How many entries it has room for.
    #[inline(always)]
    pub(crate) fn room(&self) -> usize {
        self.entries
            .capacity()
            .saturating_add(self.wholes.capacity())
    }

    /// The entry on a variable.
    pub(crate) fn entry(&self, k: u32) -> Frac
        requires { k < length self.now }
        ensures { result ≡ value_at self.now k }
    {
        if self.is_whole {
            fraction(number_of(self.wholes.as_slice(), k), self.below)
        } else {
            entry_of(self.entries.as_slice(), k)
        }
    }

    /// Whether the entry on a variable isn't 0.
    #[inline]
    pub(crate) fn has(&self, k: u32) -> bool
        requires { k < length self.now }
        ensures { result ≡ not (is_zero (value_at self.now k)) }
    {
        if self.is_whole {
            number_of(self.wholes.as_slice(), k) != 0
        } else {
            !vanishes(entry_of(self.entries.as_slice(), k))
        }
    }

    /// Whether the entry on a variable is above 0.
    #[inline]
    pub(crate) fn is_above(&self, k: u32) -> bool
        requires { k < length self.now }
        ensures { result ≡ lt_test zeroℚ (value_at self.now k) }
    {
        if self.is_whole {
            number_of(self.wholes.as_slice(), k) > 0
        } else {
            is_above(entry_of(self.entries.as_slice(), k))
        }
    }

    /// How many entries aren't 0.
    pub(crate) fn kept_len(&self) -> usize
        ensures { result ≡ length (kept_of (length self.now) (value_at self.now)) }
    {
        if self.is_whole {
            self.wholes.len()
        } else {
            self.entries.len()
        }
    }

    /// An entry that isn't 0, with its variable, by rising variable.
    pub(crate) fn kept_at(&self, at: usize) -> (u32, Frac)
        requires { at < length (kept_of (length self.now) (value_at self.now)) }
        ensures { (d : Kept) → result ≡ slice_index_or (kept_of (length self.now) (value_at self.now)) at d }
    {
        if self.is_whole {
            let wholes = self.wholes.as_slice();
            (wholes[at].0, fraction(wholes[at].1, self.below))
        } else {
            let entries = self.entries.as_slice();
            entries[at]
        }
    }

    /// Spells the entries, as fractions. `Err` where memory was refused.
    pub(crate) fn spell(&self, out: &mut Vec<(u32, Frac)>) -> Result<(), AllocError>
        ensures { OnOk result (IsSpelled (length self.now) self.now out.new.items) }
    {
        if self.is_whole {
            spell_wholes(self.wholes.as_slice(), self.below, out)
        } else {
            out.clear();
            out.extend_from_slice(self.entries.as_slice())
        }
    }

    /// Puts the entry on a variable. `Err` where memory was refused.
    #[inline(always)]
    pub(crate) fn set(&mut self, k: u32, entry: Frac) -> Result<(), AllocError>
        requires { k < length self.old }
        ensures { OnOk result (self.new ≡ slice_set self.old k entry) }
    {
        if self.is_whole && put_behind(&mut self.wholes, self.below, k, entry)? {
            return Ok(());
        }
        self.set_parted(k, entry)
    }

    /// The same, where it is kept as fractions from then on.
    #[inline(never)]
    fn set_parted(&mut self, k: u32, entry: Frac) -> Result<(), AllocError>
        requires { k < length self.old }
        ensures { OnOk result (self.new ≡ slice_set self.old k entry) }
    {
        if self.is_whole {
            spell_wholes(self.wholes.as_slice(), self.below, &mut self.entries)?;
            put_entry(&mut self.entries, k, entry)?;
            self.is_whole = false;
            return Ok(());
        }
        put_entry(&mut self.entries, k, entry)
    }

    /// Keeps whole numbers from now on, where they can be. `Err` where memory was refused.
    pub(crate) fn settle(&mut self) -> Result<(), AllocError>
        ensures { self.new ≡ self.old }
    {
        if self.is_whole {
            return Ok(());
        }
        let below = common_below(self.entries.as_slice());
        if !settle_entries(self.entries.as_slice(), below, &mut self.wholes)? {
            return Ok(());
        }
        self.below = below;
        self.is_whole = true;
        Ok(())
    }

    /// The value on the first n variables: the products of entries and values, added one after another.
    pub(crate) fn value(&self, line: Line, n: usize, values: &[Frac]) -> Result<Frac, OutOfRange>
        requires few { n < 2 ^ 32 }
        requires row_long { n ≤ length self.now }
        requires values_long { n ≤ length values.now }
        ensures { let operations = form_operations line n (value_at self.now) (value_at values.now) in
            MatchResult result
            (λ v. (first_overflow operations ≡ None) × (v ≡ form n (value_at self.now) (value_at values.now)))
            (λ fault. first_overflow operations ≡ Some fault.place) }
    {
        if self.is_whole {
            return wholes_value(line, n, self.wholes.as_slice(), self.below, values);
        }
        entries_value(line, n, self.entries.as_slice(), values)
    }
}

/// How many entries lines have room for, and at most `usize::MAX`.
pub(crate) fn room_of(forms: &[Form]) -> usize {
    let mut room = 0_usize;
    for form in forms {
        room = room.saturating_add(form.room());
    }
    room
}

/// Counts what a line has room for now, where it had room for fewer entries before. `NoMemory` where all lines have
/// room for more than `MOST_ROOM` then.
pub(crate) fn count_room(form: &Form, before: usize, held: &mut usize) -> Result<(), AllocError> {
    *held = held.saturating_add(form.room().saturating_sub(before));
    if *held > MOST_ROOM {
        Err(AllocError)
    } else {
        Ok(())
    }
}
