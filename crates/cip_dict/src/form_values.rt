//! The values of forms, by their entries that aren't 0.
ghost use Rattle.std.specs.Prelude.{◌≡◌, ℕ, ◌≤◌, length, Some, None, MatchResult};
ghost use Rattle.cip_problem.specs.Activity.{value_at};
ghost use Rattle.cip_bland.specs.Tables.{form};
ghost use Rattle.cip_bland.specs.FirstState.{form_operations};
ghost use Rattle.cip_bland.specs.Operations.{first_overflow};
ghost use Rattle.cip_dict.specs.SparseLines.{entry_on, AreKept};

use crate::entries::sum;
use crate::fault::OutOfRange;
use crate::lines::number_at;
use crate::listed::is_within;
use crate::values::value_of;
use cip_bland::Line;
use cip_frac::Frac;

/// The value of a form on the first n variables, by its entries that aren't 0: the products added one after another.
pub(crate) fn entries_value(
    line: Line,
    n: usize,
    entries: &[(u32, Frac)],
    values: &[Frac],
) -> Result<Frac, OutOfRange>
    requires kept { (len : ℕ) × AreKept 0 len entries.now }
    requires values_long { n ≤ length values.now }
    ensures { let operations = form_operations line n (entry_on entries.now) (value_at values.now) in
        MatchResult result
        (λ v. (first_overflow operations ≡ None) × (v ≡ form n (entry_on entries.now) (value_at values.now)))
        (λ fault. first_overflow operations ≡ Some fault.place) }
{
    let mut total = Frac::zero();
    let mut place = 0;
    'places: while is_within(entries, place, n) {
        let entry = entries[place];
        let value = number_at(values, entry.0 as usize);
        match sum(value_of(line), total, entry.1, value) {
            Ok(value) => total = value,
            Err(fault) => return Err(fault),
        }
        place += 1;
    }
    Ok(total)
}
