//! What a flip writes.
ghost use Rattle.std.specs.Prelude.{◌≡◌, ◌<◌, ◌^◌, false, length, Some, None, MatchResult};
ghost use Rattle.cip_rational.specs.Rational.{◌+ℚ◌};
ghost use Rattle.cip_problem.specs.Activity.{value_at};
ghost use Rattle.cip_bland.specs.Tables.{least};
ghost use Rattle.cip_bland.specs.Exchange.{CanFlip, other_stand};
ghost use Rattle.cip_bland.specs.Operations.{first_overflow};
ghost use Rattle.cip_bland.specs.MoveOperations.{first_line, flip_operations};
ghost use Rattle.cip_dict.specs.Lists.{basic_in};
ghost use Rattle.cip_dict.specs.State.{state, HasLists, HasRoom};
ghost use Rattle.cip_dict.specs.Written.{flips_operations, MovesWritten, IsFlipPlanned, IsFlipTaken};

use crate::entries::sum;
use crate::exchange::side_of;
use crate::fault::OutOfRange;
use crate::lines::{is_basic, number_at};
use crate::lists::{Lists, Room};
use crate::values::{Shift, take_values, value_of, write_flipped};
use cip_bland::{Line, Stand};
use cip_frac::Frac;
use cip_lin::Sides;

/// The line of the first basic variable, and that of the cost where there is none.
fn first_basic(standing: &[Option<Stand>]) -> Line
    requires { length standing.now < 2 ^ 32 }
    ensures { result ≡ first_line (least (length standing.now) (basic_in standing.now)) }
{
    for v in 0..standing.len() {
        if is_basic(standing, v) {
            return Line::Row(v as u32);
        }
    }
    Line::Cost
}

/// The other side of a variable that stands at one; 0 stays.
pub(crate) fn other_of(at: Option<Stand>) -> Stand
    ensures { result ≡ other_stand at }
{
    match at {
        Some(Stand::Low) => Stand::High,
        Some(Stand::High) => Stand::Low,
        Some(Stand::Zero) => Stand::Zero,
        None => Stand::Zero,
    }
}

/// Writes the values after j has flipped by t to a side, and answers the cost.
fn write_flips(
    standing: &[Option<Stand>],
    j: u32,
    t: Frac,
    side: Frac,
    lists: &Lists,
    room: &mut Room,
) -> Result<Frac, OutOfRange>
    requires few { length standing.now < 2 ^ 32 }
    requires flips { j < length standing.now }
    requires nonbasic { basic_in standing.now j ≡ false }
    requires arrives { side ≡ value_at lists.now.values.items j +ℚ t }
    requires lists_long { HasLists standing.now lists.now }
    requires room_long { HasRoom standing.now room.old }
    ensures written { MatchResult result
        (λ cost. (first_overflow (flips_operations standing.now j t lists.now) ≡ None)
        × MovesWritten standing.now j t lists.now room.old room.new cost)
        (λ fault. first_overflow (flips_operations standing.now j t lists.now) ≡ Some fault.place) }
    ensures long { HasRoom standing.now room.new }
{
    let shift = Shift {
        rows: lists.rows.as_slice(),
        values: lists.values.as_slice(),
        by: t,
    };
    match write_flipped(standing, &shift, j, side, room.values.as_mut_slice()) {
        Ok(()) => (),
        Err(fault) => return Err(fault),
    }
    let entry = lists.costs.entry(j);
    sum(value_of(Line::Cost), lists.cost, entry, t)
}

/// Writes all that a flip changes, and answers the cost after it.
pub(crate) fn plan_flip(
    sides: &[Sides],
    standing: &[Option<Stand>],
    lists: &Lists,
    j: u32,
    room: &mut Room,
) -> Result<Frac, OutOfRange>
    requires few { length standing.now < 2 ^ 32 }
    requires sides_long { length sides.now ≡ length standing.now }
    requires lists_long { HasLists standing.now lists.now }
    requires room_long { HasRoom standing.now room.old }
    requires can { CanFlip (state sides.now standing.now lists.now) j }
    ensures written { let d = state sides.now standing.now lists.now in
        MatchResult result
        (λ cost. (first_overflow (flip_operations d j) ≡ None) × IsFlipPlanned d j room.old room.new cost)
        (λ fault. first_overflow (flip_operations d j) ≡ Some fault.place) }
    ensures long { HasRoom standing.now room.new }
{
    let other = other_of(standing[j as usize]);
    let side = side_of(sides, j, other);
    let value = number_at(lists.values.as_slice(), j as usize);
    let place = value_of(first_basic(standing));
    match side.sub(value) {
        Ok(t) => write_flips(standing, j, t, side, lists, room),
        Err(_) => Err(OutOfRange { place }),
    }
}

/// Takes over what was planned: the values, the cost, and where j then stands.
pub(crate) fn take_flip(
    standing: &mut Vec<Option<Stand>>,
    j: u32,
    cost: Frac,
    lists: &mut Lists,
    room: &mut Room,
)
    requires flips { j < length standing.old.items }
    requires lists_long { HasLists standing.old.items lists.old }
    requires room_long { HasRoom standing.old.items room.old }
    ensures { IsFlipTaken standing.old.items j cost lists.old room.old standing.new.items lists.new room.new }
{
    let moved = room.values.as_slice();
    take_values(standing.as_slice(), j, lists.values.as_mut_slice(), moved);
    lists.cost = cost;
    let other = other_of(standing[j as usize]);
    standing[j as usize] = Some(other);
}
