//! Dictionaries: the states of the simplex method, and the moves from one to the next.
ghost use Rattle.std.specs.Prelude.{◌≡◌, ◌+◌, ◌<◌, ◌^◌, length, not, true, Some, None, MatchResult, slice_index_or};
ghost use Rattle.cip_rational.specs.Rational.{zeroℚ, lt_test, is_zero};
ghost use Rattle.cip_problem.specs.Box.{sides_at};
ghost use Rattle.cip_bland.specs.Dictionary as def;
ghost use Rattle.cip_bland.specs.Exchange.{CanExchange, exchanged, CanFlip, flipped};
ghost use Rattle.cip_bland.specs.FirstState.{first, first_operations};
ghost use Rattle.cip_dict.specs.Entries.{AreWithin, system_in, IsFirstFault};
ghost use Rattle.cip_dict.specs.MoveFaults.{IsMoveFault};
ghost use Rattle.cip_dict.specs.SparseLines.{Kept, kept_of};
ghost use Rattle.cip_bland.specs.Operations.{first_overflow};
ghost use Rattle.cip_bland.specs.MoveOperations.{exchange_operations, flip_operations};

use crate::exchange::{plan, take_over};
use crate::fault::{FirstFault, MoveFault, OutOfRange};
use crate::first::{System, all_sides, first_lists, first_stands};
use crate::flip::{plan_flip, take_flip};
use crate::lists::{Lists, Room};
use crate::pivots::Exchange;
use crate::spare::{Spare, keep, keep_counted};
use cip_bland::Stand;
use cip_frac::Frac;
use cip_lin::Sides;
use std::alloc::Global;
use std::marker::Model;

/// A state of the simplex method. Variables go by number, columns first, then rows; a row of the dictionary is named
/// by its basic variable.
#[derive(Drop)]
pub struct Dict {
    pub(crate) sides: Vec<Sides>,
    pub(crate) standing: Vec<Option<Stand>>,
    pub(crate) lists: Lists,
    pub(crate) room: Room,
}

impl Model for Dict {
    ghost use Rattle.cip_bland.specs.Dictionary.{Dictionary};
    ghost use Rattle.cip_dict.specs.DictionaryCode.{dictionary_code};

    ghost Value = { Dictionary };

    ghost coded = { dictionary_code };

    ghost use Rattle.cip_dict.specs.State.{state, IsShaped};

    ghost view = { λ d. state d.sides.items d.standing.items d.lists };

    ghost invariant = { λ d. IsShaped d.sides.items d.standing.items d.lists d.room };
}

impl Dict {
    /// The first state of a linear program: each row is basic, and each column stands at its low side, else at its high
    /// side, else at 0. An entry is a row, a column and the coefficient there; of two that name the same, the last
    /// counts. Sides and costs go by the numbers of rows and columns. `OutOfRange` comes exactly where an operation
    /// leaves the range, and names the place of the first; `NoMemory` where a growth was refused. Its lists are those
    /// that are spare, filled anew, and new ones where there are too few.
    pub fn first(
        alloc: Global,
        spare: &mut Spare,
        entries: &[(u32, u32, Frac)],
        row_sides: &[Sides],
        column_sides: &[Sides],
        costs: &[Frac],
    ) -> Result<Dict, FirstFault>
        requires few { length column_sides.now + length row_sides.now < 2 ^ 32 }
        requires within { AreWithin (length row_sides.now) (length column_sides.now) entries.now }
        requires costs_long { length costs.now ≡ length column_sides.now }
        ensures { let p = system_in entries.now row_sides.now column_sides.now costs.now in
            MatchResult result
            (λ dict. (first_overflow (first_operations p) ≡ None) × (dict ≡ first p))
            (IsFirstFault p) }
    {
        let n = column_sides.len() + row_sides.len();
        let system = System {
            entries,
            rows: row_sides,
            columns: column_sides,
            costs,
        };
        let Ok(standing) = first_stands(alloc, spare, column_sides, n) else {
            return Err(FirstFault::NoMemory);
        };
        let Ok(sides) = all_sides(alloc, spare, column_sides, row_sides) else {
            drop(standing);
            return Err(FirstFault::NoMemory);
        };
        match first_lists(alloc, spare, standing.as_slice(), &system) {
            Ok((lists, room)) => Ok(Dict {
                sides,
                standing,
                lists,
                room,
            }),
            Err(fault) => {
                drop(sides);
                drop(standing);
                Err(fault)
            }
        }
    }

    /// Keeps the lists, so that the next dictionary can be made of them.
    pub fn give_back(self, spare: &mut Spare) {
        keep(&mut spare.sides, self.sides);
        keep(&mut spare.stands, self.standing);
        spare.keep_forms(self.lists.rows);
        spare.keep_form(self.lists.costs);
        keep(&mut spare.numbers, self.lists.values);
        spare.keep_form(self.room.entering);
        let scratch = self.room.scratch;
        keep_counted(
            &mut spare.entries,
            &mut spare.room,
            scratch.entering.entries,
        );
        keep_counted(&mut spare.entries, &mut spare.room, scratch.row);
        spare.keep_forms(self.room.rows);
        spare.keep_form(self.room.costs);
        keep(&mut spare.numbers, self.room.values);
        keep(&mut spare.marks, self.room.changed);
    }

    /// The number of variables. And the state is consistent: rows stand on nonbasic variables alone, and the values are
    /// those of the rows and of the places where the nonbasic variables stand.
    pub fn len(&self) -> usize
        ensures variables { result ≡ def.size self.now }
        ensures consistent { def.IsConsistent self.now }
    {
        self.sides.len()
    }

    /// The entry of the basic variable i on the variable j; 0 where j is basic.
    pub fn entry(&self, i: u32, j: u32) -> Frac
        requires within { i < def.size self.now }
        requires basic { def.is_basic self.now i ≡ true }
        requires on { j < def.size self.now }
        ensures { result ≡ def.entry self.now i j }
    {
        self.lists.rows[i as usize].entry(j)
    }

    /// Whether the basic variable i has an entry on the variable j that isn't 0.
    pub fn has_entry(&self, i: u32, j: u32) -> bool
        requires within { i < def.size self.now }
        requires basic { def.is_basic self.now i ≡ true }
        requires on { j < def.size self.now }
        ensures { result ≡ not (is_zero (def.entry self.now i j)) }
    {
        self.lists.rows[i as usize].has(j)
    }

    /// Whether the entry of the basic variable i on the variable j is above 0.
    pub fn is_entry_positive(&self, i: u32, j: u32) -> bool
        requires within { i < def.size self.now }
        requires basic { def.is_basic self.now i ≡ true }
        requires on { j < def.size self.now }
        ensures { result ≡ lt_test zeroℚ (def.entry self.now i j) }
    {
        self.lists.rows[i as usize].is_above(j)
    }

    /// On how many variables the basic variable i has an entry that isn't 0.
    pub fn row_len(&self, i: u32) -> usize
        requires within { i < def.size self.now }
        requires basic { def.is_basic self.now i ≡ true }
        ensures { result ≡ length (kept_of (def.size self.now) (def.entry self.now i)) }
    {
        self.lists.rows[i as usize].kept_len()
    }

    /// An entry of the basic variable i that isn't 0, with the variable on which it stands, by rising variable: the
    /// first at 0.
    pub fn row_entry(&self, i: u32, at: usize) -> (u32, Frac)
        requires within { i < def.size self.now }
        requires basic { def.is_basic self.now i ≡ true }
        requires there { at < length (kept_of (def.size self.now) (def.entry self.now i)) }
        ensures { (d : Kept) → result ≡ slice_index_or (kept_of (def.size self.now) (def.entry self.now i)) at d }
    {
        self.lists.rows[i as usize].kept_at(at)
    }

    /// The variable of an entry of the basic variable i that isn't 0, as `row_entry` answers it, and whether the entry
    /// is above 0. No fraction is formed.
    pub fn row_sign(&self, i: u32, at: usize) -> (u32, bool)
        requires within { i < def.size self.now }
        requires basic { def.is_basic self.now i ≡ true }
        requires there { at < length (kept_of (def.size self.now) (def.entry self.now i)) }
        ensures variable { (d : Kept)
            → result.0 ≡ (slice_index_or (kept_of (def.size self.now) (def.entry self.now i)) at d).0 }
        ensures above { (d : Kept)
            → result.1 ≡ lt_test zeroℚ (slice_index_or (kept_of (def.size self.now) (def.entry self.now i)) at d).1 }
    {
        self.lists.rows[i as usize].sign_at(at)
    }

    /// The number at a place of the row of i, as `row_entry` counts them, where the row is kept as whole numbers over
    /// one denominator: numbers of one row compare as its entries do. It is for choices of which any is right, and no
    /// clause says what it is.
    pub fn row_number(&self, i: u32, at: usize) -> Option<i64>
        requires within { i < def.size self.now }
        requires basic { def.is_basic self.now i ≡ true }
        requires there { at < length (kept_of (def.size self.now) (def.entry self.now i)) }
    {
        self.lists.rows[i as usize].number_at(at)
    }

    /// The value of a variable.
    pub fn value(&self, v: u32) -> Frac
        requires { v < def.size self.now }
        ensures { result ≡ def.value self.now v }
    {
        self.lists.values[v as usize]
    }

    /// The entry of the cost on a variable; 0 where that is basic.
    pub fn cost_entry(&self, v: u32) -> Frac
        requires { v < def.size self.now }
        ensures { result ≡ def.cost_entry self.now v }
    {
        self.lists.costs.entry(v)
    }

    /// On how many variables the cost has an entry that isn't 0.
    pub fn costs_len(&self) -> usize
        ensures { result ≡ length (kept_of (def.size self.now) (def.cost_entry self.now)) }
    {
        self.lists.costs.kept_len()
    }

    /// An entry of the cost that isn't 0, with the variable on which it stands, by rising variable: the first at 0.
    pub fn cost_at(&self, at: usize) -> (u32, Frac)
        requires { at < length (kept_of (def.size self.now) (def.cost_entry self.now)) }
        ensures { (d : Kept) → result ≡ slice_index_or (kept_of (def.size self.now) (def.cost_entry self.now)) at d }
    {
        self.lists.costs.kept_at(at)
    }

    /// The variable of an entry of the cost that isn't 0, as `cost_at` answers it, and whether the entry is above 0. No
    /// fraction is formed.
    pub fn cost_sign(&self, at: usize) -> (u32, bool)
        requires { at < length (kept_of (def.size self.now) (def.cost_entry self.now)) }
        ensures variable { (d : Kept)
            → result.0 ≡ (slice_index_or (kept_of (def.size self.now) (def.cost_entry self.now)) at d).0 }
        ensures above { (d : Kept)
            → result.1 ≡ lt_test zeroℚ (slice_index_or (kept_of (def.size self.now) (def.cost_entry self.now)) at d).1 }
    {
        self.lists.costs.sign_at(at)
    }

    /// The number of the cost on a variable, where its line is kept as whole numbers over one denominator: these
    /// compare as its entries do. It is for choices of which any is right, and no clause says what it is.
    pub fn cost_number(&self, k: u32) -> Option<i64>
        requires { k < def.size self.now }
    {
        self.lists.costs.number(k)
    }

    /// The same of an entry of the cost that isn't 0, as `cost_at` counts them.
    pub fn cost_number_at(&self, at: usize) -> Option<i64>
        requires { at < length (kept_of (def.size self.now) (def.cost_entry self.now)) }
    {
        self.lists.costs.number_at(at)
    }

    /// The cost.
    pub fn cost(&self) -> Frac
        ensures { result ≡ self.now.cost }
    {
        self.lists.cost
    }

    /// The sides of a variable.
    pub fn sides(&self, v: u32) -> Sides
        requires { v < def.size self.now }
        ensures { result ≡ sides_at self.now.sides v }
    {
        self.sides[v as usize]
    }

    /// Where a variable stands; none where it is basic.
    pub fn stand(&self, v: u32) -> Option<Stand>
        requires { v < def.size self.now }
        ensures { result ≡ def.stand self.now v }
    {
        self.standing[v as usize]
    }

    /// Exchanges the basic variable i, which leaves to `stand`, and the nonbasic j, which enters. The entry of i on j
    /// isn't 0, and i has the side of `stand`, or none for `Zero`. `OutOfRange` comes only where an operation of the
    /// exchange leaves the range, and names the place of the first; `NoMemory` where a growth was refused. After either
    /// the state is as before.
    pub fn exchange(&mut self, i: u32, j: u32, stand: Stand) -> Result<(), MoveFault>
        requires { CanExchange self.old i j stand }
        ensures { MatchResult result
            (λ _. (first_overflow (exchange_operations self.old i j stand) ≡ None)
            × (self.new ≡ exchanged self.old i j stand))
            (λ fault. IsMoveFault (exchange_operations self.old i j stand) fault × (self.new ≡ self.old)) }
    {
        let sides = self.sides.as_slice();
        let standing = self.standing.as_slice();
        let asked = Exchange {
            leaving: i,
            entering: j,
            to: stand,
        };
        match plan(sides, standing, &self.lists, asked, &mut self.room) {
            Ok(cost) => {
                let standing = &mut self.standing;
                take_over(standing, asked, cost, &mut self.lists, &mut self.room);
                Ok(())
            }
            Err(fault) => Err(fault),
        }
    }

    /// Takes the nonbasic variable j, which has two sides, from the one where it stands to the other. `OutOfRange`
    /// comes exactly where an operation of the flip leaves the range, and names the place of the first; then the state
    /// is as before.
    pub fn flip(&mut self, j: u32) -> Result<(), OutOfRange>
        requires { CanFlip self.old j }
        ensures { MatchResult result
            (λ _. (first_overflow (flip_operations self.old j) ≡ None) × (self.new ≡ flipped self.old j))
            (λ fault. (first_overflow (flip_operations self.old j) ≡ Some fault.place)
            × (self.new ≡ self.old)) }
    {
        let sides = self.sides.as_slice();
        let standing = self.standing.as_slice();
        match plan_flip(sides, standing, &self.lists, j, &mut self.room) {
            Ok(cost) => {
                take_flip(&mut self.standing, j, cost, &mut self.lists, &mut self.room);
                Ok(())
            }
            Err(fault) => Err(fault),
        }
    }
}
