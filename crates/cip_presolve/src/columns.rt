//! The rule that looks at one column: one with equal sides costs nothing from then on.
ghost use Rattle.std.specs.Prelude.{◌≡◌, ◌<◌, length};
ghost use Rattle.cip_problem.specs.Activity.{value_at};
ghost use Rattle.cip_presolve.specs.NarrowedPrograms.{IsExactStep, with_cost};
ghost use Rattle.cip_presolve.specs.RuleEnds.{EndsRightly};

use crate::drafts::Draft;
use crate::fixed_columns::only_value;
use crate::rules::Outcome;
use cip_frac::Frac;

impl Draft {
    /// The cost of a column.
    pub fn cost(&self, column: u32) -> Frac
        requires { column < length self.now.bounds }
        ensures { result ≡ value_at self.now.costs column }
    {
        self.costs[column as usize]
    }

    /// Replaces the cost of a column, and the constant.
    pub fn set_cost(&mut self, column: u32, cost: Frac, constant: Frac)
        requires { column < length self.old.bounds }
        ensures { self.new ≡ with_cost self.old column cost constant }
    {
        self.costs[column as usize] = cost;
        self.constant = constant;
    }

    /// Moves the cost of a column with equal sides to the constant; `NoPoint` where the column is whole and its value
    /// isn't. Nothing is done where the constant would leave the range.
    #[tactic(auto, using(crate::proofs::Recosted::fixed_columns))]
    pub fn try_fixed(&mut self, column: u32) -> Outcome
        requires { column < length self.old.bounds }
        ensures step { IsExactStep self.old self.new }
        ensures end { EndsRightly self.new result }
        ensures rows { length self.new.rows ≡ length self.old.rows }
        ensures columns { length self.new.bounds ≡ length self.old.bounds }
    {
        let Some(value) = only_value(self.bounds().sides(column)) else {
            return Outcome::Kept;
        };
        if self.is_whole(column) && !value.is_whole() {
            return Outcome::NoPoint;
        }
        let cost = self.cost(column);
        let mut constant = self.constant();
        if cost.is_zero() || !constant.add_product(&cost, &value) {
            return Outcome::Kept;
        }
        self.set_cost(column, Frac::zero(), constant);
        Outcome::Gone
    }
}
