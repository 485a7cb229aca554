//! Rows are added to the pool.
ghost use Rattle.std.specs.Prelude.{◌≡◌, length, MatchResult, if◌then◌else◌};
ghost use Rattle.cip_problem.specs.WellFormed.{columns};
ghost use Rattle.cip_problem.specs.Cuts.{row_of};
ghost use Rattle.cip_problem.specs.Improving.{IsValid};
ghost use Rattle.cip_cert.specs.Resting.{valid_below};
ghost use Rattle.cip_rows.specs.Adding.{IsAdded};
ghost use Rattle.cip_core.specs.RowsAsked.{scope_of, IsAsked};
ghost use Rattle.cip_core.specs.CoreStates.{reduced_of, held_of, IsAtWork};
ghost use Rattle.cip_core.specs.Later.{IsLaterAt};

use crate::cores::Core;
use cip_cert::{CutFault, Rows, Scratch, derive, rests_on_cutoff};
use cip_frac::Frac;
use cip_lin::{Bounds, Combo};
use cip_rows::Added;
use cip_tree::Node;
use std::alloc::AllocError;

/// What asking for a row came to.
#[derive(Drop)]
pub enum Asked {
    /// The check accepts the combination, and the pool says this of its row.
    Told(Added),
    /// The check refuses the combination.
    Refused(CutFault),
}

/// The box in work, or the root's.
fn scope<'x>(work: &'x Bounds, root: &'x Bounds, local: bool) -> &'x Bounds
    ensures { result.now ≡ if local then work.now else root.now }
{
    if local { work } else { root }
}

impl<'a> Core<'a> {
    /// Adds the row, while a node is in work, that a combination of the reduced program's rows, the pool's, the cutoff
    /// row and the sides of a box adds up to, with `round` rounded up. The box is that in work where the row is
    /// `local`, and else the root's: there the row is valid, and it is its scope. `Refused` comes exactly where the
    /// check refuses the combination, and changes nothing. `Err` comes where memory was refused, and leaves the pool
    /// as it was.
    pub fn add_row(
        &mut self,
        node: &Node,
        combo: &Combo,
        round: bool,
        local: bool,
    ) -> Result<Asked, AllocError>
        requires { IsAtWork self.old node.now }
        ensures asked { MatchResult result (IsAsked self.old self.new combo.now round local)
            (λ _. self.new.pool ≡ self.old.pool) }
        ensures later { IsLaterAt self.old node.now self.new node.now }
        ensures frame { self.new ≡ record self.old { pool = self.new.pool; touched = self.new.touched } }
    {
        let _columns = self.reduced.columns();
        let lent = Rows {
            own: self.reduced.rows(),
            pool: self.pool.rows(),
            cutoff: &self.cutoff,
            whole: self.reduced.whole(),
        };
        let bounds = scope(self.tree.bounds(), self.reduced.bounds(), local);
        match derive(&lent, bounds, combo, round, &mut self.scratch) {
            Err(fault) => Ok(Asked::Refused(fault)),
            Ok(least) => {
                self.touched = true;
                let rests = rests_on_cutoff(self.pool.rows(), combo);
                let added = self.pool.add(&self.scratch, least, bounds, rests)?;
                Ok(Asked::Told(added))
            }
        }
    }

    /// Adds a row, while a node is in work, whose coefficients stand in a scratch, and which is valid in the box in
    /// work where it is `local`, and else in the root's: below the cost held where it `rests`, and else below each
    /// cost. That box is its scope. `Err` comes where memory was refused, and leaves the pool as it was.
    pub fn add_valid(
        &mut self,
        node: &Node,
        scratch: &Scratch,
        least: Frac,
        local: bool,
        rests: bool,
    ) -> Result<Added, AllocError>
        requires at_work { IsAtWork self.old node.now }
        requires long { length scratch.now.row.entries ≡ columns (reduced_of self.old) }
        requires valid { IsValid (reduced_of self.old) (valid_below (held_of self.old) rests) (scope_of self.old local)
            (record { coefficients = scratch.now.row.entries; least = least }) }
        ensures added { MatchResult result (IsAdded self.old.pool
            (row_of (record { coefficients = scratch.now.row.entries; least = least })) (scope_of self.old local) rests
            self.new.pool) (λ _. self.new.pool ≡ self.old.pool) }
        ensures later { IsLaterAt self.old node.now self.new node.now }
        ensures frame { self.new ≡ record self.old { pool = self.new.pool; touched = self.new.touched } }
    {
        let _ = node;
        let _columns = self.reduced.columns();
        self.touched = true;
        let bounds = scope(self.tree.bounds(), self.reduced.bounds(), local);
        self.pool.add(scratch, least, bounds, rests)
    }
}
