//! The points of a pool, taken into the master program.
ghost use Rattle.std.specs.Prelude.{◌≡◌, ◌<◌, ◌^◌, length, All, MatchResult, OnOk};
ghost use Rattle.cip_problem.specs.WellFormed.{columns};
ghost use Rattle.cip_columns.specs.ColumnPools.{is_inside};
ghost use Rattle.cip_lagrange.specs.Numbers.{found};
ghost use Rattle.cip_lagrange.specs.Decompositions.{IsDecompositionOf};
ghost use Rattle.cip_master.specs.KeptMasters.{HasSeen, ArePoolPoints, PutsPoint, TakesPoint, IsPointFault, IsTakenFault, IsPoolFault, is_held_in};

use crate::masters::{MasterFault, MasterProgram};
use crate::sums::part_sum;
use cip_columns::{ColumnPool, HeldPoint};
use cip_frac::Frac;
use cip_lagrange::{Decomposed, Program};
use cip_lin::Bounds;

/// Whether values lie between the sides of the columns with these numbers, one for each of them.
#[tactic(auto, using(crate::proofs::NumberSums::inside_opened, crate::proofs::NumberSums::inside_other))]
fn is_in_part(bounds: &Bounds, numbers: &[u32], values: &[Frac]) -> bool
    requires { All (λ number. number < length bounds.now) numbers.now }
    ensures { result ≡ is_inside (found bounds.now numbers.now) values.now }
{
    if numbers.len() != values.len() {
        return false;
    }
    for at in 0..numbers.len() {
        if !bounds.sides(numbers[at]).contains(values[at]) {
            return false;
        }
    }
    true
}

/// Whether a point lies in its block's part of a box of the program.
pub fn is_held_in(program: &Program, blocks: &Decomposed, bounds: &Bounds, held: &HeldPoint) -> bool
    requires made { IsDecompositionOf program.now blocks.now }
    requires box_ { length bounds.now ≡ columns program.now }
    requires block { held.now.block < length blocks.now.subproblems.items }
    ensures { result ≡ is_held_in blocks.now.column_owners.items bounds.now held.now }
{
    let _columns = program.columns();
    let numbers = blocks.blocks.columns(held.block() as usize);
    is_in_part(bounds, numbers, held.values())
}

impl MasterProgram {
    /// Puts one more point.
    fn put_point(
        &mut self,
        program: &Program,
        blocks: &Decomposed,
        held: &HeldPoint,
    ) -> Result<(), MasterFault>
        requires made { IsDecompositionOf program.now blocks.now }
        requires block { held.now.block < length blocks.now.subproblems.items }
        requires masters { length self.old.masters.items ≡ length blocks.now.blocks.master_rows }
        requires sums { length self.old.sums.items ≡ length blocks.now.subproblems.items }
        requires few { length self.old.bounds < 2 ^ 32 }
        ensures put { MatchResult result
            (λ _. PutsPoint program.now blocks.now held.now self.old self.new)
            (IsPointFault program.now blocks.now held.now) }
        ensures seen { OnOk result (self.new.seen ≡ self.old.seen) }
    {
        let _columns = program.columns();
        let block = held.block() as usize;
        let numbers = blocks.blocks.columns(block);
        let column = self.bounds.len() as u32;
        let cost = match part_sum(program.costs(), numbers, held.values()) {
            Ok(cost) => cost,
            Err(_) => return Err(MasterFault::Wide),
        };
        self.put_in_masters(program, blocks, held, column)?;
        self.put_last(block, column, cost, held.id())?;
        Ok(())
    }

    /// Takes one more point of the pool, if it lies in the box.
    fn take_point(
        &mut self,
        program: &Program,
        blocks: &Decomposed,
        bounds: &Bounds,
        held: &HeldPoint,
    ) -> Result<(), MasterFault>
        requires made { IsDecompositionOf program.now blocks.now }
        requires box_ { length bounds.now ≡ columns program.now }
        requires block { held.now.block < length blocks.now.subproblems.items }
        requires masters { length self.old.masters.items ≡ length blocks.now.blocks.master_rows }
        requires sums { length self.old.sums.items ≡ length blocks.now.subproblems.items }
        requires few { length self.old.bounds < 2 ^ 32 }
        ensures taken { MatchResult result
            (λ _. TakesPoint program.now blocks.now bounds.now held.now self.old self.new)
            (IsTakenFault program.now blocks.now bounds.now held.now) }
        ensures seen { OnOk result (self.new.seen ≡ self.old.seen) }
    {
        if is_held_in(program, blocks, bounds, held) {
            self.put_point(program, blocks, held)
        } else {
            Ok(())
        }
    }

    /// Takes the points of a pool that weren't looked at so far, those that lie in the box: then it is the master
    /// program of all of the pool's that do. `Wide` comes only where the cost of one of these, or what it comes to in a
    /// master row, is out of range.
    pub fn take_points(
        &mut self,
        program: &Program,
        blocks: &Decomposed,
        bounds: &Bounds,
        pool: &ColumnPool,
    ) -> Result<(), MasterFault>
        requires made { IsDecompositionOf program.now blocks.now }
        requires box_ { length bounds.now ≡ columns program.now }
        requires points { ArePoolPoints program.now blocks.now pool.now }
        requires seen { HasSeen program.now blocks.now bounds.now pool.now self.old }
        ensures { MatchResult result
            (λ _. HasSeen program.now blocks.now bounds.now pool.now self.new
            × (self.new.seen ≡ length pool.now))
            (IsPoolFault program.now blocks.now bounds.now pool.now) }
    {
        let _columns = program.columns();
        let points = pool.points();
        let first = self.seen;
        for at in first..points.len() {
            match self.take_point(program, blocks, bounds, &points[at]) {
                Ok(()) => self.seen = at + 1,
                Err(fault) => return Err(fault),
            }
        }
        Ok(())
    }
}
