//! What a search begins with.
ghost use Rattle.std.specs.Prelude.{◌≡◌, [], None, IfOk, IfSome, MatchBool};
ghost use Rattle.cip_problem.specs.WellFormed.{columns};
ghost use Rattle.cip_problem.specs.Cuts.{HasWholeCosts};
ghost use Rattle.cip_problem.specs.Improving.{IsBoundIn};
ghost use Rattle.cip_tree.specs.Moves.{IsNew};
ghost use Rattle.cip_search.specs.SearchState.{HasGivenBoxes};
ghost use Rattle.cip_presolve.specs.StepsBack.{way_back};
ghost use Rattle.cip_presolve.specs.PresolvedPrograms.{IsPresolved};
ghost use Rattle.cip_core.specs.Beginning.{IsRootBound, AreNearColumns, HasNotBegun};
ghost use Rattle.cip_core.specs.Entering.{own_region};
ghost use Rattle.cip_core.specs.KeptNodes.{IsKept, state_of};

use crate::cores::Core;
use crate::costs::open_cutoff;
use cip_cert::Scratch;
use cip_domain::Region;
use cip_frac::Frac;
use cip_incumbent::Incumbent;
use cip_model::{Program, are_costs_whole};
use cip_node_rules::rounded_least;
use cip_presolve::Presolved;
use cip_rows::RowPool;
use cip_tree::Tree;
use std::alloc::{AllocError, Global};

/// The box bound, rounded up where costs are whole; `None` where a side is open or a sum of it overflows.
fn rounded_box_bound(program: &Program, whole_costs: bool) -> Option<Frac>
    requires { MatchBool whole_costs (HasWholeCosts program.now) (¬ HasWholeCosts program.now) }
    ensures root { IsRootBound program.now result }
    ensures holds { IfSome result (IsBoundIn program.now None program.now.bounds) }
{
    let _columns = program.columns();
    rounded_least(program.box_bound(program.bounds()), whole_costs)
}

/// The bound of the root of a search: the box bound, rounded up where the cost of each point with whole values on whole
/// columns is a whole number; `None` where a side is open or a sum of it overflows. No feasible point costs less.
pub fn root_bound(program: &Program) -> Option<Frac>
    ensures root { IsRootBound program.now result }
    ensures holds { IfSome result (IsBoundIn program.now None program.now.bounds) }
{
    rounded_box_bound(program, are_costs_whole(program))
}

/// The box and the choices of a program, by themselves; `Err` where memory was refused.
fn region_of(alloc: Global, program: &Program) -> Result<Region, AllocError>
    ensures { IfOk result (λ region. region ≡ own_region program.now) }
{
    let bounds = program.bounds().copied(alloc)?;
    let choices = program.choices().copied(alloc)?;
    Ok(Region::new(bounds, choices))
}

/// The tree of one open node, the root of the reduced program, with the bound of the program as read.
fn rooted_tree(alloc: Global, program: &Program, presolved: &Presolved) -> Result<Tree, AllocError>
    requires near { AreNearColumns presolved.now.reduced }
    requires back { IsPresolved program.now presolved.now }
    ensures new { IfOk result (λ tree.
        IsNew tree (own_region presolved.now.reduced) presolved.now.reduced.integral tree.root.bound) }
    ensures root { IfOk result (λ tree. IsRootBound program.now tree.root.bound) }
    ensures kept { IfOk result (λ tree.
        IsKept program.now presolved.now.reduced (way_back presolved.now.steps) tree None []) }
    ensures boxes { IfOk result (λ tree.
        HasGivenBoxes presolved.now.reduced tree.root.bound (state_of tree None [])) }
{
    let reduced = &presolved.reduced;
    let _columns = program.columns();
    let _left = reduced.columns();
    let bound = root_bound(program);
    let root = region_of(alloc, reduced)?;
    Tree::new(alloc, root, reduced.whole(), bound)
}

impl<'a> Core<'a> {
    /// What a search begins with of the program that presolve made of one, and which is searched in its place: its root
    /// is open, with the box bound of the program as read, rounded up where all costs of that are whole, or without a
    /// bound where a side is open or a sum of it overflows; the pool has no row, and no point is held. The sides of
    /// whole columns of the reduced program have sizes of at most 2^100, those of other columns any. `Err` comes where
    /// memory was refused.
    pub fn new(
        alloc: Global,
        program: &'a Program,
        presolved: &'a Presolved,
    ) -> Result<Core<'a>, AllocError>
        requires near { AreNearColumns presolved.now.reduced }
        requires back { IsPresolved program.now presolved.now }
        ensures { IfOk result (HasNotBegun program.now presolved.now.reduced presolved.now.steps) }
    {
        let reduced = &presolved.reduced;
        let columns = reduced.columns();
        let incumbent = Incumbent::new(alloc, program)?;
        let Ok(cutoff) = open_cutoff(alloc, reduced.costs()) else {
            drop(incumbent);
            return Err(AllocError);
        };
        let Ok(scratch) = Scratch::new(alloc, columns) else {
            drop(incumbent);
            drop(cutoff);
            return Err(AllocError);
        };
        let Ok(tree) = rooted_tree(alloc, program, presolved) else {
            drop(incumbent);
            drop(cutoff);
            drop(scratch);
            return Err(AllocError);
        };
        Ok(Core {
            program,
            reduced,
            steps: &presolved.steps,
            whole_costs: are_costs_whole(reduced),
            pool: RowPool::new(alloc, columns),
            cutoff: Some(cutoff),
            scratch,
            tree,
            incumbent,
            touched: false,
        })
    }
}
