//! The core of a search.
ghost use Rattle.std.specs.Prelude.{◌≡◌};
ghost use Rattle.cip_problem.specs.WellFormed.{IsWellFormed};
ghost use Rattle.cip_rows.specs.RowPools.{IsSoundPool};
ghost use Rattle.cip_tree.specs.Entries.{entries_of};
ghost use Rattle.cip_tree.specs.Searched.{IsSearched};
ghost use Rattle.cip_cert.specs.Lent.{lent_of};
ghost use Rattle.cip_core.specs.CoreStates.{IsSound, reduced_of, held_of, all_lent};

use cip_cert::{Rows, Scratch};
use cip_frac::Frac;
use cip_incumbent::Incumbent;
use cip_lin::{Bounds, Choices, Row};
use cip_model::Program;
use cip_presolve::Steps;
use cip_rows::RowPool;
use cip_tree::{Logged, Tree};
use std::marker::Model;

/// What a search works with: the program as read, and the reduced program that is searched in its place, with the steps
/// by which points and leaves come back; the nodes with the log, the point held, the pool of rows, and the region in
/// work, which is the box of a node with its choices. Contracts see these, and whether a row was added or a side
/// tightened since the search began.
#[derive(Drop)]
pub struct Core<'a> {
    pub(crate) program: &'a Program,
    pub(crate) reduced: &'a Program,
    pub(crate) steps: &'a Steps,
    // whether costs are whole, so that bounds are rounded up
    pub(crate) whole_costs: bool,
    pub(crate) pool: RowPool,
    // that of the cost held; its side is open where none is held
    pub(crate) cutoff: Option<Row>,
    // what checks work in
    pub(crate) scratch: Scratch,
    pub(crate) tree: Tree,
    pub(crate) incumbent: Incumbent,
    // whether a row was added or a side tightened
    pub(crate) touched: bool,
}

impl<'a> Model for Core<'a> {
    ghost use Rattle.std.specs.Prelude.{length};
    ghost use Rattle.cip_core.specs.KeptNodes.{cost_held};
    ghost use Rattle.cip_core.specs.CoreStates.{CoreState, core_code, IsSound, IsFitted};

    ghost Value = { CoreState };

    ghost coded = { core_code };

    ghost view = { λ c. record {
      program = c.program.now;
      reduced = c.reduced.now;
      steps = c.steps.now;
      pool = c.pool;
      tree = c.tree;
      incumbent = c.incumbent;
      touched = c.touched;
    } };

    ghost invariant = { λ c.
        IsSound (record {
          program = c.program.now;
          reduced = c.reduced.now;
          steps = c.steps.now;
          pool = c.pool;
          tree = c.tree;
          incumbent = c.incumbent;
          touched = c.touched;
        })
        × IsFitted c.reduced.now (cost_held c.incumbent) c.cutoff c.whole_costs (length c.scratch.row.entries) };
}

impl<'a> Core<'a> {
    /// What holds of each core. It does nothing.
    pub fn is_sound(&self)
        ensures sound { IsSound self.now }
        ensures formed { IsWellFormed self.now.program }
        ensures reduced { IsWellFormed (reduced_of self.now) }
        ensures pool { IsSoundPool self.now.pool }
    {
        let _columns = self.program.columns();
        let _left = self.reduced.columns();
        let _rows = self.pool.rows();
    }

    /// The program as read.
    pub fn program(&self) -> &'a Program
        ensures { result.now ≡ self.now.program }
    {
        self.program
    }

    /// The reduced program, which is searched.
    pub fn reduced(&self) -> &'a Program
        ensures { result.now ≡ reduced_of self.now }
    {
        self.reduced
    }

    /// The steps by which points and leaves of the reduced program come back.
    pub fn steps(&self) -> &'a Steps
        ensures { result.now ≡ self.now.steps }
    {
        self.steps
    }

    /// The box of the region in work.
    pub fn bounds(&self) -> &Bounds
        ensures { result.now ≡ self.now.tree.work.box }
    {
        self.tree.bounds()
    }

    /// The choices of the region in work.
    pub fn choices(&self) -> &Choices
        ensures { result.now ≡ self.now.tree.work.choices }
    {
        self.tree.choices()
    }

    /// What a check may cite: the reduced program's rows, those of the pool, and the cutoff row.
    pub fn rows(&self) -> Rows<'_>
        ensures lent { lent_of result ≡ all_lent self.now }
        ensures whole { result.whole.now ≡ (reduced_of self.now).integral }
    {
        Rows {
            own: self.reduced.rows(),
            pool: self.pool.rows(),
            cutoff: &self.cutoff,
            whole: self.reduced.whole(),
        }
    }

    /// The pool of rows.
    pub fn pool(&self) -> &RowPool
        ensures { result.now ≡ self.now.pool }
    {
        &self.pool
    }

    /// The point held.
    pub fn incumbent(&self) -> &Incumbent
        ensures { result.now ≡ self.now.incumbent }
    {
        &self.incumbent
    }

    /// The nodes, with the log.
    pub fn tree(&self) -> &Tree
        ensures { result.now ≡ self.now.tree }
    {
        &self.tree
    }

    /// The cost held, if a point is.
    pub fn held_cost(&self) -> Option<Frac>
        ensures { result ≡ held_of self.now }
    {
        match self.incumbent.held() {
            None => None,
            Some((cost, _)) => Some(cost),
        }
    }

    /// The log by itself; the nodes are let go.
    pub fn take_log(self) -> Vec<Logged>
        ensures entries { entries_of result.items ≡ self.entry.tree.log }
        ensures searched { IsSearched self.entry.tree.integral self.entry.tree.root self.entry.tree.log }
    {
        let Core {
            tree,
            pool,
            cutoff,
            scratch,
            incumbent,
            ..
        } = self;
        drop(pool);
        drop(cutoff);
        drop(scratch);
        drop(incumbent);
        tree.take_log()
    }
}
