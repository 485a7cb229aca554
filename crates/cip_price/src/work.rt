//! What pricing works in.
ghost use Rattle.std.specs.Prelude.{◌≡◌, IfOk, None};
ghost use Rattle.cip_master.specs.MasterTasks.{IsTask};
ghost use Rattle.cip_master.specs.MasterSolving.{IsKept};
ghost use Rattle.cip_master.specs.MasterAnswers.{IsMasterAnswer, StaysKept};
ghost use Rattle.cip_price.specs.PriceTasks.{task_at};
ghost use Rattle.cip_price.specs.Worked.{IsReady};

use crate::PriceTask;
use cip_cert::Scratch;
use cip_columns::ColumnPool;
use cip_frac::Frac;
use cip_lagrange::LagrangeScratch;
use cip_master::{Master, MasterAnswer, MasterTask};
use std::alloc::{AllocError, Global};

/// What is kept from round to round.
#[derive(Drop)]
pub(crate) struct PriceWork {
    /// The master program.
    pub(crate) master: Master,
    /// A row for the checks of trees.
    pub(crate) scratch: Scratch,
    /// What the Lagrangian bound works in.
    pub(crate) lagrange: LagrangeScratch,
    /// The greatest bound so far, if there is one.
    pub(crate) best: Option<Frac>,
}

impl PriceWork {
    /// Before the first round. `Err` where memory was refused.
    pub(crate) fn new(
        alloc: Global,
        task: &PriceTask<'_>,
        pool: &ColumnPool,
    ) -> Result<PriceWork, AllocError>
        requires { IsTask (task_at task.now pool.now) }
        ensures ready { IfOk result (IsReady (task_at task.entry.now pool.now)) }
        ensures best { IfOk result (λ work. work.best ≡ None) }
    {
        let columns = task.program.columns();
        let Ok(scratch) = Scratch::new(alloc, columns) else {
            return Err(AllocError);
        };
        let Ok(lagrange) = LagrangeScratch::new(alloc, task.program, task.blocks) else {
            drop(scratch);
            return Err(AllocError);
        };
        let Ok(master) = master_of(alloc, task, pool) else {
            drop(scratch);
            drop(lagrange);
            return Err(AllocError);
        };
        Ok(PriceWork {
            master,
            scratch,
            lagrange,
            best: None,
        })
    }

    /// What the master program of the points of a pool answers, with at most so many moves. `Err` where memory was
    /// refused.
    pub(crate) fn ask_master(
        &mut self,
        alloc: Global,
        task: &PriceTask<'_>,
        pool: &ColumnPool,
        moves: u32,
    ) -> Result<MasterAnswer, AllocError>
        requires task { IsTask (task_at task.now pool.now) }
        requires kept { IsKept (task_at task.now pool.now) self.old.master.program }
        ensures answer { IfOk result (IsMasterAnswer moves (task_at task.entry.now pool.now)) }
        ensures kept { IfOk result (StaysKept (task_at task.entry.now pool.now) self.new.master.program) }
        ensures scratch { self.new.scratch ≡ self.old.scratch }
        ensures lagrange { self.new.lagrange ≡ self.old.lagrange }
        ensures best { self.new.best ≡ self.old.best }
    {
        let task = MasterTask {
            program: task.program,
            blocks: task.blocks,
            bounds: task.bounds,
            pool,
        };
        self.master.master(alloc, &task, moves)
    }
}

/// The master program of the points of a pool, none of which was looked at. `Err` where memory was refused.
fn master_of(alloc: Global, task: &PriceTask<'_>, pool: &ColumnPool) -> Result<Master, AllocError>
    requires { IsTask (task_at task.now pool.now) }
    ensures { IfOk result (λ master. IsKept (task_at task.entry.now pool.now) master.program) }
{
    let task = MasterTask {
        program: task.program,
        blocks: task.blocks,
        bounds: task.bounds,
        pool,
    };
    Master::new(alloc, &task)
}
