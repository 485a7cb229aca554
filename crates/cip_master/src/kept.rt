//! The master program that is kept, and what it answers.
ghost use Rattle.std.specs.Prelude.{◌≡◌, length, IfOk, OnOk};
ghost use Rattle.cip_simplex.specs.LpShape.{IsSolvable};
ghost use Rattle.cip_master.specs.KeptMasters.{program_in};
ghost use Rattle.cip_master.specs.MasterTasks.{IsTask, task_of};
ghost use Rattle.cip_master.specs.MasterSolving.{Says, IsKept};
ghost use Rattle.cip_master.specs.MasterAnswers.{IsMasterAnswer, StaysKept};

use crate::answers::{MasterAnswer, MasterCause};
use crate::asking::solved;
use crate::reading::{emptied, priced};
use crate::{MasterFault, MasterProgram, MasterTask};
use cip_simplex::{LpAnswer, Solver, Start};
use std::alloc::{AllocError, Global};
use std::mem;

/// The master program of the points that a pool holds in a box, kept while the pool grows.
#[derive(Drop)]
pub struct Master {
    /// The linear program.
    pub program: MasterProgram,
    /// What is kept from one linear program to the next.
    pub solver: Solver,
    /// Where the variables were at the last end, if there was one. No answer depends on it.
    pub start: Option<Start>,
}

/// Why the master program isn't solved, as an answer.
fn unsolved(cause: MasterCause) -> MasterAnswer
    ensures { result ≡ MasterAnswer.Unsolved cause }
{
    MasterAnswer::Unsolved { cause }
}

impl Master {
    /// The master program of a program that falls into blocks in a box, of whose pool no point was looked at. `Err`
    /// where memory was refused.
    pub fn new(alloc: Global, task: &MasterTask<'_>) -> Result<Master, AllocError>
        requires { IsTask (task_of task.now) }
        ensures { IfOk result (λ master. IsKept (task_of task.entry.now) master.program) }
    {
        let program = MasterProgram::new(alloc, task.program, task.blocks, task.bounds)?;
        Ok(Master {
            program,
            solver: Solver::new(alloc),
            start: None,
        })
    }

    /// What the linear program that is kept answers. `Err` where memory was refused.
    fn found(&mut self, alloc: Global, limit: u32) -> Result<LpAnswer, AllocError>
        requires { IsSolvable (program_in self.old.program) }
        ensures says { IfOk result (Says limit (program_in self.old.program)) }
        ensures same { OnOk result (self.new.program ≡ self.old.program) }
    {
        let start = self.start.as_ref();
        let (found, last) = solved(alloc, &mut self.solver, &self.program, start, limit)?;
        drop(mem::replace(&mut self.start, Some(last)));
        Ok(found)
    }

    /// What the master program of all points of the pool in the box answers. `Err` where memory was refused.
    fn answer(
        &mut self,
        alloc: Global,
        task: &MasterTask<'_>,
        limit: u32,
    ) -> Result<MasterAnswer, AllocError>
        requires task { IsTask (task_of task.now) }
        requires kept { IsKept (task_of task.now) self.old.program }
        requires all { self.old.program.seen ≡ length task.now.pool.now }
        ensures answer { IfOk result (IsMasterAnswer limit (task_of task.entry.now)) }
        ensures same { OnOk result (self.new.program ≡ self.old.program) }
    {
        let _points = task.pool.points();
        let _columns = task.program.columns();
        let found = self.found(alloc, limit)?;
        match found {
            LpAnswer::Optimal { point, combo, cost } => {
                let answer = priced(alloc, task, &self.program, point.as_slice(), &combo, cost);
                drop(combo);
                answer
            }
            LpAnswer::Infeasible { combo } => {
                let answer = emptied(alloc, task, &self.program, &combo);
                drop(combo);
                answer
            }
            LpAnswer::Unbounded { point, ray } => {
                drop(point);
                drop(ray);
                Ok(unsolved(MasterCause::Unbounded))
            }
            LpAnswer::Wide { moves } => {
                drop(moves);
                Ok(unsolved(MasterCause::Wide))
            }
            LpAnswer::Limit => Ok(unsolved(MasterCause::Limit)),
        }
    }

    /// Takes the points that the pool got since, and solves the master program of those in the box, with at most so
    /// many moves: `Prices` with a mixture of held points that satisfies the master rows and costs least, and
    /// multipliers that show it; `Farkas` with multipliers that show that there is none; or why it isn't solved. The
    /// moves begin where the last ones ended, with new weights at 0; where that leads to no answer, they are those of
    /// Bland's rule from the first state, whose answer counts. Behind a cause the master program is of no use. `Err`
    /// comes where memory was refused.
    pub fn master(
        &mut self,
        alloc: Global,
        task: &MasterTask<'_>,
        limit: u32,
    ) -> Result<MasterAnswer, AllocError>
        requires task { IsTask (task_of task.now) }
        requires kept { IsKept (task_of task.now) self.old.program }
        ensures answer { IfOk result (IsMasterAnswer limit (task_of task.entry.now)) }
        ensures kept { IfOk result (StaysKept (task_of task.entry.now) self.new.program) }
    {
        let _points = task.pool.points();
        match self
            .program
            .take_points(task.program, task.blocks, task.bounds, task.pool)
        {
            Ok(()) => self.answer(alloc, task, limit),
            Err(fault) => match fault {
                MasterFault::Wide => Ok(unsolved(MasterCause::Wide)),
                MasterFault::NoMemory => Err(AllocError),
            },
        }
    }
}
