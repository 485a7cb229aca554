//! What the master program answers.
ghost use Rattle.cip_lagrange.specs.Decompositions.{IsDecompositionOf};
ghost use Rattle.cip_master.specs.MasterTasks.{IsTask, task_of};
ghost use Rattle.cip_master.specs.MasterSolving.{IsKept};

use crate::block_texts::{BLOCKS, MORE, PLAIN};
use crate::held_points::{FAR, LOOSE, OPEN, TIGHT, fill};
use cip_blocks::read_blocks;
use cip_columns::ColumnPool;
use cip_frac::Frac;
use cip_lagrange::Decomposed;
use cip_lin::{Bounds, Sides};
use cip_lp::read_lp;
use cip_master::{Master, MasterAnswer, MasterCause, MasterTask};
use cip_model::Program;
use std::alloc::{AllocError, Global};

/// What is answered.
#[derive(Clone, Copy, PartialEq, Eq)]
enum Told {
    /// A mixture at this cost.
    Cost(Frac),
    /// There is none.
    NoMixture,
    /// It isn't solved.
    Cause(MasterCause),
}

/// What is asked: a program, how many of the points are held, whether the sides of z cross, and how many moves are
/// allowed.
type Ask = (&'static str, usize, bool, u32);

static ASKS: [Ask; 9] = [
    (PLAIN, 6, false, 1000),
    (TIGHT, 6, false, 1000),
    (OPEN, 6, false, 1000),
    (MORE, 6, false, 1000),
    (PLAIN, 3, false, 1000),
    (FAR, 6, false, 1000),
    (LOOSE, 6, false, 1000),
    (PLAIN, 6, false, 0),
    (OPEN, 6, true, 1000),
];

/// What is answered. In the second case one block takes 1 and 0 and the other one half of it; in the third z is 3,
/// which costs less for what it takes of R3 than any point. In the fifth the second block has no point.
fn want(at: usize) -> Told {
    match at {
        0 => Told::Cost(Frac::from(-4i64)),
        1 => Told::Cost(Frac::from(-3i64)),
        2 => Told::Cost(Frac::from(-8i64)),
        3 | 4 | 5 => Told::NoMixture,
        6 => Told::Cause(MasterCause::Unbounded),
        7 => Told::Cause(MasterCause::Limit),
        _ => Told::Cause(MasterCause::Unshown),
    }
}

/// What an answer tells.
fn outcome_of(answer: MasterAnswer) -> Told {
    match answer {
        MasterAnswer::Prices { cost, .. } => Told::Cost(cost),
        MasterAnswer::Farkas { .. } => Told::NoMixture,
        MasterAnswer::Unsolved { cause } => Told::Cause(cause),
    }
}

/// What a master program that is kept answers, beside what it answered before.
fn again(
    alloc: Global,
    task: &MasterTask<'_>,
    master: &mut Master,
    limit: u32,
    before: Told,
) -> Option<(Told, Told)>
    requires task { IsTask (task_of task.now) }
    requires kept { IsKept (task_of task.now) master.old.program }
{
    match master.master(alloc, task, limit) {
        Ok(answer) => Some((before, outcome_of(answer))),
        Err(_) => None,
    }
}

/// What a master program that is kept answers, and what it answers again from where it ended, unless it isn't solved.
fn answered_twice(
    alloc: Global,
    task: &MasterTask<'_>,
    master: &mut Master,
    limit: u32,
) -> Option<(Told, Told)>
    requires task { IsTask (task_of task.now) }
    requires kept { IsKept (task_of task.now) master.old.program }
{
    let Ok(first) = master.master(alloc, task, limit) else {
        return None;
    };
    match first {
        MasterAnswer::Prices { cost, .. } => again(alloc, task, master, limit, Told::Cost(cost)),
        MasterAnswer::Farkas { .. } => again(alloc, task, master, limit, Told::NoMixture),
        MasterAnswer::Unsolved { cause } => Some((Told::Cause(cause), Told::Cause(cause))),
    }
}

/// The box of a program; where its sides are to cross, z is at least 2 and at most 1.
fn box_of(alloc: Global, program: &Program, crossed: bool) -> Result<Bounds, AllocError> {
    let mut bounds = program.bounds().copied(alloc)?;
    let sides = Sides {
        low: Some(Frac::from(2i64)),
        high: Some(Frac::one()),
    };
    if crossed && bounds.len() > 4 {
        bounds.set_sides(4, sides);
    }
    Ok(bounds)
}

/// What is answered where the pool is filled.
fn answered_by(alloc: Global, task: &MasterTask<'_>, limit: u32) -> Option<(Told, Told)>
    requires { IsTask (task_of task.now) }
{
    match Master::new(alloc, task) {
        Ok(mut master) => {
            let told = answered_twice(alloc, task, &mut master, limit);
            drop(master);
            told
        }
        Err(_) => None,
    }
}

/// What is answered on a program, whose blocks were taken apart.
fn answered_on(
    alloc: Global,
    program: &Program,
    blocks: &Decomposed,
    ask: Ask,
) -> Option<(Told, Told)>
    requires { IsDecompositionOf program.now blocks.now }
{
    let (_, count, crossed, limit) = ask;
    let Ok(mut pool) = ColumnPool::new(alloc) else {
        return None;
    };
    let Ok(bounds) = box_of(alloc, program, crossed) else {
        drop(pool);
        return None;
    };
    if !fill(alloc, &mut pool, program, blocks, count) || bounds.len() != program.columns() {
        drop(bounds);
        drop(pool);
        return None;
    }
    let task = MasterTask {
        program,
        blocks,
        bounds: &bounds,
        pool: &pool,
    };
    let told = answered_by(alloc, &task, limit);
    drop(bounds);
    drop(pool);
    told
}

/// The same, with the blocks as they are read.
fn answered(alloc: Global, program: &Program, ask: Ask) -> Option<(Told, Told)> {
    let Ok(read) = read_blocks(alloc, BLOCKS.as_bytes(), program) else {
        return None;
    };
    let made = Decomposed::new(alloc, program, &read);
    drop(read);
    match made {
        Ok(blocks) => {
            let told = answered_on(alloc, program, &blocks, ask);
            drop(blocks);
            told
        }
        Err(_) => None,
    }
}

/// What is answered, and again, where the program is read.
fn told_of(alloc: Global, ask: Ask) -> Option<(Told, Told)> {
    match read_lp(alloc, ask.0.as_bytes()) {
        Ok(program) => {
            let told = answered(alloc, &program, ask);
            drop(program);
            told
        }
        Err(_) => None,
    }
}

/// Whether this is answered, and again.
fn is_answered(alloc: Global, at: usize) -> bool {
    if at >= ASKS.len() {
        return false;
    }
    told_of(alloc, ASKS[at]) == Some((want(at), want(at)))
}

/// The first case in which something else is answered.
fn first_wrong(alloc: Global) -> Option<usize> {
    for at in 0..ASKS.len() {
        if !is_answered(alloc, at) {
            return Some(at);
        }
    }
    None
}

#[test]
fn masters_answer(rt: HostRuntime) {
    let wrong = first_wrong(rt.alloc());
    assert!(rt; wrong == None, "{wrong:?}");
}
