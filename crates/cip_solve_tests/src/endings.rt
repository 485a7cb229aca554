//! What searches of programs end with.
use crate::programs::has_near_columns;
use cip_frac::Frac;
use cip_model::Program;
use cip_report::{Answer, Ended, Held};
use cip_solve::{Alone, Log, Options, Presolved, solve_by};
use std::alloc::Global;

/// What a search ends with: a least cost, or which word.
#[derive(Clone, Copy, PartialEq)]
pub(crate) enum Ending {
    Optimal(Frac),
    Infeasible,
    Unbounded,
    Other,
}

fn ending_of(answer: &Answer) -> Ending {
    match (&answer.ended, &answer.best) {
        (Ended::Optimal, Some(held)) => Ending::Optimal(held.cost),
        (Ended::Infeasible, None) => Ending::Infeasible,
        (Ended::Unbounded { .. }, Some(_)) => Ending::Unbounded,
        _ => Ending::Other,
    }
}

/// What an answer ends with, and what it holds.
fn told_by(answer: Answer) -> (Ending, Option<Held>) {
    let ending = ending_of(&answer);
    let Answer {
        ended,
        best,
        trace,
        ..
    } = answer;
    drop(ended);
    drop(trace);
    (ending, best)
}

/// What a search of a program by itself ends with, and what it holds then; nothing where a side is too far.
pub(crate) fn searched(alloc: Global, program: &Program) -> (Ending, Option<Held>) {
    let Ok(same) = Presolved::same(alloc, program) else {
        return (Ending::Other, None);
    };
    if !has_near_columns(&same.reduced) {
        drop(same);
        return (Ending::Other, None);
    }
    let options = Options {
        nodes: 10_000,
        gap: None,
        presolve: false,
        plain: true,
        trace: false,
    };
    let mut log = Log::new(alloc);
    let answer = solve_by(alloc, program, &same, &options, &mut Alone, &mut log);
    drop(log);
    drop(same);
    told_by(answer)
}

/// What a search of a program by itself ends with.
pub(crate) fn end_of_search(alloc: Global, program: &Program) -> Ending {
    let (ending, held) = searched(alloc, program);
    drop(held);
    ending
}
