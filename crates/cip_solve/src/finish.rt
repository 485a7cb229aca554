//! The answer of a search that has stopped. A log of the reduced program is seen in the program as read, with the old
//! numbers of its columns.
ghost use Rattle.std.specs.Prelude.{◌≡◌, ℕ, List, Option, ◌<◌, length, Bool, true, false, None, IfSome};
ghost use Rattle.cip_rational.specs.Rational.{ℚ};
ghost use Rattle.cip_problem.specs.Program.{Program};
ghost use Rattle.cip_problem.specs.Log.{Entry};
ghost use Rattle.cip_problem.specs.WellFormed.{columns};
ghost use Rattle.cip_search.specs.SeenLogs.{log_seen};
ghost use Rattle.cip_solve.specs.Mark.{Mark};
ghost use Rattle.cip_solve.specs.PresolvedPrograms.{IsUnchanged};
ghost use Rattle.cip_solve.specs.CoreStates.{reduced_of};
ghost use Rattle.cip_endings.specs.AnswerOf.{answer_of};
ghost use Rattle.cip_solve.specs.FirstStops.{StopsFirst};
ghost use Rattle.cip_solve.specs.Logs.{entries_of};
ghost use Rattle.cip_solve.specs.Reducing.{IsOfReduced};
ghost use Rattle.cip_solve.specs.Searching.{IsAtRoot, IsEndless, CanBeSeen};
ghost use Rattle.cip_solve.specs.Searching.{StopsEndless, IsWithin, IsWithinAt};
ghost use Rattle.cip_solve.specs.Stops.{StopsAt};
ghost use Rattle.cip_solve.specs.Solved.{IsSolvedBy};
ghost use Rattle.cip_solve.specs.Answered.{IsAnswered};
ghost use Rattle.cip_solve.specs.SplitsServed.{splits_in, HasServed};
ghost use Rattle.cip_solve.specs.Stopping.{BestIs};

use crate::logs::Log;
use crate::outsets::Begun;
use crate::solving::Options;
use crate::turns::{Search, Stop};
use crate::works::Works;
use cip_calls::{Core, Presolved};
use cip_endings::{Answer, Ended, Held, Worst, capped, ended_at, flat, least_left};
use cip_frac::Frac;
use cip_incumbent::Incumbent;
use cip_model::{Program, Verdict};
use cip_node::{NodeWork, cost_of};
use std::alloc::Global;

/// The point held with its cost, if there is one, written to a list of as many values.
fn held_of(incumbent: &Incumbent, mut point: Vec<Frac>) -> Option<Held>
    requires { IfSome incumbent.now.best (λ held. length held.point ≡ length point.items) }
    ensures { BestIs incumbent.now.best result }
{
    match incumbent.held() {
        None => None,
        Some((cost, values)) => {
            point.as_mut_slice().copy_from_slice(values);
            Some(Held { cost, point })
        }
    }
}

/// The answer where the cost falls without end from a point along a ray, after so many nodes.
fn endless_answer(program: &Program, point: Vec<Frac>, ray: Vec<Frac>, nodes: u64) -> Answer
    requires { IsEndless program.now point.items ray.items }
    ensures right { (reduced : Program) (kept : ℕ → ℕ) (start : Option ℚ) (budget : ℕ) (asked : Option ℚ)
        (log : List Entry) (marks : List (ℕ × Mark)) → CanBeSeen program.now reduced kept
        → StopsEndless program.now reduced start log point.items ray.items
        → IsWithin program.now reduced start budget log marks
        → IsAnswered program.now start budget asked (log_seen kept log) marks (answer_of result) }
    ensures nodes { result.nodes ≡ nodes }
    ensures untraced { result.trace ≡ None }
{
    let _columns = program.columns();
    match program.check(point.as_slice()) {
        Verdict::Feasible(cost) => Answer {
            ended: Ended::Unbounded { ray },
            best: Some(Held { cost, point }),
            bound: None,
            nodes,
            trace: None,
        },
        _ => unreachable!(),
    }
}

/// The answer of a search that stopped so, its point written to a list of as many values.
fn answer_at(
    core: &Core<'_>,
    worst: Option<Worst>,
    stop: Stop,
    options: &Options,
    point: Vec<Frac>,
) -> Answer
    requires stop { StopsAt core.now options.now.nodes options.now.gap worst stop }
    requires point { length point.items ≡ columns core.now.program }
    ensures right { (kept : ℕ → ℕ) (marks : List (ℕ × Mark))
        → CanBeSeen core.now.program (reduced_of core.now) kept
        → IsWithinAt core.now options.now.nodes marks
        → IsAnswered core.now.program core.now.tree.root.bound options.now.nodes options.now.gap
        (log_seen kept core.now.tree.log) marks (answer_of result) }
    ensures nodes { result.nodes ≡ length core.now.tree.log }
    ensures untraced { result.trace ≡ None }
{
    core.is_sound();
    let tree = core.tree();
    let incumbent = core.incumbent();
    let nodes = tree.log().len() as u64;
    match stop {
        Stop::Still => {
            let held = cost_of(incumbent);
            let waiting = tree.bound();
            let bound = flat(least_left(held, waiting, &worst));
            let ended = ended_at(&options.gap, &bound, &held, &waiting, worst);
            Answer {
                ended,
                best: held_of(incumbent, point),
                bound,
                nodes,
                trace: None,
            }
        }
        Stop::Endless { point, ray } => endless_answer(core.program(), point, ray, nodes),
        Stop::NoMemory { bound } => Answer {
            ended: Ended::NoMemory,
            bound: capped(cost_of(incumbent), bound),
            best: held_of(incumbent, point),
            nodes,
            trace: None,
        },
    }
}

/// Searches what presolve made of a program from before a node was taken, as the options say; the point that is found
/// is written to a list of as many values. What was done is left in the log, as it is seen in the program as read:
/// splits have the old numbers of their columns.
pub(crate) fn search_from<W: Works>(
    begun: Begun<'_>,
    presolved: &Presolved,
    works: &mut W,
    alloc: Global,
    options: &Options,
    log: &mut Log,
) -> Answer
    requires root { IsAtRoot begun.work.core }
    requires back { IsOfReduced begun.work.core presolved.now }
    requires some { 0 < options.now.nodes }
    requires point { length begun.point.items ≡ columns begun.work.core.program }
    requires ready { W.is_ready works.old (columns (reduced_of begun.work.core)) }
    ensures solved { (presolve alone : Bool)
        → (presolve ≡ false → IsUnchanged begun.entry.work.core.program presolved.now) → (alone ≡ true → W.asks ≡ false)
        → IsSolvedBy begun.entry.work.core.program options.now.nodes options.now.gap presolve alone (entries_of log.new)
        log.new.marks.items (answer_of result) }
    ensures nodes { result.nodes ≡ length (entries_of log.new) }
    ensures untraced { result.trace ≡ None }
    ensures first { StopsFirst begun.entry.work.core.program options.now.gap (entries_of log.new) }
    ensures asked { W.is_ready works.new (columns (reduced_of begun.entry.work.core))
        × HasServed (splits_in (entries_of log.new)) (W.state works.old) (W.state works.new) }
{
    let Begun { work, point } = begun;
    let mut search = Search {
        work,
        worst: None,
        marks: Vec::new(alloc),
    };
    let stop = search.explore(alloc, works, options.nodes, &options.gap);
    let Search { work, worst, marks } = search;
    let NodeWork {
        core,
        solver,
        starts,
    } = work;
    drop(solver);
    drop(starts);
    let answer = answer_at(&core, worst, stop, options, point);
    log.taken = core.take_log();
    log.marks = marks;
    log.rename(presolved.kept.as_slice());
    answer
}
