//! Solving a program.
ghost use Rattle.std.specs.Prelude.{◌≡◌, ℕ, Bool, true, false, Option, None, [], ◌<◌, length};
ghost use Rattle.cip_rational.specs.Rational.{ℚ};
ghost use Rattle.cip_problem.specs.WellFormed.{columns};
ghost use Rattle.cip_solve.specs.PresolvedPrograms.{IsPresolved, IsUnchanged};
ghost use Rattle.cip_solve.specs.Beginning.{AreNearColumns};
ghost use Rattle.cip_endings.specs.AnswerOf.{answer_of};
ghost use Rattle.cip_solve.specs.Kits.{stock_of, IsFew};
ghost use Rattle.cip_solve.specs.FirstStops.{StopsFirst};
ghost use Rattle.cip_solve.specs.KitsServed.{is_alone, IsKitAfter};
ghost use Rattle.cip_solve.specs.Logs.{entries_of};
ghost use Rattle.cip_solve.specs.Solved.{IsSolved, IsSolvedBy};
ghost use Rattle.cip_solve.specs.SplitsServed.{splits_in, HasServed};

use crate::asking::Asking;
use crate::finish::search_from;
use crate::kits::{end, is_bare};
use crate::logs::Log;
use crate::outsets::{ask, begun_with};
use crate::reducing::reduced_for;
use crate::works::{Alone, Works};
use cip_calls::{Plugins, Presolved, Scratches};
use cip_endings::{Answer, Ended};
use cip_frac::Frac;
use cip_model::Program;
use cip_node::root_bound;
use cip_plugin::{AnyPlugin, Kit, Tells};
use std::alloc::Global;

/// What a search may do.
#[derive(Clone, Copy)]
pub struct Options {
    /// The most nodes that it takes, at least 1.
    pub nodes: u64,
    /// The gap that is asked for, if one is, in the units of the cost: the search ends once a point is held, a bound is
    /// there, and the cost less the bound is in range, above 0 and at most this.
    pub gap: Option<Frac>,
    /// Whether presolve may reduce the program first; else the program itself is searched.
    pub presolve: bool,
    /// Whether it goes without plugins, and leaves the kit that it is given as it is.
    pub plain: bool,
    /// Whether what the plugins were called for is told, line by line.
    pub trace: bool,
}

/// The answer where memory is refused before a node is taken: want of memory, with the bound of the root.
pub fn unsearched(program: &Program) -> Answer
    ensures solved { (nodes : ℕ) (asked : Option ℚ) → IsSolved program.now nodes asked [] [] (answer_of result) }
    ensures nodes { result.nodes ≡ 0 }
    ensures trace { result.trace ≡ None }
    ensures first { (asked : Option ℚ) → StopsFirst program.now asked [] }
{
    Answer {
        ended: Ended::NoMemory,
        best: None,
        bound: root_bound(program),
        nodes: 0,
        trace: None,
    }
}

/// Searches what presolve made of a program for a feasible point of least cost of the program, over at most so many
/// nodes, by what works on them: with plugins, whatever these answer, or without. What was done is left in the log, in
/// place of what it held, as it is seen in the program: splits are at its columns. After each node has ended, and
/// before the next is taken, it is seen whether the gap that was asked for is reached, and then the answer is `Gap`:
/// behind no earlier node does the log settle that it was. Else it is `NodeLimit` exactly where as many nodes were
/// taken and an open one matters; and `NoMemory` where memory was refused, with the point that was found by then.
pub fn solve_by<W: Works>(
    alloc: Global,
    program: &Program,
    presolved: &Presolved,
    options: &Options,
    works: &mut W,
    log: &mut Log,
) -> Answer
    requires near { AreNearColumns presolved.now.reduced }
    requires back { IsPresolved program.now presolved.now }
    requires some { 0 < options.now.nodes }
    requires ready { W.is_ready works.old (columns presolved.now.reduced) }
    ensures solved { (presolve alone : Bool) → (presolve ≡ false → IsUnchanged program.now presolved.now)
        → (alone ≡ true → W.asks ≡ false)
        → IsSolvedBy program.now options.now.nodes options.now.gap presolve alone (entries_of log.new)
        log.new.marks.items (answer_of result) }
    ensures nodes { result.nodes ≡ length (entries_of log.new) }
    ensures trace { result.trace ≡ None }
    ensures first { StopsFirst program.now options.now.gap (entries_of log.new) }
    ensures asked { W.is_ready works.new (columns presolved.now.reduced)
        × HasServed (splits_in (entries_of log.new)) (W.state works.old) (W.state works.new) }
{
    log.taken.clear();
    log.marks.clear();
    match begun_with(alloc, program, presolved) {
        Err(_) => unsearched(program),
        Ok(begun) => search_from(begun, presolved, works, alloc, options, log),
    }
}

/// Searches so with the plugins of a kit. Where memory is refused before a node is taken, nobody was called.
fn solve_with(
    alloc: Global,
    program: &Program,
    presolved: &Presolved,
    options: &Options,
    kit: &mut Kit,
    log: &mut Log,
) -> Answer
    requires near { AreNearColumns presolved.now.reduced }
    requires back { IsPresolved program.now presolved.now }
    requires same { options.now.presolve ≡ false → IsUnchanged program.now presolved.now }
    requires some { 0 < options.now.nodes }
    requires few { IsFew (stock_of ⟦<AnyPlugin as Tells>⟧.who kit.old) }
    ensures solved { IsSolvedBy program.now options.now.nodes options.now.gap options.now.presolve false
        (entries_of log.new) log.new.marks.items (answer_of result) }
    ensures nodes { result.nodes ≡ length (entries_of log.new) }
    ensures first { StopsFirst program.now options.now.gap (entries_of log.new) }
    ensures kit { IsKitAfter false options.now.trace (entries_of log.new) (stock_of ⟦<AnyPlugin as Tells>⟧.who kit.old)
        (stock_of ⟦<AnyPlugin as Tells>⟧.who kit.new) result.trace }
{
    log.taken.clear();
    log.marks.clear();
    let Ok(scratches) = Scratches::new(alloc, &presolved.reduced) else {
        return unsearched(program);
    };
    let Ok(begun) = begun_with(alloc, program, presolved) else {
        drop(scratches);
        return unsearched(program);
    };
    let Ok(roster) = ask(alloc, &begun.work.core, kit, options.trace) else {
        drop(begun);
        drop(scratches);
        return unsearched(program);
    };
    let mut asking = Asking {
        plugins: Plugins::new(alloc, scratches, roster),
        is_refused: false,
    };
    let answer = search_from(begun, presolved, &mut asking, alloc, options, log);
    let trace = end(alloc, kit, &mut asking.plugins.roster, options.trace);
    drop(asking);
    Answer { trace, ..answer }
}

/// Whether nobody is asked in a search: it is to go without plugins, or the kit has none.
fn goes_alone(options: &Options, kit: &Kit) -> bool
    ensures { result ≡ is_alone options.now.plain (stock_of ⟦<AnyPlugin as Tells>⟧.who kit.now) }
{
    options.plain || is_bare(kit)
}

/// Searches for a feasible point of least cost: presolve reduces the program, and what it makes of it is searched, with
/// the plugins of a kit, whatever these answer; the point, the leaf that is shown, a ray, and the log are of the
/// program itself. Where the options want no presolve, the program itself is searched, and where they are plain, it
/// goes without plugins. Where presolve shows that no point is feasible, the answer is `Infeasible`, the log is empty,
/// and nobody was called. Without plugins the kit is left as it is; else all its plugins are done with behind the
/// search, and the answer has the lines of the trace, if they are asked for.
pub fn solve(
    alloc: Global,
    program: &Program,
    options: &Options,
    kit: &mut Kit,
    log: &mut Log,
) -> Answer
    requires near { AreNearColumns program.now }
    requires some { 0 < options.now.nodes }
    requires few { IsFew (stock_of ⟦<AnyPlugin as Tells>⟧.who kit.old) }
    ensures solved { IsSolvedBy program.now options.now.nodes options.now.gap options.now.presolve
        (is_alone options.now.plain (stock_of ⟦<AnyPlugin as Tells>⟧.who kit.old)) (entries_of log.new)
        log.new.marks.items (answer_of result) }
    ensures nodes { result.nodes ≡ length (entries_of log.new) }
    ensures first { StopsFirst program.now options.now.gap (entries_of log.new) }
    ensures kit { IsKitAfter (is_alone options.now.plain (stock_of ⟦<AnyPlugin as Tells>⟧.who kit.old))
        options.now.trace (entries_of log.new) (stock_of ⟦<AnyPlugin as Tells>⟧.who kit.old)
        (stock_of ⟦<AnyPlugin as Tells>⟧.who kit.new) result.trace }
{
    log.taken.clear();
    log.marks.clear();
    match reduced_for(alloc, program, options.presolve) {
        Err(_) => unsearched(program),
        Ok(None) => {
            let _root = root_bound(program);
            Answer {
                ended: Ended::Infeasible,
                best: None,
                bound: None,
                nodes: 0,
                trace: None,
            }
        }
        Ok(Some(presolved)) => {
            if goes_alone(options, kit) {
                let answer = solve_by(alloc, program, &presolved, options, &mut Alone, log);
                drop(presolved);
                return answer;
            }
            let answer = solve_with(alloc, program, &presolved, options, kit, log);
            drop(presolved);
            answer
        }
    }
}
