//! Solving a program and reporting.
ghost use Rattle.std.specs.Prelude.{◌≡◌, ◌<◌, OnOk, OnErr};
ghost use Rattle.cip_input.specs.LimitedModels.{IsLimited};
ghost use Rattle.cip_search.specs.Figures.{exit_status, names_of};
ghost use Rattle.cip_search.specs.TraceTexts.{traced_text};
ghost use Rattle.cip_search.specs.SelfTexts.{self_text};
ghost use Rattle.cip_input.specs.Jobs.{usual_limits};
ghost use Rattle.cip_input.specs.WordsRead.{limits_of};
ghost use Rattle.cip_report.specs.Answers.{figures_of, AnswerFits};
ghost use Rattle.cip_report.specs.Drawn.{drawn_of};
ghost use Rattle.cip_report.specs.Traces.{kept_lines};
ghost use Rattle.cip_solve.specs.Kits.{stock_of, IsFew};
ghost use Rattle.cip_main.specs.Answering.{self_told};
ghost use Rattle.cip_main.specs.Saying.{Says};
ghost use Rattle.cip_main.specs.Work.{Searched, Works, kit_of};

use cip_input::{Limits, USUAL_NODES};
use cip_io::{Failed, Sink};
use cip_model::Program;
use cip_plugin::{AnyPlugin, Kit, Tells};
use cip_report::{Answer, Drawn, report, report_self};
use cip_solve::{Log, Options, set_aside, solve, unsearched};
use std::alloc::{AllocError, Global};

/// Sets those plugins of a kit aside that are off, unless no plugin is asked. `Err` comes where memory was refused:
/// then the kit is as it was.
fn lessen(alloc: Global, limits: &Limits<'_>, kit: &mut Kit) -> Result<(), AllocError>
    requires few { IsFew (stock_of ⟦<AnyPlugin as Tells>⟧.who kit.old) }
    ensures less { OnOk result (stock_of ⟦<AnyPlugin as Tells>⟧.who kit.new
        ≡ kit_of (limits_of limits.now) (stock_of ⟦<AnyPlugin as Tells>⟧.who kit.old)) }
    ensures err { OnErr result (stock_of ⟦<AnyPlugin as Tells>⟧.who kit.new
        ≡ stock_of ⟦<AnyPlugin as Tells>⟧.who kit.old) }
{
    if limits.plain {
        return Ok(());
    }
    set_aside(alloc, kit, limits.off.as_slice())
}

/// Searches a program with the plugins of a kit that aren't off, and adds the log.
fn search(
    alloc: Global,
    program: &Program,
    limits: &Limits<'_>,
    kit: &mut Kit,
    logs: &mut Vec<Log>,
) -> Answer
    requires limited { IsLimited program.now }
    requires some { 0 < limits.now.nodes }
    requires few { IsFew (stock_of ⟦<AnyPlugin as Tells>⟧.who kit.old) }
    ensures searched { Searched program.now (limits_of limits.now) logs.old.items logs.new.items
        (stock_of ⟦<AnyPlugin as Tells>⟧.who kit.old) (stock_of ⟦<AnyPlugin as Tells>⟧.who kit.new) result }
{
    if logs.reserve(1).is_err() {
        return unsearched(program);
    }
    let Ok(()) = lessen(alloc, limits, kit) else {
        return unsearched(program);
    };
    let options = Options {
        nodes: limits.nodes,
        gap: limits.gap,
        presolve: limits.presolve,
        plain: limits.plain,
        trace: limits.trace,
    };
    let mut log = Log::new(alloc);
    let answer = solve(alloc, program, &options, kit, &mut log);
    logs.push_reserved(log);
    answer
}

/// Writes an answer; the status that goes with its end, or 5 where the sink failed.
fn tell<K: Sink>(program: &Program, answer: &Answer, out: &mut K) -> u8
    requires { AnswerFits program.now answer.now }
    ensures { let figures = figures_of program.now answer.now in
        Says (K.tells out.old) (K.tells out.new)
        (traced_text (names_of program.now) figures (kept_lines answer.now.trace)) (exit_status figures.status) result }
{
    match report(program, answer, out) {
        Ok(()) => answer.ended.status(),
        Err(Failed) => 5,
    }
}

/// Writes an answer of a program that is drawn; the status that goes with its end, or 5 where the sink failed.
fn tell_drawn<K: Sink>(drawn: Drawn, program: &Program, answer: &Answer, out: &mut K) -> u8
    ensures { let figures = figures_of program.now answer.now in
        Says (K.tells out.old) (K.tells out.new) (self_text (drawn_of drawn) figures) (exit_status figures.status)
        result }
{
    let status = answer.ended.status();
    match report_self(drawn, program, answer, out) {
        Ok(()) => status,
        Err(Failed) => 5,
    }
}

/// Solves a program within limits, and writes what the search found, whatever the end: the point held, and the
/// bound as the least of what is left, with the lines of the trace, if they are asked for. It answers the status of the
/// end, or 5 where the sink failed. A search adds one log to `logs`, or none where memory was refused before it had
/// room for one, or before the plugins that are off were set aside: then the answer is want of memory, with the bound
/// of the root. The log is empty where presolve shows that no point is feasible. The plugins of the kit are done with
/// behind a search, unless it goes without them, or memory was refused or presolve found no feasible point before a
/// node was taken; those that are off are done with uncalled.
pub fn solve_and_report<K: Sink>(
    alloc: Global,
    program: &Program,
    limits: &Limits<'_>,
    kit: &mut Kit,
    out: &mut K,
    logs: &mut Vec<Log>,
) -> u8
    requires limited { IsLimited program.now }
    requires some { 0 < limits.now.nodes }
    requires few { IsFew (stock_of ⟦<AnyPlugin as Tells>⟧.who kit.old) }
    ensures { Works program.now (limits_of limits.now) (traced_text (names_of program.now))
        (K.tells out.old) (K.tells out.new)
        logs.old.items logs.new.items (stock_of ⟦<AnyPlugin as Tells>⟧.who kit.old)
        (stock_of ⟦<AnyPlugin as Tells>⟧.who kit.new) result }
{
    let answer = search(alloc, program, limits, kit, logs);
    tell(program, &answer, out)
}

/// Solves a program that is drawn, with the usual limits and without a trace, and writes what is told of it and of what
/// the search found: the word of the end, the cost and the bound, whatever the end. All else is as at
/// `solve_and_report`.
pub fn solve_drawn<K: Sink>(
    alloc: Global,
    drawn: Drawn,
    program: &Program,
    kit: &mut Kit,
    out: &mut K,
    logs: &mut Vec<Log>,
) -> u8
    requires limited { IsLimited program.now }
    requires few { IsFew (stock_of ⟦<AnyPlugin as Tells>⟧.who kit.old) }
    ensures { Works program.now usual_limits (self_told (drawn_of drawn)) (K.tells out.old) (K.tells out.new)
        logs.old.items logs.new.items (stock_of ⟦<AnyPlugin as Tells>⟧.who kit.old)
        (stock_of ⟦<AnyPlugin as Tells>⟧.who kit.new) result }
{
    let limits = Limits {
        nodes: USUAL_NODES,
        gap: None,
        presolve: true,
        plain: false,
        off: Vec::new(alloc),
        trace: false,
    };
    let answer = search(alloc, program, &limits, kit, logs);
    tell_drawn(drawn, program, &answer, out)
}
