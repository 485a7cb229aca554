//! The whole way from the words and the store to the sink.
ghost use Rattle.cip_input.specs.Jobs.{job_of, job_for};
ghost use Rattle.cip_input.specs.Plain.{plain_text, plain_status};
ghost use Rattle.cip_input.specs.Tasks.{labels_of};
ghost use Rattle.cip_main.specs.Kits.{stock_of, IsFew};
ghost use Rattle.cip_main.specs.Saying.{Says};
ghost use Rattle.cip_main.specs.Running.{Runs, call_of};

use crate::{Drawn, Log, check_and_report, solve_and_report, solve_drawn};
use cip_input::{Plain, Task, Words, read_task};
use cip_io::{Failed, Sink, Store};
use cip_plugin::{AnyPlugin, Kit, Tells};
use std::alloc::Global;

/// Writes an answer without figures; its status, or 5 where the sink failed.
pub fn say<K: Sink>(out: &mut K, answer: Plain) -> u8
    ensures { Says (K.tells out.old) (K.tells out.new) (plain_text answer) (plain_status answer) result }
{
    match answer.tell(out) {
        Ok(()) => answer.status(),
        Err(Failed) => 5,
    }
}

/// Does all that the program does, and answers its exit status:
///
/// - 0: an optimal point was printed, or a point with a ray along which the cost falls without end, or that no point is
///   feasible; or that the point to check is feasible;
/// - 1: the point to check is not feasible, and what it breaks was printed;
/// - 2: the words are not accepted, or want a plugin to be off that isn't in the kit's start, and nothing is pulled;
/// - 3: the store failed;
/// - 4: a text is faulty, and the texts before it are not; its first line that breaks a rule was printed, and the
///   least kind;
/// - 5: the sink failed; what it took is a prefix of the answer;
/// - 6: a growth was refused: before the program was read nothing else is printed, and later the figures held;
/// - 10: the node budget is spent, and an open node matters;
/// - 11: what is left of the search is leaves that overflow, and one of these was printed; or a sum
///   overflows at the point to check, and which one was printed;
/// - 13: the gap that the words ask for is reached: the cost less the bound, in the minimised form, is above 0 and at
///   most that.
///
/// The texts are the model's, and then that of the blocks or of the point; at `self` there are none, and the program is
/// drawn from the seed. A search adds one log to `logs`, or none where memory was refused before it had room for one.
/// Where blocks are named, the program itself is searched.
///
/// Presolve reduces the program first, and what it makes of it is searched; all that is printed, and the log, are of
/// the program itself. Where presolve shows that no point is feasible, no node is taken. With `--plain` or `--blocks`
/// nothing is presolved, and with `--plain` the search goes without plugins.
///
/// The plugins of the kit serve in the search, whatever they answer, and all are done with behind it: what the answer
/// says holds for every kit. Those that `--off` names are done with before it, uncalled. With `--plain`, at `check`,
/// and where the search doesn't begin the kit stays as it is. With `--trace` the lines of what the plugins were called
/// for are printed behind the figures.
pub fn run<S: Store, K: Sink>(
    alloc: Global,
    words: &Words,
    store: &mut S,
    out: &mut K,
    kit: &mut Kit,
    logs: &mut Vec<Log>,
) -> u8
    requires few { IsFew (stock_of ⟦<AnyPlugin as Tells>⟧.who kit.old) }
    ensures { Runs (call_of (job_for (labels_of (stock_of ⟦<AnyPlugin as Tells>⟧.who kit.old).start) (job_of words.now))
        (S.tells store.old) (S.tells store.new) (K.tells out.old) (K.tells out.new)
        (stock_of ⟦<AnyPlugin as Tells>⟧.who kit.old) (stock_of ⟦<AnyPlugin as Tells>⟧.who kit.new)
        logs.old.items logs.new.items result) }
{
    match read_task(alloc, words, kit.start.as_slice(), store) {
        Ok(Task::Solve { program, limits }) => {
            let status = solve_and_report(alloc, &program, &limits, kit, out, logs);
            drop(program);
            status
        }
        Ok(Task::Check { program, point }) => {
            let status = check_and_report(&program, point.as_slice(), out);
            drop(point);
            drop(program);
            status
        }
        Ok(
            Task::Generate {
                program,
                seed,
                columns,
                rows,
                entries,
            },
        ) => {
            let drawn = Drawn {
                seed,
                columns,
                rows,
                entries,
            };
            let status = solve_drawn(alloc, drawn, &program, kit, out, logs);
            drop(program);
            status
        }
        Err(answer) => say(out, answer),
    }
}
