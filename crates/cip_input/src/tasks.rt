//! What the words and the texts of a job come to.
ghost use Rattle.std.specs.Prelude.{◌≡◌, ◌<◌, ◌≤◌, Option, Some, IfOk, MatchResult, map, option_map};
ghost use Rattle.std.specs.List.{list_all, list_any};
ghost use Rattle.std.specs.Str.{bytes_eq};
ghost use Rattle.cip_input.specs.Jobs.{Job as Asked, Limits as Wanted, Solve, Check, Generate, AsksForSome, are_among, off_in, job_of, job_for};
ghost use Rattle.cip_input.specs.WordsRead.{meant, WordsCause};
ghost use Rattle.cip_input.specs.Generated.{most_drawn};
ghost use Rattle.cip_io.specs.Store.{StoreTells};
ghost use Rattle.cip_input.specs.Tasks.{labels_of, IsSolve, IsTask, TaskCause};

use crate::plain::Plain;
use crate::refusals::FaultyText;
use crate::{
    Job, Limits, TextFault, Unread, Words, WordsFault, entries, generate, generated_are_formed,
    programs_are_limited, read_blocks, read_point, read_program,
};
use cip_frac::Frac;
use cip_io::Store;
use cip_model::Program;
use cip_plugin::Tells;
use cip_text_rules::points::points_are_of_lines;
use std::alloc::Global;

/// What is to be done.
#[derive(Drop)]
pub enum Task<'a> {
    /// To solve a program.
    Solve {
        /// The program.
        program: Program,
        /// How it is searched, over at least 1 node.
        limits: Limits<'a>,
    },
    /// To check a point in a program.
    Check {
        /// The program.
        program: Program,
        /// The point: a value for each column.
        point: Vec<Frac>,
    },
    /// To solve a program that is drawn from a seed.
    Generate {
        /// The program.
        program: Program,
        /// The seed.
        seed: u64,
        /// The number of columns, at most 256.
        columns: u32,
        /// The number of rows, at most 256.
        rows: u32,
        /// How many coefficients of the rows aren't 0.
        entries: u64,
    },
}

impl<K> From<Unread<K>> for Plain
where
    FaultyText: From<TextFault<K>>,
{
    ghost use Rattle.cip_input.specs.Tasks.{IsPlain};

    ghost from_gives = { IsPlain ⟦<FaultyText as From<TextFault<K>>>⟧.from_gives };

    fn from(cause: Unread<K>) -> Plain {
        match cause {
            Unread::StoreFailed => Plain::ReadFault,
            Unread::Faulty(fault) => Plain::Refused(FaultyText::from(fault)),
            Unread::NoMemory => Plain::NoMemory,
        }
    }
}

impl From<WordsFault> for Plain {
    ghost use Rattle.std.specs.Prelude.{◌≡◌};
    ghost use Rattle.cip_input.specs.Tasks.{plain_of_words};

    ghost from_gives = { λ fault answer. answer ≡ plain_of_words fault };

    fn from(fault: WordsFault) -> Plain {
        match fault {
            WordsFault::Refused => Plain::Usage,
            WordsFault::NoMemory => Plain::NoMemory,
        }
    }
}

/// Reads the texts of a model and of its blocks, if these are named.
fn read_solve<S: Store>(
    alloc: Global,
    store: &mut S,
    model: &str,
    blocks: Option<&str>,
) -> Result<Program, Plain>
    ensures { (job : Option Asked) (limits : Wanted)
        → job ≡ Some (Solve model.now (option_map (λ text. text.now) blocks.entry) limits) → 0 < limits.nodes
        → MatchResult result
        (λ program. IsSolve job (S.tells store.old) (S.tells store.new) program limits)
        (TaskCause job (S.tells store.old) (S.tells store.new)) }
{
    let program = read_program(alloc, store, model)?;
    programs_are_limited();
    match blocks {
        None => Ok(program),
        Some(name) => match read_blocks(alloc, store, name, &program) {
            Err(cause) => {
                drop(program);
                Err(Plain::from(cause))
            }
            Ok(blocks) => {
                drop(blocks);
                Ok(program)
            }
        },
    }
}

/// Reads the texts of a model and of a point.
fn read_check<'a, S: Store>(
    alloc: Global,
    store: &mut S,
    model: &str,
    point: &str,
) -> Result<Task<'a>, Plain>
    ensures { (job : Option Asked) → job ≡ Some (Check model.now point.now) → MatchResult result
        (IsTask job (S.tells store.old) (S.tells store.new)) (TaskCause job (S.tells store.old) (S.tells store.new)) }
{
    let program = read_program(alloc, store, model)?;
    match read_point(alloc, store, point, &program) {
        Err(cause) => {
            drop(program);
            Err(Plain::from(cause))
        }
        Ok(point) => {
            programs_are_limited();
            points_are_of_lines();
            Ok(Task::Check { program, point })
        }
    }
}

/// Draws the program of a seed. `NoMemory` comes where a growth was refused, and nothing else.
fn draw<'a>(alloc: Global, seed: u64, columns: u32, rows: u32) -> Result<Task<'a>, Plain>
    requires few_columns { columns ≤ most_drawn }
    requires few_rows { rows ≤ most_drawn }
    ensures { (job : Option Asked) (store : StoreTells) → job ≡ Some (Generate seed columns rows) →
        MatchResult result (IsTask job store store) (TaskCause job store store) }
{
    generated_are_formed();
    match generate(alloc, seed, columns as usize, rows as usize) {
        Ok(program) => {
            let entries = entries(&program) as u64;
            Ok(Task::Generate {
                program,
                seed,
                columns,
                rows,
                entries,
            })
        }
        Err(_) => Err(Plain::NoMemory),
    }
}

/// Whether a plugin has this name.
fn has_name<P: Tells>(plugins: &[P], name: &str) -> bool
    ensures { result ≡ list_any (λ plugin. bytes_eq (P.who plugin).label name.now) plugins.now }
{
    for plugin in plugins {
        if plugin.name() == name {
            return true;
        }
    }
    false
}

/// Whether each of these names is that of a plugin.
fn have_names<P: Tells>(plugins: &[P], names: &[&str]) -> bool
    ensures { result ≡ list_all (λ name. list_any (λ plugin. bytes_eq (P.who plugin).label name.now) plugins.now)
        names.now }
{
    for name in names {
        if !has_name(plugins, name) {
            return false;
        }
    }
    true
}

/// Whether the plugins that a job wants to be off are all there.
fn are_there<P: Tells>(plugins: &[P], job: &Job<'_>) -> bool
    ensures { result ≡ are_among (off_in (meant job.now)) (labels_of (map P.who plugins.now)) }
{
    match job {
        Job::Solve { limits, .. } => have_names(plugins, limits.off.as_slice()),
        Job::Check { .. } => true,
        Job::Generate { .. } => true,
    }
}

/// What the words ask for, where a search begins with these plugins. `Refused` comes exactly where the words are not
/// accepted or want one to be off that isn't there, unless a growth was refused.
fn job_for<'a, P: Tells>(words: &'a Words, plugins: &[P]) -> Result<Job<'a>, WordsFault>
    ensures range { IfOk result (λ job. AsksForSome (meant job)) }
    ensures job { MatchResult result
        (λ job. job_for (labels_of (map P.who plugins.now)) (job_of words.now) ≡ Some (meant job))
        (WordsCause (job_for (labels_of (map P.who plugins.now)) (job_of words.now))) }
{
    let job = words.job()?;
    if are_there(plugins, &job) {
        Ok(job)
    } else {
        Err(WordsFault::Refused)
    }
}

/// Reads the words, and the texts that they name, the model's first; or draws the program that they ask for, and then
/// nothing is pulled. An `Err` is the answer that is to be given then, without figures: `Usage` comes exactly where the
/// words are not accepted, or want a plugin to be off that isn't among those that a search begins with, and then
/// nothing is pulled; `ReadFault` where a call of the store failed; `Refused` exactly where a text is faulty, the texts
/// before it are not, and it was pulled to its end, or to byte 67,108,865; `NoMemory` where a growth was refused, and
/// no call of the store failed.
pub fn read_task<'a, S: Store, P: Tells>(
    alloc: Global,
    words: &'a Words,
    plugins: &[P],
    store: &mut S,
) -> Result<Task<'a>, Plain>
    ensures { MatchResult result
        (IsTask (job_for (labels_of (map P.who plugins.now)) (job_of words.now)) (S.tells store.old)
        (S.tells store.new))
        (TaskCause (job_for (labels_of (map P.who plugins.now)) (job_of words.now)) (S.tells store.old)
        (S.tells store.new)) }
{
    match job_for(words, plugins) {
        Err(fault) => Err(Plain::from(fault)),
        Ok(
            Job::Solve {
                model,
                blocks,
                limits,
            },
        ) => match read_solve(alloc, store, model, blocks) {
            Err(answer) => {
                drop(limits);
                Err(answer)
            }
            Ok(program) => Ok(Task::Solve { program, limits }),
        },
        Ok(Job::Check { model, point }) => read_check(alloc, store, model, point),
        Ok(
            Job::Generate {
                seed,
                columns,
                rows,
            },
        ) => draw(alloc, seed, columns, rows),
    }
}
