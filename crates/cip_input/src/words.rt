//! The words of a command line.
ghost use Rattle.std.specs.Prelude.{◌≡◌, ◌++◌, ◌∷◌, ◌&&◌, if◌then◌else◌, [], true, false, Some, None, map, IfOk, OnOk, OnErr, MatchResult, option_map, option_and_then};
ghost use Rattle.clap.specs.Words.{App, app_of, rows_of, found_of, new_rule, rule_of, subcommand_rows_of, with_rule};
ghost use Rattle.clap.specs.declared.builder.action.ArgAction.TheVariants.{SetTrue};
ghost use Rattle.cip_input.specs.Jobs.{AsksForSome, cip_command, begins_above_zero, begins_plainly, nodes_of, number_up_to, gap_of, off_of, is_presolved, is_true, job_behind, check_behind, self_behind, job_at, job_of};
ghost use Rattle.cip_input.specs.Generated.{most_drawn};
ghost use Rattle.cip_input.specs.WordsRead.{meant, WordsCause};

use crate::MOST_DRAWN;
use cip_frac::Frac;
use cip_text::fraction;
use clap::error::ErrorKind;
use clap::{Arg, ArgAction, ArgMatches, Command};
use std::alloc::{AllocError, Global};
use std::marker::Model;

/// The nodes of a search where nothing is said of them.
pub const USUAL_NODES: u64 = 1_000_000;

/// The most nodes that can be asked for, 2^40.
const MOST_NODES: u64 = 1_099_511_627_776;

/// The greatest seed of a program that is drawn.
const MOST_SEED: u64 = u64::MAX;

/// The words of a command line, without the program's name.
#[derive(Drop)]
pub struct Words {
    alloc: Global,
    words: Vec<String>,
}

impl Model for Words {
    ghost use Rattle.std.specs.Prelude.{ℕ, List};
    ghost use Rattle.cip_problem.specs.Codes.{names_code};

    ghost Value = { List (List ℕ) };

    ghost coded = { names_code };

    ghost use Rattle.cip_input.specs.WordsRead.{words_of};

    ghost view = { words_of };
}

/// How a program is searched.
#[derive(Drop)]
pub struct Limits<'a> {
    /// The most nodes that are taken, from 1 to 2^40.
    pub nodes: u64,
    /// The gap that is asked for, if one is, at least 0.
    pub gap: Option<Frac>,
    /// Whether presolve may reduce the program first: a search that isn't plain, without blocks.
    pub presolve: bool,
    /// Whether no plugin is asked.
    pub plain: bool,
    /// The names of the plugins that are off.
    pub off: Vec<&'a str>,
    /// Whether the lines of the trace are printed.
    pub trace: bool,
}

/// What the words ask for.
#[derive(Drop)]
pub enum Job<'a> {
    /// To solve the program of a text.
    Solve {
        /// The name of the text.
        model: &'a str,
        /// The name of the text of its blocks, if one is named.
        blocks: Option<&'a str>,
        /// How it is searched.
        limits: Limits<'a>,
    },
    /// To check a point in the program of a text.
    Check {
        /// The name of the text of the program.
        model: &'a str,
        /// The name of the text of the point.
        point: &'a str,
    },
    /// To solve the program that is drawn from a seed.
    Generate {
        /// The seed.
        seed: u64,
        /// The number of columns, at most 256.
        columns: u32,
        /// The number of rows, at most 256.
        rows: u32,
    },
}

/// Why words give no job.
#[derive(Clone, Copy, PartialEq, Eq)]
pub enum WordsFault {
    /// They are not accepted.
    Refused,
    /// A growth was refused.
    NoMemory,
}

impl From<AllocError> for WordsFault {
    ghost use Rattle.std.specs.Prelude.{◌≡◌};
    ghost use Rattle.cip_input.specs.declared.words.WordsFault.{WordsFault};

    ghost from_gives = { λ _ fault. fault ≡ WordsFault.NoMemory };

    fn from(_: AllocError) -> WordsFault {
        WordsFault::NoMemory
    }
}

/// A word behind the name of a subcommand: a value that has to be there; or else what may be there behind `--` and the
/// name, a value or, for a flag, none.
fn word<'a>(alloc: Global, id: &'a str, required: bool, flag: bool) -> Arg<'a>
    requires { (required && flag) ≡ false }
    ensures rule { rule_of result ≡ record (new_rule id.entry.now) {
      required = required;
      long = if required then None else Some id.entry.now;
      action = if flag then Some SetTrue else None;
    } }
    ensures local { result.global ≡ false }
{
    let word = Arg::new(alloc, id);
    if required {
        return word.required(true);
    }
    let option = word.long(id);
    if flag {
        option.action(ArgAction::SetTrue)
    } else {
        option
    }
}

/// The command with a word more; `Err` comes where a growth was refused, now or before.
fn with_word<'a>(
    alloc: Global,
    command: Result<Command<'a>, AllocError>,
    id: &'a str,
    required: bool,
    flag: bool,
) -> Result<Command<'a>, AllocError>
    requires { (required && flag) ≡ false }
    ensures { (app : App) → IfOk command.entry (λ old. app_of old ≡ app)
        → IfOk result (λ new. app_of new ≡ with_rule app (record (new_rule id.entry.now) {
          required = required;
          long = if required then None else Some id.entry.now;
          action = if flag then Some SetTrue else None;
        })) }
{
    match command {
        Ok(command) => command.arg(word(alloc, id, required, flag)),
        Err(AllocError) => Err(AllocError),
    }
}

/// The command: `solve MODEL [--blocks FILE] [--nodes N] [--gap G] [--off LIST] [--plain] [--trace]`,
/// `check MODEL POINT`, and `self SEED COLS ROWS`.
fn command<'a>(alloc: Global) -> Result<Command<'a>, AllocError>
    ensures { IfOk result (λ command. app_of command ≡ cip_command) }
{
    let solve = Ok(Command::new(alloc, "solve"));
    let solve = with_word(alloc, solve, "model", true, false);
    let solve = with_word(alloc, solve, "blocks", false, false);
    let solve = with_word(alloc, solve, "nodes", false, false);
    let solve = with_word(alloc, solve, "gap", false, false);
    let solve = with_word(alloc, solve, "off", false, false);
    let solve = with_word(alloc, solve, "plain", false, true);
    let Ok(solve) = with_word(alloc, solve, "trace", false, true) else {
        return Err(AllocError);
    };
    let bare = Command::new(alloc, "cip").no_binary_name(true);
    let Ok(solver) = bare.subcommand(solve) else {
        return Err(AllocError);
    };
    let check = Ok(Command::new(alloc, "check"));
    let check = with_word(alloc, check, "model", true, false);
    let Ok(check) = with_word(alloc, check, "point", true, false) else {
        drop(solver);
        return Err(AllocError);
    };
    let Ok(checker) = solver.subcommand(check) else {
        return Err(AllocError);
    };
    let draw = Ok(Command::new(alloc, "self"));
    let draw = with_word(alloc, draw, "seed", true, false);
    let draw = with_word(alloc, draw, "cols", true, false);
    let Ok(draw) = with_word(alloc, draw, "rows", true, false) else {
        drop(checker);
        return Err(AllocError);
    };
    checker.subcommand(draw)
}

/// Whether a text begins with a digit from 1 to 9.
fn begins_above_zero(text: &[u8]) -> bool
    ensures { result ≡ begins_above_zero text.now }
{
    match text {
        [] => false,
        [first, ..] => b'1' <= *first && *first <= b'9',
    }
}

/// Whether a text begins with a digit from 1 to 9, or is 0.
fn begins_plainly(text: &[u8]) -> bool
    ensures { result ≡ begins_plainly text.now }
{
    text == b"0".as_slice() || begins_above_zero(text)
}

/// The number that a word says, up to the most, in digits without a sign or a 0 in front; none where there is no word.
fn number_up_to(word: Option<&str>, most: u64) -> Option<u64>
    ensures { result ≡ number_up_to most (option_map (λ text. text.now) word.entry) }
{
    let Some(text) = word else {
        return None;
    };
    if !begins_plainly(text.as_bytes()) {
        return None;
    }
    match text.parse::<u64>() {
        Ok(number) if number <= most => Some(number),
        _ => None,
    }
}

/// The number of columns or rows that a word says; none where there is no word.
fn count_in(word: Option<&str>) -> Option<u32>
    ensures { result ≡ number_up_to most_drawn (option_map (λ text. text.now) word.entry) }
{
    match number_up_to(word, MOST_DRAWN as u64) {
        Some(count) => Some(count as u32),
        None => None,
    }
}

/// The number of nodes that is asked for, from 1 to the most, in digits without a sign or a 0 in front; the usual one
/// where there is no word.
fn nodes_in(word: Option<&str>) -> Option<u64>
    ensures { result ≡ nodes_of (option_map (λ text. text.now) word.entry) }
{
    let Some(text) = word else {
        return Some(USUAL_NODES);
    };
    if !begins_above_zero(text.as_bytes()) {
        return None;
    }
    match text.parse::<u64>() {
        Ok(nodes) if 1 <= nodes && nodes <= MOST_NODES => Some(nodes),
        _ => None,
    }
}

/// The gap that is asked for, a fraction of at least 0; none where there is no word.
fn gap_in(word: Option<&str>) -> Option<Option<Frac>>
    ensures { result ≡ gap_of (option_map (λ text. text.now) word.entry) }
{
    let Some(text) = word else {
        return Some(None);
    };
    match fraction(text.as_bytes()) {
        Ok(gap) => {
            if Frac::zero() <= gap {
                Some(Some(gap))
            } else {
                None
            }
        }
        Err(_) => None,
    }
}

/// The names of the plugins that are to be off, which stand between commas; none where there is no word.
fn off_in<'a>(alloc: Global, word: Option<&'a str>) -> Result<Vec<&'a str>, AllocError>
    ensures { IfOk result (λ names.
        map (λ name. name.now) names.items ≡ off_of (option_map (λ text. text.now) word.entry)) }
{
    match word {
        Some(text) => text.split(',').collect(alloc),
        None => Ok(Vec::new(alloc)),
    }
}

/// Whether presolve may reduce the program: the search isn't plain, and no blocks are named.
fn is_presolved(plain: bool, blocks: Option<&str>) -> bool
    ensures { result ≡ is_presolved plain (option_map (λ text. text.now) blocks.entry) }
{
    match blocks {
        Some(_) => false,
        None => !plain,
    }
}

/// Whether a name without a value is there, by the word that was found of it.
fn is_true(word: Option<&str>) -> bool
    ensures { result ≡ is_true (option_map (λ text. text.now) word.entry) }
{
    match word {
        Some(text) => text == "true",
        None => false,
    }
}

/// The job of what stands behind `solve`.
fn job_of_solve<'a>(alloc: Global, solve: &ArgMatches<'a>) -> Result<Job<'a>, WordsFault>
    ensures { MatchResult result
        (λ job. job_behind (rows_of (found_of solve.now)) ≡ Some (meant job))
        (WordsCause (job_behind (rows_of (found_of solve.now)))) }
{
    let Some(model) = solve.get_str("model") else {
        return Err(WordsFault::Refused);
    };
    let blocks = solve.get_str("blocks");
    let Some(nodes) = nodes_in(solve.get_str("nodes")) else {
        return Err(WordsFault::Refused);
    };
    let Some(gap) = gap_in(solve.get_str("gap")) else {
        return Err(WordsFault::Refused);
    };
    let plain = is_true(solve.get_str("plain"));
    let trace = is_true(solve.get_str("trace"));
    let presolve = is_presolved(plain, blocks);
    let off = off_in(alloc, solve.get_str("off"))?;
    let limits = Limits {
        nodes,
        gap,
        presolve,
        plain,
        off,
        trace,
    };
    Ok(Job::Solve {
        model,
        blocks,
        limits,
    })
}

/// The job of what stands behind `check`.
fn job_of_check<'a>(check: &ArgMatches<'a>) -> Result<Job<'a>, WordsFault>
    ensures { MatchResult result
        (λ job. check_behind (rows_of (found_of check.now)) ≡ Some (meant job))
        (WordsCause (check_behind (rows_of (found_of check.now)))) }
{
    let Some(model) = check.get_str("model") else {
        return Err(WordsFault::Refused);
    };
    match check.get_str("point") {
        Some(point) => Ok(Job::Check { model, point }),
        None => Err(WordsFault::Refused),
    }
}

/// The job of what stands behind `self`.
fn job_of_self<'a>(drawn: &ArgMatches<'a>) -> Result<Job<'a>, WordsFault>
    ensures { MatchResult result
        (λ job. self_behind (rows_of (found_of drawn.now)) ≡ Some (meant job))
        (WordsCause (self_behind (rows_of (found_of drawn.now)))) }
{
    let Some(seed) = number_up_to(drawn.get_str("seed"), MOST_SEED) else {
        return Err(WordsFault::Refused);
    };
    let Some(columns) = count_in(drawn.get_str("cols")) else {
        return Err(WordsFault::Refused);
    };
    match count_in(drawn.get_str("rows")) {
        Some(rows) => Ok(Job::Generate {
            seed,
            columns,
            rows,
        }),
        None => Err(WordsFault::Refused),
    }
}

/// The job of words that the command takes.
fn job_in<'a>(alloc: Global, matches: &ArgMatches<'a>) -> Result<Job<'a>, WordsFault>
    ensures { MatchResult result
        (λ job. option_and_then job_at (subcommand_rows_of matches.now) ≡ Some (meant job))
        (WordsCause (option_and_then job_at (subcommand_rows_of matches.now))) }
{
    match matches.subcommand_matches("solve") {
        Some(solve) => job_of_solve(alloc, solve),
        None => match matches.subcommand_matches("check") {
            Some(check) => job_of_check(check),
            None => match matches.subcommand_matches("self") {
                Some(drawn) => job_of_self(drawn),
                None => Err(WordsFault::Refused),
            },
        },
    }
}

impl Words {
    /// No word yet.
    pub fn new(alloc: Global) -> Result<Words, AllocError>
        ensures { IfOk result (λ words. words ≡ []) }
    {
        Ok(Words {
            alloc,
            words: Vec::new(alloc),
        })
    }

    /// Puts a word at the end; an `Err` changes nothing.
    pub fn add(&mut self, word: &str) -> Result<(), AllocError>
        ensures ok { OnOk result (self.new ≡ self.old ++ word.now ∷ []) }
        ensures err { OnErr result (self.new ≡ self.old) }
    {
        let Ok(()) = self.words.reserve(1) else {
            return Err(AllocError);
        };
        let Ok(owned) = String::from_str(self.alloc, word) else {
            return Err(AllocError);
        };
        self.words.push_reserved(owned);
        Ok(())
    }

    /// What the words ask for. `Refused` comes exactly where they are not accepted, unless a growth was refused.
    pub fn job(&self) -> Result<Job<'_>, WordsFault>
        ensures range { IfOk result (λ job. AsksForSome (meant job)) }
        ensures job { MatchResult result (λ job. job_of self.now ≡ Some (meant job))
            (WordsCause (job_of self.now)) }
    {
        let command = command(self.alloc)?;
        match command.try_get_matches_from(self.words.as_slice()) {
            Ok(matches) => {
                let job = job_in(self.alloc, &matches);
                drop(matches);
                job
            }
            Err(error) => {
                let kind = error.kind();
                drop(error);
                match kind {
                    ErrorKind::OutOfMemory => Err(WordsFault::NoMemory),
                    _ => Err(WordsFault::Refused),
                }
            }
        }
    }
}
