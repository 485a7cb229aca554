//! Answers to `self` as bytes, written to a sink from a fixed buffer.
ghost use Rattle.std.specs.Prelude.{◌++◌, MatchResult};
ghost use Rattle.cip_io.specs.Faults.{CountsFaults};
ghost use Rattle.cip_io.specs.Sink.{TakesAll, PushesPart};
ghost use Rattle.cip_search.specs.SelfTexts.{self_text};
ghost use Rattle.cip_report.specs.Answers.{figures_of};
ghost use Rattle.cip_report.specs.Drawn.{drawn_of};
ghost use Rattle.cip_report.specs.Writing.{Writes};

use crate::buffer::Buffer;
use crate::figures::Answer;
use crate::writing::write_costs;
use cip_io::{Failed, Sink};
use cip_model::Program;
use itoa::Buffer as Digits;

/// What is told of a program that is drawn from a seed.
#[derive(Clone, Copy)]
pub struct Drawn {
    /// The seed.
    pub seed: u64,
    /// The number of columns.
    pub columns: u32,
    /// The number of rows.
    pub rows: u32,
    /// How many coefficients of the rows aren't 0.
    pub entries: u64,
}

/// Writes the answer of a search of a program that is drawn, with what is told of the program: status, cost and bound,
/// whatever the end. It takes no memory. After an `Err` the sink took a part of it.
pub fn report_self<K: Sink>(
    drawn: Drawn,
    program: &Program,
    answer: &Answer,
    out: &mut K,
) -> Result<(), Failed>
    ensures taken { let text = self_text (drawn_of drawn) (figures_of program.now answer.now) in
        MatchResult result
        (λ _. TakesAll (K.tells out.old) (K.tells out.new) text)
        (λ _. PushesPart (K.tells out.old) (K.tells out.new) text) }
    ensures faults { CountsFaults result (K.tells out.old).faults (K.tells out.new).faults }
{
    let mut buffer = Buffer::new();
    let mut seed_digits = Digits::new();
    let mut column_digits = Digits::new();
    let mut row_digits = Digits::new();
    let mut entry_digits = Digits::new();
    let seed = seed_digits.format(drawn.seed).as_bytes();
    let columns = column_digits.format(drawn.columns as u64).as_bytes();
    let rows = row_digits.format(drawn.rows as u64).as_bytes();
    let entries = entry_digits.format(drawn.entries).as_bytes();
    let word = answer.ended.word().as_bytes();
    buffer.write_all(
        out,
        &[
            b"self ",
            seed,
            b" ",
            columns,
            b" ",
            rows,
            b"\nentries ",
            entries,
            b"\nstatus ",
            word,
            b"\n",
        ],
    )?;
    write_costs(out, &mut buffer, program, answer)?;
    buffer.write(out, b"end\n")?;
    buffer.flush(out)
}
