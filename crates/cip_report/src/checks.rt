//! The verdict on a point as bytes, written to a sink from a fixed buffer.
ghost use Rattle.std.specs.Prelude.{◌≡◌, ◌<◌, ◌++◌, ◌∷◌, List, length, MatchResult};
ghost use Rattle.cip_io.specs.Faults.{CountsFaults};
ghost use Rattle.cip_io.specs.Sink.{TakesAll, PushesPart};
ghost use Rattle.cip_rational.specs.Rational.{ℚ};
ghost use Rattle.cip_rational.specs.NumberText.{fraction_text};
ghost use Rattle.cip_problem.specs.Program as problem;
ghost use Rattle.cip_problem.specs.Box.{Between, sides_at};
ghost use Rattle.cip_problem.specs.Choices.{choice_at};
ghost use Rattle.cip_problem.specs.WellFormed.{columns};
ghost use Rattle.cip_model.specs.Meaning.{VerdictHolds};
ghost use Rattle.cip_search.specs.Figures.{line};
ghost use Rattle.cip_search.specs.Checks as texts;
ghost use Rattle.cip_report.specs.Checks.{broken_side, told_sides, checked_of};
ghost use Rattle.cip_report.specs.Writing.{Writes};

use crate::buffer::Buffer;
use crate::writing::{printed, write_line, write_number};
use cip_frac::Frac;
use cip_io::{Failed, Sink};
use cip_lin::Sides;
use cip_model::{Place, Program, Verdict};

/// The exit status.
pub fn check_status(verdict: &Verdict) -> u8
    ensures { (program : problem.Program) (point : List ℚ) →
        result ≡ texts.check_status (checked_of program point verdict.now) }
{
    match verdict {
        Verdict::Feasible(_) => 0,
        Verdict::Wide { .. } => 11,
        _ => 1,
    }
}

/// The printed word.
fn check_word(verdict: &Verdict) -> &'static str
    ensures { (program : problem.Program) (point : List ℚ) →
        result.now ≡ texts.check_word (checked_of program point verdict.now) }
{
    match verdict {
        Verdict::Feasible(_) => "feasible",
        Verdict::Wide { .. } => "wide",
        _ => "broken",
    }
}

/// The side that a value breaks, and its word with blanks around.
fn side_broken(sides: Sides, value: Frac) -> (&'static [u8], Frac)
    requires { ¬ Between sides.low sides.high value }
    ensures { result.0.now ++ fraction_text result.1
        ≡ 32 ∷ texts.broken_text (broken_side sides.low sides.high value) }
{
    match (sides.low, sides.high) {
        (Some(low), Some(high)) => {
            if low <= value {
                (b" above ", high)
            } else {
                (b" below ", low)
            }
        }
        (Some(low), None) => (b" below ", low),
        (None, Some(high)) => (b" above ", high),
        (None, None) => unreachable!(),
    }
}

/// Writes the line of a value that is outside its sides.
fn write_broken<K: Sink>(
    out: &mut K,
    buffer: &mut Buffer,
    word: &[u8],
    name: &[u8],
    value: Frac,
    sides: Sides,
) -> Result<(), Failed>
    requires { ¬ Between sides.low sides.high value }
    ensures taken { Writes result (K.tells out.old) (K.tells out.new) (buffer.old ++ line (word.now ++ name.now)
        (texts.figure_against value (broken_side sides.low sides.high value))) buffer.new }
    ensures faults { CountsFaults result (K.tells out.old).faults (K.tells out.new).faults }
{
    let (way, side) = side_broken(sides, value);
    let mut figure = [0u8; 84];
    let mut end = [0u8; 84];
    let length = value.write_into(&mut figure);
    let end_length = side.write_into(&mut end);
    let figure = &figure[..length];
    let end = &end[..end_length];
    buffer.write_all(out, &[word, name, b" "])?;
    buffer.write_all(out, &[figure, way, end, b"\n"])
}

/// The sides that a column's value is told to break: its own where it is semi-continuous, and else its bounds.
fn told_sides(program: &Program, col: u32) -> Sides
    requires { col < columns program.now }
    ensures { result ≡ told_sides (choice_at program.now.choices col) (sides_at program.now.bounds col) }
{
    match program.choices().at(col).own() {
        Some(own) => own,
        None => program.bounds().sides(col),
    }
}

/// Writes the line of a verdict: the cost, what is broken, or which sum overflows.
fn write_verdict<K: Sink>(
    out: &mut K,
    buffer: &mut Buffer,
    program: &Program,
    point: &[Frac],
    verdict: &Verdict,
) -> Result<(), Failed>
    requires long { length point.now ≡ columns program.now }
    requires meaning { VerdictHolds program.now point.now verdict.now }
    ensures taken { Writes result (K.tells out.old) (K.tells out.new)
        (buffer.old ++ texts.check_line (checked_of program.now point.now verdict.now)) buffer.new }
    ensures faults { CountsFaults result (K.tells out.old).faults (K.tells out.new).faults }
{
    match verdict {
        Verdict::Feasible(cost) => write_number(out, buffer, b"", b"cost", printed(program, *cost)),
        Verdict::BreaksBound { col } => {
            let number = *col as usize;
            let name = program.column_names().name(number);
            let sides = told_sides(program, *col);
            write_broken(out, buffer, b"bound ", name, point[number], sides)
        }
        Verdict::BreaksWhole { col } => {
            let number = *col as usize;
            let name = program.column_names().name(number);
            write_number(out, buffer, b"whole ", name, point[number])
        }
        Verdict::BreaksRow { row, value } => {
            let number = *row as usize;
            let name = program.row_names().name(number);
            let row = &program.rows()[number];
            let sides = Sides {
                low: row.low(),
                high: row.high(),
            };
            write_broken(out, buffer, b"row ", name, *value, sides)
        }
        Verdict::Wide { place } => match place {
            Place::Row(number) => {
                let rows = program.row_names();
                let row_name = rows.name(*number as usize);
                write_line(out, buffer, b"", b"row", row_name)
            }
            Place::Cost => buffer.write(out, b"cost\n"),
        },
    }
}

/// Writes the answer to the test of a point with a value for each column, and takes no memory. After an `Err` the sink
/// took a part of it.
pub fn report_check<K: Sink>(
    program: &Program,
    point: &[Frac],
    verdict: &Verdict,
    out: &mut K,
) -> Result<(), Failed>
    requires long { length point.now ≡ columns program.now }
    requires meaning { VerdictHolds program.now point.now verdict.now }
    ensures taken { let text = texts.check_text (checked_of program.now point.now verdict.now) in
        MatchResult result
        (λ _. TakesAll (K.tells out.old) (K.tells out.new) text)
        (λ _. PushesPart (K.tells out.old) (K.tells out.new) text) }
    ensures faults { CountsFaults result (K.tells out.old).faults (K.tells out.new).faults }
{
    let mut buffer = Buffer::new();
    let word = check_word(verdict).as_bytes();
    write_line(out, &mut buffer, b"", b"status", word)?;
    write_verdict(out, &mut buffer, program, point, verdict)?;
    buffer.write(out, b"end\n")?;
    buffer.flush(out)
}
