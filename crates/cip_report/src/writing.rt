//! Answers as bytes, written to a sink from a fixed buffer.
ghost use Rattle.std.specs.Prelude.{◌≡◌, ◌<◌, ◌++◌, ℕ, true, map, length, option_map, IfSome, MatchResult};
ghost use lib.Chars.{codes};
ghost use Rattle.cip_search.specs.Leaf.{at_wholes};
ghost use Rattle.cip_io.specs.Faults.{CountsFaults};
ghost use Rattle.cip_io.specs.Sink.{TakesAll, PushesPart};
ghost use Rattle.cip_rational.specs.NumberText.{natural_text, fraction_text};
ghost use Rattle.cip_problem.specs.Program as problem;
ghost use Rattle.cip_problem.specs.WellFormed.{columns};
ghost use Rattle.cip_problem.specs.Points.{printed};
ghost use Rattle.cip_problem.specs.Choices.{choice_at, is_open};
ghost use Rattle.cip_search.specs.Figures.{line, figure_text, point_lines, cost_lines, held_lines, leaf_name, choice_text, choice_lines, overflow_text, shown_lines, figure_lines, held_cost, names_of};
ghost use Rattle.cip_search.specs.TraceTexts.{traced_text};
ghost use Rattle.cip_report.specs.Answers.{figures_of, printed_held, status_of, overflow_of, StandsAmong, EndedFits, AnswerFits};
ghost use Rattle.cip_report.specs.Traces.{kept_lines};
ghost use Rattle.cip_report.specs.Writing.{Writes};

use crate::buffer::Buffer;
use crate::figures::{Answer, Ended, Held};
use crate::traces::write_kept;
use cip_frac::Frac;
use cip_io::{Failed, Sink};
use cip_leaf::Shown;
use cip_lin::Choice;
use cip_model::{Names, Place, Program, Sense};
use itoa::Buffer as Digits;

/// Writes a line of a word, with what stands in front of it, and a figure.
pub(crate) fn write_line<K: Sink>(
    out: &mut K,
    buffer: &mut Buffer,
    front: &[u8],
    word: &[u8],
    figure: &[u8],
) -> Result<(), Failed>
    ensures taken { Writes result (K.tells out.old) (K.tells out.new)
        (buffer.old ++ line (front.now ++ word.now) figure.now) buffer.new }
    ensures faults { CountsFaults result (K.tells out.old).faults (K.tells out.new).faults }
{
    buffer.write_all(out, &[front, word, b" ", figure, b"\n"])
}

/// Writes a line of a word, with what stands in front of it, and a number.
pub(crate) fn write_number<K: Sink>(
    out: &mut K,
    buffer: &mut Buffer,
    front: &[u8],
    word: &[u8],
    value: Frac,
) -> Result<(), Failed>
    ensures taken { Writes result (K.tells out.old) (K.tells out.new)
        (buffer.old ++ line (front.now ++ word.now) (fraction_text value)) buffer.new }
    ensures faults { CountsFaults result (K.tells out.old).faults (K.tells out.new).faults }
{
    let mut text = [0u8; 84];
    let length = value.write_into(&mut text);
    write_line(out, buffer, front, word, &text[..length])
}

/// Writes a line of a word, with what stands in front of it, and a count in decimal digits.
pub(crate) fn write_count<K: Sink>(
    out: &mut K,
    buffer: &mut Buffer,
    front: &[u8],
    word: &[u8],
    count: u64,
) -> Result<(), Failed>
    ensures taken { Writes result (K.tells out.old) (K.tells out.new)
        (buffer.old ++ line (front.now ++ word.now) (natural_text count)) buffer.new }
    ensures faults { CountsFaults result (K.tells out.old).faults (K.tells out.new).faults }
{
    let mut digits = Digits::new();
    write_line(out, buffer, front, word, digits.format(count).as_bytes())
}

/// Writes a line of a word and a figure as it is printed, or `none` where there is none.
fn write_figure<K: Sink>(
    out: &mut K,
    buffer: &mut Buffer,
    program: &Program,
    word: &[u8],
    figure: Option<Frac>,
) -> Result<(), Failed>
    ensures taken { Writes result (K.tells out.old) (K.tells out.new)
        (buffer.old ++ line word.now (figure_text (option_map (printed program.now) figure))) buffer.new }
    ensures faults { CountsFaults result (K.tells out.old).faults (K.tells out.new).faults }
{
    match figure {
        Some(figure) => write_number(out, buffer, b"", word, printed(program, figure)),
        None => write_line(out, buffer, b"", word, b"none"),
    }
}

/// Writes a line for each column: its name, with what stands in front of it, and its value.
fn write_point<K: Sink>(
    out: &mut K,
    buffer: &mut Buffer,
    front: &[u8],
    names: &Names,
    point: &[Frac],
) -> Result<(), Failed>
    requires { length point.now ≡ length names.now }
    ensures taken { Writes result (K.tells out.old) (K.tells out.new)
        (buffer.old ++ point_lines (map (λ name. front.now ++ name) names.now) point.now) buffer.new }
    ensures faults { CountsFaults result (K.tells out.old).faults (K.tells out.new).faults }
{
    for number in 0..point.len() {
        write_number(out, buffer, front, names.name(number), point[number])?;
    }
    Ok(())
}

/// A figure as it is printed: of a maximised program negated again.
pub(crate) fn printed(program: &Program, figure: Frac) -> Frac
    ensures { result ≡ printed program.now figure }
{
    match program.sense() {
        Sense::Minimize => figure,
        Sense::Maximize => figure.neg(),
    }
}

/// The cost of the point, where there is one.
fn held_cost(held: &Option<Held>) -> Option<Frac>
    ensures { (program : problem.Program) → option_map (printed program) result
        ≡ held_cost (option_map (printed_held program) held.now) }
{
    match held {
        Some(held) => Some(held.cost),
        None => None,
    }
}

/// Writes the lines of cost and bound.
pub(crate) fn write_costs<K: Sink>(
    out: &mut K,
    buffer: &mut Buffer,
    program: &Program,
    answer: &Answer,
) -> Result<(), Failed>
    ensures taken { Writes result (K.tells out.old) (K.tells out.new)
        (buffer.old ++ cost_lines (figures_of program.now answer.now)) buffer.new }
    ensures faults { CountsFaults result (K.tells out.old).faults (K.tells out.new).faults }
{
    let cost = held_cost(&answer.best);
    write_figure(out, buffer, program, b"cost", cost)?;
    write_figure(out, buffer, program, b"bound", answer.bound)
}

/// Writes the lines of the point, if there is one.
fn write_held<K: Sink>(
    out: &mut K,
    buffer: &mut Buffer,
    program: &Program,
    held: &Option<Held>,
) -> Result<(), Failed>
    requires { IfSome held.now (λ held. length held.point.items ≡ columns program.now) }
    ensures taken { Writes result (K.tells out.old) (K.tells out.new)
        (buffer.old ++ held_lines program.now.column_names (option_map (printed_held program.now) held.now))
        buffer.new }
    ensures faults { CountsFaults result (K.tells out.old).faults (K.tells out.new).faults }
{
    let names = program.column_names();
    match held {
        Some(held) => write_point(out, buffer, b"", names, held.point.as_slice()),
        None => Ok(()),
    }
}

/// Writes a line for each whole column: its name and its value in a leaf.
fn write_leaf_values<K: Sink>(
    out: &mut K,
    buffer: &mut Buffer,
    names: &Names,
    whole: &[bool],
    leaf: &[Frac],
) -> Result<(), Failed>
    requires long { length whole.now ≡ length names.now }
    requires fits { length leaf.now ≡ length (at_wholes whole.now names.now) }
    ensures taken { Writes result (K.tells out.old) (K.tells out.new)
        (buffer.old ++ point_lines (map leaf_name (at_wholes whole.now names.now)) leaf.now) buffer.new }
    ensures faults { CountsFaults result (K.tells out.old).faults (K.tells out.new).faults }
{
    let mut place = 0;
    for column in 0..whole.len() {
        if whole[column] {
            write_number(out, buffer, b"leaf ", names.name(column), leaf[place])?;
            place += 1;
        }
    }
    Ok(())
}

/// Whether a column is on, as it is printed.
fn choice_word(is_on: bool) -> &'static str
    ensures { result.now ≡ choice_text is_on }
{
    if is_on { "on" } else { "off" }
}

/// Writes a line for each semi-continuous column: its name and whether it is on in a leaf.
fn write_leaf_choices<K: Sink>(
    out: &mut K,
    buffer: &mut Buffer,
    names: &Names,
    choices: &[Choice],
    on: &[bool],
) -> Result<(), Failed>
    requires among { (column : ℕ) → is_open (choice_at choices.now column) ≡ true → column < length names.now }
    requires fits { length on.now ≡ length (at_wholes (map is_open choices.now) names.now) }
    ensures taken { Writes result (K.tells out.old) (K.tells out.new)
        (buffer.old ++ choice_lines (map leaf_name (at_wholes (map is_open choices.now) names.now)) on.now)
        buffer.new }
    ensures faults { CountsFaults result (K.tells out.old).faults (K.tells out.new).faults }
{
    let mut place = 0;
    for column in 0..choices.len() {
        if choices[column].is_open() {
            let name = names.name(column);
            let word = choice_word(on[place]).as_bytes();
            write_line(out, buffer, b"leaf ", name, word)?;
            place += 1;
        }
    }
    Ok(())
}

/// Writes the line of what overflows.
fn write_overflow<K: Sink>(
    out: &mut K,
    buffer: &mut Buffer,
    names: &Names,
    shown: Shown,
) -> Result<(), Failed>
    requires { StandsAmong (length names.now) shown }
    ensures taken { Writes result (K.tells out.old) (K.tells out.new)
        (buffer.old ++ line (codes "overflow") (overflow_text (overflow_of names.now shown))) buffer.new }
    ensures faults { CountsFaults result (K.tells out.old).faults (K.tells out.new).faults }
{
    match shown {
        Shown::Place(Place::Row(number)) => {
            write_line(
                out,
                buffer,
                b"overflow ",
                b"row",
                names.name(number as usize),
            )
        }
        Shown::Place(Place::Cost) => write_line(out, buffer, b"", b"overflow", b"cost"),
        Shown::Moves(number) => write_count(out, buffer, b"overflow ", b"moves", number),
    }
}

/// Writes the lines of the ray or of the leaf that is shown, if there is one.
fn write_shown<K: Sink>(
    out: &mut K,
    buffer: &mut Buffer,
    program: &Program,
    ended: &Ended,
) -> Result<(), Failed>
    requires { EndedFits program.now ended.now }
    ensures taken { Writes result (K.tells out.old) (K.tells out.new)
        (buffer.old ++ shown_lines (names_of program.now) (status_of program.now.row_names ended.now)) buffer.new }
    ensures faults { CountsFaults result (K.tells out.old).faults (K.tells out.new).faults }
{
    match ended {
        Ended::Wide { leaf, on, shown } => {
            let names = program.column_names();
            let choices = program.choices().as_slice();
            write_leaf_values(out, buffer, names, program.whole(), leaf.as_slice())?;
            write_leaf_choices(out, buffer, names, choices, on.as_slice())?;
            write_overflow(out, buffer, program.row_names(), *shown)
        }
        Ended::Unbounded { ray } => {
            write_point(out, buffer, b"ray ", program.column_names(), ray.as_slice())
        }
        _ => Ok(()),
    }
}

/// Writes the lines between those of status and end: cost, bound, the point and the ray or leaf that is shown; after
/// infeasible there are none.
fn write_figures<K: Sink>(
    out: &mut K,
    buffer: &mut Buffer,
    program: &Program,
    answer: &Answer,
) -> Result<(), Failed>
    requires { AnswerFits program.now answer.now }
    ensures taken { Writes result (K.tells out.old) (K.tells out.new)
        (buffer.old ++ figure_lines (names_of program.now) (figures_of program.now answer.now)) buffer.new }
    ensures faults { CountsFaults result (K.tells out.old).faults (K.tells out.new).faults }
{
    match answer.ended {
        Ended::Infeasible => Ok(()),
        _ => {
            write_costs(out, buffer, program, answer)?;
            write_held(out, buffer, program, &answer.best)?;
            write_shown(out, buffer, program, &answer.ended)
        }
    }
}

/// Writes the answer of a search, with the lines of its trace, and takes no memory. After an `Err` the sink took a part
/// of it.
pub fn report<K: Sink>(program: &Program, answer: &Answer, out: &mut K) -> Result<(), Failed>
    requires fits { AnswerFits program.now answer.now }
    ensures taken { let text =
        traced_text (names_of program.now) (figures_of program.now answer.now) (kept_lines answer.now.trace) in
        MatchResult result
        (λ _. TakesAll (K.tells out.old) (K.tells out.new) text)
        (λ _. PushesPart (K.tells out.old) (K.tells out.new) text) }
    ensures faults { CountsFaults result (K.tells out.old).faults (K.tells out.new).faults }
{
    let mut buffer = Buffer::new();
    let word = answer.ended.word().as_bytes();
    write_line(out, &mut buffer, b"", b"status", word)?;
    write_figures(out, &mut buffer, program, answer)?;
    write_kept(out, &mut buffer, &answer.trace)?;
    buffer.write(out, b"end\n")?;
    buffer.flush(out)
}
