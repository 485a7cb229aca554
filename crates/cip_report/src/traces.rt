//! The lines of a trace, written to a sink.
ghost use Rattle.std.specs.Prelude.{◌≡◌, ◌++◌, ◌∷◌, [], slice_get};
ghost use Rattle.cip_io.specs.Faults.{CountsFaults};
ghost use Rattle.cip_search.specs.TraceTexts.{trace_line, trace_lines};
ghost use Rattle.cip_report.specs.Traces.{word_text, name_or_mark, traced_line, kept_lines};
ghost use Rattle.cip_report.specs.Writing.{Writes};

use crate::buffer::Buffer;
use crate::writing::{write_count, write_line};
use cip_events::{Name, Trace, TraceLine, Word};
use cip_io::{Failed, Sink};
use itoa::Buffer as Digits;

/// Writes a blank, a word with what follows it, and the end of the line.
fn write_word<K: Sink>(out: &mut K, buffer: &mut Buffer, word: Word) -> Result<(), Failed>
    ensures taken { Writes result (K.tells out.old) (K.tells out.new)
        (buffer.old ++ (32 ∷ (word_text word ++ 10 ∷ []))) buffer.new }
    ensures faults { CountsFaults result (K.tells out.old).faults (K.tells out.new).faults }
{
    let text = word.text().as_bytes();
    match word {
        Word::Dropped(count) => write_count(out, buffer, b" ", text, count),
        Word::Refused(fault) => write_line(out, buffer, b" ", text, fault.as_bytes()),
        _ => buffer.write_all(out, &[b" ", text, b"\n"]),
    }
}

/// The name of a plugin, and `?` where it has none.
fn name_in(names: &[Name], id: u32) -> &[u8]
    ensures { result.now ≡ name_or_mark (slice_get names.now id) }
{
    match names.get(id as usize) {
        Some(name) => name.as_bytes(),
        None => b"?",
    }
}

/// Writes a line of this number.
fn write_traced<K: Sink>(
    out: &mut K,
    buffer: &mut Buffer,
    number: u64,
    names: &[Name],
    traced: TraceLine,
) -> Result<(), Failed>
    ensures taken { Writes result (K.tells out.old) (K.tells out.new)
        (buffer.old ++ trace_line number (traced_line names.now traced)) buffer.new }
    ensures faults { CountsFaults result (K.tells out.old).faults (K.tells out.new).faults }
{
    let mut digits = Digits::new();
    let mut id_digits = Digits::new();
    let number = digits.format(number).as_bytes();
    let id = id_digits.format(traced.id as u64).as_bytes();
    buffer.write_all(out, &[b"trace ", number, b" ", id, b" "])?;
    buffer.write(out, name_in(names, traced.id))?;
    write_word(out, buffer, traced.word)
}

/// Writes the lines of the trace, numbered from 1, if one was kept.
pub(crate) fn write_kept<K: Sink>(
    out: &mut K,
    buffer: &mut Buffer,
    trace: &Option<Trace>,
) -> Result<(), Failed>
    ensures taken { Writes result (K.tells out.old) (K.tells out.new)
        (buffer.old ++ trace_lines 1 (kept_lines trace.now)) buffer.new }
    ensures faults { CountsFaults result (K.tells out.old).faults (K.tells out.new).faults }
{
    let Some(kept) = trace else {
        return Ok(());
    };
    let names = kept.names.as_slice();
    let lines = kept.lines.as_slice();
    for place in 0..lines.len() {
        write_traced(out, buffer, place as u64 + 1, names, lines[place])?;
    }
    Ok(())
}
