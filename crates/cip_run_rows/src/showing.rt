//! What came of a call of `run`.
use crate::calling::{Outcome, outcome_of};
use crate::row::Row;
use crate::setup::Setup;
use cip_io::MemorySink;
use cip_main::{Log, Mark};
use cip_tree::{End, Logged};
use std::alloc::{AllocError, Global};
use std::io;

/// A row, or an answer, that can't be read.
pub fn unread() -> io::Error {
    io::Error::from(io::ErrorKind::InvalidData)
}

/// Prints the bytes that the sink took: a line behind `> `, and behind `- ` a last one that has no line feed.
fn show_taken(rt: &impl Print, out: &MemorySink) -> io::Result<()> {
    let Ok(text) = str::from_utf8(out.taken()) else {
        return Err(unread());
    };
    for line in text.split_inclusive('\n') {
        match line.strip_suffix('\n') {
            Some(line) => println!(rt; "> {line}")?,
            None => println!(rt; "- {line}")?,
        }
    }
    Ok(())
}

/// Prints the number of entries of each log, between two texts.
fn show_entries(rt: &impl Print, logs: &[Log], front: &str, back: &str) -> io::Result<()> {
    for log in logs {
        print!(rt; "{front}{}{back}", log.taken.len())?;
    }
    Ok(())
}

/// What a mark is called.
fn word_of(mark: &Mark) -> &'static str {
    match mark {
        Mark::Wide { .. } => "wide",
        Mark::Limit => "limit",
        Mark::Refused { .. } => "refused",
    }
}

/// Prints an entry of a log: the node, its bound and how it ended.
fn show_entry(rt: &impl Print, entry: &Logged) -> io::Result<()> {
    print!(rt; "node {}", entry.id)?;
    match entry.bound {
        Some(bound) => print!(rt; ", bound {bound}")?,
        None => print!(rt; ", no bound")?,
    }
    match entry.end {
        End::Split { col, at, low, high } => println!(rt;
            ", split of {col} at {at} into {low} and {high}"
        ),
        End::Closed => println!(rt; ", closed"),
        End::Parked => println!(rt; ", parked"),
    }
}

/// Prints the entries of a log, and then its marks.
fn show_log(rt: &impl Print, log: &Log) -> io::Result<()> {
    for entry in &log.taken {
        show_entry(rt, entry)?;
    }
    for (number, mark) in &log.marks {
        println!(rt; "mark {number} {}", word_of(mark))?;
    }
    Ok(())
}

/// Prints how many plugins are left in the kit, and the numbers of those that are spent, `-` for one without.
fn show_kit(rt: &impl Print, outcome: &Outcome) -> io::Result<()> {
    let (start, shelf) = outcome.left;
    print!(rt; "kit {start} {shelf}, spent")?;
    for number in &outcome.spent {
        match number {
            Some(number) => print!(rt; " {number}")?,
            None => print!(rt; " -")?,
        }
    }
    println!(rt; "")
}

/// Prints the status; with a kit how many nodes each log has, and what is left of the kit, and else the number of logs.
fn show_status(rt: &impl Print, setup: &Setup<'_>, outcome: &Outcome) -> io::Result<()> {
    print!(rt; "status {}", outcome.status)?;
    if !setup.kit {
        return println!(rt; ", logs {}", outcome.logs.len());
    }
    show_entries(rt, outcome.logs.as_slice(), ", nodes ", "")?;
    println!(rt; "")?;
    show_kit(rt, outcome)
}

/// Prints what is wanted of the logs.
fn show_logs(rt: &impl Print, setup: &Setup<'_>, logs: &[Log]) -> io::Result<()> {
    if setup.entries {
        show_entries(rt, logs, "entries ", "\n")?;
    }
    if setup.log {
        for log in logs {
            show_log(rt, log)?;
        }
    }
    Ok(())
}

/// Whether a call comes to the same status and bytes as another one.
fn is_alike(
    alloc: Global,
    row: &Row<'_>,
    own: &str,
    setup: &Setup<'_>,
    outcome: &Outcome,
) -> Result<bool, AllocError> {
    let other = outcome_of(alloc, row, own, setup)?;
    let is_alike = other.status == outcome.status && other.out.taken() == outcome.out.taken();
    drop(other);
    Ok(is_alike)
}

/// Prints whether the call comes to the same status and bytes with all smaller pieces, or the least with which it
/// doesn't.
fn show_alike(
    rt: &(impl Print + AllocGlobal),
    row: &Row<'_>,
    own: &str,
    setup: &Setup<'_>,
    outcome: &Outcome,
) -> io::Result<()> {
    for piece in 1..setup.piece {
        if !is_alike(rt.alloc(), row, own, &setup.with_piece(piece), outcome)? {
            return println!(rt; "unlike with piece {piece}");
        }
    }
    println!(rt; "alike")
}

/// Whether a call whose sink is too short has status 5, and a front part of an answer.
fn takes_front(
    alloc: Global,
    row: &Row<'_>,
    own: &str,
    setup: &Setup<'_>,
    answer: &[u8],
) -> Result<bool, AllocError> {
    let short = outcome_of(alloc, row, own, setup)?;
    let is_front = short.status == 5 && Some(short.out.taken()) == answer.get(..setup.room);
    drop(short);
    Ok(is_front)
}

/// Prints whether each smaller sink takes just a front part of the answer, with status 5, or the least that takes
/// something else.
fn show_rooms(
    rt: &(impl Print + AllocGlobal),
    row: &Row<'_>,
    own: &str,
    setup: &Setup<'_>,
    answer: &[u8],
) -> io::Result<()> {
    for room in 0..answer.len() {
        if !takes_front(rt.alloc(), row, own, &setup.with_room(room), answer)? {
            return println!(rt; "room {room} takes something else");
        }
    }
    println!(rt; "all {} rooms take a front part", answer.len())
}

/// The status of a call.
fn status_of(alloc: Global, row: &Row<'_>, own: &str, setup: &Setup<'_>) -> Result<u8, AllocError> {
    let outcome = outcome_of(alloc, row, own, setup)?;
    let status = outcome.status;
    drop(outcome);
    Ok(status)
}

/// Prints from how many bytes of the texts on which status comes.
fn show_fronts(
    rt: &(impl Print + AllocGlobal),
    row: &Row<'_>,
    own: &str,
    setup: &Setup<'_>,
) -> io::Result<()> {
    let mut last = None;
    for kept in 0..row.text_bytes() {
        let status = status_of(rt.alloc(), row, own, &setup.with_kept(kept))?;
        if last != Some(status) {
            println!(rt; "from {kept} bytes: status {status}")?;
        }
        last = Some(status);
    }
    Ok(())
}

/// Prints what else is tried.
fn show_more(
    rt: &(impl Print + AllocGlobal),
    row: &Row<'_>,
    own: &str,
    setup: &Setup<'_>,
    outcome: &Outcome,
) -> io::Result<()> {
    if setup.alike {
        show_alike(rt, row, own, setup, outcome)?;
    }
    if setup.rooms {
        show_rooms(rt, row, own, setup, outcome.out.taken())?;
    }
    if setup.fronts {
        show_fronts(rt, row, own, setup)?;
    }
    Ok(())
}

/// Prints the status of a call, what is wanted of the logs, what is left of the kit, what else is tried, and the bytes.
fn show_outcome(
    rt: &(impl Print + AllocGlobal),
    row: &Row<'_>,
    own: &str,
    setup: &Setup<'_>,
    outcome: &Outcome,
) -> io::Result<()> {
    show_status(rt, setup, outcome)?;
    show_logs(rt, setup, outcome.logs.as_slice())?;
    show_more(rt, row, own, setup, outcome)?;
    show_taken(rt, &outcome.out)
}

/// Calls `run` once, and prints the lines of the call and what came of it.
pub fn show_run(rt: &(impl Print + AllocGlobal), row: &Row<'_>, own: &str) -> io::Result<()> {
    let Some(setup) = row.setup(own) else {
        return Err(unread());
    };
    println!(rt; "run{own}")?;
    let outcome = outcome_of(rt.alloc(), row, own, &setup)?;
    let shown = show_outcome(rt, row, own, &setup, &outcome);
    drop(outcome);
    shown
}
