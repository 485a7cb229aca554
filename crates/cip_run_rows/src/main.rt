//! Calls `run` on the rows that the words name, files that lie where it runs, over stores and sinks in memory, with the
//! plugins that a row says, and prints what came of each call. README.md says how a row is written.
#![tactic(auto)]

mod acts;
mod calling;
mod draws;
mod fakes;
mod fields;
mod lines;
mod plugs;
mod row;
mod setup;
mod showing;

use row::Row;
use showing::{show_run, unread};
use std::rt::{Env, Files};
use std::{env, fs, io};

/// Prints what came of each run of a row; an error where the text is no row.
fn show_text(rt: &(impl Print + AllocGlobal), text: &str) -> io::Result<()> {
    let Some(row) = Row::read(text) else {
        return Err(unread());
    };
    for own in row.runs() {
        show_run(rt, &row, own)?;
    }
    Ok(())
}

/// Prints the name of a row, and what came of each of its runs; an error where the file is not there or is no row.
fn show(rt: &(impl Files + Print + AllocGlobal), name: &str) -> io::Result<()> {
    println!(rt; "{name}")?;
    let text = fs::read_to_string(rt, name)?;
    let shown = show_text(rt, text.as_str());
    drop(text);
    shown
}

/// Shows the rows in order, and ends at the first that can't be read.
fn show_all(rt: &(impl Env + Files + Print + AllocGlobal)) -> io::Result<()> {
    for name in env::args(rt)?.skip(1) {
        let shown = show(rt, name.as_str());
        drop(name);
        shown?;
    }
    Ok(())
}

fn main(rt: HostRuntime) -> io::Result<()> {
    show_all(&rt)
}
