//! Words that are read.
use cip_input::{Job, Words, WordsFault};
use std::alloc::Global;

/// Words, and how many nodes they ask for at most, over the text `M`; 0 where they are refused.
static CASES: [(&[&str], u64); 32] = [
    (&["solve", "M"], 1_000_000),
    (&["solve", "M", "--nodes", "5"], 5),
    (&["solve", "--nodes=7", "--plain", "M"], 7),
    (
        &["solve", "M", "--nodes", "1099511627776"],
        1_099_511_627_776,
    ),
    (&["solve", "M", "--nodes", "1099511627777"], 0),
    (&["solve", "M", "--nodes", "0"], 0),
    (&["solve", "M", "--nodes", "+5"], 0),
    (&["solve", "M", "--nodes=05"], 0),
    (&["solve", "M", "--nodes", "00"], 0),
    (&["solve", "M", "--nodes", ""], 0),
    (&["solve", "M", "--nodes", "5x"], 0),
    (&["solve", "M", "--nodes", "10"], 10),
    (&["solve", "M", "--nodes", "1", "--nodes", "1"], 0),
    (&["solve", "M", "--off", "nosuch"], 1_000_000),
    (&["solve"], 0),
    (&[], 0),
    (&["--help"], 0),
    (&["--version"], 0),
    (&["solve", "M", "--plain"], 1_000_000),
    (&["solve", "M", "--nodes=5"], 5),
    (&["solve", "-h"], 0),
    (&["check"], 0),
    (&["help"], 0),
    (&["solve", "M", "--version"], 0),
    (&["solve", "M", "M"], 0),
    (&["solve", "M", "--gap", "1/2"], 1_000_000),
    (&["solve", "--gap=0", "M", "--nodes", "5"], 5),
    (&["solve", "M", "--gap", "x"], 0),
    (&["solve", "M", "--gap", "-1"], 0),
    (&["solve", "M", "--gap=-1"], 0),
    (&["solve", "M", "--trace=true"], 0),
    (&["solve", "M", "--trace", "--trace"], 0),
];

/// Words, and whether they ask for a plain search, and for a trace.
static FLAGS: [(&[&str], bool, bool); 4] = [
    (&["solve", "M"], false, false),
    (&["solve", "M", "--plain"], true, false),
    (&["solve", "--trace", "M"], false, true),
    (&["solve", "M", "--trace", "--gap=1", "--plain"], true, true),
];

/// Whether these words ask for so many nodes at most, over the text `M`; 0 where they are refused.
fn asks(words: &Words, nodes: u64) -> bool {
    match words.job() {
        Ok(Job::Solve { model, limits, .. }) => model == "M" && limits.nodes == nodes,
        Ok(Job::Check { .. }) => false,
        Ok(Job::Generate { .. }) => false,
        Err(fault) => nodes == 0 && fault == WordsFault::Refused,
    }
}

/// Whether these words ask for a plain search, and for a trace, as is said.
fn has_flags(words: &Words, plain: bool, trace: bool) -> bool {
    match words.job() {
        Ok(Job::Solve { limits, .. }) => limits.plain == plain && limits.trace == trace,
        _ => false,
    }
}

/// Whether there is memory for the words of a list.
fn are_added(words: &mut Words, list: &[&str]) -> bool {
    for word in list {
        if words.add(word).is_err() {
            return false;
        }
    }
    true
}

/// The words of a list; `None` where memory is refused.
fn words_of(alloc: Global, list: &[&str]) -> Option<Words> {
    let Ok(mut words) = Words::new(alloc) else {
        return None;
    };
    if are_added(&mut words, list) {
        Some(words)
    } else {
        drop(words);
        None
    }
}

fn are_read(alloc: Global, list: &[&str], nodes: u64) -> bool {
    match words_of(alloc, list) {
        Some(words) => {
            let is_so = asks(&words, nodes);
            drop(words);
            is_so
        }
        None => false,
    }
}

fn flags_are_read(alloc: Global, list: &[&str], plain: bool, trace: bool) -> bool {
    match words_of(alloc, list) {
        Some(words) => {
            let is_so = has_flags(&words, plain, trace);
            drop(words);
            is_so
        }
        None => false,
    }
}

#[test]
fn words_are_read(rt: HostRuntime) {
    let cases = &CASES;
    for at in 0..cases.len() {
        let (words, nodes) = cases[at];
        assert!(rt; are_read(rt.alloc(), words, nodes), "case {at}");
    }
}

#[test]
fn flags_are_told(rt: HostRuntime) {
    for at in 0..FLAGS.len() {
        let (words, plain, trace) = FLAGS[at];
        assert!(rt;
            flags_are_read(rt.alloc(), words, plain, trace),
            "case {at}"
        );
    }
}
