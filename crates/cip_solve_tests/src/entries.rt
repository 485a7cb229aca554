//! LP texts of as many entries as there may be, and one more.
use cip_input::{LpKind, LpReader, ReadFault};
use std::alloc::{AllocError, Global};

/// The terms of a row on 65,536 columns, one a line.
fn terms(alloc: Global) -> Result<String, AllocError> {
    let mut terms = String::new(alloc);
    for number in 0..65_536 {
        writeln!(terms, "+x{number}")?;
    }
    Ok(terms)
}

/// Feeds an objective, 64 rows of these terms, and this behind them.
fn feed(reader: &mut LpReader, terms: &str, behind: &str) -> Result<(), ReadFault<LpKind>> {
    reader.feed(b"Min x0\nST\n")?;
    for _ in 0..64 {
        reader.feed(terms.as_bytes())?;
        reader.feed(b">=0\n")?;
    }
    reader.feed(behind.as_bytes())
}

/// What is wrong with a text that was read to its end.
fn fault_at_end(reader: LpReader) -> Option<ReadFault<LpKind>> {
    match reader.finish() {
        Ok(program) => {
            drop(program);
            None
        }
        Err(fault) => Some(fault),
    }
}

/// The fault of such a text: line and kind.
fn fault_of(alloc: Global, terms: &str, behind: &str) -> Option<(usize, u32)> {
    let mut reader = LpReader::new(alloc);
    let ended = match feed(&mut reader, terms, behind) {
        Ok(()) => fault_at_end(reader),
        Err(fault) => {
            drop(reader);
            Some(fault)
        }
    };
    match ended {
        Some(ReadFault::Faulty(fault)) => Some((fault.line, fault.kind.number())),
        _ => None,
    }
}

/// The most entries and a term more whose number is 0, which is read to its end; and an entry more.
fn are_limited(alloc: Global, terms: &str) -> bool {
    fault_of(alloc, terms, "0 x1 >= 0\n") == Some((4_194_372, 8))
        && fault_of(alloc, terms, "0 x1 + x0 >= 0\n") == Some((4_194_371, 9))
}

#[test]
fn entries_are_limited(rt: HostRuntime) {
    let terms = terms(rt.alloc()).expect(&rt, "memory");
    assert!(rt; are_limited(rt.alloc(), terms.as_str()));
}
