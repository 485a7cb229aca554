//! Faults that readers know before the end of a text.
use cip_input::{LpReader, ReadFault};
use cip_mps::MpsReader;
use std::alloc::Global;

/// The line of the fault that a reader of free MPS knows behind one more piece.
fn mps_line(reader: &mut MpsReader, piece: &str) -> Option<usize> {
    match reader.feed(piece.as_bytes()) {
        Err(ReadFault::Faulty(fault)) => Some(fault.line),
        _ => None,
    }
}

/// The same of a reader of LP texts.
fn lp_line(reader: &mut LpReader, piece: &str) -> Option<usize> {
    match reader.feed(piece.as_bytes()) {
        Err(ReadFault::Faulty(fault)) => Some(fault.line),
        _ => None,
    }
}

/// Line 3 has a type of row that is none.
fn mps_faults_stay(alloc: Global) -> bool {
    let mut reader = MpsReader::new(alloc);
    let open = mps_line(&mut reader, "ROWS\n N COST\n X R1");
    let known = mps_line(&mut reader, "\nROWS\n");
    let later = mps_line(&mut reader, "COLUMNS\n");
    drop(reader);
    (open, known, later) == (None, Some(3), Some(3))
}

/// Line 4 has a byte that begins no token. It is known as soon as that token has ended, and then stays.
fn lp_faults_stay(alloc: Global) -> bool {
    let mut reader = LpReader::new(alloc);
    let open = lp_line(&mut reader, "Min\n x\nST\n x !");
    let known = lp_line(&mut reader, " ");
    let later = lp_line(&mut reader, "1\nEnd\n");
    drop(reader);
    (open, known, later) == (None, Some(4), Some(4))
}

/// Behind how many bytes of a text a reader knows a fault; 0 where it knows none.
fn fed_up_to(reader: &mut LpReader, text: &[u8]) -> usize {
    for at in 0..text.len() {
        if reader.feed(&text[at..at + 1]).is_err() {
            return at + 1;
        }
    }
    0
}

/// Behind how many bytes of a text a reader of LP texts knows its fault, where it takes one at a time; 0 where it knows
/// none.
fn known_behind(alloc: Global, text: &[u8]) -> usize {
    let mut reader = LpReader::new(alloc);
    let behind = fed_up_to(&mut reader, text);
    drop(reader);
    behind
}

/// Where a token ends: before a blank, a mark or a comment that it doesn't go on with; a relation before a third byte;
/// a number before what is no exponent; a section word where the word behind it ends. And at a line feed each token has
/// ended.
static ENDS: [(&[u8], usize); 12] = [
    (b"x ", 2),
    (b"x:", 2),
    (b"x\\", 2),
    (b"x", 0),
    (b"Bounds\n", 7),
    (b"Bounds x", 0),
    (b"Bounds x ", 9),
    (b"Bounds : ", 9),
    (b"Subject To\n", 11),
    (b"Min 1e+2 + ", 0),
    (b"Min 1e+2 3 ", 11),
    (b"Min <= ", 7),
];

/// A fault of free MPS is known behind the line feed of its line, that of an LP text behind its token, and then stays.
#[test]
fn known_faults_stay(rt: HostRuntime) {
    assert!(rt; mps_faults_stay(rt.alloc()) && lp_faults_stay(rt.alloc()));
    for at in 0..ENDS.len() {
        assert!(rt;
            known_behind(rt.alloc(), ENDS[at].0) == ENDS[at].1,
            "case {at}"
        );
    }
}
