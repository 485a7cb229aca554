//! Texts of programs without their ends.
use crate::text_programs::JOINED;
use cip_input::read_program;
use cip_io::SoundStore;
use std::alloc::Global;

/// Three whole columns from 0 to 10, three rows, and a constant.
const JOINED_LP: &str =
    "\\ three columns\nMaximize\n COST: 5 a + 4 b + 3 c - 1\nSubject To\n R1: 2 a + 3 b + 1 c <= 5\n\
    \x20R2: 4 a + 1 b + 2 c <= 11\n R3: 3 a + 4 b + 2 c <= 8\nBounds\n 0 <= a <= 10\n 0 <= b <= 10\n\
    \x20c <= 10\nGenerals\n a b\n c\nEnd\n";

/// Whether the text of this name is one of a program.
fn is_program(alloc: Global, store: &mut SoundStore, name: &str) -> bool {
    match read_program(alloc, store, name) {
        Ok(program) => {
            drop(program);
            true
        }
        Err(_) => false,
    }
}

/// Whether a text is one of a program, as its name says.
fn is_read(alloc: Global, name: &str, text: &[u8]) -> bool {
    let mut store = SoundStore::new(alloc, 4_096);
    let is_so = store.add(name, text).is_ok() && is_program(alloc, &mut store, name);
    drop(store);
    is_so
}

/// The length of the shortest front of a text that is one of a program.
fn least_read(alloc: Global, name: &str, text: &[u8]) -> usize {
    for end in 0..text.len() {
        if is_read(alloc, name, &text[..end]) {
            return end;
        }
    }
    text.len()
}

/// Each front of a text is faulty that lacks its last two bytes, or more; the last line feed alone may be missing.
#[test]
fn ends_are_missing(rt: HostRuntime) {
    let (mps, lp) = (JOINED.as_bytes(), JOINED_LP.as_bytes());
    assert!(rt; least_read(rt.alloc(), "M", mps) == mps.len() - 1);
    assert!(rt; least_read(rt.alloc(), "M.lp", lp) == lp.len() - 1);
}
