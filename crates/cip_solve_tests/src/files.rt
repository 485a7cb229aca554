//! Stores and sinks: that calls succeed, and what the system answers.
use cip_io::{
    Failed, HostSink, HostStore, MemorySink, MemoryStore, Sink, SoundStore, Store, push_all,
};
use std::alloc::Global;
use std::test::Fail;
use std::{fs, process};

pub(crate) const TEXT: &[u8] = b"0123456789";

/// Whether the calls of a store answer these sizes of pieces, 99 for an `Err`, and the pieces are the whole text.
pub(crate) fn gives<S: Store>(store: &mut S, sizes: &[usize], text: &[u8]) -> bool {
    let mut at = 0usize;
    let mut buffer = [0; 6];
    for size in sizes {
        match store.pull(&mut buffer) {
            Ok(count) => {
                let end = at.saturating_add(count);
                if count != *size || text.get(at..end) != Some(&buffer[..count]) {
                    return false;
                }
                at = end;
            }
            Err(Failed) if *size == 99 => {}
            Err(Failed) => return false,
        }
    }
    at == text.len()
}

/// Puts an older and a newer text in under one name, and lets the third call fail.
fn has_taken_both(store: &mut MemoryStore) -> bool {
    store.add("model", b"older").is_ok()
        && store.add("model", TEXT).is_ok()
        && store.fail_at(3).is_ok()
}

/// A store with an older and a newer text under one name, of which the third call fails.
fn store_of(alloc: Global, greatest_piece: usize) -> Option<MemoryStore> {
    let mut store = MemoryStore::new(alloc, greatest_piece.max(1));
    if has_taken_both(&mut store) {
        Some(store)
    } else {
        drop(store);
        None
    }
}

/// The greatest piece of a store, and the sizes that its calls answer.
static PIECES: [(usize, &[usize]); 3] = [
    (1, &[1, 99, 1, 1, 1, 1, 1, 1, 1, 1, 1, 0]),
    (4, &[4, 99, 4, 2, 0]),
    (8, &[6, 99, 4, 0]),
];

/// Whether the text of the store comes in pieces of these sizes, and there is no other name.
fn gives_model(store: &mut MemoryStore, sizes: &[usize]) -> bool {
    store.choose("model").is_ok() && gives(store, sizes, TEXT) && store.choose("absent").is_err()
}

fn comes_in_pieces(alloc: Global, greatest_piece: usize, sizes: &[usize]) -> bool {
    match store_of(alloc, greatest_piece) {
        Some(mut store) => {
            let is_so = gives_model(&mut store, sizes);
            drop(store);
            is_so
        }
        None => false,
    }
}

#[test]
fn a_text_comes_in_pieces(rt: HostRuntime) {
    for at in 0..PIECES.len() {
        let (greatest_piece, sizes) = PIECES[at];
        assert!(rt;
            comes_in_pieces(rt.alloc(), greatest_piece, sizes),
            "case {at}"
        );
    }
}

/// Whether a sound store gives a text that is added to it, and nothing under another name.
fn gives_added(store: &mut SoundStore) -> bool {
    store.add("model", TEXT).is_ok()
        && store.choose("model").is_ok()
        && gives(store, &[4, 4, 2, 0], TEXT)
        && store.choose("absent").is_ok()
        && gives(store, &[0], b"")
}

fn is_sound(alloc: Global) -> bool {
    let mut store = SoundStore::new(alloc, 4);
    let is_so = gives_added(&mut store);
    drop(store);
    is_so
}

#[test]
fn a_sound_store_gives_its_texts(rt: HostRuntime) {
    assert!(rt; is_sound(rt.alloc()));
}

/// Whether a sink with room for ten takes them in three pieces, and then no more.
fn takes_ten(sink: &mut MemorySink) -> bool {
    push_all(sink, b"0123").is_ok()
        && matches!(sink.push(b"456"), Ok(3))
        && push_all(sink, b"789ab").is_err()
        && sink.taken() == TEXT
        && sink.push(b"c").is_err()
        && push_all(sink, b"").is_ok()
}

fn has_room_for_ten(alloc: Global) -> bool {
    let Ok(mut sink) = MemorySink::new(alloc, 10) else {
        return false;
    };
    let is_so = takes_ten(&mut sink);
    drop(sink);
    is_so
}

#[test]
fn a_sink_has_room_for_ten(rt: HostRuntime) {
    assert!(rt; has_room_for_ten(rt.alloc()));
}

/// Reads the first file in part and then the second, past names that are none's.
fn gives_both<S: Store>(store: &mut S, path: &str, other: &str) -> bool {
    store.choose(path).is_ok()
        && store.choose("/tmp/cip_text_absent").is_err()
        && store.choose("/tmp").is_err()
        && gives(store, &[6], b"012345")
        && store.choose(other).is_ok()
        && gives(store, &[6, 4, 0], TEXT)
}

/// Writes two texts into files, reads the first in part and then the second, and removes both.
fn are_files_read(rt: &HostRuntime, path: &str, other: &str) -> bool {
    let is_written = fs::write(rt, path, b"0123456").is_ok();
    let is_other_written = fs::write(rt, other, TEXT).is_ok();
    let mut store = HostStore::new(rt);
    let is_read = gives_both(&mut store, path, other);
    drop(store);
    let is_removed = fs::remove_file(rt, path).is_ok();
    let is_other_removed = fs::remove_file(rt, other).is_ok();
    is_written && is_other_written && is_read && is_removed && is_other_removed
}

/// The name of the second file has a blank at its end more.
#[test]
fn files_are_read(rt: HostRuntime) -> Result<(), Fail> {
    let path = format!(in rt.alloc(); "/tmp/cip_text_{}", process::id(rt.process()))?;
    let other = format!(in rt.alloc(); "{} ", path.as_str())?;
    assert!(rt; are_files_read(&rt, path.as_str(), other.as_str()));
    Ok(())
}

#[test]
fn the_output_takes_a_piece(rt: HostRuntime) {
    assert!(rt; push_all(&mut HostSink::new(&rt), b"a piece\n").is_ok());
}
