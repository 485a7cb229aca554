//! The program in memory, and the call of `run` with the plugins.

use crate::dearest::Dearest;
use crate::floors::Floors;
use crate::halves::Halves;
use cip_io::{MemoryStore, Sink};
use cip_main::{Words, no_plugins, run};
use cip_plugin::{AnyPlugin, Kit};
use cip_solve::is_few;
use std::alloc::{AllocError, Global};

/// The text of the program.
const TEXT: &str = "\
Maximize
 4 a + 3 b + 2 c
Subject To
 2 a + 2 b + 2 c <= 5
 3 a + 2 b <= 4
Generals
 a b c
End
";

/// The command line.
const WORDS: [&str; 3] = ["solve", "example.lp", "--trace"];

/// Adds the words of the command line, and the text of the program.
fn add_all(words: &mut Words, store: &mut MemoryStore) -> Result<(), AllocError> {
    for word in WORDS {
        words.add(word)?;
    }
    store.add("example.lp", TEXT.as_bytes())
}

/// Solves the program with the plugins of a kit, and answers the status. `Err` comes where memory was refused.
fn solve_with<K: Sink>(alloc: Global, out: &mut K, kit: &mut Kit) -> Result<u8, AllocError> {
    let mut words = Words::new(alloc)?;
    let mut store = MemoryStore::new(alloc, 4_096);
    let mut logs = Vec::new(alloc);
    let status = if add_all(&mut words, &mut store).is_ok() && is_few(kit) {
        Ok(run(alloc, &words, &mut store, out, kit, &mut logs))
    } else {
        Err(AllocError)
    };
    drop(logs);
    drop(store);
    drop(words);
    status
}

/// Solves the program with the three plugins, writes the answer with what was asked of them, and answers the status.
/// `Err` comes where memory was refused.
pub fn solve<K: Sink>(alloc: Global, out: &mut K) -> Result<u8, AllocError> {
    let mut kit = no_plugins(alloc);
    kit.start
        .push(AnyPlugin::Separator(Box::new(alloc, Halves)?))?;
    kit.start
        .push(AnyPlugin::Heuristic(Box::new(alloc, Floors)?))?;
    kit.start
        .push(AnyPlugin::BranchRule(Box::new(alloc, Dearest)?))?;
    let status = solve_with(alloc, out, &mut kit);
    drop(kit);
    status
}
