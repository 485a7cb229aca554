//! The program `cip`: its words, the files of the system and standard output, handed to `run` with the built-in
//! plugins.
#![tactic(auto)]

use cip_io::{HostSink, HostStore};
use cip_main::{Plain, Words, run_with_builtins, say};
use std::process::ExitCode;
use std::{env, io};

/// Adds the words of the command line, without the program's name.
fn add_words(rt: &(impl std::rt::Env + AllocGlobal), words: &mut Words) -> io::Result<()> {
    for word in env::args(rt)?.skip(1) {
        let added = words.add(word.as_str());
        drop(word);
        added?;
    }
    Ok(())
}

/// The words of the command line, without the program's name.
fn words(rt: &(impl std::rt::Env + AllocGlobal)) -> io::Result<Words> {
    let mut words = Words::new(rt.alloc())?;
    match add_words(rt, &mut words) {
        Ok(()) => Ok(words),
        Err(fault) => {
            drop(words);
            Err(fault)
        }
    }
}

fn main(rt: HostRuntime) -> ExitCode {
    let mut out = HostSink::new(&rt);
    let status = match words(&rt) {
        Ok(words) => {
            let mut store = HostStore::new(&rt);
            let mut logs = Vec::new(rt.alloc());
            let ran = run_with_builtins(rt.alloc(), &words, &mut store, &mut out, &mut logs);
            drop(logs);
            drop(store);
            drop(words);
            match ran {
                Ok(status) => status,
                Err(_) => say(&mut out, Plain::NoMemory),
            }
        }
        Err(fault) if fault.kind() == io::ErrorKind::OutOfMemory => say(&mut out, Plain::NoMemory),
        Err(_) => say(&mut out, Plain::Usage),
    };
    ExitCode::from(status)
}
