//! The files of the system.
ghost use Rattle.std.specs.Prelude.{◌≡◌, ◌<◌, ◌≤◌, length, IfOk, OnOk, OnErr, MatchResult, Some, is_ok};
ghost use Rattle.std.specs.Io.KnownBytes.{ReadConsumes};
ghost use Rattle.cip_io.specs.Faults.{next_count};
ghost use Rattle.cip_io.specs.Store.{counting_store, left_in};

use crate::{Failed, Store};
use std::fs::OpenFile;
use std::io::Read;
use std::marker::Model;
use std::rt::Files;
use std::{fs, io};

/// Files, of which one at a time is open, and no buffer. It tells nothing of what they contain. A directory and a
/// name that isn't there fail, and then the current file stays.
#[derive(Drop)]
pub struct HostStore<R: Files> {
    runtime: R,
    file: Option<R::File>,
    faults: u64,
}

impl<R: Files> Model for HostStore<R> {
    ghost use Rattle.std.specs.Prelude.{ℕ};

    ghost Value = { ℕ };

    ghost view = { λ s. s.faults };
}

impl<R: Files> HostStore<R> {
    /// The files of this system, of which none is open, and no fault yet.
    pub fn new(runtime: R) -> Self
        ensures { result ≡ 0 }
    {
        HostStore {
            runtime,
            file: None,
            faults: 0,
        }
    }
}

impl<R: Files> Store for HostStore<R> {
    ghost tells = { λ s. counting_store s };

    fn choose(&mut self, name: &str) -> Result<(), Failed>
        ensures ok { OnOk result (self.new ≡ self.old) }
        ensures err { OnErr result (self.new ≡ next_count self.old) }
    {
        let opened = open_file(&self.runtime, name);
        keep(&mut self.file, &mut self.faults, opened)
    }

    fn pull(&mut self, into: &mut [u8]) -> Result<usize, Failed>
        requires { 0 < length into.old }
        ensures within { IfOk result (λ n. n ≤ length into.old) }
        ensures ok { OnOk result (self.new ≡ self.old) }
        ensures err { OnErr result (self.new ≡ next_count self.old) }
    {
        read_once(&mut self.file, &mut self.faults, into)
    }
}

/// Opens a file that is no directory.
fn open_file<R: Files>(runtime: &R, name: &str) -> io::Result<R::File> {
    let file = fs::open(runtime, name)?;
    if file.metadata()?.is_dir() {
        return Err(io::Error::from(io::ErrorKind::IsADirectory));
    }
    Ok(file)
}

/// Makes an opened file the current one. Where none was opened, a fault is counted and the current one stays.
fn keep<F: Drop>(
    file: &mut Option<F>,
    faults: &mut u64,
    opened: io::Result<F>,
) -> Result<(), Failed>
    ensures file { MatchResult opened (λ f. file.new ≡ Some f) (λ _. file.new ≡ file.old) }
    ensures ok { OnOk result (faults.new ≡ faults.old) }
    ensures err { OnErr result (faults.new ≡ next_count faults.old) }
    ensures when { is_ok result ≡ is_ok opened }
{
    match opened {
        Ok(opened) => {
            *file = Some(opened);
            Ok(())
        }
        Err(_) => {
            *faults = faults.saturating_add(1);
            Err(Failed)
        }
    }
}

/// Reads once; with no file there is nothing to read. Where the read failed, a fault is counted.
fn read_once<F: Read>(
    file: &mut Option<F>,
    faults: &mut u64,
    into: &mut [u8],
) -> Result<usize, Failed>
    ensures within { IfOk result (λ n. n ≤ length into.old) }
    ensures bytes { ReadConsumes (left_in F.remaining file.old) (left_in F.remaining file.new) result into.new }
    ensures ok { OnOk result (faults.new ≡ faults.old) }
    ensures err { OnErr result (faults.new ≡ next_count faults.old) }
{
    let Some(file) = file else {
        return Ok(0);
    };
    match read_through(file, into) {
        Ok(count) => Ok(count),
        Err(_) => {
            *faults = faults.saturating_add(1);
            Err(Failed)
        }
    }
}

/// Reads once, and again where a signal interrupted the read: that is no fault.
fn read_through<F: Read>(file: &mut F, into: &mut [u8]) -> io::Result<usize>
    ensures within { IfOk result (λ n. n ≤ length into.old) }
    ensures bytes { ReadConsumes (F.remaining file.old) (F.remaining file.new) result into.new }
{
    for _ in 0..u64::MAX {
        match file.read(into) {
            Err(error) if error.kind() == io::ErrorKind::Interrupted => {}
            read => return read,
        }
    }
    Err(io::Error::from(io::ErrorKind::TimedOut))
}
