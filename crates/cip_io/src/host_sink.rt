//! The standard output of the system.
ghost use Rattle.std.specs.Prelude.{◌≡◌, ◌<◌, ◌≤◌, length, IfOk, OnOk, OnErr};
ghost use Rattle.std.specs.Io.KnownBytes.{WriteAppends};
ghost use Rattle.cip_io.specs.Faults.{next_count};
ghost use Rattle.cip_io.specs.Sink.{counting_sink};

use crate::{Failed, Sink};
use std::io;
use std::io::{Printer, Write};
use std::marker::Model;

/// A writer, as the standard output, with no buffer: what a call took is written when it returns, and a full or closed
/// output is an `Err` of that call. It tells nothing of the bytes.
#[derive(Drop)]
pub struct HostSink<W: Write> {
    writer: W,
    faults: u64,
}

impl<W: Write> Model for HostSink<W> {
    ghost use Rattle.std.specs.Prelude.{ℕ};

    ghost Value = { ℕ };

    ghost view = { λ s. s.faults };
}

impl<'a, R: Print> HostSink<Printer<'a, R>> {
    /// The standard output, with no fault yet.
    pub fn new(runtime: &'a R) -> Self
        ensures { result ≡ 0 }
    {
        HostSink::over(io::writer(runtime))
    }
}

impl<W: Write> HostSink<W> {
    /// A sink over this writer, with no fault yet.
    pub fn over(writer: W) -> Self
        ensures { result ≡ 0 }
    {
        HostSink { writer, faults: 0 }
    }
}

impl<W: Write> Sink for HostSink<W> {
    ghost tells = { λ s. counting_sink s };

    fn push(&mut self, piece: &[u8]) -> Result<usize, Failed>
        requires { 0 < length piece.now }
        ensures some { IfOk result (λ n. 0 < n) }
        ensures within { IfOk result (λ n. n ≤ length piece.now) }
        ensures ok { OnOk result (self.new ≡ self.old) }
        ensures err { OnErr result (self.new ≡ next_count self.old) }
    {
        write_once(&mut self.writer, &mut self.faults, piece)
    }
}

/// Writes once. Where nothing was written, a fault is counted.
fn write_once<W: Write>(writer: &mut W, faults: &mut u64, piece: &[u8]) -> Result<usize, Failed>
    ensures some { IfOk result (λ n. 0 < n) }
    ensures within { IfOk result (λ n. n ≤ length piece.now) }
    ensures bytes { WriteAppends (W.contents writer.old) (W.contents writer.new) result piece.now }
    ensures ok { OnOk result (faults.new ≡ faults.old) }
    ensures err { OnErr result (faults.new ≡ next_count faults.old) }
{
    match write_through(writer, piece) {
        Ok(count) if count > 0 => Ok(count),
        _ => {
            *faults = faults.saturating_add(1);
            Err(Failed)
        }
    }
}

/// Writes once, and again where a signal interrupted the write: that is no fault.
fn write_through<W: Write>(writer: &mut W, piece: &[u8]) -> io::Result<usize>
    ensures within { IfOk result (λ n. n ≤ length piece.now) }
    ensures bytes { WriteAppends (W.contents writer.old) (W.contents writer.new) result piece.now }
{
    for _ in 0..u64::MAX {
        match writer.write(piece) {
            Err(error) if error.kind() == io::ErrorKind::Interrupted => {}
            written => return written,
        }
    }
    Err(io::Error::from(io::ErrorKind::TimedOut))
}
