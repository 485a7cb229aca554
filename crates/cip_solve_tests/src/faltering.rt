//! Files of a system and a writer, which answer in short pieces and fail in their midst.
use crate::files::{TEXT, gives};
use cip_io::{HostSink, HostStore, Store, push_all};
use std::alloc::Allocator;
use std::fs::{Metadata, OpenFile, OpenOptions};
use std::io;
use std::rt::Files;

/// The names of a system's files, which differ by blanks at their ends, and their texts.
static FILES: [(&str, &[u8]); 3] = [("M", TEXT), (" M", b"front"), ("M ", b"other")];

/// The text of the file of this name.
fn text_of(name: &str) -> Option<&'static [u8]> {
    for at in 0..FILES.len() {
        let (file, text) = FILES[at];
        if file == name {
            return Some(text);
        }
    }
    None
}

/// An open file, read in pieces of at most so many bytes, of which one read has this fault.
#[derive(Drop)]
struct FalteringFile {
    text: &'static [u8],
    greatest_piece: usize,
    at: usize,
    calls: usize,
    failing: usize,
    fault: io::ErrorKind,
}

/// What else a file or its system is asked.
fn refused() -> io::Error {
    io::Error::from(io::ErrorKind::Unsupported)
}

impl io::Read for FalteringFile {
    fn read(&mut self, buf: &mut [u8]) -> io::Result<usize> {
        self.calls = self.calls.saturating_add(1);
        if self.calls == self.failing {
            return Err(io::Error::from(self.fault));
        }
        let rest = self.text.get(self.at..).unwrap_or(&[]);
        let count = buf.len().min(rest.len()).min(self.greatest_piece);
        buf[..count].copy_from_slice(&rest[..count]);
        self.at = self.at.saturating_add(count);
        Ok(count)
    }
}

impl io::Write for FalteringFile {
    fn write(&mut self, _buf: &[u8]) -> io::Result<usize> {
        Err(refused())
    }

    fn flush(&mut self) -> io::Result<()> {
        Err(refused())
    }
}

impl io::Seek for FalteringFile {
    fn seek(&mut self, _pos: io::SeekFrom) -> io::Result<u64> {
        Err(refused())
    }
}

impl OpenFile for FalteringFile {
    fn metadata(&self) -> io::Result<Metadata> {
        Ok(Metadata::of_file(self.text.len() as u64))
    }

    fn set_len(&self, _size: u64) -> io::Result<()> {
        Err(refused())
    }

    fn sync_all(&self) -> io::Result<()> {
        Err(refused())
    }

    fn sync_data(&self) -> io::Result<()> {
        Err(refused())
    }
}

/// A system of which each file is such a one.
#[derive(Drop)]
struct FalteringFiles {
    greatest_piece: usize,
    failing: usize,
    fault: io::ErrorKind,
}

impl Files for FalteringFiles {
    type File = FalteringFile;

    type Dir = FalteringFile;

    fn open_file(&self, _how: &OpenOptions, path: &str) -> io::Result<FalteringFile> {
        match text_of(path) {
            Some(text) => Ok(FalteringFile {
                text,
                greatest_piece: self.greatest_piece,
                at: 0,
                calls: 0,
                failing: self.failing,
                fault: self.fault,
            }),
            None => Err(io::Error::from(io::ErrorKind::NotFound)),
        }
    }

    fn open_dir(&self, _path: &str) -> io::Result<FalteringFile> {
        Err(refused())
    }

    fn metadata(&self, _path: &str) -> io::Result<Metadata> {
        Err(refused())
    }

    fn symlink_metadata(&self, _path: &str) -> io::Result<Metadata> {
        Err(refused())
    }

    fn copy(&self, _from: &str, _to: &str) -> io::Result<u64> {
        Err(refused())
    }

    fn rename(&self, _from: &str, _to: &str) -> io::Result<()> {
        Err(refused())
    }

    fn remove_file(&self, _path: &str) -> io::Result<()> {
        Err(refused())
    }

    fn create_dir(&self, _path: &str) -> io::Result<()> {
        Err(refused())
    }

    fn remove_dir(&self, _path: &str) -> io::Result<()> {
        Err(refused())
    }

    fn remove_dir_all<B: Allocator>(&self, _alloc: B, _path: &str) -> io::Result<()> {
        Err(refused())
    }
}

/// The greatest piece, which read has which fault, and what each call answers: one that was interrupted has none.
static READS: [(usize, usize, io::ErrorKind, &[usize]); 8] = [
    (4, 0, io::ErrorKind::TimedOut, &[4, 4, 2, 0, 0]),
    (4, 1, io::ErrorKind::TimedOut, &[99, 4, 4, 2, 0]),
    (4, 3, io::ErrorKind::TimedOut, &[4, 4, 99, 2, 0]),
    (4, 4, io::ErrorKind::TimedOut, &[4, 4, 2, 99, 0]),
    (
        1,
        0,
        io::ErrorKind::TimedOut,
        &[1, 1, 1, 1, 1, 1, 1, 1, 1, 1, 0],
    ),
    (6, 0, io::ErrorKind::TimedOut, &[6, 4, 0]),
    (4, 1, io::ErrorKind::Interrupted, &[4, 4, 2, 0]),
    (4, 3, io::ErrorKind::Interrupted, &[4, 4, 2, 0]),
];

fn is_read(greatest_piece: usize, failing: usize, fault: io::ErrorKind, answers: &[usize]) -> bool {
    let mut store = HostStore::new(FalteringFiles {
        greatest_piece,
        failing,
        fault,
    });
    let is_so = store.choose("M").is_ok() && gives(&mut store, answers, TEXT);
    drop(store);
    is_so
}

#[test]
fn a_read_is_short_or_fails_in_mid_file(rt: HostRuntime) {
    for at in 0..READS.len() {
        let (greatest_piece, failing, fault, answers) = READS[at];
        assert!(rt;
            is_read(greatest_piece, failing, fault, answers),
            "case {at}"
        );
    }
}

/// Names in the order in which they are chosen, and the pieces that are pulled of each before the next.
static CHOSEN: [(&str, &[usize], &[u8]); 5] = [
    ("M", &[4], b"0123"),
    (" M", &[4, 1, 0], b"front"),
    ("M ", &[4, 1, 0], b"other"),
    ("M", &[4, 4], b"01234567"),
    ("M", &[4, 4, 2, 0], TEXT),
];

/// Each name chooses its own file, from its start, whatever was open before; a name that is none's fails.
fn is_each_chosen<S: Store>(store: &mut S) -> bool {
    for at in 0..CHOSEN.len() {
        let (name, sizes, text) = CHOSEN[at];
        if store.choose(name).is_err() || !gives(store, sizes, text) {
            return false;
        }
    }
    store.choose(" M ").is_err() && store.choose("").is_err()
}

/// The same, of files that answer four bytes at once.
fn are_chosen() -> bool {
    let mut store = HostStore::new(FalteringFiles {
        greatest_piece: 4,
        failing: 0,
        fault: io::ErrorKind::TimedOut,
    });
    let is_so = is_each_chosen(&mut store);
    drop(store);
    is_so
}

#[test]
fn each_name_chooses_its_own_file(rt: HostRuntime) {
    assert!(rt; are_chosen());
}

/// A writer that takes three bytes at once, and one call fails or takes nothing.
#[derive(Drop)]
struct FalteringWriter {
    /// How many bytes it has taken.
    at: usize,
    /// They are those of the text.
    is_right: bool,
    calls: usize,
    failing: usize,
    fault: Option<io::ErrorKind>,
}

impl io::Write for FalteringWriter {
    fn write(&mut self, buf: &[u8]) -> io::Result<usize> {
        self.calls = self.calls.saturating_add(1);
        if self.calls == self.failing {
            return match self.fault {
                Some(fault) => Err(io::Error::from(fault)),
                None => Ok(0),
            };
        }
        let count = buf.len().min(3);
        let end = self.at.saturating_add(count);
        self.is_right = self.is_right && TEXT.get(self.at..end) == Some(&buf[..count]);
        self.at = end;
        Ok(count)
    }

    fn flush(&mut self) -> io::Result<()> {
        Ok(())
    }
}

/// Which call takes nothing, its fault if it answers one, and how many bytes are taken before the push fails.
static WRITES: [(usize, Option<io::ErrorKind>, usize); 6] = [
    (0, None, 10),
    (1, None, 0),
    (2, Some(io::ErrorKind::BrokenPipe), 3),
    (3, None, 6),
    (4, Some(io::ErrorKind::BrokenPipe), 9),
    (2, Some(io::ErrorKind::Interrupted), 10),
];

/// Whether a writer takes all of a text.
fn is_pushed(writer: &mut FalteringWriter, text: &[u8]) -> bool {
    let mut sink = HostSink::over(writer);
    let is_so = push_all(&mut sink, text).is_ok();
    drop(sink);
    is_so
}

/// Pushes the text, and then the rest of it.
fn is_pushed_so(writer: &mut FalteringWriter, before: usize) -> bool {
    let has_failed = !is_pushed(writer, TEXT);
    if has_failed != (before < 10) || writer.at != before {
        return false;
    }
    let rest = TEXT.get(before..).unwrap_or(&[]);
    is_pushed(writer, rest) && writer.at == 10 && writer.is_right
}

/// The same, of a writer that has taken nothing.
fn is_taken(failing: usize, fault: Option<io::ErrorKind>, before: usize) -> bool {
    let mut writer = FalteringWriter {
        at: 0,
        is_right: true,
        calls: 0,
        failing,
        fault,
    };
    let is_so = is_pushed_so(&mut writer, before);
    drop(writer);
    is_so
}

#[test]
fn a_write_is_short_or_takes_nothing(rt: HostRuntime) {
    for at in 0..WRITES.len() {
        let (failing, fault, before) = WRITES[at];
        assert!(rt; is_taken(failing, fault, before), "case {at}");
    }
}
