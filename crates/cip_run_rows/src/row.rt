//! The parts of a row.
use crate::fields::key_and_value;
use crate::lines::put_lines;
use crate::setup::Setup;
use cip_io::MemoryStore;
use cip_main::Words;
use std::alloc::{AllocError, Global};
use std::str::Split;

/// A row: a head, in which lines of all its runs stand in front of those of each, and texts.
#[derive(Clone, Copy)]
pub struct Row<'a> {
    shared: &'a str,
    runs: &'a str,
    texts: Option<&'a str>,
}

impl<'a> Row<'a> {
    /// The row that a file holds; `None` where no line is `run`, or the last one has no line feed.
    pub fn read(file: &'a str) -> Option<Self> {
        let file = file.strip_suffix('\n')?;
        let (head, texts) = match file.split_once("\ntext ") {
            Some((head, texts)) => (head, Some(texts)),
            None => (file, None),
        };
        let (shared, runs) = head.split_once("\nrun")?;
        Some(Row {
            shared,
            runs,
            texts,
        })
    }

    /// What each of its lines `run` has behind it, up to the next.
    pub fn runs(&self) -> Split<'a, &'static str> {
        self.runs.split("\nrun")
    }

    /// The lines of all runs.
    pub fn shared(&self) -> &'a str {
        self.shared
    }

    /// The setup of a run; `None` where a line is none of a head.
    pub fn setup(&self, own: &'a str) -> Option<Setup<'a>> {
        let mut setup = Setup::new();
        setup.read_all(self.shared)?;
        setup.read_all(own)?;
        Some(setup)
    }

    /// The words of a run.
    pub fn words(&self, alloc: Global, own: &str) -> Result<Words, AllocError> {
        let mut words = Words::new(alloc)?;
        if add_words(self.shared, &mut words).is_ok() && add_words(own, &mut words).is_ok() {
            return Ok(words);
        }
        drop(words);
        Err(AllocError)
    }

    /// The store of a run, with the texts.
    pub fn store(&self, alloc: Global, setup: &Setup<'_>) -> Result<MemoryStore, AllocError> {
        let mut store = MemoryStore::new(alloc, setup.piece.max(1));
        if self.fill(alloc, &mut store, setup).is_err() {
            drop(store);
            return Err(AllocError);
        }
        Ok(store)
    }

    /// Puts into a store which call fails, and the texts.
    fn fill(
        &self,
        alloc: Global,
        store: &mut MemoryStore,
        setup: &Setup<'_>,
    ) -> Result<(), AllocError> {
        if let Some(call) = setup.fail {
            store.fail_at(call)?;
        }
        match self.texts {
            Some(texts) => add_texts(alloc, store, texts, setup),
            None => Ok(()),
        }
    }

    /// The number of bytes of all texts, or some more.
    pub fn text_bytes(&self) -> usize {
        match self.texts {
            Some(texts) => texts.len(),
            None => 0,
        }
    }
}

/// Adds the words of lines.
fn add_words(lines: &str, words: &mut Words) -> Result<(), AllocError> {
    for line in lines.split('\n') {
        if let ("word", word) = key_and_value(line) {
            words.add(word)?;
        }
    }
    Ok(())
}

/// Adds all texts of a row.
fn add_texts(
    alloc: Global,
    store: &mut MemoryStore,
    texts: &str,
    setup: &Setup<'_>,
) -> Result<(), AllocError> {
    for text in texts.split("\ntext ") {
        add_text(alloc, store, text, setup)?;
    }
    Ok(())
}

/// The bytes of a text of this name: the last line without its line feed where it is cut; of these the first, where not
/// all are kept.
fn kept_of<'t>(name: &str, whole: &'t str, setup: &Setup<'_>) -> &'t [u8] {
    let bytes = match whole.strip_suffix('\n') {
        Some(short) if setup.cut == Some(name) => short.as_bytes(),
        _ => whole.as_bytes(),
    };
    bytes.get(..setup.kept).unwrap_or(bytes)
}

/// Adds a text under the name in its first line: the lines behind that, as far as they are kept.
fn add_text(
    alloc: Global,
    store: &mut MemoryStore,
    text: &str,
    setup: &Setup<'_>,
) -> Result<(), AllocError> {
    let Some((name, lines)) = text.split_once('\n') else {
        return store.add(text, b"");
    };
    let mut whole = String::new(alloc);
    let added = match put_lines(lines, &mut whole) {
        Ok(()) => store.add(name, kept_of(name, whole.as_str(), setup)),
        Err(error) => Err(error),
    };
    drop(whole);
    added
}
