//! What the lines of a head say besides words and plugins.
use crate::fields::key_and_value;
use crate::plugs::is_plug;

/// The store and the sink of one run, who serves, what is shown of it, and what else is tried.
#[derive(Clone, Copy)]
pub struct Setup<'a> {
    /// The most bytes that one pull gives.
    pub piece: usize,
    /// The call of the store that fails, counted from 1.
    pub fail: Option<u64>,
    /// How many bytes the sink takes.
    pub room: usize,
    /// The name of a text that ends without its last line feed.
    pub cut: Option<&'a str>,
    /// How many bytes of each text the store has.
    pub kept: usize,
    /// Whether a line says a plugin, so that a kit of these serves.
    pub kit: bool,
    /// Whether the built-in plugins serve.
    pub builtins: bool,
    /// Whether the numbers of entries of the logs are shown.
    pub entries: bool,
    /// Whether the entries of the logs are shown, with their marks.
    pub log: bool,
    /// Whether all smaller pieces are tried too.
    pub alike: bool,
    /// Whether all smaller sinks than the answer are tried too.
    pub rooms: bool,
    /// Whether all front parts of the texts are tried too.
    pub fronts: bool,
}

impl<'a> Setup<'a> {
    /// What holds where no line says anything.
    pub fn new() -> Self {
        Setup {
            piece: 4_096,
            fail: None,
            room: 65_536,
            cut: None,
            kept: usize::MAX,
            kit: false,
            builtins: false,
            entries: false,
            log: false,
            alike: false,
            rooms: false,
            fronts: false,
        }
    }

    /// Takes a number that a line says; `None` where it says none.
    fn take_number(&mut self, key: &str, value: &str) -> Option<()> {
        let number = value.parse::<usize>().ok()?;
        match key {
            "piece" if number > 0 => self.piece = number,
            "fail" => self.fail = Some(number as u64),
            "room" => self.room = number,
            "kept" => self.kept = number,
            _ => return None,
        }
        Some(())
    }

    /// Does what a line of one word says; `None` where it says nothing.
    fn take_flag(&mut self, key: &str) -> Option<()> {
        match key {
            "" | "#" | "word" => {}
            "builtins" => self.builtins = true,
            "entries" => self.entries = true,
            "log" => self.log = true,
            "alike" => self.alike = true,
            "rooms" => self.rooms = true,
            "fronts" => self.fronts = true,
            _ => return None,
        }
        Some(())
    }

    /// Does what a line says; `None` where it is none of a head.
    fn read(&mut self, line: &'a str) -> Option<()> {
        let (key, value) = key_and_value(line);
        match key {
            "#" | "word" => Some(()),
            "cut" => {
                self.cut = Some(value);
                Some(())
            }
            "start" | "shelf" if is_plug(value) => {
                self.kit = true;
                Some(())
            }
            _ if value.is_empty() => self.take_flag(key),
            _ => self.take_number(key, value),
        }
    }

    /// Does what lines say; `None` where one is none of a head.
    pub fn read_all(&mut self, lines: &'a str) -> Option<()> {
        for line in lines.split('\n') {
            self.read(line)?;
        }
        Some(())
    }

    /// The same with pieces of this size.
    pub fn with_piece(&self, piece: usize) -> Self {
        let mut other = *self;
        other.piece = piece;
        other
    }

    /// The same with a sink that takes so many bytes.
    pub fn with_room(&self, room: usize) -> Self {
        let mut other = *self;
        other.room = room;
        other
    }

    /// The same with so many bytes of each text.
    pub fn with_kept(&self, kept: usize) -> Self {
        let mut other = *self;
        other.kept = kept;
        other
    }
}
