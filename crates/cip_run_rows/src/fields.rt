//! The fields of a line.
use cip_frac::Frac;
use cip_text::fraction;

/// The key of a line, and its value: what stands in front of its first blank, and what stands behind it.
pub fn key_and_value(line: &str) -> (&str, &str) {
    line.split_once(' ').unwrap_or((line, ""))
}

/// What is left of a line, whose fields stand between single blanks.
#[derive(Clone, Copy)]
pub struct Fields<'a> {
    left: &'a str,
}

impl<'a> Fields<'a> {
    /// All fields of a line.
    pub fn new(line: &'a str) -> Self {
        Fields { left: line }
    }

    /// The next field; the empty one where none is left.
    pub fn word(&mut self) -> &'a str {
        let (field, left) = key_and_value(self.left);
        self.left = left;
        field
    }

    /// The next field as a number from 0 on.
    pub fn number(&mut self) -> Option<u32> {
        self.word().parse::<u32>().ok()
    }

    /// The next field as a priority.
    pub fn rank(&mut self) -> Option<i32> {
        self.word().parse::<i32>().ok()
    }

    /// The next field as a fraction.
    pub fn fraction(&mut self) -> Option<Frac> {
        fraction(self.word().as_bytes()).ok()
    }
}
