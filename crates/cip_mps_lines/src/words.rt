//! The words of free MPS: sections, senses, types of rows and bounds, markers.
ghost use Rattle.std.specs.Prelude.{◌≡◌, map, option_map};
ghost use Rattle.cip_text_rules.specs.MpsWords as text;
ghost use Rattle.cip_mps_lines.specs.MpsKinds.{part_of, section_word, row_kind_in, bound_kind_in, bound_word};

/// A section of a text.
#[derive(Clone, Copy)]
pub enum Part {
    /// What stands before the first section line.
    NoPart,
    /// NAME.
    Title,
    /// OBJSENSE.
    Sense,
    /// ROWS.
    Rows,
    /// COLUMNS.
    Columns,
    /// RHS.
    RightSides,
    /// RANGES.
    Ranges,
    /// BOUNDS.
    Bounds,
    /// ENDATA.
    End,
}

/// The type of a row.
#[derive(Clone, Copy)]
pub enum RowKind {
    /// N, a row without sides.
    Free,
    /// L, at most its right-hand side.
    AtMost,
    /// G, at least its right-hand side.
    AtLeast,
    /// E, equal to its right-hand side.
    EqualTo,
}

/// The type of a bound.
#[derive(Clone, Copy)]
pub enum BoundKind {
    /// LO.
    Low,
    /// UP.
    High,
    /// FX, both sides.
    Fixed,
    /// LI, a low side of a whole column.
    WholeLow,
    /// UI, a high side of a whole column.
    WholeHigh,
    /// FR, no side.
    Unbounded,
    /// MI, no low side.
    NoLow,
    /// PL, no high side.
    NoHigh,
    /// BV, a whole column from 0 to 1.
    Binary,
    /// SC.
    SemiContinuous,
}

/// The words of sections.
const SECTIONS: [(&[u8], Part); 8] = [
    (b"NAME", Part::Title),
    (b"OBJSENSE", Part::Sense),
    (b"ROWS", Part::Rows),
    (b"COLUMNS", Part::Columns),
    (b"RHS", Part::RightSides),
    (b"RANGES", Part::Ranges),
    (b"BOUNDS", Part::Bounds),
    (b"ENDATA", Part::End),
];

/// The words of types of bounds.
const BOUND_KINDS: [(&[u8], BoundKind); 10] = [
    (b"LO", BoundKind::Low),
    (b"UP", BoundKind::High),
    (b"FX", BoundKind::Fixed),
    (b"LI", BoundKind::WholeLow),
    (b"UI", BoundKind::WholeHigh),
    (b"FR", BoundKind::Unbounded),
    (b"MI", BoundKind::NoLow),
    (b"PL", BoundKind::NoHigh),
    (b"BV", BoundKind::Binary),
    (b"SC", BoundKind::SemiContinuous),
];

/// The section of a word by a list of words, if it is one of them.
fn section_in(words: &[(&[u8], Part)], word: &[u8]) -> Option<Part>
    ensures { option_map part_of result
        ≡ text.meaning_in (map (λ known. section_word known.0.now known.1) words.now) word.now }
{
    for known in words {
        if word == known.0 {
            return Some(known.1);
        }
    }
    None
}

/// The section of this word, if it is one of the eight.
pub(crate) fn section_of(word: &[u8]) -> Option<Part>
    ensures { option_map part_of result ≡ text.section_of word.now }
{
    section_in(&SECTIONS, word)
}

/// Whether a sense maximises: `min`, `max`, `minimize` or `maximize` in letters large or small; none for any other
/// word.
pub fn sense_of(word: &[u8]) -> Option<bool>
    ensures { result ≡ text.sense_of word.now }
{
    if word.eq_ignore_ascii_case(b"min") {
        Some(false)
    } else if word.eq_ignore_ascii_case(b"max") {
        Some(true)
    } else if word.eq_ignore_ascii_case(b"minimize") {
        Some(false)
    } else if word.eq_ignore_ascii_case(b"maximize") {
        Some(true)
    } else {
        None
    }
}

/// The type of a row, if the word is one of the four.
pub(crate) fn row_kind_of(word: &[u8]) -> Option<RowKind>
    ensures { option_map row_kind_in result ≡ text.row_kind_of word.now }
{
    if word == b"N".as_slice() {
        Some(RowKind::Free)
    } else if word == b"L".as_slice() {
        Some(RowKind::AtMost)
    } else if word == b"G".as_slice() {
        Some(RowKind::AtLeast)
    } else if word == b"E".as_slice() {
        Some(RowKind::EqualTo)
    } else {
        None
    }
}

/// Whether a marker begins the whole columns, or ends them; none for any other word.
pub(crate) fn marker_of(word: &[u8]) -> Option<bool>
    ensures { result ≡ text.marker_of word.now }
{
    if word == b"INTORG".as_slice() || word == b"'INTORG'".as_slice() {
        Some(true)
    } else if word == b"INTEND".as_slice() || word == b"'INTEND'".as_slice() {
        Some(false)
    } else {
        None
    }
}

/// The type of a bound by a list of words, if the word is one of them.
fn bound_kind_among(words: &[(&[u8], BoundKind)], word: &[u8]) -> Option<BoundKind>
    ensures { option_map bound_kind_in result
        ≡ text.meaning_in (map (λ known. bound_word known.0.now known.1) words.now) word.now }
{
    for known in words {
        if word == known.0 {
            return Some(known.1);
        }
    }
    None
}

/// The type of a bound, if the word is one of the ten.
pub(crate) fn bound_kind_of(word: &[u8]) -> Option<BoundKind>
    ensures { option_map bound_kind_in result ≡ text.bound_kind_of word.now }
{
    bound_kind_among(&BOUND_KINDS, word)
}

impl BoundKind {
    /// Whether a bound of this type has a value: FR, MI, PL and BV have none.
    pub(crate) fn has_value(self) -> bool
        ensures { result ≡ text.has_value (bound_kind_in self) }
    {
        match self {
            BoundKind::Unbounded | BoundKind::NoLow | BoundKind::NoHigh | BoundKind::Binary =>
                false,
            _ => true,
        }
    }
}
