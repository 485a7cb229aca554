//! Where words stand, and the places of rows.
ghost use Rattle.std.specs.Prelude.{◌≡◌};
ghost use Rattle.cip_blocks.specs.WordPlaces.{block_of};

/// Where the next word stands.
#[derive(Clone, Copy)]
pub(crate) enum WordPlace {
    /// One of the four words is due.
    KeywordDue,
    /// The 0 behind `PRESOLVED` is due.
    ZeroDue,
    /// The number of blocks is due.
    CountDue,
    /// The number of a block is due.
    BlockDue,
    /// Names of rows may stand, of this block, counted from 0, or of master rows.
    NamesOf(Option<u32>),
}

/// The place of a row.
#[derive(Clone, Copy)]
pub(crate) enum RowPlace {
    /// The row was not named.
    Unnamed,
    /// The row was named for this block, or as a master row.
    Named(Option<u32>),
}

impl RowPlace {
    /// The block of the row, if it has one.
    pub(crate) fn block(self) -> Option<u32>
        ensures { result ≡ block_of self }
    {
        match self {
            RowPlace::Unnamed => None,
            RowPlace::Named(block) => block,
        }
    }
}
