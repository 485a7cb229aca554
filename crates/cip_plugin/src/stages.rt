//! How far a plugin's life has come.

/// The stages of a life, in order.
#[derive(Clone, Copy, PartialEq, Eq)]
pub enum Stage {
    /// It has a seat, and wasn't called yet.
    Fresh,
    /// It was set up.
    Begun,
    /// It may be asked.
    Playing,
    /// The search has ended for it.
    Left,
    /// It is called no more.
    Gone,
}
