//! Why a point doesn't come back.
use thiserror::Error;

/// Why a point of the reduced program doesn't come back as one of the program.
#[derive(Clone, Copy, PartialEq, Eq, Debug, Error)]
pub enum PostsolveFault {
    /// The value of a column that is gone isn't in range, or a number that is formed on the way to it.
    #[error("a value is too wide")]
    Wide,
    /// A growth was refused.
    #[error("no memory")]
    NoMemory,
}
