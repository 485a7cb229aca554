//! The calls that a plugin keeps.

/// A call that a heuristic has had, and answered.
#[derive(Clone, Copy)]
pub enum Told {
    /// It was set up.
    Init,
    /// The search began.
    InitSolve,
    /// It was asked for points, and brought none.
    Search,
    /// The search ended.
    ExitSolve,
    /// It was closed.
    Exit,
}
