//! What a line of the trace says.
ghost use Rattle.std.specs.Prelude.{◌≡◌};
ghost use Rattle.cip_events.specs.Words.{text_of_word};

/// What a plugin was called for, or what was noted of it.
#[derive(Clone, Copy)]
pub enum Word {
    /// It was set up.
    Init,
    /// The search began.
    InitSolve,
    /// It was asked for cuts.
    Separate,
    /// It was asked for reductions.
    Propagate,
    /// It was asked to price a block.
    Price,
    /// It was asked for points.
    Search,
    /// It was asked for a split.
    Branch,
    /// It was asked to judge a point.
    Enforce,
    /// It was told of an event.
    OnEvent,
    /// The search ended.
    ExitSolve,
    /// It was closed.
    Exit,
    /// It was disabled.
    Disabled,
    /// It was enabled.
    Enabled,
    /// Its callback wanted memory.
    NoMemory,
    /// So many of its proposals or wishes went past the limit of a call.
    Dropped(u64),
    /// A proposal or a wish was refused for the fault of this name.
    Refused(&'static str),
}

impl Word {
    /// The word as it is printed; of `Dropped` and `Refused` what stands before the number or the fault's name.
    pub fn text(self) -> &'static str
        ensures { result.now ≡ text_of_word self }
    {
        match self {
            Word::Init => "init",
            Word::InitSolve => "init_solve",
            Word::Separate => "separate",
            Word::Propagate => "propagate",
            Word::Price => "price",
            Word::Search => "search",
            Word::Branch => "branch",
            Word::Enforce => "enforce",
            Word::OnEvent => "on_event",
            Word::ExitSolve => "exit_solve",
            Word::Exit => "exit",
            Word::Disabled => "disabled",
            Word::Enabled => "enabled",
            Word::NoMemory => "nomemory",
            Word::Dropped(_) => "dropped",
            Word::Refused(_) => "refused",
        }
    }
}
