//! The law of lives. The function does nothing: its contract is the law, so that the check proves it.
ghost use Rattle.cip_solve.specs.WholeLives.{LivesAreWhole};

/// Of each plugin that served in a search whose trace is told, the lines of the trace make up a whole life, from its
/// being set up to its being closed; and the calls among them are exactly those that it has told since the search
/// began, as far as it tells.
pub fn lives_are_whole()
    ensures { LivesAreWhole }
{}
