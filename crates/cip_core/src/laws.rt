//! What steps say together. The function does nothing: its contract is a law, so that the check proves it.
ghost use Rattle.cip_core.specs.Later.{StepsCompose};

/// Steps are one after another as they are alone: a core is later than itself and than what is earlier, and so is a
/// node in work.
pub fn steps_compose()
    ensures { StepsCompose }
{}
