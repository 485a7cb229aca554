//! A law of the texts of refusals. The function does nothing: its contract is the law, so that the check proves it.
ghost use Rattle.cip_input.specs.Refusals.{RefusalsTell};

/// The text of a refusal tells the faulty text, the line and the kind: two refusals with one text are of one text, of
/// one line and of one kind.
pub fn refusals_tell()
    ensures { RefusalsTell }
{}
