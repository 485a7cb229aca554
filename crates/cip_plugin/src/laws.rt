//! What follows from runs of steps, as laws.
ghost use Rattle.cip_plugin.specs.Statements.{LivesStayTold, TracesTell, RunsAreTold, EachIsAskedOnce, KeysAreRanked};

use crate::keys::Key;

/// Runs one after the other are a run; where lines are kept, the words of each plugin stay those of a life.
pub fn lives_stay_told()
    ensures { LivesStayTold }
{}

/// Where lines are kept, the words of calls that a run writes of a plugin are those of its calls, in order.
pub fn traces_tell()
    ensures { TracesTell }
{}

/// A plugin that has a seat keeps it over a run, and adds exactly its calls to what it tells; one that was closed
/// before has none.
pub fn runs_are_told()
    ensures { RunsAreTold }
{}

/// A call of the plugins that a test takes asks each of them once, and nobody else.
pub fn each_is_asked_once()
    ensures { EachIsAskedOnce }
{}

/// Keys are ordered as plugins are called: who has a higher priority first, and of equal ones who has the lower number.
pub fn keys_are_ranked()
    ensures { KeysAreRanked ⟦<Key as Ord>⟧.cmp }
{}
