//! Branching rules are asked where a node is split.
ghost use Rattle.std.specs.Prelude.{◌≡◌, IfOk, IfSome, OnOk, IsSome, is_some, slice_get, if◌then◌else◌};
ghost use Rattle.cip_plugin.specs.Calls.{Branch};
ghost use Rattle.cip_calls.specs.Turns.{IsSound};
ghost use Rattle.cip_calls.specs.Wished.{Ran};
ghost use Rattle.cip_calls.specs.CoreStates.{IsAtWork};
ghost use Rattle.cip_calls.specs.SplitsJudged.{IsPlace};
ghost use Rattle.cip_calls.specs.Noted.{HasNoted, HasJudged};
ghost use Rattle.cip_calls.specs.Served.{Used};
ghost use Rattle.cip_calls.specs.Enforcing.{made, asked_of_rules};

use crate::{Asks, Core, Judged, Last, Plugins, Turn, split_refusal, view_of};
use cip_plugin::{Given, Split};
use cip_tree::Node;
use std::alloc::{AllocError, Global};

/// The split that a rule gave, if it gave one.
fn split_of(given: Option<Given>) -> Option<Split>
    ensures { made Branch given ≡ if is_some result then 1 else 0 }
{
    match given {
        None => None,
        Some(Given::Split(split)) => split,
        Some(Given::Cuts(cuts)) => {
            drop(cuts);
            None
        }
        Some(Given::Reductions(sides)) => {
            drop(sides);
            None
        }
        Some(Given::Priced(priced)) => {
            drop(priced);
            None
        }
        Some(Given::Guesses(points)) => {
            drop(points);
            None
        }
        Some(Given::Enforced(said)) => {
            drop(said);
            None
        }
        Some(Given::Wishes(wishes)) => {
            drop(wishes);
            None
        }
    }
}

/// Judges the split that a rule gave, if it gave one, and writes down what became of it: which, where it is accepted.
/// `Err` comes where memory was refused.
fn take_rule<R: Asks>(
    plugins: &mut Plugins<R>,
    core: &Core<'_>,
    node: &Node,
    id: u32,
    given: Option<Split>,
) -> Result<Option<Split>, AllocError>
    requires at_work { IsAtWork core.now node.now }
    requires sound { IsSound (R.state plugins.old.roster) (R.room plugins.old.roster) }
    requires seat { IsSome (slice_get (R.state plugins.old.roster).seats id) }
    ensures sound { IsSound (R.state plugins.new.roster) (R.room plugins.new.roster) }
    ensures noted { HasNoted (R.state plugins.old.roster) (R.state plugins.new.roster) }
    ensures judged { OnOk result (HasJudged id (if is_some given then 1 else 0) plugins.old.judged.items
        plugins.new.judged.items) }
    ensures scratches { plugins.new.scratches ≡ plugins.old.scratches }
    ensures place { IfOk result (λ found. IfSome found (λ split. IsPlace core.now split.col split.at)) }
{
    let Some(split) = given else {
        return Ok(None);
    };
    plugins.judged.reserve(1)?;
    let (came, found) = match split_refusal(core, node, split) {
        None => (Judged::Accepted, Some(split)),
        Some(fault) => (Judged::Refused(fault), None),
    };
    plugins.finish(id, &came, None)?;
    Ok(found)
}

/// Asks branching rules where a node in work is split, by falling priority and rising number, until one gives a split
/// that is accepted: that place. `None`: all were asked, and none did. Of the last linear program of the node they see
/// what is lent. Nothing of the core changes: who has the node splits it. `Err` comes where memory was refused: what
/// was called before it stands.
pub fn ask_rules<R: Asks>(
    plugins: &mut Plugins<R>,
    alloc: Global,
    core: &Core<'_>,
    node: &Node,
    last: Last<'_>,
) -> Result<Option<Split>, AllocError>
    requires at_work { IsAtWork core.now node.now }
    requires sound { IsSound (R.state plugins.old.roster) (R.room plugins.old.roster) }
    ensures sound { IsSound (R.state plugins.new.roster) (R.room plugins.new.roster) }
    ensures run { Ran (R.state plugins.old.roster) (R.state plugins.new.roster) }
    ensures scratches { plugins.new.scratches ≡ plugins.old.scratches }
    ensures used { IfOk result (λ found. Used (asked_of_rules found) (R.state plugins.old.roster)
        plugins.old.judged.items (R.state plugins.new.roster) plugins.new.judged.items) }
    ensures place { IfOk result (λ found. IfSome found (λ split. IsPlace core.now split.col split.at)) }
{
    let mut after = None;
    while let Some((id, given)) = plugins.roster.ask_next(
        alloc,
        Turn::Split,
        after,
        // lent anew for each turn, as the guess is
        &view_of(&*core, node.id(), last, &plugins.guess),
    )? {
        let split = split_of(given);
        let found = take_rule(plugins, core, node, id, split)?;
        if let Some(place) = found {
            return Ok(Some(place));
        }
        after = Some(id);
    }
    Ok(None)
}
