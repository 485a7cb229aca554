//! Handlers are asked what to do about a point.
ghost use Rattle.std.specs.Prelude.{◌≡◌, ◌∷◌, [], IfOk};
ghost use Rattle.cip_plugin.specs.Calls.{Enforce};
ghost use Rattle.cip_calls.specs.Turns.{IsSound};
ghost use Rattle.cip_calls.specs.Noted.{IsReady, HasCome};
ghost use Rattle.cip_calls.specs.Served.{Used};
ghost use Rattle.cip_calls.specs.Enforcing.{IsVerdict};
ghost use Rattle.cip_calls.specs.declared.enforcing.Verdict.TheVariants.{Quiet};

use crate::verdicts::{said_of, take_verdict};
use crate::{Asks, Core, Last, Plugins, Turn, view_of};
use cip_plugin::Split;
use cip_tree::Node;
use std::alloc::{AllocError, Global};

/// What handlers said of the point of a node's last linear program.
#[derive(Clone, Copy)]
pub enum Verdict {
    /// No answer was accepted but words: all handlers were asked, and nothing has changed.
    Quiet,
    /// The node has no improving point.
    Emptied,
    /// A side or a row was accepted.
    Changed,
    /// The node is to be split here.
    Place(Split),
}

/// Asks handlers, by falling priority and rising number, what to do about the point of a node's last linear program,
/// of which they see what is lent, until one gives an answer that is accepted and isn't a word alone. A split isn't
/// made here: who has the node makes it. `Err` comes where memory was refused: what was called and accepted before it
/// stands.
pub fn enforce<R: Asks>(
    plugins: &mut Plugins<R>,
    alloc: Global,
    core: &mut Core<'_>,
    node: &mut Node,
    last: Last<'_>,
) -> Result<Verdict, AllocError>
    requires ready { IsReady core.old node.old plugins.old.scratches }
    requires sound { IsSound (R.state plugins.old.roster) (R.room plugins.old.roster) }
    ensures come { HasCome core.old node.old (R.state plugins.old.roster) core.new node.new plugins.new.scratches
        (R.state plugins.new.roster) (R.room plugins.new.roster) }
    ensures used { IfOk result (λ _. Used [] (R.state plugins.old.roster) plugins.old.judged.items
        (R.state plugins.new.roster) plugins.new.judged.items) }
    ensures all { IfOk result (λ verdict. verdict ≡ Quiet → Used (Enforce ∷ []) (R.state plugins.old.roster)
        plugins.old.judged.items (R.state plugins.new.roster) plugins.new.judged.items) }
    ensures verdict { IfOk result (IsVerdict core.old core.new node.old node.new) }
{
    let mut after = None;
    while let Some((id, given)) = plugins.roster.ask_next(
        alloc,
        Turn::Verdict,
        after,
        &view_of(core, node.id(), last, &plugins.guess),
    )? {
        let said = said_of(given);
        match take_verdict(plugins, core, node, id, said)? {
            Verdict::Quiet => after = Some(id),
            verdict => return Ok(verdict),
        }
    }
    Ok(Verdict::Quiet)
}
