//! Sides that plugins propose, and the look of a node's box behind them.
ghost use Rattle.std.specs.Prelude.{◌≢◌, ◌∷◌, [], IfOk};
ghost use Rattle.cip_plugin.specs.Calls.{Propagate};
ghost use Rattle.cip_roster.specs.Turns.{IsSound};
ghost use Rattle.cip_node_rules.specs.declared.looks.Looked.TheVariants.{Empty};
ghost use Rattle.cip_calls.specs.Noted.{IsReady, HasCome};
ghost use Rattle.cip_calls.specs.Served.{Used};
ghost use Rattle.cip_solve.specs.NodesReached.{IsSeen};

use crate::telling::tell_now;
use cip_calls::{Asks, Came, Core, Last, Plugins};
use cip_node::Starts;
use cip_node_rules::{Looked, look_at};
use cip_tree::Node;
use std::alloc::{AllocError, Global};

/// Asks for sides in rounds, while a node is in work, tells what happened, and looks at what is left of the node: it
/// may have no improving point, be a leaf, or be open. What is seen is the last linear program that had a point, of
/// whichever node. `Err` comes where memory was refused.
pub(crate) fn narrow<R: Asks>(
    alloc: Global,
    core: &mut Core<'_>,
    starts: &Starts,
    plugins: &mut Plugins<R>,
    node: &mut Node,
) -> Result<Looked, AllocError>
    requires ready { IsReady core.old node.old plugins.old.scratches
        × IsSound (R.state plugins.old.roster) (R.room plugins.old.roster) }
    ensures come { HasCome core.old node.old (R.state plugins.old.roster) core.new node.new
        plugins.new.scratches (R.state plugins.new.roster) (R.room plugins.new.roster) }
    ensures used { IfOk result (λ looked. looked ≢ Empty → Used (Propagate ∷ []) (R.state plugins.old.roster)
        plugins.old.judged.items (R.state plugins.new.roster) plugins.new.judged.items) }
    ensures seen { IfOk result (IsSeen core.new node.new) }
{
    let columns = core.reduced().columns();
    let last = Last {
        point: starts.last_values(columns),
        combo: starts.last_combo(),
    };
    match plugins.propagate(alloc, core, node, last)? {
        Came::Emptied => Ok(Looked::Empty),
        _ => {
            tell_now(alloc, core, plugins, node, None, last)?;
            core.is_sound();
            let program = core.reduced();
            let _columns = program.columns();
            Ok(look_at(program.whole(), core.bounds(), core.choices()))
        }
    }
}
