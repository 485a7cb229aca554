//! The look of a node's box and choices.
ghost use Rattle.std.specs.Prelude.{◌≡◌, IfOk};
ghost use Rattle.cip_core.specs.CoreStates.{IsTakenUp};
ghost use Rattle.cip_node.specs.Looking.{IsLook};

use cip_core::Core;
use cip_node_rules::{Looked, look_at};
use cip_tree::Node;
use std::alloc::AllocError;

/// Makes the region of a node the region in work, and looks at its whole columns and its choices. `Err` comes where
/// memory was refused.
pub(crate) fn look(core: &mut Core<'_>, node: &Node) -> Result<Looked, AllocError>
    requires { IsTakenUp core.old node.now }
    ensures look { IfOk result (IsLook core.new node.now) }
    ensures frame { core.new ≡ record core.old { tree = record core.old.tree { work = core.new.tree.work } } }
    ensures up { IsTakenUp core.new node.now }
{
    if !core.enter(node)? {
        return Ok(Looked::Empty);
    }
    core.is_sound();
    let reduced = core.reduced();
    let _columns = reduced.columns();
    Ok(look_at(reduced.whole(), core.bounds(), core.choices()))
}
