//! A node that is a leaf ends.
ghost use Rattle.std.specs.Prelude.{None};
ghost use Rattle.cip_core.specs.CoreStates.{IsAtWork};
ghost use Rattle.cip_node.specs.NodeEnds.{HasEnded, IsLeafEnd};
ghost use Rattle.cip_node.specs.SameRows.{HasSameRows};
ghost use Rattle.cip_node.specs.SolvedLeaves.{IsSolvedOf};

use crate::ends::NodeEnd;
use crate::leaves::Solved;
use cip_core::Core;
use cip_leaf::LeafAnswer;
use cip_tree::Node;

/// Ends a node that is a leaf, by what is known of the leaf.
pub(crate) fn settle(core: &mut Core<'_>, node: Node, solved: Solved) -> NodeEnd
    requires at_work { IsAtWork core.old node }
    requires solved { IsSolvedOf core.old node solved }
    ensures ended { HasEnded core.old core.new node None result }
    ensures kind { IsLeafEnd result }
    ensures rows { HasSameRows core.old core.new }
{
    core.is_sound();
    let Solved { values, on, answer } = solved;
    match answer {
        LeafAnswer::Best { point, cost } => {
            let _answer = core.offer_at(&node, cost, point.as_slice());
            core.close_empty(node);
            NodeEnd::Solved
        }
        LeafAnswer::NoPoint => {
            core.close_empty(node);
            NodeEnd::Empty
        }
        LeafAnswer::Unbounded { point, ray } => {
            let _answer = core.offer(&node, point.as_slice());
            core.park_endless(node);
            NodeEnd::Ray { point, ray }
        }
        LeafAnswer::Wide { shown } => {
            let bound = node.bound();
            core.park(node);
            NodeEnd::Parked {
                leaf: values,
                on,
                bound,
                shown,
            }
        }
    }
}
