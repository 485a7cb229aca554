//! Open nodes are let go by their bounds.
ghost use Rattle.std.specs.Prelude.{◌≡◌, ◌≤◌, ℕ, All, count_by};
ghost use Rattle.cip_tree.specs.declared.kept.Stage.TheVariants.{Open};
ghost use Rattle.cip_tree.specs.Slots.{AreSoundSlots};
ghost use Rattle.cip_tree.specs.Inside.{StandsAs, is_at};
ghost use Rattle.cip_tree.specs.Freed.{AreReleased, dearer};

use crate::kept::{Kept, release};
use crate::queue::{OpenNode, stays};
use cip_domain::Frac;
use slab::Slab;

/// Lets go of the nodes whose bound is at least a cost, and of those that ended and that only they needed.
pub(crate) fn release_from(kept: &mut Slab<Kept>, nodes: &[OpenNode], cost: Frac)
    requires kept { AreSoundSlots kept.old.slots }
    requires waiting { All (StandsAs Open kept.old.slots) nodes.now }
    requires once { (place : ℕ) → count_by (is_at place) nodes.now ≤ 1 }
    ensures slots { AreReleased kept.old.slots kept.new.slots (dearer cost nodes.now) }
    ensures kept { AreSoundSlots kept.new.slots }
    ensures capacity { kept.new.capacity ≡ kept.old.capacity }
{
    for node in nodes {
        if !stays(node.bound, cost) {
            release(kept, node.place);
        }
    }
}
