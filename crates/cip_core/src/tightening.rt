//! Sides of nodes in work are tightened.
ghost use Rattle.std.specs.Prelude.{◌≡◌, MatchResult};
ghost use Rattle.cip_core.specs.CoreStates.{IsAtWork};
ghost use Rattle.cip_core.specs.Later.{IsLaterAt};
ghost use Rattle.cip_core.specs.SidesTold.{IsSideTold, IsSideTaken, touched_by};

use crate::cores::Core;
use cip_domain::{Side, Tightened};
use cip_frac::Frac;
use cip_tree::Node;
use std::alloc::AllocError;

/// Whether a row was added or a side tightened by now, where that was so before a side was told, or not.
fn touched_by(told: &Result<Tightened, AllocError>, before: bool) -> bool
    ensures { result ≡ touched_by told.now before }
{
    match told {
        Ok(Tightened::Yes) => true,
        Ok(Tightened::Same) => before,
        Ok(Tightened::Empty) => before,
        Err(_) => before,
    }
}

impl<'a> Core<'a> {
    /// Tightens a side of a column of a node in work, by its number from 0, to a value that each improving point of
    /// the node's box keeps to. `Same` comes exactly where the side is at least as strong already, `Empty` exactly
    /// where it isn't and the low side would pass the high one; both leave all as it was, and so does `Err`, which
    /// comes where memory was refused.
    pub fn tighten(
        &mut self,
        node: &mut Node,
        col: u32,
        side: Side,
        value: Frac,
    ) -> Result<Tightened, AllocError>
        requires at_work { IsAtWork self.old node.old }
        requires told { IsSideTold self.old node.old col side value }
        ensures tightened { MatchResult result (IsSideTaken self.old self.new node.old node.new col side value)
            (λ _. (self.new ≡ self.old) × (node.new ≡ node.old)) }
        ensures later { IsLaterAt self.old node.old self.new node.new }
    {
        let _columns = self.reduced.columns();
        let told = self.tree.tighten(node, col, side, value);
        self.touched = touched_by(&told, self.touched);
        told
    }
}
