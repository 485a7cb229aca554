//! The pool of a core.
ghost use Rattle.std.specs.Prelude.{◌≡◌};
ghost use Rattle.cip_tree.specs.Nodes.{TakenNode};
ghost use Rattle.cip_core.specs.CoreStates.{IsTakenUp};
ghost use Rattle.cip_core.specs.Steps.{aged};

use crate::cores::Core;

impl<'a> Core<'a> {
    /// The oldest rows of the pool go, where it has too many; a node in work stays so.
    pub fn age(&mut self)
        ensures frame { self.new ≡ record self.old { pool = aged self.old.pool } }
        ensures up { (node : TakenNode) → IsTakenUp self.old node → IsTakenUp self.new node }
    {
        self.pool.age();
    }
}
