//! Work with plugins.
use crate::ends::Done;
use crate::processing::process;
use crate::telling::tell_end;
use crate::works::Works;
use cip_calls::{Asks, Plugins};
use cip_node::{NodeEnd, NodeRecord, NodeWork};
use cip_tree::Node;
use std::alloc::{AllocError, Global};

/// Work with plugins, which are asked and told.
#[derive(Drop)]
pub struct Asking<R> {
    /// The plugins.
    pub plugins: Plugins<R>,
    /// Memory was refused as the end of a node was told: no other node is worked on.
    pub is_refused: bool,
}

impl<R: Asks> Works for Asking<R> {
    ghost use Rattle.std.specs.Prelude.{true};
    ghost use Rattle.cip_solve.specs.Turns.{IsSound};
    ghost use Rattle.cip_solve.specs.ProposalsJudged.{HaveRoom};

    ghost asks = { true };

    ghost state = { λ w. R.state w.plugins.roster };

    ghost is_ready = { λ w columns. HaveRoom w.plugins.scratches columns
        × IsSound (R.state w.plugins.roster) (R.room w.plugins.roster) };

    fn work_on(
        &mut self,
        alloc: Global,
        work: &mut NodeWork<'_>,
        node: Node,
    ) -> Result<(NodeEnd, NodeRecord), AllocError> {
        if self.is_refused {
            let given = node.bound();
            work.core.go_back(node, given);
            return Err(AllocError);
        }
        let number = node.id();
        let done = process(alloc, work, &mut self.plugins, node)?;
        let _judged = self.plugins.take_judged(alloc);
        let told = tell_end(alloc, &work.core, &mut self.plugins, number, &done);
        self.is_refused = told.is_err();
        let Done { end, mark, .. } = done;
        Ok((end, NodeRecord { mark }))
    }
}
