//! A node in work.
ghost use Rattle.std.specs.Prelude.{◌≡◌, ◌++◌, ◌∷◌, [], Some, OnOk, OnErr};

use crate::notes::Note;
use cip_domain::{Frac, Side};
use std::alloc::AllocError;
use std::marker::Model;

/// A node that was taken out of a tree: its number, its bound, and the changes that its own work made. Its box is that
/// of `box_of`.
#[derive(Drop)]
pub struct Node {
    pub(crate) id: u64,
    pub(crate) bound: Option<Frac>,
    // where the tree keeps the rest
    pub(crate) place: usize,
    pub(crate) notes: Vec<Note>,
}

impl Model for Node {
    ghost use Rattle.cip_tree.specs.Nodes.{TakenNode, taken_code};

    ghost Value = { TakenNode };

    ghost coded = { taken_code };

    ghost view = { λ n. record { number = n.id; bound = n.bound; place = n.place; notes = n.notes.items } };
}

impl Node {
    /// The node's number: 0 is the root's.
    pub fn id(&self) -> u64
        ensures { result ≡ self.now.number }
    {
        self.id
    }

    /// A number that no point of the node costs less than, `None` where none is known.
    pub fn bound(&self) -> Option<Frac>
        ensures { result ≡ self.now.bound }
    {
        self.bound
    }

    /// Gives the node a bound.
    pub fn raise(&mut self, bound: Frac)
        ensures { self.new ≡ record self.old { bound = Some bound } }
    {
        self.bound = Some(bound);
    }

    /// Gives the node a bound, or none.
    pub fn give_bound(&mut self, bound: Option<Frac>)
        ensures { self.new ≡ record self.old { bound = bound } }
    {
        self.bound = bound;
    }

    /// Notes a change of one side of a column, which counts in the node's box where it is stronger; it makes no choice.
    /// `Err` comes where a growth was refused, and leaves the node as it was.
    pub fn note(&mut self, col: u32, side: Side, value: Frac) -> Result<(), AllocError>
        ensures ok { OnOk result (self.new ≡ record self.old {
          notes = self.old.notes ++ record { col = col; side = side; value = value } ∷ [];
        }) }
        ensures err { OnErr result (self.new ≡ self.old) }
    {
        self.notes.push(Note { col, side, value })?;
        Ok(())
    }
}
