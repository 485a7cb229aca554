//! What a search did.
ghost use Rattle.std.specs.Prelude.{◌≡◌, []};
ghost use Rattle.cip_tree.specs.Entries.{end_of};
ghost use Rattle.cip_search.specs.SeenLogs.{end_seen, log_seen};
ghost use Rattle.cip_solve.specs.Logs.{entries_of, renamed};

use cip_node::Mark;
use cip_tree::{End, Logged};
use std::alloc::Global;

/// What a search did.
#[derive(Drop)]
pub struct Log {
    /// An entry for each node that was taken and has ended, in that order.
    pub taken: Vec<Logged>,
    /// Numbers of nodes with what their linear programs met, where these showed nothing; in the order of the entries,
    /// at most one for each.
    pub marks: Vec<(u64, Mark)>,
}

/// An end with the number that a list has for the column of its split; that of one that isn't below the list's length
/// stays.
fn renamed_end(end: End, numbers: &[u32]) -> End
    ensures { end_of result ≡ end_seen (renamed numbers.now) (end_of end) }
{
    match end {
        End::Split { col, at, low, high } => match numbers.get(col as usize) {
            Some(number) => End::Split {
                col: *number,
                at,
                low,
                high,
            },
            None => End::Split { col, at, low, high },
        },
        End::Closed => End::Closed,
        End::Parked => End::Parked,
    }
}

impl Log {
    /// Nothing done yet.
    pub fn new(alloc: Global) -> Log
        ensures taken { entries_of result ≡ [] }
        ensures marks { result.marks.items ≡ [] }
    {
        Log {
            taken: Vec::new(alloc),
            marks: Vec::new(alloc),
        }
    }

    /// Gives the columns of all splits the numbers that a list has for them.
    #[tactic(auto, using(crate::proofs::Renamed::renaming))]
    pub(crate) fn rename(&mut self, numbers: &[u32])
        ensures taken { entries_of self.new ≡ log_seen (renamed numbers.now) (entries_of self.old) }
        ensures marks { self.new.marks ≡ self.old.marks }
    {
        for place in 0..self.taken.len() {
            let end = renamed_end(self.taken[place].end, numbers);
            self.taken[place].end = end;
        }
    }
}
