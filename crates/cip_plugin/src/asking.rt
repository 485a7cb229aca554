//! What any plugin may be asked for, and what it gives.
ghost use Rattle.std.specs.Prelude.{◌≡◌, ◌-◌, length, take};
ghost use Rattle.cip_plugin.specs.Asking.{answer_of, first_part, count_past};

use crate::proposals::{Cut, Enforced, Guess, Reduction, Split, Wish};
use cip_cert::Priced;
use cip_events::Event;
use cip_model::Frac;

/// What a plugin is asked for, beside the view.
#[derive(Clone, Copy, Drop)]
pub enum Question<'a> {
    /// Cuts.
    Separate,
    /// Reductions.
    Propagate,
    /// Points of a block at these costs of its columns.
    Price { block: u32, costs: &'a [Frac] },
    /// Points of the program.
    Search,
    /// A split.
    Branch,
    /// What to do about the point of the last linear program.
    Enforce,
    /// Wishes, as this event happened.
    OnEvent(Event),
}

/// What a plugin gives.
#[derive(Drop)]
pub enum Given {
    /// Cuts.
    Cuts(Vec<Cut>),
    /// Reductions.
    Reductions(Vec<Reduction>),
    /// Points of a block, and a bound.
    Priced(Priced),
    /// Points of the program.
    Guesses(Vec<Guess>),
    /// A split, or none.
    Split(Option<Split>),
    /// What to do about a point.
    Enforced(Enforced),
    /// Wishes.
    Wishes(Vec<Wish>),
}

/// Leaves the first 64 of a list, and tells how many there were past them.
fn first_part_of<T: Drop>(list: &mut Vec<T>) -> usize
    ensures first { list.new.items ≡ take 64 list.old.items }
    ensures past { result ≡ length list.old.items - 64 }
{
    let past = list.len().saturating_sub(64);
    list.truncate(64);
    past
}

impl Given {
    /// Leaves the first 64 proposals or wishes, and tells how many there were past them.
    pub fn cut_short(&mut self) -> usize
        ensures first { answer_of self.new ≡ first_part (answer_of self.old) }
        ensures past { result ≡ count_past (answer_of self.old) }
    {
        match self {
            Given::Cuts(cuts) => first_part_of(cuts),
            Given::Reductions(reductions) => first_part_of(reductions),
            Given::Priced(priced) => first_part_of(&mut priced.points),
            Given::Guesses(guesses) => first_part_of(guesses),
            Given::Split(_) => 0,
            Given::Enforced(_) => 0,
            Given::Wishes(wishes) => first_part_of(wishes),
        }
    }
}
