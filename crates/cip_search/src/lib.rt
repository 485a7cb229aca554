//! Leaves, and the points of a program with given whole values; what holds of a search over a tree of boxes between two
//! steps, that each step keeps it, and what it says of the program at the end; the answers that go out, with their
//! figures and texts; and reduction pairs: when a program may be solved in place of another, and how points, whole
//! values and costs come back. `specs/` holds the definitions.
// Each function here does nothing. Its contract is one of the laws of the definitions, so that the check proves it.
#![tactic(auto)]

pub mod answer_laws;
pub mod headline;
pub mod leaf_laws;
pub mod leaf_programs;
pub mod reduction_laws;
pub mod search_ends;
pub mod seen;
pub mod traces;

ghost use Rattle.std.specs.Prelude.{Option};
ghost use Rattle.cip_rational.specs.Rational.{ℚ};
ghost use Rattle.cip_problem.specs.Program.{Program};
ghost use Rattle.cip_search.specs.Wide.{IsWide};
ghost use Rattle.cip_search.specs.SearchState.{WayBack};
ghost use Rattle.cip_search.specs.Statements.{StepsKeepSearches, StepsKeepGiven, StepsKeepBoxes, WaysAreFree, SearchesTell, SearchLogsTell, EntriesAreTrue, RelaxedBoundsHold};

pub use cip_bland::{Move, Stand};

/// A search begins with its root open, and what holds of it goes on holding as nodes are taken up, their bounds rise
/// and their boxes shrink, as they are closed, put aside, split and made open again, as a cheaper point is held, and
/// as open nodes are let go that don't matter.
pub fn steps_keep_searches()
    ensures { (program reduced : Program) (way : WayBack) (start : Option ℚ)
        → StepsKeepSearches program reduced way IsWide start }
{}

/// The bounds of open nodes stay as the log gave them, where a node goes back with the bound that it came with.
pub fn steps_keep_given()
    ensures { (program reduced : Program) (way : WayBack) (start : Option ℚ)
        → StepsKeepGiven program reduced way IsWide start }
{}

/// The boxes of all nodes stay as the log gave them, where no box is changed.
pub fn steps_keep_boxes()
    ensures { (program reduced : Program) (way : WayBack) (start : Option ℚ)
        → StepsKeepBoxes program reduced way IsWide start }
{}

/// A program that is searched itself stays as it is, and a search is one by each way back that there is: of the way it
/// says no more than that there is one.
pub fn ways_are_free()
    ensures { (program reduced : Program) (way other : WayBack) (start : Option ℚ)
        → WaysAreFree program reduced way other IsWide start }
{}

/// Of the program as read a search says that it has no feasible point, that none is cheaper than the cost held, what
/// each costs at least, and that cheaper ones have wide leaves.
pub fn searches_tell()
    ensures { (program reduced : Program) (way : WayBack) (start : Option ℚ)
        → SearchesTell program reduced way IsWide start }
{}

/// The log of a search is one of the reduced program; its open nodes and parked leaves cover the improving points, have
/// the search's least bound, and matter exactly where the search's own nodes do; and it is shorter than the most nodes
/// that a search takes while a node is left.
pub fn search_logs_tell()
    ensures { (program reduced : Program) (way : WayBack) (start : Option ℚ)
        → SearchLogsTell program reduced way IsWide start }
{}

/// Where the program is searched itself, each entry of the log is a true one.
pub fn entries_are_true()
    ensures { EntriesAreTrue }
{}

/// A bound of the linear program of a box is at least its optimum; a greater one is one too, and so is one with fewer
/// rows in a wider box.
pub fn relaxed_bounds_hold()
    ensures { RelaxedBoundsHold }
{}
