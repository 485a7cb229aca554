//! Dictionaries of the simplex method, their exchanges and flips, and Bland's rule: the next step at a state, the list
//! of moves, and what its ends answer.
// Each function here does nothing. Its contract is one of the laws of the definitions, so that the check proves it.
#![tactic(auto)]

pub mod dictionaries;
mod moves;
mod places;
mod steps;

ghost use Rattle.cip_bland.specs.Examples.{Examples};
ghost use Rattle.cip_bland.specs.NoRepeat.{ListsEnd, AnswersEnd};
ghost use Rattle.cip_bland.specs.StateEnds.{EndsAreSound, NamedEndsAreEnds};
ghost use Rattle.cip_bland.specs.Statements.{FirstIsState, MovesCanBeMade, StepsAreSound, RunsAreRight, AnswersAreRight};

pub use moves::{Move, Stand};
pub use places::{EntryPlace, Line};
pub use steps::{Heading, Step};

/// The first state of a linear program is one of its states: it is consistent, and has its solutions and its cost.
pub fn first_is_state()
    ensures { FirstIsState }
{}

/// At each consistent state the move that the rule chooses can be made.
pub fn moves_can_be_made()
    ensures { MovesCanBeMade }
{}

/// At each state of a program the step is sound: a move can be made and leads to a state of the program; an optimum's
/// point is optimal, and the bound of its certificate is the cost; crossed sides and an infeasible end have a
/// certificate that empties the box; and a ray keeps all sides while the cost falls along it.
pub fn steps_are_sound()
    ensures { StepsAreSound }
{}

/// Whichever moves led to a state of a program that is an end, what the end answers is right: crossed sides, a variable
/// outside that none repairs, no variable by which the cost falls, or one by which it falls and which has no way to a
/// side.
pub fn ends_are_sound()
    ensures { EndsAreSound }
{}

/// Where the rule names an end, the state is that end.
pub fn named_ends_are_ends()
    ensures { NamedEndsAreEnds }
{}

/// The list of a state is the moves of the rule, all in range, up to an end, to the first move that is out of range, or
/// to the limit; from a state of a program its last state is one too, and what its end answers is right.
pub fn runs_are_right()
    ensures { RunsAreRight }
{}

/// What the list from the first state answers on a linear program is right.
pub fn answers_are_right()
    ensures { AnswersAreRight }
{}

/// From each state of a program no state comes twice in the list, so that it has fewer moves than 4 to the number of
/// variables; each limit above its length gives all of it; and each move leaves one fewer.
pub fn lists_end()
    ensures { ListsEnd }
{}

/// So the answer without a limit is there and right, and is the answer with each limit that is large enough.
pub fn answers_end()
    ensures { AnswersEnd }
{}

/// Programs of one to four columns come to the moves, points, certificates and rays that were worked out by hand; so do
/// moves, ways and first states that are out of range, and limits of 0 and 1.
pub fn examples()
    ensures { Examples }
{}
