//! What a program, a point, a cost and a bound are; linear programs, and the rows that sums of rows and bounds imply:
//! the definitions that the contracts of the crates above speak of. They know nothing of the code; `specs/` holds them.
// Each function here does nothing. Its contract is one of the laws of the definitions, so that the check proves it.
#![tactic(auto)]

pub mod cuts;
pub mod linear_laws;

ghost use Rattle.cip_problem.specs.Examples.{ProgramExamples, SemiExamples};
ghost use Rattle.cip_problem.specs.Statements.{HalvesCover, HalvesWithin, HalvesCount, SidesMeet, ChoicesAreMade, LogsGiveNodes, BoxBoundHolds, InnerBoxes, SideTests, LogsAreShort};

/// A point of a node's box that has whole values in the whole columns, and values that the choices allow, lies in one
/// of the halves of each split.
pub fn halves_cover()
    ensures { HalvesCover }
{}

/// A point of either half of a split lies in the box of the node that was split.
pub fn halves_within()
    ensures { HalvesWithin }
{}

/// The two halves of a split have no more leaves together than the node.
pub fn halves_count()
    ensures { HalvesCount }
{}

/// What lies between sides that are met lies between both, and the other way round.
pub fn sides_meet()
    ensures { SidesMeet }
{}

/// A feasible point is one of the program in which some choices are made, and such a point is feasible; that program is
/// well-formed.
pub fn choices_are_made()
    ensures { ChoicesAreMade }
{}

/// The box of each node of a log lies in the program's, its open choices are the program's own, and where none is open
/// it lies in the box of the program in which the choices are made so.
pub fn logs_give_nodes()
    ensures { LogsGiveNodes }
{}

/// No point of a box costs less than the box bound, and so no feasible point less than that of the program's own box.
pub fn box_bound_holds()
    ensures { BoxBoundHolds }
{}

/// A value between sides that are at least as strong as others lies between those too, and a point of a box inside
/// another is a point of that.
pub fn inner_boxes()
    ensures { InnerBoxes }
{}

/// A value passes the test of two sides exactly where it lies between them; between equal sides lies one value and no
/// other; and where the test of two whole numbers holds, two lie between the sides, and else no two.
pub fn side_tests()
    ensures { SideTests }
{}

/// A log over a program whose box has n leaves has at most max(1, 2n-1) entries.
pub fn logs_are_short()
    ensures { LogsAreShort }
{}

/// A program of three columns is as worked out by hand: one of four points is feasible, at that cost, and three of five
/// lists of entries are logs; the box bound, the number of whole assignments and a row's activity are those figures.
pub fn examples()
    ensures { ProgramExamples }
{}

/// Of a program with a semi-continuous column from 2 to 5 one of three points is feasible, at that cost, and it has two
/// leaves; its halves are as worked out by hand, and a choice that is made isn't made again.
pub fn semi_examples()
    ensures { SemiExamples }
{}
