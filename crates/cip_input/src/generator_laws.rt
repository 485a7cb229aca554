//! Laws of programs that are drawn: each function does nothing, and its contract is a law.
ghost use Rattle.std.specs.Prelude.{◌≡◌};
ghost use Rattle.cip_input.specs.Generated.{most_drawn};
ghost use Rattle.cip_input.specs.TaskExamples.{GeneratedExamples};
ghost use Rattle.cip_input.specs.TaskStatements.{OnesAreFeasible, GeneratedAreFormed, LeavesAreCounted};
ghost use Rattle.cip_input.specs.declared.programs.TheConstants.{MOST_DRAWN};

/// The point whose values are all 1 is feasible in each program that is drawn.
pub fn ones_are_feasible()
    ensures { OnesAreFeasible }
{}

/// The lists of each program that is drawn fit together, within the limits.
pub fn generated_are_formed()
    ensures { GeneratedAreFormed }
{}

/// Each program that is drawn has 4^n whole assignments, where n is the number of its columns.
pub fn leaves_are_counted()
    ensures { LeavesAreCounted }
{}

/// A first draw, two costs and a program of two columns and two rows are as another program works them out.
pub fn generated_examples()
    ensures { GeneratedExamples }
{}

/// The limit that the code keeps is that of the definitions.
pub fn limit_agrees()
    ensures { MOST_DRAWN ≡ most_drawn }
{}
