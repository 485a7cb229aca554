//! When the figures of an answer are true of a program, and that those of a right answer are. `specs/` holds the
//! definitions.
// Each function here does nothing. Its contract is one of the laws of the definitions, so that the check proves it.

ghost use Rattle.cip_search.specs.HeadlineExamples.{Examples};
ghost use Rattle.cip_search.specs.HeadlineStatements.{FiguresAreTrue, EndsExclude, BudgetsSuffice, RaysExcludeBounds};

/// The figures that are printed of a right answer of a search within a budget of at least one node are true of the
/// program, beside the log of the search.
pub fn figures_are_true()
    ensures { FiguresAreTrue }
{}

/// Optimal, infeasible, spent node budget, reached gap and shown overflow: what two of these say never holds at once,
/// where the budget is at least one node.
pub fn ends_exclude()
    ensures { EndsExclude }
{}

/// A node budget of max(1, 2n-1) is never spent over a box with n leaves.
pub fn budgets_suffice()
    ensures { BudgetsSuffice }
{}

/// Where the cost falls without end along a ray, no number is a lower bound.
pub fn rays_exclude_bounds()
    ensures { RaysExcludeBounds }
{}

/// Of a program along whose second column the cost falls without end a ray is shown that way, and not the other way or
/// without a point; and of a program whose only leaf is wide by its first move that is shown once its node was put
/// aside, by one move and not by two.
pub fn examples()
    ensures { Examples }
{}
