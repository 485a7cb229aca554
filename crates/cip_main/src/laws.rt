//! Laws of what is left of a search. Each function does nothing: its contract is the law, so that the check proves it.
ghost use Rattle.cip_main.specs.Statements.{BoundsAreTold, PointsAreTold};

/// The log of a search and the point that is printed tell the bound: no two figures that leave out nothing differ in
/// it, after infeasible and unbounded aside.
pub fn bounds_are_told()
    ensures { BoundsAreTold }
{}

/// Once the root is closed, figures that leave out nothing have a point wherever one is feasible.
pub fn points_are_told()
    ensures { PointsAreTold }
{}
