//! Programs that fall into blocks: points of blocks and mixtures of them, what these cost at least (the Lagrangian
//! bound), when a mixture is least, and trees that bound a block. `specs/` holds the definitions.
// Each function here does nothing. Its contract is one of the laws of the definitions, so that the check proves it.
#![tactic(auto)]

pub mod master_laws;

ghost use Rattle.cip_pricing.specs.Examples.{Examples};
ghost use Rattle.cip_pricing.specs.Statements.{PointsFallIntoParts, FeasiblePointsMix, RestsAreFormed, LeastCostsAreShown, LagrangianBoundHolds, PricingCloses, TreesBound, MasterPointsMix};

/// A linear form is the sum of its parts on the columns of no block and on those of each block, and a row of a block
/// has one activity at a point and, renumbered, at the block's part of the point.
pub fn points_fall_into_parts()
    ensures { PointsFallIntoParts }
{}

/// At a feasible point in a box each block's part is a point of the block, and the point is a mixture that satisfies
/// the master rows.
pub fn feasible_points_mix()
    ensures { FeasiblePointsMix }
{}

/// What multipliers leave of the costs: all of them without multipliers, each further row times its multiplier less,
/// and no other list.
pub fn rests_are_formed()
    ensures { RestsAreFormed }
{}

/// Each mixture that satisfies the master rows costs at least what multipliers and prices show; where that is above 0
/// at costs 0, there is no such mixture.
pub fn least_costs_are_shown()
    ensures { LeastCostsAreShown }
{}

/// No feasible point in the box costs less than the Lagrangian bound: the constant, the sides times their multipliers,
/// the least of what is left on the columns of no block, and a bound of each block. Where a block has no point, no
/// feasible point lies in the box.
pub fn lagrangian_bound_holds()
    ensures { LagrangianBoundHolds }
{}

/// A mixture of held points is least among all mixtures that satisfy the master rows where multipliers show that it is
/// among those of held points, and the prices are bounds of all points of the blocks; then no feasible point in the box
/// costs less. Where there is no mixture of held points at the same prices, no feasible point lies in the box.
pub fn pricing_closes()
    ensures { PricingCloses }
{}

/// The lesser of two bounds of the halves of a node is one of the node, and a bound of the node that a block gives is
/// one of the block's points.
pub fn trees_bound()
    ensures { TreesBound }
{}

/// A point of the master program is a mixture, at which each linear form has the sum that it has in the master; and
/// a bound of its reduced costs is what multipliers and prices show.
pub fn master_points_mix()
    ensures { MasterPointsMix }
{}

/// Two blocks with a row each and a master row: points of them, a mixture, and the bounds at multiplier 0, as worked
/// out by hand.
pub fn examples()
    ensures { Examples }
{}
