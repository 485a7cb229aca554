//! The master program of held points as a linear program, and what its points and its multipliers say of mixtures.
//! `specs/` holds the definitions.
// Each function here does nothing. Its contract is one of the laws of the definitions, so that the check proves it.

ghost use Rattle.cip_pricing.specs.MasterExamples.{MasterExample};
ghost use Rattle.cip_pricing.specs.MasterStatements.{MasterPointsComeToMixtures, MultipliersShow};

/// A point of the master program comes to a mixture of held points that satisfies the master rows, at the same cost.
pub fn master_points_come_to_mixtures()
    ensures { MasterPointsComeToMixtures }
{}

/// Multipliers of the master program show what mixtures of held points cost at least.
pub fn multipliers_show()
    ensures { MultipliersShow }
{}

/// The master program of two blocks with one held point each, as worked out by hand.
pub fn master_example()
    ensures { MasterExample }
{}
