//! Laws of trees: each function does nothing, and its contract is a law.
ghost use Rattle.cip_lagrange.specs.TreeMeaning.{TreesBoundNodes, HalvesHaveWholes};

/// Over rows alone, what a tree's answer says is a bound of the node's points, or that there is none.
pub fn trees_bound_nodes()
    ensures { TreesBoundNodes }
{}

/// Sides can be halved at a number exactly where that has a size of at most 2^101, and each half has a whole value.
pub fn halves_have_wholes()
    ensures { HalvesHaveWholes }
{}
