//! The leaf of a box of the reduced program, as a leaf of the program as read.
ghost use Rattle.std.specs.Prelude.{◌≡◌, List, length, true, All, IfOk};
ghost use Rattle.cip_rational.specs.Rational.{ℚ};
ghost use Rattle.cip_rational.specs.Range.{fits_range};
ghost use Rattle.cip_problem.specs.Choices.{choice_at, is_on, made_on};
ghost use Rattle.cip_problem.specs.WellFormed.{columns};
ghost use Rattle.cip_search.specs.Leaf.{IsLeaf};
ghost use Rattle.cip_core.specs.Pairs.{IsAssignment};
ghost use Rattle.cip_core.specs.StepsBack.{whole_of_left, whole_point, LeafFitsBack, leaf_back};
ghost use Rattle.cip_core.specs.CoreStates.{IsReducedBy};
ghost use Rattle.cip_node.specs.LeafValues.{least_above, least_values};
ghost use Rattle.cip_node.specs.SolvedLeaves.{HasOneLeaf, IsLeafThere};

use cip_core::{Steps, whole_part};
use cip_frac::Frac;
use cip_leaf::{LeafAnswer, leaf};
use cip_lin::{Bounds, Choice, Choices, Sides};
use cip_model::Program;
use std::alloc::{AllocError, Global};

/// The least whole number above a low side, 0 where there is none.
fn least_whole(sides: Sides) -> Frac
    ensures { result ≡ least_above sides.low }
{
    match sides.low {
        Some(low) => low.rounded_up(),
        None => Frac::zero(),
    }
}

/// A number, which is in range as each is.
fn in_range(value: Frac) -> Frac
    ensures same { result ≡ value }
    ensures in_range { fits_range result ≡ true }
{
    let _numerator = value.numerator();
    let _denominator = value.denominator();
    value
}

/// The least whole values of the whole columns; `Err` where memory was refused.
#[tactic(auto, using(crate::proofs::OneLeaf::least_true, crate::proofs::OneLeaf::least_false))]
fn values_in(alloc: Global, whole: &[bool], sides: &[Sides]) -> Result<Vec<Frac>, AllocError>
    requires { length whole.now ≡ length sides.now }
    ensures least { IfOk result (λ values. values.items ≡ least_values whole.now sides.now) }
    ensures in_range { IfOk result (λ values. All (λ (v : ℚ). fits_range v ≡ true) values.items) }
{
    let mut values = Vec::new(alloc);
    for at in 0..whole.len() {
        if !whole[at] {
            continue;
        }
        values.push(in_range(least_whole(sides[at])))?;
    }
    Ok(values)
}

/// Whether a column is on, by its choice; one past the end of the choices is plain.
fn is_on_at(choices: &[Choice], column: usize) -> bool
    ensures { result ≡ is_on (choice_at choices.now column) }
{
    match choices.get(column) {
        None => false,
        Some(choice) => choice.is_on(),
    }
}

/// For each semi-continuous column, by rising column, whether it is on; `Err` where memory was refused.
#[tactic(auto, using(crate::proofs::MadeChoices::made_open, crate::proofs::MadeChoices::made_other))]
fn choices_made(alloc: Global, own: &[Choice], now: &[Choice]) -> Result<Vec<bool>, AllocError>
    ensures { IfOk result (λ on. on.items ≡ made_on own.now now.now) }
{
    let mut on = Vec::new(alloc);
    for at in 0..own.len() {
        if !own[at].is_open() {
            continue;
        }
        on.push(is_on_at(now, at))?;
    }
    Ok(on)
}

/// A leaf of the program as read, and what is known of it.
#[derive(Drop)]
pub(crate) struct Solved {
    pub(crate) values: Vec<Frac>,
    pub(crate) on: Vec<bool>,
    pub(crate) answer: LeafAnswer,
}

/// The values of the program's whole columns that the least ones of a box, which are a leaf of the reduced program,
/// come back as. `Err` where memory was refused.
fn values_back(
    alloc: Global,
    reduced: &Program,
    steps: &Steps,
    sides: &[Sides],
) -> Result<Vec<Frac>, AllocError>
    requires long { length sides.now ≡ columns reduced.now }
    requires leaf { IsLeaf reduced.now (least_values reduced.now.integral sides.now) }
    requires left { whole_of_left steps.now ≡ reduced.now.integral }
    requires fits { (wholes : List ℚ)
        → IsAssignment reduced.now (whole_point steps.now wholes) → LeafFitsBack steps.now wholes }
    ensures back { IfOk result (λ values.
        values.items ≡ leaf_back steps.now (least_values reduced.now.integral sides.now)) }
    ensures assigned { IfOk result (λ _. IsAssignment reduced.now
        (whole_point steps.now (least_values reduced.now.integral sides.now))) }
{
    let _columns = reduced.columns();
    let left = values_in(alloc, reduced.whole(), sides)?;
    whole_part(alloc, steps, left.as_slice())
}

/// What is known of the leaf of the program as read that the leaf of a box comes back as: one within the reduced
/// program's, in which each whole column has one whole value and no choice is open. `Err` where memory was refused.
pub(crate) fn solve_leaf(
    alloc: Global,
    program: &Program,
    reduced: &Program,
    steps: &Steps,
    bounds: &Bounds,
    choices: &Choices,
) -> Result<Solved, AllocError>
    requires one { HasOneLeaf reduced.now bounds.now choices.now }
    requires back { IsReducedBy program.now reduced.now steps.now }
    ensures { IfOk result (IsLeafThere program.now reduced.now steps.now bounds.now choices.now) }
{
    let _columns = program.columns();
    let _left = reduced.columns();
    let values = values_back(alloc, reduced, steps, bounds.as_slice())?;
    let on = choices_made(alloc, reduced.choices().as_slice(), choices.as_slice())?;
    let answer = leaf(alloc, program, values.as_slice(), on.as_slice())?;
    Ok(Solved { values, on, answer })
}
