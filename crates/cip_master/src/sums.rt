//! What rows and costs come to at a point of a block.
ghost use Rattle.std.specs.Prelude.{◌≡◌, ◌==◌, ◌<◌, None, Some, length, slice_index_or, All, IfOk};
ghost use Rattle.cip_rational.specs.Rational.{zeroℚ};
ghost use Rattle.cip_rational.specs.Sums.{dot};
ghost use Rattle.cip_frac.specs.Outcomes.{dot_from, product_added};
ghost use Rattle.cip_problem.specs.Activity.{StandsBelow, value_at};
ghost use Rattle.cip_pricing.specs.Decomposition.{same_owner};
ghost use Rattle.cip_lagrange.specs.Numbers.{found};
ghost use Rattle.cip_master.specs.BlockSums.{block_added, block_sum};

use cip_frac::{Frac, Wide};
use cip_lin::Term;

/// A value of a list; 0 past its end.
#[tactic(auto, using(std::proofs::lemmas::List::get_or_past))]
fn value_at(values: &[Frac], at: usize) -> Frac
    ensures { result ≡ value_at values.now at }
{
    if at < values.len() {
        values[at]
    } else {
        Frac::zero()
    }
}

/// Whether an owner is this block.
fn is_of_block(owner: Option<u32>, block: u32) -> bool
    ensures { result ≡ same_owner owner (Some block) }
{
    match owner {
        Some(own) => own == block,
        None => false,
    }
}

/// Whose a column is.
pub(crate) fn owner_at(owners: &[Option<u32>], at: usize) -> Option<u32>
    requires { at < length owners.now }
    ensures { result ≡ slice_index_or owners.now at None }
{
    owners[at]
}

/// A sum with the product of a term at values of a block added, where the term stands on a column of the block.
fn add_term(
    sum: Frac,
    term: Term,
    owners: &[Option<u32>],
    places: &[u32],
    block: u32,
    values: &[Frac],
) -> Result<Frac, Wide>
    requires stands { term.column < length owners.now }
    requires places { length places.now ≡ length owners.now }
    ensures { result ≡ block_added owners.now places.now block values.now term sum }
{
    let at = term.col as usize;
    if is_of_block(owner_at(owners, at), block) {
        let value = value_at(values, places[at] as usize);
        sum.plus_product(term.coef, value)
    } else {
        Ok(sum)
    }
}

/// What terms on a block's columns come to at values of the block; the first operation that overflows.
pub(crate) fn block_sum(
    terms: &[Term],
    owners: &[Option<u32>],
    places: &[u32],
    block: u32,
    values: &[Frac],
) -> Result<Frac, Wide>
    requires stands { StandsBelow (length owners.now) terms.now }
    requires places { length places.now ≡ length owners.now }
    ensures { result ≡ block_sum owners.now places.now block values.now terms.now zeroℚ }
{
    let mut sum = Frac::zero();
    for term in terms {
        match add_term(sum, *term, owners, places, block, values) {
            Ok(more) => sum = more,
            Err(wide) => return Err(wide),
        }
    }
    Ok(sum)
}

/// A sum with the product of the number at a place and of a value added.
fn plus_product_at(sum: Frac, form: &[Frac], at: u32, value: Frac) -> Result<Frac, Wide>
    requires { at < length form.now }
    ensures { result ≡ product_added sum (value_at form.now at) value }
{
    sum.plus_product(form[at as usize], value)
}

/// A sum with the products of the numbers at these places and of values added, one after another, as far as both go;
/// the first operation that overflows.
#[tactic(auto, using(crate::proofs::NumberSums::sum_opened, crate::proofs::NumberSums::sum_ended))]
fn numbers_sum(numbers: &[u32], form: &[Frac], values: &[Frac]) -> Result<Frac, Wide>
    requires { All (λ number. number < length form.now) numbers.now }
    ensures { result ≡ dot_from zeroℚ (found form.now numbers.now) values.now }
{
    let mut sum = Frac::zero();
    for at in 0..numbers.len() {
        if at >= values.len() {
            return Ok(sum);
        }
        match plus_product_at(sum, form, numbers[at], values[at]) {
            Ok(more) => sum = more,
            Err(wide) => return Err(wide),
        }
    }
    Ok(sum)
}

/// What a linear form on a program's columns comes to at values of those with these numbers, by rising number; the
/// first operation that overflows.
#[tactic(auto, using(crate::proofs::NumberSums::sum_value))]
pub fn part_sum(form: &[Frac], numbers: &[u32], values: &[Frac]) -> Result<Frac, Wide>
    requires { All (λ number. number < length form.now) numbers.now }
    ensures steps { result ≡ dot_from zeroℚ (found form.now numbers.now) values.now }
    ensures value { IfOk result (λ sum. sum ≡ dot (found form.now numbers.now) values.now) }
{
    numbers_sum(numbers, form, values)
}
