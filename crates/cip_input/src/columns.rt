//! The columns of a program that is drawn: their names, sides and costs.
ghost use Rattle.std.specs.Prelude.{◌≡◌, map, replicate, IfOk, OnOk};
ghost use Rattle.std.specs.List.{range_with_len};
ghost use Rattle.cip_input.specs.Generated.{cost_from, state_after, name_of, zero_to_three};

use crate::draws::Draws;
use cip_frac::Frac;
use cip_lin::{Bounds, Sides};
use cip_model::Names;
use itoa::Buffer;
use std::alloc::{AllocError, Global};

/// The costs of so many columns, in the minimised form, from the next draws.
pub(crate) fn drawn_costs(
    alloc: Global,
    draws: &mut Draws,
    columns: usize,
) -> Result<Vec<Frac>, AllocError>
    ensures costs { IfOk result
        (λ costs. costs.items ≡ map (cost_from draws.old.state) (range_with_len 0 columns)) }
    ensures state { OnOk result (draws.new.state ≡ state_after columns draws.old.state) }
{
    let mut costs = Vec::new(alloc);
    for _column in 0..columns {
        let cost = 1 + draws.draw() % 20;
        costs.push(Frac::from(cost as i64).neg())?;
    }
    Ok(costs)
}

/// A letter with a number behind it.
fn name_with(alloc: Global, letter: u8, number: usize) -> Result<Vec<u8>, AllocError>
    ensures { IfOk result (λ name. name.items ≡ name_of letter number) }
{
    let mut name = Vec::new(alloc);
    let mut digits = Buffer::new();
    name.push(letter)?;
    name.extend_from_slice(digits.format(number as u64).as_bytes())?;
    Ok(name)
}

/// So many names: a letter with the numbers from 0 behind it.
pub(crate) fn numbered_names(alloc: Global, letter: u8, count: usize) -> Result<Names, AllocError>
    ensures { IfOk result (λ names. names ≡ map (name_of letter) (range_with_len 0 count)) }
{
    let mut names = Names::new(alloc);
    for number in 0..count {
        let Ok(name) = name_with(alloc, letter, number) else {
            drop(names);
            return Err(AllocError);
        };
        let Ok(()) = names.add(name) else {
            drop(names);
            return Err(AllocError);
        };
    }
    Ok(names)
}

/// The sides of so many columns, each from 0 to 3.
pub(crate) fn column_sides(alloc: Global, columns: usize) -> Result<Bounds, AllocError>
    ensures { IfOk result (λ bounds. bounds ≡ replicate columns zero_to_three) }
{
    let mut bounds = Bounds::new(alloc, 0)?;
    for _column in 0..columns {
        let sides = Sides {
            low: Some(Frac::zero()),
            high: Some(Frac::from(3)),
        };
        let Ok(()) = bounds.push(sides) else {
            drop(bounds);
            return Err(AllocError);
        };
    }
    Ok(bounds)
}
