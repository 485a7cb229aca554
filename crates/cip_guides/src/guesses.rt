//! Points as guesses.
ghost use Rattle.std.specs.Prelude.{IfOk};
ghost use Rattle.cip_guides.specs.FullGuesses.{AreFull};

use cip_frac::Frac;
use cip_plugin::Guess;
use std::alloc::{AllocError, Global};

/// A point as the only guess, where it has a value for each of so many columns; else no guess.
pub(crate) fn only_guess(
    alloc: Global,
    columns: usize,
    values: Vec<Frac>,
) -> Result<Vec<Guess>, AllocError>
    ensures { IfOk result (λ guesses. AreFull columns guesses.items) }
{
    let mut guesses = Vec::new(alloc);
    if values.len() == columns {
        guesses.push(Guess { values })?;
    }
    Ok(guesses)
}
