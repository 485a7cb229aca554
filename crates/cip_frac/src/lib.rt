// Exact fractions of 128 bits.
#![tactic(auto)]

mod bounded;
mod fraction;
mod gcd;
mod in_place;
mod kept;
mod operations;
mod order;
mod text;
mod words;

pub use fraction::{Frac, FracFault};
pub use gcd::short_gcd;
pub use operations::{Operation, Wide};
