//! What pricing is asked of.
use cip_lagrange::Decomposed;
use cip_lin::Bounds;
use cip_model::Program;

/// A program that falls into blocks, and a box of it, lent to pricing.
#[derive(Clone, Copy, Drop)]
pub struct PriceTask<'a> {
    /// The program.
    pub program: &'a Program,
    /// Its blocks.
    pub blocks: &'a Decomposed,
    /// The sides of each column of the program in the box.
    pub bounds: &'a Bounds,
}
