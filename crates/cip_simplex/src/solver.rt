//! What is kept from one linear program to the next.
use cip_dict::{Frac, Spare};
use cip_lin::Sides;
use std::alloc::Global;

/// Solves linear programs one after another: the lists of each are kept and filled anew for the next one, so that
/// little is allocated. What they held is of no account.
#[derive(Drop)]
pub struct Solver {
    pub(crate) spare: Spare,
    pub(crate) entries: Vec<(u32, u32, Frac)>,
    pub(crate) sides: Vec<Sides>,
}

impl Solver {
    /// With no lists so far.
    pub fn new(alloc: Global) -> Solver {
        Solver {
            spare: Spare::new(alloc),
            entries: Vec::new(alloc),
            sides: Vec::new(alloc),
        }
    }
}
