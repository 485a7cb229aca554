//! Who is asked for points of blocks.
ghost use Rattle.std.specs.Prelude.{List, [], ◌∷◌, Option, MatchResult};
ghost use Rattle.cip_price.specs.Asks.{Told, Asks, Drops, Tells, MayTell};

use cip_cert::Priced;
use cip_frac::Frac;
use cip_lin::Bounds;
use cip_master::PointVerdict;
use std::alloc::{AllocError, Global};

/// Who prices blocks. It isn't trusted: points are tested, and what a tree says is checked. Its meaning, where it is
/// told, is the list of its asks, each with the answer, and of the points that were dropped of it.
pub trait AskPricer {
    ghost told: { Self → Option (List Told) };

    /// Points of a block, at these costs of its columns and in this box of them, and a proof of what its points cost at
    /// least; `None` where there is no answer. `Err` comes where memory was refused.
    fn ask(
        &mut self,
        alloc: Global,
        block: u32,
        costs: &[Frac],
        bounds: &Bounds,
    ) -> Result<Option<Priced>, AllocError>
        ensures { MatchResult result
            (λ answer. Tells (told self.old)
            (Asks (record { block = block; costs = costs.now; box = bounds.now; answer = answer }) ∷ [])
            (told self.new))
            (λ _. MayTell (told self.old) [] (told self.new)) };

    /// Hears that the point at this place of the last answer, for this block, was dropped, and what it breaks. `Err`
    /// comes where memory was refused.
    fn dropped(&mut self, block: u32, place: usize, verdict: PointVerdict) -> Result<(), AllocError>
        ensures { MatchResult result
            (λ _. Tells (told self.old)
            (Drops (record { block = block; place = place; verdict = verdict }) ∷ []) (told self.new))
            (λ _. MayTell (told self.old) [] (told self.new)) };
}
