//! The interfaces. A plugin may tell the list of its callbacks, each with its answer; nothing else is asked of it.
ghost use Rattle.std.specs.Prelude.{◌≡◌, ℕ, List, [], ◌∷◌, Option, is_ok};
ghost use Rattle.cip_plugin.specs.Calls.{Call, Asked, Init, InitSolve, ExitSolve, Exit, Separate, Propagate, Price, Search, Branch, Enforce, OnEvent};
ghost use Rattle.cip_plugin.specs.Answers.{answer, cuts, reductions, priced, guesses, splits, enforced, wishes};
ghost use Rattle.cip_plugin.specs.Telling.{Heard};

use crate::proposals::{Cut, Enforced, Guess, Reduction, Split, Wish};
use crate::views::View;
use cip_cert::Priced;
use cip_events::{Event, EventMask};
use cip_model::Frac;
use std::alloc::{AllocError, Global};

/// What every plugin has. `Err` of a callback says that memory was refused there: it counts as no answer, and ends
/// nothing. Only after such an answer a plugin that told its callbacks may end that.
pub trait Plugin: Drop {
    ghost told: { Self → Option (List Call) };

    ghost label: { Self → List ℕ };

    /// Its name, asked once as it is included.
    fn name(&self) -> &str
        ensures { result.now ≡ label self.now };

    /// Its priority, asked once as it is included: who has a higher one is called first.
    fn priority(&self) -> i32;

    /// It was included.
    fn init(&mut self, alloc: Global) -> Result<(), AllocError>
        ensures { Heard (told self.old) (Init (is_ok result) ∷ []) (told self.new) };

    /// It was included, and the search is on.
    fn init_solve(&mut self, alloc: Global, view: &View<'_>) -> Result<(), AllocError>
        ensures { Heard (told self.old) (InitSolve (is_ok result) ∷ []) (told self.new) };

    /// It is freed, or the search ends.
    fn exit_solve(&mut self)
        ensures { Heard (told self.old) (ExitSolve ∷ []) (told self.new) };

    /// It is called no more.
    fn exit(&mut self)
        ensures { Heard (told self.old) (Exit ∷ []) (told self.new) };
}

/// A plugin that brings cuts.
pub trait Separator: Plugin {
    /// Cuts, of which the search looks at the first 64.
    fn separate(&mut self, alloc: Global, view: &View<'_>) -> Result<Vec<Cut>, AllocError>
        ensures { Heard (Self.told self.old) (Asked Separate (answer result (λ v. cuts v.items)) ∷ [])
            (Self.told self.new) };
}

/// A plugin that makes sides stronger.
pub trait Propagator: Plugin {
    /// Reductions, of which the search looks at the first 64.
    fn propagate(&mut self, alloc: Global, view: &View<'_>) -> Result<Vec<Reduction>, AllocError>
        ensures { Heard (Self.told self.old) (Asked Propagate (answer result (λ v. reductions v.items)) ∷ [])
            (Self.told self.new) };
}

/// A plugin that prices blocks.
pub trait Pricer: Plugin {
    /// Points of a block at these costs of its columns, of which the search looks at the first 64, and a proof of what
    /// its points cost at least.
    fn price(
        &mut self,
        alloc: Global,
        view: &View<'_>,
        block: u32,
        costs: &[Frac],
    ) -> Result<Priced, AllocError>
        ensures { Heard (Self.told self.old) (Asked (Price block costs.now) (answer result priced) ∷ [])
            (Self.told self.new) };
}

/// A plugin that looks for points.
pub trait Heuristic: Plugin {
    /// Points of the reduced program, of which the search looks at the first 64.
    fn search(&mut self, alloc: Global, view: &View<'_>) -> Result<Vec<Guess>, AllocError>
        ensures { Heard (Self.told self.old) (Asked Search (answer result (λ v. guesses v.items)) ∷ [])
            (Self.told self.new) };
}

/// A plugin that says where a node is split.
pub trait BranchRule: Plugin {
    /// A split, if it has one.
    fn branch(&mut self, alloc: Global, view: &View<'_>) -> Result<Option<Split>, AllocError>
        ensures { Heard (Self.told self.old) (Asked Branch (answer result splits) ∷ []) (Self.told self.new) };
}

/// A plugin that keeps rows of a class.
pub trait ConsHandler: Plugin {
    /// What to do about the point of the last linear program.
    fn enforce(&mut self, alloc: Global, view: &View<'_>) -> Result<Enforced, AllocError>
        ensures { Heard (Self.told self.old) (Asked Enforce (answer result enforced) ∷ []) (Self.told self.new) };

    /// Cuts, of which the search looks at the first 64.
    fn separate(&mut self, alloc: Global, view: &View<'_>) -> Result<Vec<Cut>, AllocError>
        ensures { Heard (Self.told self.old) (Asked Separate (answer result (λ v. cuts v.items)) ∷ [])
            (Self.told self.new) };

    /// Reductions, of which the search looks at the first 64.
    fn propagate(&mut self, alloc: Global, view: &View<'_>) -> Result<Vec<Reduction>, AllocError>
        ensures { Heard (Self.told self.old) (Asked Propagate (answer result (λ v. reductions v.items)) ∷ [])
            (Self.told self.new) };
}

/// A plugin that hears of events.
pub trait EventHandler: Plugin {
    /// The kinds of events that it wants, asked once as it is included.
    fn interest(&self) -> EventMask;

    /// An event happened. It answers wishes, of which the first 64 are looked at, in their order.
    fn on_event(
        &mut self,
        alloc: Global,
        event: &Event,
        view: &View<'_>,
    ) -> Result<Vec<Wish>, AllocError>
        ensures { Heard (Self.told self.old) (Asked (OnEvent event.now) (answer result (λ v. wishes v.items)) ∷ [])
            (Self.told self.new) };
}
