//! No plugins at all.
ghost use Rattle.std.specs.Prelude.{◌≡◌, ◌∷◌, [], OnOk, OnErr};
ghost use Rattle.cip_events.specs.declared.words.Word.TheVariants as say;
ghost use Rattle.cip_plugin.specs.Steps.{Runs, Notes};
ghost use Rattle.cip_roster.specs.Turns.{IsSound};

use crate::asks::{Asks, Round, Turn};
use cip_events::{EventQueue, TraceLine};
use cip_plugin::{Given, View};
use cip_roster::Seated;
use std::alloc::{AllocError, Global};

/// What is asked and told where there are no plugins: nobody.
#[derive(Clone, Copy, Drop)]
pub struct NoPlugins;

impl Seated for NoPlugins {
    ghost use Rattle.std.specs.Prelude.{[], false};
    ghost use Rattle.cip_roster.specs.KeptRankings.{no_room};

    ghost state = { λ none. record { seats = []; places = []; names = []; lines = []; kept = false } };

    ghost room = { λ none. no_room };

    fn trace(&self) -> &[TraceLine] {
        &[]
    }
}

impl Asks for NoPlugins {
    fn has_none(&self) -> bool {
        true
    }

    fn ask_all(
        &mut self,
        alloc: Global,
        round: Round,
        view: &View<'_>,
    ) -> Result<Vec<(u32, Given)>, AllocError> {
        let _ = round;
        let _ = view;
        Ok(Vec::new(alloc))
    }

    fn ask_next(
        &mut self,
        alloc: Global,
        turn: Turn,
        after: Option<u32>,
        view: &View<'_>,
    ) -> Result<Option<(u32, Option<Given>)>, AllocError> {
        let _ = alloc;
        let _ = turn;
        let _ = after;
        let _ = view;
        Ok(None)
    }

    fn note_refused(&mut self, id: u32, fault: &'static str) -> Result<(), AllocError>
        ensures sound { IsSound (⟦<NoPlugins as Seated>⟧.state self.new) (⟦<NoPlugins as Seated>⟧.room self.new) }
        ensures noted { OnOk result (Runs (⟦<NoPlugins as Seated>⟧.state self.old)
            (Notes id (say.Refused fault.entry) ∷ []) (⟦<NoPlugins as Seated>⟧.state self.new)) }
        ensures same { OnErr result (⟦<NoPlugins as Seated>⟧.state self.new ≡ ⟦<NoPlugins as Seated>⟧.state self.old) }
    {
        let _ = id;
        let _ = fault;
        Err(AllocError)
    }

    fn tell(
        &mut self,
        alloc: Global,
        queue: &mut EventQueue,
        view: &View<'_>,
    ) -> Result<(), AllocError> {
        let _ = view;
        *queue = EventQueue::new(alloc);
        Ok(())
    }
}
