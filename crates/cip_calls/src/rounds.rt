//! Rounds in which all plugins of a kind are asked.
ghost use Rattle.std.specs.Prelude.{◌≡◌, ◌≢◌, ◌∷◌, [], map, IfOk, OnOk};
ghost use Rattle.cip_events.specs.Events.{event_at};
ghost use Rattle.cip_events.specs.declared.events.EventKind.TheVariants.{NodeFocused};
ghost use Rattle.cip_plugin.specs.Calls.{OnEvent, Propagate};
ghost use Rattle.cip_roster.specs.Turns.{IsSound};
ghost use Rattle.cip_roster.specs.Wished.{Ran};
ghost use Rattle.cip_calls.specs.ProposalsJudged.{IsShownEmpty};
ghost use Rattle.cip_calls.specs.Asked.{ask_in};
ghost use Rattle.cip_calls.specs.Noted.{IsReady, IsSameNode, HasCome};
ghost use Rattle.cip_calls.specs.Served.{Used};
ghost use Rattle.cip_calls.specs.declared.asks.Round.TheVariants.{Cuts as OfCuts, Sides as OfSides};
ghost use Rattle.cip_calls.specs.declared.judging.Came.TheVariants.{Quiet, Emptied};

use crate::Core;
use crate::asks::{Asks, Round};
use crate::judging::Came;
use crate::plugins::{Last, Plugins, put, view_of};
use cip_events::{Event, EventKind};
use cip_tree::Node;
use std::alloc::{AllocError, Global};

// The most rounds in which sides are asked for, each time.
const MOST_ROUNDS: u32 = 20;

/// What came of rounds, by the first and the last of them.
fn came_in_rounds(first: Came, last: Came) -> Came
    ensures emptied { result ≡ Emptied → last ≡ Emptied }
    ensures others { result ≢ Emptied → last ≢ Emptied }
{
    match last {
        Came::Emptied => Came::Emptied,
        Came::Accepted => Came::Accepted,
        Came::Quiet => match first {
            Came::Accepted => Came::Accepted,
            _ => Came::Quiet,
        },
    }
}

impl<R: Asks> Plugins<R> {
    /// Asks all plugins of a round, while a node is in work, and judges what they propose, in their order; of the last
    /// linear program of the node they see what is lent. `Emptied` comes of sides alone: the node has no improving
    /// point, and what was proposed behind that wasn't looked at. Cuts and points leave the node's region; and sides,
    /// points and what is told as `Quiet` leave the pool. `Err` comes where memory was refused: what was called and
    /// accepted before it stands.
    pub fn ask_round(
        &mut self,
        alloc: Global,
        core: &mut Core<'_>,
        node: &mut Node,
        round: Round,
        last: Last<'_>,
    ) -> Result<Came, AllocError>
        requires ready { IsReady core.old node.old self.old.scratches }
        requires sound { IsSound (R.state self.old.roster) (R.room self.old.roster) }
        ensures come { HasCome core.old node.old (R.state self.old.roster) core.new node.new self.new.scratches
            (R.state self.new.roster) (R.room self.new.roster) }
        ensures used { IfOk result (λ came. came ≢ Emptied → Used (ask_in round ∷ []) (R.state self.old.roster)
            self.old.judged.items (R.state self.new.roster) self.new.judged.items) }
        ensures emptied { IfOk result (λ came. came ≡ Emptied → IsShownEmpty core.new node.new) }
        ensures node { round ≢ OfSides → IsSameNode core.old core.new node.old node.new }
        ensures rows { IfOk result (λ came. came ≡ Quiet → core.new.pool ≡ core.old.pool) }
        ensures pool { round ≢ OfCuts → core.new.pool ≡ core.old.pool }
        ensures sides { IfOk result (λ came. came ≡ Emptied → round ≡ OfSides) }
    {
        if self.roster.has_none() {
            return Ok(Came::Quiet);
        }
        let gave = self
            .roster
            .ask_all(alloc, round, &view_of(core, node.id(), last, &self.guess))?;
        let came = self.take_all(core, node, round, gave.as_slice());
        drop(gave);
        came
    }

    /// Asks for sides, while a node is in work, in rounds: after one in which none was accepted, or after 20, none
    /// follows. What is answered, and when, is as with `ask_round`; `Accepted` comes where a side was in any round.
    pub fn propagate(
        &mut self,
        alloc: Global,
        core: &mut Core<'_>,
        node: &mut Node,
        last: Last<'_>,
    ) -> Result<Came, AllocError>
        requires ready { IsReady core.old node.old self.old.scratches }
        requires sound { IsSound (R.state self.old.roster) (R.room self.old.roster) }
        ensures come { HasCome core.old node.old (R.state self.old.roster) core.new node.new self.new.scratches
            (R.state self.new.roster) (R.room self.new.roster) }
        ensures used { IfOk result (λ came. came ≢ Emptied → Used (Propagate ∷ []) (R.state self.old.roster)
            self.old.judged.items (R.state self.new.roster) self.new.judged.items) }
        ensures emptied { IfOk result (λ came. came ≡ Emptied → IsShownEmpty core.new node.new) }
        ensures pool { core.new.pool ≡ core.old.pool }
    {
        let first = self.ask_round(alloc, core, node, Round::Sides, last)?;
        let mut newest = first;
        for _ in 1..MOST_ROUNDS {
            let Came::Accepted = newest else {
                break;
            };
            newest = self.ask_round(alloc, core, node, Round::Sides, last)?;
        }
        Ok(came_in_rounds(first, newest))
    }

    /// Tells all events that wait; plugins see what is lent of the node of this number, which is in work or was it
    /// last. `Err` comes where memory was refused: what was called before it stands.
    pub fn tell(
        &mut self,
        alloc: Global,
        core: &Core<'_>,
        node: u64,
        last: Last<'_>,
    ) -> Result<(), AllocError>
        requires sound { IsSound (R.state self.old.roster) (R.room self.old.roster) }
        ensures sound { IsSound (R.state self.new.roster) (R.room self.new.roster) }
        ensures used { OnOk result (Used (map (λ event. OnEvent event) self.old.queue) (R.state self.old.roster)
            self.old.judged.items (R.state self.new.roster) self.new.judged.items) }
        ensures run { Ran (R.state self.old.roster) (R.state self.new.roster) }
        ensures frame { (self.new.scratches ≡ self.old.scratches) × (self.new.judged ≡ self.old.judged) }
    {
        if self.roster.has_none() {
            return Ok(());
        }
        let view = view_of(core, node, last, &self.guess);
        self.roster.tell(alloc, &mut self.queue, &view)
    }

    /// Tells all that wait, and that a node was taken up, which is in work.
    pub fn focus(&mut self, alloc: Global, core: &Core<'_>, node: &Node) -> Result<(), AllocError>
        requires sound { IsSound (R.state self.old.roster) (R.room self.old.roster) }
        ensures sound { IsSound (R.state self.new.roster) (R.room self.new.roster) }
        ensures used { OnOk result (Used (OnEvent (event_at node.now.number NodeFocused) ∷ [])
            (R.state self.old.roster) self.old.judged.items (R.state self.new.roster) self.new.judged.items) }
        ensures run { Ran (R.state self.old.roster) (R.state self.new.roster) }
        ensures frame { (self.new.scratches ≡ self.old.scratches) × (self.new.judged ≡ self.old.judged) }
    {
        put(
            &mut self.queue,
            self.roster.has_none(),
            Event::at(node.id(), EventKind::NodeFocused),
        )?;
        self.tell(alloc, core, node.id(), Last::none())
    }
}
