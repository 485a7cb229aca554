//! The single steps of a roster of boxed plugins.
ghost use Rattle.std.specs.Prelude.{◌≡◌, ◌-◌, ◌<◌, min, vec_len, vec_capacity};
ghost use Rattle.cip_plugin.specs.Asking.{ask_of};
ghost use Rattle.cip_plugin.specs.Lives.{word_of_ask};

use crate::rosters::{Roster, Seated};
use crate::slots::{Sits, Slot};
use crate::steps::{Seats, Steps};
use cip_events::{Event, Name, TraceLine, Word};
use cip_plugin::{AnyPlugin, Given, Key, Kind, Question, Stage, Tells, View, WishFault};
use std::alloc::{AllocError, Global};
use std::marker::PhantomData;
use std::mem;

/// The most turns for whose lines room can be asked for at once.
const MOST_TURNS: usize = usize::MAX / 2;

/// The word of a question.
fn word_for(question: &Question<'_>) -> Word
    ensures { result ≡ word_of_ask (ask_of question.now) }
{
    match question {
        Question::Separate => Word::Separate,
        Question::Propagate => Word::Propagate,
        Question::Price { .. } => Word::Price,
        Question::Search => Word::Search,
        Question::Branch => Word::Branch,
        Question::Enforce => Word::Enforce,
        Question::OnEvent(_) => Word::OnEvent,
    }
}

impl Steps for Roster {
    ghost has_seat = { λ r. (vec_len r.slots < vec_capacity r.slots) × (vec_len r.names < vec_capacity r.names) };

    fn count(&self) -> usize {
        self.slots.len()
    }

    fn live(&self, id: u32) -> Result<(), WishFault> {
        match self.slots.get(id as usize) {
            None => Err(WishFault::NoSuchPlugin),
            Some(slot) => {
                if slot.is_live() {
                    Ok(())
                } else {
                    Err(WishFault::Gone)
                }
            }
        }
    }

    fn is_to_hear(&self, id: u32, event: &Event) -> bool {
        match self.slots.get(id as usize) {
            None => false,
            Some(slot) => slot.is_to_hear(event),
        }
    }

    fn is_enabled(&self, id: u32) -> bool {
        match self.slots.get(id as usize) {
            None => false,
            Some(slot) => slot.enabled,
        }
    }

    fn key(&self, named: Option<u32>) -> Option<Key> {
        match named {
            None => None,
            Some(id) => match self.slots.get(id as usize) {
                None => None,
                Some(slot) => Some(slot.key(id)),
            },
        }
    }

    fn ready_key(&self, id: u32, kind: Kind) -> Option<Key> {
        match self.slots.get(id as usize) {
            Some(slot) if slot.is_ready(kind) => Some(slot.key(id)),
            _ => None,
        }
    }

    fn holds(&self, place: u32) -> Result<(), WishFault> {
        match self.shelf.get(place as usize) {
            None => Err(WishFault::NoSuchPlace),
            Some(held) => {
                if held.is_some() {
                    Ok(())
                } else {
                    Err(WishFault::TakenPlace)
                }
            }
        }
    }

    fn reserve_turns(&mut self, turns: usize) -> Result<(), AllocError> {
        let seats = self.slots.len();
        match turns.checked_add(seats) {
            Some(sum) if sum <= MOST_TURNS => self.lines.reserve(2 * sum),
            _ => Err(AllocError),
        }
    }

    fn reserve_seat(&mut self) -> Result<(), AllocError> {
        let Ok(()) = self.reserve_turns(3) else {
            return Err(AllocError);
        };
        let Ok(()) = self.slots.reserve(1) else {
            return Err(AllocError);
        };
        self.names.reserve(1)
    }

    fn note(&mut self, id: u32, word: Word) {
        if self.kept {
            self.lines.push_reserved(TraceLine { id, word });
        }
    }

    fn init(&mut self, alloc: Global, id: u32) -> bool {
        let slot = &mut self.slots[id as usize];
        slot.stage = Stage::Begun;
        let answered = slot.plugin.init(alloc).is_ok();
        self.note(id, Word::Init);
        answered
    }

    fn init_solve(&mut self, alloc: Global, id: u32, view: &View<'_>) -> bool {
        let slot = &mut self.slots[id as usize];
        slot.stage = Stage::Playing;
        let answered = slot.plugin.init_solve(alloc, view).is_ok();
        self.note(id, Word::InitSolve);
        answered
    }

    fn exit_solve(&mut self, id: u32) {
        self.rankings.clear();
        let slot = &mut self.slots[id as usize];
        slot.stage = Stage::Left;
        slot.plugin.exit_solve();
        self.note(id, Word::ExitSolve);
    }

    fn exit(&mut self, id: u32) {
        let slot = &mut self.slots[id as usize];
        slot.stage = Stage::Gone;
        slot.plugin.exit();
        self.note(id, Word::Exit);
    }

    fn ask(
        &mut self,
        alloc: Global,
        id: u32,
        question: Question<'_>,
        view: &View<'_>,
    ) -> Result<Given, AllocError> {
        self.note(id, word_for(&question));
        self.slots[id as usize].plugin.ask(alloc, question, view)
    }

    fn switch(&mut self, id: u32, on: bool) {
        self.rankings.clear();
        self.slots[id as usize].turn(on);
        let word = if on { Word::Enabled } else { Word::Disabled };
        self.note(id, word);
    }

    fn set_priority(&mut self, id: u32, priority: i32) {
        self.rankings.clear();
        self.slots[id as usize].priority = priority;
    }

    fn come(&mut self, place: u32) {
        self.rankings.clear();
        match mem::replace(&mut self.shelf[place as usize], None) {
            None => unreachable!(),
            Some(plugin) => self.seat(plugin),
        }
    }

    fn take_ranking(&mut self, kind: Kind) -> Option<Vec<Key>> {
        self.rankings.take(kind)
    }

    fn keep_ranking(&mut self, kind: Kind, keys: Vec<Key>) {
        self.rankings.keep(kind, keys);
    }
}

impl Seats<AnyPlugin> for Roster {
    ghost spare = { λ r. min (vec_capacity r.slots - vec_len r.slots) (vec_capacity r.names - vec_len r.names) };

    fn seat(&mut self, plugin: AnyPlugin) {
        self.names.push_reserved(Name::of(plugin.name()));
        let priority = plugin.priority();
        let interest = plugin.interest();
        self.slots.push_reserved(Slot {
            plugin,
            priority,
            interest,
            stage: Stage::Fresh,
            enabled: true,
            offs: 0,
            boxes: PhantomData,
        });
    }
}
