//! Plugins that tell nothing, what is lent to them, and what is seen of a roster.
ghost use Rattle.std.specs.Prelude.{◌≡◌, [], None, codes};

use cip_events::{Event, EventKind, EventMask, TraceLine, Word};
use cip_lin::{Bounds, Combo, Row};
use cip_model::Blocks;
use cip_plugin::{AnyPlugin, EventHandler, Guess, Heuristic, Kit, Plugin, View, Wish};
use std::alloc::{AllocError, Global};

/// A plugin that tells nothing: a heuristic that brings so many points without values, or a handler that has the same
/// wish at each event of its kind. It may want memory at each call.
#[derive(Clone, Copy, Drop)]
pub struct Fake {
    pub priority: i32,
    pub points: usize,
    pub wants_memory: bool,
    pub wish: Wish,
    pub kind: EventKind,
}

/// A heuristic that brings nothing.
pub const QUIET: Fake = Fake {
    priority: 0,
    points: 0,
    wants_memory: false,
    wish: Wish::Enable(0),
    kind: EventKind::LpSolved,
};

impl Fake {
    /// Whether it has the memory for a call.
    fn answers(&self) -> Result<(), AllocError> {
        if self.wants_memory {
            return Err(AllocError);
        }
        Ok(())
    }
}

impl Plugin for Fake {
    ghost told = { λ _. None };

    ghost label = { λ _. codes "fake" };

    fn name(&self) -> &str {
        "fake"
    }

    fn priority(&self) -> i32 {
        self.priority
    }

    fn init(&mut self, _alloc: Global) -> Result<(), AllocError> {
        self.answers()
    }

    fn init_solve(&mut self, _alloc: Global, _view: &View<'_>) -> Result<(), AllocError> {
        self.answers()
    }

    fn exit_solve(&mut self) {}

    fn exit(&mut self) {}
}

impl Heuristic for Fake {
    fn search(&mut self, alloc: Global, _view: &View<'_>) -> Result<Vec<Guess>, AllocError> {
        self.answers()?;
        let mut guesses = Vec::new(alloc);
        for _ in 0..self.points {
            guesses.push(Guess {
                values: Vec::new(alloc),
            })?;
        }
        Ok(guesses)
    }
}

impl EventHandler for Fake {
    fn interest(&self) -> EventMask {
        EventMask::empty().with(self.kind)
    }

    fn on_event(
        &mut self,
        alloc: Global,
        _event: &Event,
        _view: &View<'_>,
    ) -> Result<Vec<Wish>, AllocError> {
        let mut wishes = Vec::new(alloc);
        wishes.push(self.wish)?;
        Ok(wishes)
    }
}

/// What is lent of a program without rows and columns.
#[derive(Drop)]
pub struct Lent {
    bounds: Bounds,
    cutoff: Option<Row>,
    combo: Option<Combo>,
    blocks: Option<Blocks>,
}

impl Lent {
    /// No side, no row, no combination and no blocks.
    pub fn new(alloc: Global) -> Result<Lent, AllocError> {
        Ok(Lent {
            bounds: Bounds::new(alloc, 0)?,
            cutoff: None,
            combo: None,
            blocks: None,
        })
    }

    /// It is lent at node 7.
    pub fn view(&self) -> View<'_> {
        View {
            node: 7,
            bounds: &self.bounds,
            root: &self.bounds,
            own: &[],
            pool: &[],
            cutoff: &self.cutoff,
            whole: &[],
            costs: &[],
            point: None,
            combo: self.combo.as_ref(),
            held: None,
            guess: None,
            blocks: self.blocks.as_ref(),
        }
    }
}

/// A kit without plugins.
pub fn empty_kit(alloc: Global) -> Kit
    ensures start { result.start.items ≡ [] }
    ensures shelf { result.shelf.items ≡ [] }
{
    Kit {
        start: Vec::new(alloc),
        shelf: Vec::new(alloc),
        spent: Vec::new(alloc),
    }
}

/// Puts heuristics behind plugins.
pub fn add_finders(
    plugins: &mut Vec<AnyPlugin>,
    alloc: Global,
    fakes: &[Fake],
) -> Result<(), AllocError> {
    for fake in fakes {
        plugins.push(AnyPlugin::Heuristic(Box::new(alloc, *fake)?))?;
    }
    Ok(())
}

/// Puts event handlers behind plugins, each with its wish and the kind of its events.
pub fn add_wishers(
    plugins: &mut Vec<AnyPlugin>,
    alloc: Global,
    wishes: &[(Wish, EventKind)],
) -> Result<(), AllocError> {
    for at in 0..wishes.len() {
        let (wish, kind) = wishes[at];
        let fake = Fake {
            wish,
            kind,
            ..QUIET
        };
        plugins.push(AnyPlugin::EventHandler(Box::new(alloc, fake)?))?;
    }
    Ok(())
}

/// The text of a word; of a fault, its name.
fn text_of(word: Word) -> &'static str {
    match word {
        Word::Refused(fault) => fault,
        other => other.text(),
    }
}

/// Whether a trace has exactly these lines, each a number and the text of its word or the name of its fault.
pub fn says(trace: &[TraceLine], wanted: &[(u32, &'static str)]) -> bool {
    if trace.len() != wanted.len() {
        return false;
    }
    for i in 0..wanted.len() {
        let (id, text) = wanted[i];
        if trace[i].id != id || text_of(trace[i].word) != text {
            return false;
        }
    }
    true
}
