//! The region in work: sides are tightened and choices made one by one, and a mark brings back what stood then.
ghost use Rattle.std.specs.Prelude.{ℕ, ◌≡◌, ◌≢◌, ◌+◌, ◌-◌, ◌<◌, ◌≤◌, [], true, ◌++◌, ◌∷◌, length, take, IfOk, OnOk, OnErr, vec_len, vec_capacity};
ghost use Rattle.cip_problem.specs.Box.{sides_at};
ghost use Rattle.cip_problem.specs.Choices.{choice_at};
ghost use Rattle.cip_domain.specs.Changes.{tightened, with_column, with_side, side_change, one_side, one_choice};
ghost use Rattle.cip_domain.specs.Domain.{region_of, region_at, KeepsMarks, stepped, tightening, after_tightening, CanChoose, choosing, after_choosing};
ghost use Rattle.cip_domain.specs.Domain.{making, is_unsettled};
ghost use Rattle.cip_domain.specs.Trail.{undone, sides_back, choice_back};
ghost use Rattle.cip_domain.specs.Narrowing.{ArePlainPast, IsNarrowed};
ghost use Rattle.cip_domain.specs.declared.stores.Tightened.TheVariants.{Yes, Empty};

use crate::changes::{Change, choice_past, is_settled, is_strong, with_value};
use crate::halves::choice_change;
use crate::regions::Region;
use cip_lin::{Bounds, Choice, Choices, Frac, Side, Sides};
use std::alloc::{AllocError, Global};
use std::marker::Model;

/// What tightening a side came to.
#[derive(Clone, Copy, PartialEq, Eq)]
pub enum Tightened {
    /// The side is the value now.
    Yes,
    /// The side was at least as strong already.
    Same,
    /// The low side would pass the high one; nothing was changed.
    Empty,
}

/// How many changes had been made, at some moment.
#[derive(Clone, Copy, PartialEq, Eq)]
pub struct Checkpoint {
    changes: usize,
}

impl Model for Checkpoint {
    ghost use Rattle.std.specs.Prelude.{ℕ};

    ghost Value = { ℕ };

    ghost view = { λ m. m.changes };

    ghost inverse = { λ n. record { changes = n } };
}

impl Checkpoint {
    /// The moment before any change.
    pub fn start() -> Checkpoint
        ensures { result ≡ 0 }
    {
        Checkpoint { changes: 0 }
    }
}

// What of a column was otherwise before a step: a side; a choice that was on; or one of the own sides of a choice that
// was open, which takes two steps.
#[derive(Clone, Copy)]
enum Was {
    Low,
    High,
    On,
    OwnLow,
    OwnHigh,
}

// A column, and what of it was otherwise before a step: of a side its value.
#[derive(Clone, Copy)]
struct Saved {
    col: u32,
    was: Was,
    value: Option<Frac>,
}

/// The sides of a column as they were before a step.
fn sides_before(was: Was, value: Option<Frac>, sides: Sides) -> Sides
    ensures { result ≡ sides_back was value sides }
{
    match was {
        Was::Low => with_value(sides, Side::Low, value),
        Was::High => with_value(sides, Side::High, value),
        _ => sides,
    }
}

/// The choice of a column as it was before a step.
fn choice_before(was: Was, value: Option<Frac>, choice: Choice) -> Choice
    ensures { result ≡ choice_back was value choice }
{
    match was {
        Was::On => Choice::made(true),
        Was::OwnLow => Choice::open(Sides {
            low: value,
            high: match choice.own() {
                Some(own) => own.high,
                None => None,
            },
        }),
        Was::OwnHigh => Choice::open(Sides {
            low: None,
            high: value,
        }),
        _ => choice,
    }
}

/// A region with its earlier states. Contracts see its box and its choices, the regions before each change that can be
/// undone, the oldest first, and for how many more changes there is room.
#[derive(Drop)]
pub struct DomainStore {
    region: Region,
    trail: Vec<Saved>,
}

impl Model for DomainStore {
    ghost use Rattle.std.specs.Prelude.{◌-◌, vec_len, vec_capacity};
    ghost use Rattle.cip_domain.specs.Domain.{Domain, domain_code};
    ghost use Rattle.cip_domain.specs.Trail.{regions_before, StandsIn};

    ghost Value = { Domain };

    ghost coded = { domain_code };

    ghost view = { λ d. record {
      box = d.region.box;
      choices = d.region.choices;
      before = regions_before d.region d.trail.items;
      spare = vec_capacity d.trail - vec_len d.trail;
    } };

    ghost invariant = { λ d. StandsIn d.region.box d.trail.items };
}

impl DomainStore {
    /// A store with this region, without earlier states and without room.
    pub fn new(alloc: Global, region: Region) -> DomainStore
        ensures { result ≡ record { box = region.box; choices = region.choices; before = []; spare = 0 } }
    {
        DomainStore {
            region,
            trail: Vec::new(alloc),
        }
    }

    /// Makes room for so many steps: one to tighten a side, and four for any other change. `Err` comes where a growth
    /// was refused. Neither changes the region or its earlier states, and the room never shrinks.
    pub fn reserve(&mut self, changes: usize) -> Result<(), AllocError>
        ensures room { OnOk result (changes ≤ self.new.spare) }
        ensures grows { self.old.spare ≤ self.new.spare }
        ensures same { self.new ≡ record self.old { spare = self.new.spare } }
    {
        self.trail.reserve(changes)
    }

    /// Gives a column other sides and another choice, of which this was otherwise.
    fn step(&mut self, col: u32, was: Was, value: Option<Frac>, sides: Sides, choice: Choice)
        requires column { col < length self.old.box }
        requires room { 0 < self.old.spare }
        requires back { undone (with_column (region_of self.old) col sides choice)
            (record { col = col; was = was; value = value }) ≡ region_of self.old }
        ensures { self.new ≡ stepped self.old col sides choice }
    {
        self.trail.push_reserved(Saved { col, was, value });
        self.region.set(col, sides, choice);
    }

    /// Gives a side of a column another value.
    fn set_side(&mut self, col: u32, side: Side, value: Option<Frac>)
        requires column { col < length self.old.box }
        requires room { 0 < self.old.spare }
        ensures { self.new ≡ stepped self.old col (with_side (sides_at self.old.box col) side value)
            (choice_at self.old.choices col) }
    {
        let sides = self.region.sides(col);
        let choice = self.region.choice(col);
        let (was, own) = match side {
            Side::Low => (Was::Low, sides.low),
            Side::High => (Was::High, sides.high),
        };
        self.step(col, was, own, with_value(sides, side, value), choice);
    }

    /// Meets a side of a column with a value, if there is one.
    fn meet(&mut self, col: u32, side: Side, value: Option<Frac>)
        requires column { col < length self.old.box }
        requires room { 0 < self.old.spare }
        ensures region { region_of self.new ≡ tightened (region_of self.old) (one_side col side value) }
        ensures marks { KeepsMarks self.old self.new }
        ensures room { self.old.spare ≤ self.new.spare + 1 }
    {
        if let Some(value) = value {
            if !is_strong(self.region.sides(col), side, value) {
                self.set_side(col, side, Some(value));
            }
        }
    }

    /// Gives a column, whose choice is open or on, another choice.
    fn set_choice(&mut self, col: u32, now: Choice)
        requires column { col < length self.old.box }
        requires room { 1 < self.old.spare }
        requires unsettled { is_unsettled (choice_at self.old.choices col) ≡ true }
        ensures region { region_of self.new
            ≡ with_column (region_of self.old) col (sides_at self.old.box col) now }
        ensures marks { KeepsMarks self.old self.new }
        ensures room { self.old.spare ≤ self.new.spare + 2 }
    {
        let sides = self.region.sides(col);
        match self.region.choice(col).own() {
            None => self.step(col, Was::On, None, sides, now),
            Some(own) => {
                let half = Choice::open(Sides {
                    low: None,
                    high: own.high,
                });
                self.step(col, Was::OwnLow, own.low, sides, half);
                self.step(col, Was::OwnHigh, own.high, sides, now);
            }
        }
    }

    /// Makes the choice of a column, if one is made and it isn't so yet.
    fn settle(&mut self, col: u32, made: Option<bool>)
        requires column { col < length self.old.box }
        requires room { 1 < self.old.spare }
        ensures region { region_of self.new ≡ tightened (region_of self.old) (one_choice col made) }
        ensures marks { KeepsMarks self.old self.new }
        ensures room { self.old.spare ≤ self.new.spare + 2 }
    {
        let choice = self.region.choice(col);
        if !is_settled(&choice, made) {
            self.set_choice(col, choice_past(choice, made));
        }
    }

    /// Makes a value a side of a column, by its number from 0, where that is stronger and leaves the box a value
    /// there. There is room for a change. `Same` comes exactly where the side is at least as strong already, `Empty`
    /// exactly where it isn't and the low side would pass the high one; both leave all as it was.
    pub fn tighten(&mut self, col: u32, side: Side, value: Frac) -> Tightened
        requires column { col < length self.old.box }
        requires room { 0 < self.old.spare }
        ensures outcome { result ≡ tightening (sides_at self.old.box col) side value }
        ensures after { self.new ≡ after_tightening result self.old col side value }
        ensures narrows { result ≢ Empty
            → region_of self.new ≡ tightened (region_of self.old) (side_change col side value) }
    {
        let sides = self.region.sides(col);
        if is_strong(sides, side, value) {
            return Tightened::Same;
        }
        if !with_value(sides, side, None).contains(value) {
            return Tightened::Empty;
        }
        self.set_side(col, side, Some(value));
        Tightened::Yes
    }

    /// Makes the choice of a semi-continuous column, by its number from 0, which is open, or the same already: its
    /// sides are met with those that the choice leaves. There is room for a change. `Same` comes exactly where the
    /// choice is made already, `Empty` exactly where it isn't and the low side would pass the high one; both leave all
    /// as it was.
    pub fn choose(&mut self, col: u32, on: bool) -> Tightened
        requires column { col < length self.old.box }
        requires room { 4 ≤ self.old.spare }
        requires choice { CanChoose (choice_at self.old.choices col) on }
        ensures outcome { result ≡ choosing (choice_at self.old.choices col) (sides_at self.old.box col) on }
        ensures same { result ≢ Yes → self.new ≡ self.old }
        ensures after { region_of self.new ≡ region_of (after_choosing result self.old col on) }
        ensures marks { KeepsMarks self.old self.new }
    {
        let Some(own) = self.region.choice(col).own() else {
            return Tightened::Same;
        };
        self.make(choice_change(col, own, on))
    }

    /// Makes a change of a column of the box. There is room for one. `Same` comes exactly where the sides of the column
    /// are at least as strong and its choice is as the change makes it, `Empty` exactly where that isn't so and the low
    /// side would pass the high one; both leave all as it was. The region at each mark so far stays.
    pub fn make(&mut self, change: Change) -> Tightened
        requires column { change.column < length self.old.box }
        requires room { 4 ≤ self.old.spare }
        ensures outcome { result ≡ making (sides_at self.old.box change.column)
            (choice_at self.old.choices change.column) change }
        ensures same { result ≢ Yes → self.new ≡ self.old }
        ensures narrows { result ≢ Empty → region_of self.new ≡ tightened (region_of self.old) change }
        ensures marks { KeepsMarks self.old self.new }
    {
        let Change { col, sides, made } = change;
        let own = self.region.sides(col);
        let choice = self.region.choice(col);
        if own.is_inside(sides) && is_settled(&choice, made) {
            return Tightened::Same;
        }
        if own.met(sides).cross() {
            return Tightened::Empty;
        }
        self.meet(col, Side::Low, sides.low);
        self.meet(col, Side::High, sides.high);
        self.settle(col, made);
        Tightened::Yes
    }

    /// Makes a change, with room of its own; whether a point can meet it. The region at each mark so far stays. `Err`
    /// comes where a growth was refused, and leaves the region as it was.
    pub fn narrow(&mut self, change: Change) -> Result<bool, AllocError>
        ensures narrowed { ArePlainPast (region_of self.old)
            → IfOk result (IsNarrowed (region_of self.old) (region_of self.new) change) }
        ensures marks { KeepsMarks self.old self.new }
        ensures err { OnErr result (region_of self.new ≡ region_of self.old) }
    {
        if change.col as usize >= self.region.bounds().len() {
            return Ok(true);
        }
        self.reserve(4)?;
        match self.make(change) {
            Tightened::Empty => Ok(false),
            _ => Ok(true),
        }
    }

    /// The mark of this moment.
    pub fn mark(&self) -> Checkpoint
        ensures { result ≡ length self.now.before }
    {
        Checkpoint {
            changes: self.trail.len(),
        }
    }

    /// Brings back the region that stood at a mark, which no earlier mark was brought back since; the later marks are
    /// gone, and the room of what is undone is free again.
    pub fn undo_to(&mut self, mark: Checkpoint)
        requires held { mark ≤ length self.old.before }
        ensures restored { region_of self.new ≡ region_at self.old mark }
        ensures before { self.new.before ≡ take mark self.old.before }
        ensures earlier { (other : ℕ) → other ≤ mark → region_at self.new other ≡ region_at self.old other }
        ensures room { self.new.spare ≡ self.old.spare + (length self.old.before - mark) }
    {
        while mark.changes < self.trail.len() {
            self.undo_last();
        }
    }

    /// Brings back the region before the last change.
    fn undo_last(&mut self)
        requires { 0 < length self.old.before }
        ensures regions { self.old.before ≡ self.new.before ++ region_of self.new ∷ [] }
        ensures room { self.new.spare ≡ self.old.spare + 1 }
    {
        if let Some(saved) = self.trail.pop() {
            let col = saved.col;
            let sides = sides_before(saved.was, saved.value, self.region.sides(col));
            let choice = choice_before(saved.was, saved.value, self.region.choice(col));
            self.region.set(col, sides, choice);
        }
    }

    /// The box.
    pub fn bounds(&self) -> &Bounds
        ensures { result.now ≡ self.now.box }
    {
        self.region.bounds()
    }

    /// The choices.
    pub fn choices(&self) -> &Choices
        ensures { result.now ≡ self.now.choices }
    {
        self.region.choices()
    }
}
