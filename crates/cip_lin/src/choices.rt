//! What is chosen of columns: a semi-continuous one is 0 or between its own sides, and the choice is open, off or on.
ghost use Rattle.std.specs.Prelude.{◌≡◌, ◌++◌, ◌∷◌, [], ◌↔◌, IsTrue, length, slice_set, IfOk, OnOk, OnErr};
ghost use Rattle.cip_problem.specs.Program as problem;
ghost use Rattle.cip_problem.specs.Choices.{choice_at, is_open, is_on, Allows};
ghost use Rattle.cip_lin.specs.ChoiceParts.{made_choice, own_if_open, is_allowed, is_plain};

use crate::boxes::Sides;
use cip_frac::Frac;
use std::alloc::{AllocError, Global};
use std::marker::Model;

// The kinds of choices.
#[derive(Clone, Copy)]
enum Kind {
    Plain,
    Open(Sides),
    Off,
    On,
}

/// What is chosen of a column. A plain column has no choice. A semi-continuous one has the value 0, or one between its
/// own sides: its choice is open, with these sides, or off, at 0, or on, between them.
#[derive(Clone, Copy)]
pub struct Choice {
    kind: Kind,
}

impl Model for Choice {
    ghost use Rattle.cip_problem.specs.Program as problem;
    ghost use Rattle.cip_problem.specs.Codes.{choice_code};

    ghost Value = { problem.Choice };

    ghost coded = { choice_code };

    ghost use Rattle.cip_lin.specs.ChoiceKinds.{choice_of, inside_of, inside_back};

    ghost view = { λ c. choice_of c.kind };

    ghost inverse = { inside_of };

    ghost inverse_ok = { λ a h. inside_back a };
}

impl Choice {
    /// That of a plain column.
    pub fn plain() -> Choice
        ensures { result ≡ problem.Plain }
    {
        Choice { kind: Kind::Plain }
    }

    /// An open one of a column with these own sides.
    pub fn open(own: Sides) -> Choice
        ensures { result ≡ problem.Open own }
    {
        Choice {
            kind: Kind::Open(own),
        }
    }

    /// One that is made: on or off.
    pub fn made(on: bool) -> Choice
        ensures { result ≡ made_choice on }
    {
        let kind = if on { Kind::On } else { Kind::Off };
        Choice { kind }
    }

    /// The column's own sides while its choice is open, and else `None`.
    pub fn own(&self) -> Option<Sides>
        ensures { result ≡ own_if_open self.now }
    {
        match &self.kind {
            Kind::Open(own) => Some(*own),
            _ => None,
        }
    }

    /// Whether it is that of a plain column.
    pub fn is_plain(&self) -> bool
        ensures { result ≡ is_plain self.now }
    {
        match &self.kind {
            Kind::Plain => true,
            _ => false,
        }
    }

    /// Whether the choice is open.
    pub fn is_open(&self) -> bool
        ensures { result ≡ is_open self.now }
    {
        match &self.kind {
            Kind::Open(_) => true,
            _ => false,
        }
    }

    /// Whether the choice allows a value: while it is open, that is 0 or lies between the column's own sides; a choice
    /// that is made, and that of a plain column, allows each.
    pub fn allows(&self, value: Frac) -> bool
        ensures test { result ≡ is_allowed self.now value }
        ensures meaning { IsTrue result ↔ Allows self.now value }
    {
        match &self.kind {
            Kind::Open(own) => value == Frac::zero() || own.contains(value),
            _ => true,
        }
    }

    /// Whether the column is on.
    pub fn is_on(&self) -> bool
        ensures { result ≡ is_on self.now }
    {
        match &self.kind {
            Kind::On => true,
            _ => false,
        }
    }
}

/// The choices of columns, by their numbers from 0; the columns past the end are plain, so a program without
/// semi-continuous columns needs none.
#[derive(Drop)]
pub struct Choices {
    list: Vec<Choice>,
}

impl Model for Choices {
    ghost use Rattle.std.specs.Prelude.{List};
    ghost use Rattle.cip_problem.specs.Program as problem;
    ghost use Rattle.cip_problem.specs.Codes.{choices_code};

    ghost Value = { List problem.Choice };

    ghost coded = { choices_code };

    ghost view = { λ c. c.list.items };
}

impl Choices {
    /// Those of plain columns. It takes no memory.
    pub fn new(alloc: Global) -> Choices
        ensures { result ≡ [] }
    {
        Choices {
            list: Vec::new(alloc),
        }
    }

    /// How many columns have one; those after them are plain.
    pub fn len(&self) -> usize
        ensures { result ≡ length self.now }
    {
        self.list.len()
    }

    /// Whether there is none.
    pub fn is_empty(&self) -> bool
        ensures { IsTrue result ↔ (self.now ≡ []) }
    {
        self.list.is_empty()
    }

    /// The choice of a column, by its number from 0.
    pub fn at(&self, column: u32) -> Choice
        ensures { result ≡ choice_at self.now column }
    {
        match self.list.get(column as usize) {
            None => Choice::plain(),
            Some(choice) => *choice,
        }
    }

    /// Whether the choice of a column, by its number from 0, allows a value.
    pub fn allows(&self, column: u32, value: Frac) -> bool
        ensures { result ≡ is_allowed (choice_at self.now column) value }
    {
        match self.list.get(column as usize) {
            None => true,
            Some(choice) => choice.allows(value),
        }
    }

    /// The choices by column.
    pub fn as_slice(&self) -> &[Choice]
        ensures { result.now ≡ self.now }
    {
        self.list.as_slice()
    }

    /// Sets the choice of a column, by its number from 0. A column past the end stays plain.
    pub fn set(&mut self, column: u32, choice: Choice)
        ensures { self.new ≡ slice_set self.old column choice }
    {
        let at = column as usize;
        if at < self.list.len() {
            self.list[at] = choice;
        }
    }

    /// Adds the choice of the next column. `Err` comes where a growth was refused, and changes nothing.
    pub fn push(&mut self, choice: Choice) -> Result<(), AllocError>
        ensures ok { OnOk result (self.new ≡ self.old ++ choice ∷ []) }
        ensures err { OnErr result (self.new ≡ self.old) }
    {
        self.list.push(choice)?;
        Ok(())
    }

    /// The same choices by themselves; `Err` where the memory for them was refused.
    pub fn copied(&self, alloc: Global) -> Result<Choices, AllocError>
        ensures { IfOk result (λ copy. copy ≡ self.now) }
    {
        let list = self.list.as_slice().to_vec(alloc)?;
        Ok(Choices { list })
    }
}
