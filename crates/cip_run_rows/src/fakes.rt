//! Plugins that do as a line says, and tell nothing.
ghost use Rattle.std.specs.Prelude.{[], None, string_bytes};

use crate::acts::Act;
use crate::draws::Draws;
use crate::plugs::Plug;
use cip_events::{Event, EventMask};
use cip_frac::Frac;
use cip_plugin::{
    BranchRule, ConsHandler, Cut, Enforced, EventHandler, Guess, Heuristic, Plugin, Propagator,
    Reduction, Separator, Split, View, Wish,
};
use std::alloc::{AllocError, Global};

/// A plugin of any kind.
#[derive(Drop)]
pub struct Fake {
    name: String,
    rank: i32,
    act: Act,
    /// How often it does so; then it gives nothing.
    left: u32,
    draws: Draws,
    mask: EventMask,
    wishes: [Option<Wish>; 10],
}

/// Puts the rows of an act at the end of a list.
fn put_cuts(alloc: Global, act: Act, cuts: &mut Vec<Cut>) -> Result<(), AllocError> {
    let Act::Cuts {
        count,
        round,
        local,
        mix,
    } = act
    else {
        return Ok(());
    };
    for _ in 0..count {
        cuts.reserve(1)?;
        let combo = mix.combo(alloc)?;
        cuts.push_reserved(Cut {
            combo,
            round,
            local,
            split: None,
        });
    }
    Ok(())
}

/// The rows of an act.
fn cuts_of(alloc: Global, act: Act) -> Result<Vec<Cut>, AllocError> {
    let mut cuts = Vec::new(alloc);
    if put_cuts(alloc, act, &mut cuts).is_err() {
        drop(cuts);
        return Err(AllocError);
    }
    Ok(cuts)
}

/// The side of an act, if it is one.
fn side_of(alloc: Global, act: Act) -> Result<Option<Reduction>, AllocError> {
    match act {
        Act::Side {
            col,
            side,
            value,
            mix,
        } => Ok(Some(Reduction {
            col,
            side,
            value,
            combo: mix.combo(alloc)?,
        })),
        _ => Ok(None),
    }
}

/// The sides of an act: one, or none.
fn sides_of(alloc: Global, act: Act) -> Result<Vec<Reduction>, AllocError> {
    let mut sides = Vec::new(alloc);
    if let Some(side) = side_of(alloc, act)? {
        sides.push(side)?;
    }
    Ok(sides)
}

/// The values of a point: so many, the first one and all others.
fn values_of(alloc: Global, count: u32, first: Frac, rest: Frac) -> Result<Vec<Frac>, AllocError> {
    let mut values = Vec::new(alloc);
    for at in 0..count {
        values.push(if at == 0 { first } else { rest })?;
    }
    Ok(values)
}

/// The values of a point, rounded down.
fn rounded(alloc: Global, point: &[Frac]) -> Result<Vec<Frac>, AllocError> {
    let mut values = Vec::new(alloc);
    for value in point {
        values.push(value.rounded_down())?;
    }
    Ok(values)
}

/// The values of the point of an act, if it has one.
fn point_of(alloc: Global, act: Act, view: &View<'_>) -> Result<Option<Vec<Frac>>, AllocError> {
    match act {
        Act::Point { count, first, rest } => Ok(Some(values_of(alloc, count, first, rest)?)),
        Act::Floor => Ok(Some(rounded(alloc, view.point.unwrap_or(&[]))?)),
        _ => Ok(None),
    }
}

/// The points of an act: one, or none.
fn points_of(alloc: Global, act: Act, view: &View<'_>) -> Result<Vec<Guess>, AllocError> {
    let point = point_of(alloc, act, view)?;
    let mut points = Vec::new(alloc);
    if let Some(values) = point {
        points.reserve(1)?;
        points.push_reserved(Guess { values });
    }
    Ok(points)
}

/// What an act says of a point.
fn said_of(alloc: Global, act: Act) -> Result<Enforced, AllocError> {
    match act {
        Act::Cutoff(mix) => Ok(Enforced::Cutoff(mix.combo(alloc)?)),
        Act::Split(split) => Ok(Enforced::Branched(split)),
        Act::Infeasible => Ok(Enforced::Infeasible),
        _ => Ok(Enforced::Feasible),
    }
}

impl Fake {
    /// The plugin that a line says.
    pub fn new(alloc: Global, plug: &Plug<'_>) -> Result<Fake, AllocError> {
        Ok(Fake {
            name: String::from_str(alloc, plug.name)?,
            rank: plug.rank,
            act: plug.doing.act,
            left: plug.times,
            draws: Draws {
                seed: plug.doing.seed,
            },
            mask: plug.doing.mask,
            wishes: plug.doing.wishes,
        })
    }

    /// Whether it has the memory for a call.
    fn answers(&mut self) -> Result<(), AllocError> {
        match self.act {
            Act::WantsMemory => Err(AllocError),
            Act::Random if self.draws.below(16) == 0 => Err(AllocError),
            _ => Ok(()),
        }
    }

    /// What it does at this call, one of those that are counted.
    fn next(&mut self) -> Act {
        match self.left.checked_sub(1) {
            None => Act::Nothing,
            Some(left) => {
                self.left = left;
                self.act
            }
        }
    }

    /// Whether it gives something at random.
    fn is_random(&self) -> bool {
        matches!(self.act, Act::Random)
    }
}

impl Plugin for Fake {
    ghost told = { λ _. None };

    ghost label = { λ fake. string_bytes fake.name };

    fn name(&self) -> &str {
        self.name.as_str()
    }

    fn priority(&self) -> i32 {
        self.rank
    }

    fn init(&mut self, _alloc: Global) -> Result<(), AllocError> {
        self.answers()
    }

    fn init_solve(&mut self, _alloc: Global, _view: &View<'_>) -> Result<(), AllocError> {
        self.answers()
    }

    fn exit_solve(&mut self) {}

    fn exit(&mut self) {}
}

impl Separator for Fake {
    fn separate(&mut self, alloc: Global, _view: &View<'_>) -> Result<Vec<Cut>, AllocError> {
        self.answers()?;
        let act = match self.next() {
            Act::Random => self.draws.cuts(),
            act => act,
        };
        cuts_of(alloc, act)
    }
}

impl Propagator for Fake {
    fn propagate(&mut self, alloc: Global, _view: &View<'_>) -> Result<Vec<Reduction>, AllocError> {
        self.answers()?;
        let act = match self.next() {
            Act::Random => self.draws.side(),
            act => act,
        };
        sides_of(alloc, act)
    }
}

impl Heuristic for Fake {
    fn search(&mut self, alloc: Global, view: &View<'_>) -> Result<Vec<Guess>, AllocError> {
        self.answers()?;
        let act = match self.next() {
            Act::Random => self.draws.point(view.costs.len().min(9) as u32),
            act => act,
        };
        points_of(alloc, act, view)
    }
}

impl BranchRule for Fake {
    fn branch(&mut self, _alloc: Global, _view: &View<'_>) -> Result<Option<Split>, AllocError> {
        self.answers()?;
        let act = match self.next() {
            Act::Random => self.draws.split(),
            act => act,
        };
        match act {
            Act::Split(split) => Ok(Some(split)),
            _ => Ok(None),
        }
    }
}

/// A handler does what it does as it is asked about a point; one that does so at random, at each call.
impl ConsHandler for Fake {
    fn enforce(&mut self, alloc: Global, _view: &View<'_>) -> Result<Enforced, AllocError> {
        self.answers()?;
        let act = match self.next() {
            Act::Random => self.draws.verdict(),
            act => act,
        };
        if let Some(cut) = cuts_of(alloc, act)?.pop() {
            return Ok(Enforced::Separated(cut));
        }
        if let Some(side) = side_of(alloc, act)? {
            return Ok(Enforced::Reduced(side));
        }
        said_of(alloc, act)
    }

    fn separate(&mut self, alloc: Global, _view: &View<'_>) -> Result<Vec<Cut>, AllocError> {
        self.answers()?;
        if self.is_random() {
            return cuts_of(alloc, self.draws.cuts());
        }
        Ok(Vec::new(alloc))
    }

    fn propagate(&mut self, alloc: Global, _view: &View<'_>) -> Result<Vec<Reduction>, AllocError> {
        self.answers()?;
        if self.is_random() {
            return sides_of(alloc, self.draws.side());
        }
        Ok(Vec::new(alloc))
    }
}

impl EventHandler for Fake {
    fn interest(&self) -> EventMask {
        self.mask
    }

    fn on_event(
        &mut self,
        alloc: Global,
        _event: &Event,
        _view: &View<'_>,
    ) -> Result<Vec<Wish>, AllocError> {
        self.answers()?;
        let mut wishes = Vec::new(alloc);
        if self.is_random() {
            wishes.push(self.draws.wish())?;
            return Ok(wishes);
        }
        for wish in self.wishes {
            if let Some(wish) = wish {
                wishes.push(wish)?;
            }
        }
        Ok(wishes)
    }
}
