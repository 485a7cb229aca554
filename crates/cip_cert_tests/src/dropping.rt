//! What a pricer is told of: points that are dropped, and nothing at all where sides cross.
ghost use Rattle.std.specs.Prelude.{◌≡◌, length, IfSome};
ghost use Rattle.cip_problem.specs.WellFormed.{columns};
ghost use Rattle.cip_lagrange.specs.Decompositions.{IsDecompositionOf};

use crate::block_texts::{BLOCKS, PLAIN};
use crate::pricing::{Told, priced, priced_in};
use cip_blocks::read_blocks;
use cip_cert::{BlockPoint, Priced};
use cip_frac::Frac;
use cip_lagrange::Decomposed;
use cip_lin::{Bounds, Sides};
use cip_lp::read_lp;
use cip_model::Program;
use cip_price::{AskPricer, PointVerdict, PriceCause, PriceLimits};
use std::alloc::{AllocError, Global};

/// A point that is dropped.
#[derive(Clone, Copy, PartialEq, Eq)]
struct Note {
    block: u32,
    place: usize,
    verdict: PointVerdict,
}

/// Answers from a list, the last one first, counts its asks, and keeps what it is told of.
#[derive(Drop)]
struct Noting {
    answers: Vec<Priced>,
    asks: u32,
    notes: Vec<Note>,
}

impl AskPricer for Noting {
    ghost use Rattle.std.specs.Prelude.{None};

    ghost told = { λ _. None };

    fn ask(
        &mut self,
        _alloc: Global,
        _block: u32,
        _costs: &[Frac],
        _bounds: &Bounds,
    ) -> Result<Option<Priced>, AllocError> {
        self.asks = self.asks.saturating_add(1);
        Ok(self.answers.pop())
    }

    fn dropped(
        &mut self,
        block: u32,
        place: usize,
        verdict: PointVerdict,
    ) -> Result<(), AllocError> {
        self.notes.push(Note {
            block,
            place,
            verdict,
        })?;
        Ok(())
    }
}

/// The points that are answered for the first block of `PLAIN`, in halves: 2 is above its side, 1/2 is fractional, 0 0
/// is a point, 1 1 comes to 4 in the row, one value is too few, and 1 0 is a point.
const FIRST: [&[i128]; 6] = [&[4, 0], &[1, 0], &[0, 0], &[2, 2], &[2], &[2, 0]];

/// Those for the second block: 0 0 is a point, and 1/2 is fractional.
const SECOND: [&[i128]; 2] = [&[0, 0], &[0, 1]];

/// How many of them are dropped.
const NOTES: usize = 5;

/// The block, the place and the verdict of each of these.
fn wanted(at: usize) -> Note {
    let (block, place) = match at {
        0 => (0, 0),
        1 => (0, 1),
        2 => (0, 3),
        3 => (0, 4),
        _ => (1, 1),
    };
    let verdict = match at {
        0 => PointVerdict::BreaksBound { col: 0 },
        1 => PointVerdict::BreaksWhole { col: 0 },
        2 => PointVerdict::BreaksRow {
            row: 0,
            value: Frac::from(4i64),
        },
        3 => PointVerdict::WrongCount,
        _ => PointVerdict::BreaksWhole { col: 1 },
    };
    Note {
        block,
        place,
        verdict,
    }
}

/// Whether these are kept, in order.
fn are_notes(notes: &[Note]) -> bool {
    for at in 0..notes.len() {
        if notes[at] != wanted(at) {
            return false;
        }
    }
    notes.len() == NOTES
}

/// A point of so many halves.
fn point(alloc: Global, halves: &[i128]) -> Option<BlockPoint> {
    let mut values = Vec::new(alloc);
    for count in halves {
        let Ok(value) = Frac::new(*count, 2) else {
            return None;
        };
        if values.push(value).is_err() {
            return None;
        }
    }
    Some(BlockPoint { values })
}

/// Adds these points to a list; whether all are there.
fn put_points(alloc: Global, points: &mut Vec<BlockPoint>, brought: &[&[i128]]) -> bool {
    for halves in brought {
        let Some(one) = point(alloc, halves) else {
            return false;
        };
        if points.push(one).is_err() {
            return false;
        }
    }
    true
}

/// An answer of these points, without a tree.
fn answer(alloc: Global, brought: &[&[i128]]) -> Option<Priced> {
    let mut points = Vec::new(alloc);
    if put_points(alloc, &mut points, brought) {
        Some(Priced { points, tree: None })
    } else {
        drop(points);
        None
    }
}

/// Adds an answer of these points to a list; whether it is there.
fn put_answer(alloc: Global, answers: &mut Vec<Priced>, brought: &[&[i128]]) -> bool {
    match answer(alloc, brought) {
        Some(one) => answers.push(one).is_ok(),
        None => false,
    }
}

/// Who answers once for each block.
fn answering(alloc: Global) -> Option<Noting> {
    let mut answers = Vec::new(alloc);
    let filled = put_answer(alloc, &mut answers, SECOND.as_slice())
        && put_answer(alloc, &mut answers, FIRST.as_slice());
    if filled {
        Some(Noting {
            answers,
            asks: 0,
            notes: Vec::new(alloc),
        })
    } else {
        drop(answers);
        None
    }
}

/// Whether it is told of each point that is dropped, and of each once: the second round has no answers.
fn are_told(alloc: Global, program: &Program, blocks: &Decomposed, noting: &mut Noting) -> bool
    requires { IsDecompositionOf program.now blocks.now }
{
    let limits = PriceLimits {
        rounds: 9,
        moves: 1000,
    };
    let told = priced(alloc, program, blocks, noting, limits);
    told == Some(Told::NoBound(PriceCause::PricerGap { block: 0 }))
        && noting.asks == 4
        && are_notes(noting.notes.as_slice())
}

/// The box of a program with 1 to 0 for its first column, which cross.
fn crossed(alloc: Global, program: &Program) -> Option<Bounds>
    ensures { IfSome result (λ bounds. length bounds ≡ columns program.now) }
{
    let Ok(mut bounds) = program.bounds().copied(alloc) else {
        return None;
    };
    if bounds.is_empty() {
        drop(bounds);
        return None;
    }
    bounds.set_sides(
        0,
        Sides {
            low: Some(Frac::one()),
            high: Some(Frac::zero()),
        },
    );
    Some(bounds)
}

/// Whether nobody is asked where sides cross.
fn is_unasked(alloc: Global, program: &Program, blocks: &Decomposed, noting: &mut Noting) -> bool
    requires { IsDecompositionOf program.now blocks.now }
{
    let limits = PriceLimits {
        rounds: 9,
        moves: 1000,
    };
    match crossed(alloc, program) {
        Some(bounds) => {
            let told = priced_in(alloc, program, blocks, &bounds, noting, limits);
            drop(bounds);
            told == Some(Told::NoPoint) && noting.asks == 0
        }
        None => false,
    }
}

/// Whether it is so with blocks that were taken apart, where sides cross or as it is.
fn is_so_with(alloc: Global, program: &Program, blocks: &Decomposed, crosses: bool) -> bool
    requires { IsDecompositionOf program.now blocks.now }
{
    let Some(mut noting) = answering(alloc) else {
        return false;
    };
    let is_so = if crosses {
        is_unasked(alloc, program, blocks, &mut noting)
    } else {
        are_told(alloc, program, blocks, &mut noting)
    };
    drop(noting);
    is_so
}

/// Whether it is so with `PLAIN`, where sides cross or as it is.
fn is_so(alloc: Global, program: &Program, crosses: bool) -> bool {
    let Ok(read) = read_blocks(alloc, BLOCKS.as_bytes(), program) else {
        return false;
    };
    let made = Decomposed::new(alloc, program, &read);
    drop(read);
    match made {
        Ok(blocks) => {
            let is_so = is_so_with(alloc, program, &blocks, crosses);
            drop(blocks);
            is_so
        }
        Err(_) => false,
    }
}

/// The same with the program as it is read.
fn is_so_read(alloc: Global, crosses: bool) -> bool {
    match read_lp(alloc, PLAIN.as_bytes()) {
        Ok(program) => {
            let is_so = is_so(alloc, &program, crosses);
            drop(program);
            is_so
        }
        Err(_) => false,
    }
}

#[test]
fn pricers_are_told(rt: HostRuntime) {
    assert!(rt; is_so_read(rt.alloc(), false), "points that are dropped");
    assert!(rt; is_so_read(rt.alloc(), true), "sides that cross");
}
