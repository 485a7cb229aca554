//! What pricing answers.
ghost use Rattle.std.specs.Prelude.{◌≡◌, length};
ghost use Rattle.cip_problem.specs.WellFormed.{columns};
ghost use Rattle.cip_lagrange.specs.Decompositions.{IsDecompositionOf};

use crate::block_texts::{
    BLOCKS, FIRST, FIRST_BLOCKS, MORE, NONE, PLAIN, SECOND, SECOND_BLOCKS, THIRD, THIRD_BLOCKS,
};
use crate::pricers::{Branching, Listed, Silent};
use cip_blocks::read_blocks;
use cip_cert::{BlockPoint, Priced};
use cip_columns::ColumnPool;
use cip_frac::Frac;
use cip_lagrange::Decomposed;
use cip_lin::Bounds;
use cip_lp::read_lp;
use cip_model::Program;
use cip_price::{AskPricer, MasterCause, PriceAnswer, PriceCause, PriceLimits, PriceTask, price};
use std::alloc::{AllocError, Global};

/// What is answered; a bound or a cost as numerator and denominator.
#[derive(Clone, Copy, PartialEq, Eq)]
pub enum Told {
    /// It is closed at this cost.
    Closed(i128, i128),
    /// There is a bound.
    Bounded(i128, PriceCause),
    /// No point lies in the box.
    NoPoint,
    /// There is no bound.
    NoBound(PriceCause),
}

/// Who is asked.
#[derive(Clone, Copy)]
enum Who {
    /// Nobody answers.
    Silent,
    /// The list is 0 0 for each block.
    Zeros,
    /// The list is 1 1 for each block, which none has.
    Ones,
    /// All points are gone through.
    All,
}

/// What is asked: a program, its blocks, who prices, and how many rounds and moves are allowed.
type Ask = (&'static str, &'static str, Who, u32, u32);

static ASKS: [Ask; 14] = [
    (PLAIN, BLOCKS, Who::All, 100, 1000),
    (PLAIN, BLOCKS, Who::Silent, 100, 1000),
    (PLAIN, BLOCKS, Who::Zeros, 100, 1000),
    (PLAIN, BLOCKS, Who::Ones, 100, 1000),
    (PLAIN, BLOCKS, Who::All, 0, 1000),
    (PLAIN, BLOCKS, Who::All, 1, 1000),
    (PLAIN, BLOCKS, Who::All, 2, 1000),
    (MORE, BLOCKS, Who::All, 100, 1000),
    (NONE, BLOCKS, Who::All, 100, 1000),
    (PLAIN, BLOCKS, Who::All, 100, 0),
    (FIRST, FIRST_BLOCKS, Who::All, 100, 1000),
    (SECOND, SECOND_BLOCKS, Who::All, 100, 1000),
    (THIRD, THIRD_BLOCKS, Who::All, 100, 1000),
    (MORE, BLOCKS, Who::Silent, 100, 1000),
];

/// What is answered. At PLAIN the first round, without a mixture, brings 0 0 for both blocks, and the second, at prices
/// 0 and the costs themselves, 1 0 for both, with bounds of -2: the third closes. At MORE no mixture satisfies
/// R3, as trees of both blocks show; without trees there is a gap. The three at random were worked out by an exact
/// linear program over all points of their blocks.
fn want(at: usize) -> Told {
    match at {
        0 => Told::Closed(-4, 1),
        1 | 2 | 3 | 13 => Told::NoBound(PriceCause::PricerGap { block: 0 }),
        4 | 5 => Told::NoBound(PriceCause::Rounds),
        6 => Told::Bounded(-4, PriceCause::Rounds),
        7 | 8 => Told::NoPoint,
        9 => Told::NoBound(PriceCause::Master {
            cause: MasterCause::Limit,
        }),
        10 => Told::Closed(-32, 3),
        11 => Told::Closed(-39, 2),
        _ => Told::Closed(-157, 9),
    }
}

/// What an answer tells.
fn outcome_of(answer: PriceAnswer) -> Told {
    match answer {
        PriceAnswer::Closed { bound, .. } => Told::Closed(bound.numerator(), bound.denominator()),
        PriceAnswer::Bounded { bound, cause } => Told::Bounded(bound.numerator(), cause),
        PriceAnswer::NoPoint => Told::NoPoint,
        PriceAnswer::NoBound { cause } => Told::NoBound(cause),
    }
}

/// What a pricer comes to in a box of a program, whose blocks were taken apart.
pub fn priced_in<A: AskPricer>(
    alloc: Global,
    program: &Program,
    blocks: &Decomposed,
    bounds: &Bounds,
    asker: &mut A,
    limits: PriceLimits,
) -> Option<Told>
    requires made { IsDecompositionOf program.now blocks.now }
    requires box_ { length bounds.now ≡ columns program.now }
{
    let Ok(mut pool) = ColumnPool::new(alloc) else {
        return None;
    };
    let task = PriceTask {
        program,
        blocks,
        bounds,
    };
    let told = match price(alloc, &task, &mut pool, asker, limits) {
        Ok(answer) => Some(outcome_of(answer)),
        Err(_) => None,
    };
    drop(pool);
    told
}

/// The same in its own box.
pub fn priced<A: AskPricer>(
    alloc: Global,
    program: &Program,
    blocks: &Decomposed,
    asker: &mut A,
    limits: PriceLimits,
) -> Option<Told>
    requires { IsDecompositionOf program.now blocks.now }
{
    priced_in(alloc, program, blocks, program.bounds(), asker, limits)
}

/// An answer of one point of two equal values, without a tree.
fn answer(alloc: Global, value: Frac) -> Result<Priced, AllocError> {
    let values = vec![in alloc; value; 2]?;
    let mut points = Vec::new(alloc);
    match points.push(BlockPoint { values }) {
        Ok(()) => Ok(Priced { points, tree: None }),
        Err(error) => {
            drop(points);
            Err(error.into())
        }
    }
}

/// Adds such an answer to a list.
fn put_answer(alloc: Global, answers: &mut Vec<Priced>, value: Frac) -> Result<(), AllocError> {
    let one = answer(alloc, value)?;
    answers.push(one)?;
    Ok(())
}

/// Adds two such answers to a list.
fn put_two(alloc: Global, answers: &mut Vec<Priced>, value: Frac) -> Result<(), AllocError> {
    put_answer(alloc, answers, value)?;
    put_answer(alloc, answers, value)
}

/// A list of two such answers.
fn listed(alloc: Global, value: Frac) -> Result<Listed, AllocError> {
    let mut answers = Vec::new(alloc);
    match put_two(alloc, &mut answers, value) {
        Ok(()) => Ok(Listed { answers }),
        Err(error) => {
            drop(answers);
            Err(error)
        }
    }
}

/// What such a list comes to.
fn asked_listed(
    alloc: Global,
    program: &Program,
    blocks: &Decomposed,
    value: Frac,
    limits: PriceLimits,
) -> Option<Told>
    requires { IsDecompositionOf program.now blocks.now }
{
    match listed(alloc, value) {
        Ok(mut listed) => {
            let told = priced(alloc, program, blocks, &mut listed, limits);
            drop(listed);
            told
        }
        Err(_) => None,
    }
}

/// What who prices comes to.
fn asked(
    alloc: Global,
    program: &Program,
    blocks: &Decomposed,
    who: Who,
    limits: PriceLimits,
) -> Option<Told>
    requires { IsDecompositionOf program.now blocks.now }
{
    match who {
        Who::Silent => priced(alloc, program, blocks, &mut Silent, limits),
        Who::Zeros => asked_listed(alloc, program, blocks, Frac::zero(), limits),
        Who::Ones => asked_listed(alloc, program, blocks, Frac::one(), limits),
        Who::All => priced(alloc, program, blocks, &mut Branching { blocks }, limits),
    }
}

/// The same, with the blocks as they are read.
fn answered(alloc: Global, program: &Program, ask: Ask) -> Option<Told> {
    let (_, blocks, who, rounds, moves) = ask;
    let Ok(read) = read_blocks(alloc, blocks.as_bytes(), program) else {
        return None;
    };
    let made = Decomposed::new(alloc, program, &read);
    drop(read);
    match made {
        Ok(blocks) => {
            let told = asked(alloc, program, &blocks, who, PriceLimits { rounds, moves });
            drop(blocks);
            told
        }
        Err(_) => None,
    }
}

/// What is answered, where the program is read.
fn told_of(alloc: Global, ask: Ask) -> Option<Told> {
    match read_lp(alloc, ask.0.as_bytes()) {
        Ok(program) => {
            let told = answered(alloc, &program, ask);
            drop(program);
            told
        }
        Err(_) => None,
    }
}

/// Whether this is answered.
fn is_answered(alloc: Global, at: usize) -> bool {
    if at >= ASKS.len() {
        return false;
    }
    told_of(alloc, ASKS[at]) == Some(want(at))
}

/// The first case in which something else is answered.
fn first_wrong(alloc: Global) -> Option<usize> {
    for at in 0..ASKS.len() {
        if !is_answered(alloc, at) {
            return Some(at);
        }
    }
    None
}

#[test]
fn blocks_are_priced(rt: HostRuntime) {
    let wrong = first_wrong(rt.alloc());
    assert!(rt; wrong == None, "{wrong:?}");
}
