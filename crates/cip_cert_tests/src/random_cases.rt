//! The checks against the slow ones, on 1,000 cases that look random.
use crate::asked::Asked;
use crate::drawn::{is_drawn, shape};
use crate::draws::Draws;
use crate::slow_answers::{slow_cost, slow_emptiness, slow_row, slow_side};
use crate::slow_sums::{Sum, is_summed};
use cip_cert::{CutFault, FaultPlace, Scratch};
use cip_frac::Frac;
use std::alloc::Global;

/// The number of kinds of answers.
const KINDS: usize = 14;

/// The fewest answers of a kind.
const FEWEST: u32 = 10;

/// The kind of an answer, by its number from 0.
fn kind_of(fault: Option<CutFault>) -> usize {
    match fault {
        None => 0,
        Some(CutFault::TooLong) => 1,
        Some(CutFault::UnknownRow { .. }) => 2,
        Some(CutFault::UnknownColumn { .. }) => 3,
        Some(CutFault::NotInScope { .. }) => 4,
        Some(CutFault::WrongSign { .. }) => 5,
        Some(
            CutFault::NoSide {
                place: FaultPlace::Entry(_),
            },
        ) => 6,
        Some(
            CutFault::NoSide {
                place: FaultPlace::Column(_),
            },
        ) => 7,
        Some(
            CutFault::Wide {
                place: FaultPlace::Entry(_),
            },
        ) => 8,
        Some(
            CutFault::Wide {
                place: FaultPlace::Column(_),
            },
        ) => 9,
        Some(CutFault::NotWhole { .. }) => 10,
        Some(CutFault::NotPositive { .. }) => 11,
        Some(CutFault::NotImplied { implied: None }) => 12,
        Some(CutFault::NotImplied { implied: Some(_) }) => 13,
    }
}

/// The fault of an answer, if it is one.
fn fault_of<T>(answer: &Result<T, CutFault>) -> Option<CutFault> {
    match answer {
        Ok(_) => None,
        Err(fault) => Some(*fault),
    }
}

/// Counts an answer by its kind.
fn count(counts: &mut [u32], fault: Option<CutFault>) {
    let kind = kind_of(fault);
    if kind < counts.len() {
        counts[kind] = counts[kind].saturating_add(1);
    }
}

/// What is worked in, reused from case to case, and how many answers of each kind there were.
#[derive(Drop)]
struct Room {
    scratch: Scratch,
    costs: [Frac; 8],
    counts: [u32; KINDS],
}

/// Each coefficient of a column is that of the sum, or 0.
fn are_coefficients(coefficients: &[Frac], sums: &[Frac]) -> bool {
    for column in 0..coefficients.len() {
        let sum = match sums.get(column) {
            Some(sum) => *sum,
            None => Frac::zero(),
        };
        if coefficients[column] != sum {
            return false;
        }
    }
    true
}

/// Compares the row, with its coefficients where it is accepted.
fn is_row(asked: &Asked, sum: &Sum, room: &mut Room) -> bool {
    let row = slow_row(asked, sum);
    let fault = fault_of(&row);
    count(room.counts.as_mut_slice(), fault);
    asked.derived(&mut room.scratch) == Some(row)
        && (fault.is_some()
            || are_coefficients(room.scratch.row.entries(), sum.coefficients.as_slice()))
}

/// Compares the bound at the costs.
fn is_bound(asked: &Asked, sum: &Sum, room: &mut Room) -> bool {
    let cost = slow_cost(asked, sum);
    count(room.counts.as_mut_slice(), fault_of(&cost));
    asked.bounded(&mut room.scratch) == Some(cost)
}

/// Compares the bound at costs 0.
fn is_emptiness(asked: &Asked, sum: &Sum, room: &mut Room) -> bool {
    let emptiness = slow_emptiness(asked, sum);
    count(room.counts.as_mut_slice(), fault_of(&emptiness));
    asked.emptied(&mut room.scratch) == Some(emptiness)
}

/// Compares the side.
fn is_side(asked: &Asked, sum: &Sum, room: &mut Room) -> bool {
    let side = slow_side(asked, sum, room.costs.as_mut_slice());
    count(room.counts.as_mut_slice(), fault_of(&side));
    asked.reduced(&mut room.scratch) == Some(side)
}

/// Compares all answers with those from the sum.
fn are_as_summed(asked: &Asked, sum: &Sum, room: &mut Room) -> bool {
    is_row(asked, sum, room)
        && is_bound(asked, sum, room)
        && is_emptiness(asked, sum, room)
        && is_side(asked, sum, room)
}

/// Compares all answers.
fn is_answered(alloc: Global, asked: &Asked, room: &mut Room) -> bool {
    let mut sum = Sum::new(alloc);
    let is_so = is_summed(alloc, asked, &mut sum) && are_as_summed(asked, &sum, room);
    drop(sum);
    is_so
}

/// Draws a case, and compares its answers.
fn agrees(alloc: Global, draws: &mut Draws, room: &mut Room) -> bool {
    let (columns, numbers) = shape(draws);
    match Asked::new(alloc, columns as usize) {
        Ok(mut asked) => {
            let is_so = is_drawn(alloc, draws, numbers, columns, &mut asked)
                && is_answered(alloc, &asked, room);
            drop(asked);
            is_so
        }
        Err(_) => false,
    }
}

/// The first of a thousand cases that doesn't agree, or a thousand; then how many answers there are of the rarest kind.
fn told(alloc: Global, room: &mut Room) -> (usize, u32) {
    let mut draws = Draws::new(1);
    for number in 0..1000 {
        if !agrees(alloc, &mut draws, room) {
            return (number, 0);
        }
    }
    let mut fewest = u32::MAX;
    for count in room.counts {
        fewest = fewest.min(count);
    }
    (1000, fewest)
}

#[test]
fn random_combinations_agree(rt: HostRuntime) {
    let scratch = Scratch::new(rt.alloc(), 8).expect(&rt, "memory");
    let mut room = Room {
        scratch,
        costs: [Frac::zero(); 8],
        counts: [0; KINDS],
    };
    let (agreeing, fewest) = told(rt.alloc(), &mut room);
    drop(room);
    assert!(rt;
        agreeing == 1000 && fewest >= FEWEST,
        "{agreeing} cases, {fewest} answers"
    );
}
