//! Sides that are tightened and choices that are made, and put back.
ghost use Rattle.std.specs.Prelude.{◌≡◌, ◌<◌, [], IfOk};

use cip_domain::{Checkpoint, DomainStore, Region, Tightened};
use cip_frac::Frac;
use cip_lin::{Bounds, Choice, Choices, Side, Sides};
use std::alloc::{AllocError, Global};

/// Sides at two numbers.
pub(crate) fn between(low: i64, high: i64) -> Sides {
    Sides {
        low: Some(Frac::from(low)),
        high: Some(Frac::from(high)),
    }
}

/// The box has one column, between these sides.
fn has(store: &DomainStore, sides: Sides) -> bool {
    store.bounds().as_slice() == [sides].as_slice()
}

/// A change of the one column, what it answers, and the sides then.
static STEPS: [(Side, i64, Tightened, (i64, i64)); 4] = [
    (Side::High, 2, Tightened::Yes, (0, 2)),
    (Side::High, 2, Tightened::Same, (0, 2)),
    (Side::Low, 3, Tightened::Empty, (0, 2)),
    (Side::Low, 2, Tightened::Yes, (2, 2)),
];

/// Makes the changes of the table, in order.
fn are_made(store: &mut DomainStore) -> bool {
    for (side, value, answer, (low, high)) in STEPS {
        if store.reserve(1).is_err() || store.bounds().len() != 1 {
            return false;
        }
        let answered = store.tighten(0, side, Frac::from(value));
        if answered != answer || !has(store, between(low, high)) {
            return false;
        }
    }
    true
}

/// Makes the changes of the table, and puts all of them back.
fn are_put_back(store: &mut DomainStore, start: Checkpoint) -> bool
    requires start { start ≡ 0 }
{
    let are_made = are_made(store);
    store.undo_to(start);
    are_made && has(store, between(0, 3)) && store.mark() == start
}

/// One column from 0 to a number.
fn one_column(alloc: Global, high: i64) -> Result<Bounds, AllocError> {
    let mut bounds = Bounds::new(alloc, 0)?;
    bounds.push(between(0, high))?;
    Ok(bounds)
}

fn is_tightened(alloc: Global) -> bool {
    match one_column(alloc, 3) {
        Ok(bounds) => {
            let mut store = DomainStore::new(alloc, Region::new(bounds, Choices::new(alloc)));
            let start = store.mark();
            let is_so = are_put_back(&mut store, start);
            drop(store);
            is_so
        }
        Err(_) => false,
    }
}

#[test]
fn sides_are_tightened_and_put_back(rt: HostRuntime) {
    assert!(rt; is_tightened(rt.alloc()));
}

/// A low side of the column from 0 to 5, which is 0 or from 2 to 5; whether it is made to be on; what that answers, the
/// sides then, and whether the choice is open then.
static CHOICES: [(i64, bool, Tightened, (i64, i64), bool); 4] = [
    (0, false, Tightened::Yes, (0, 0), false),
    (0, true, Tightened::Yes, (2, 5), false),
    (3, true, Tightened::Yes, (3, 5), false),
    (1, false, Tightened::Empty, (1, 5), true),
];

/// Makes the open choice of the one column, if it is open.
fn chosen(store: &mut DomainStore, on: bool) -> Option<Tightened> {
    if store.reserve(4).is_err() || store.bounds().len() != 1 || !store.choices().at(0).is_open() {
        return None;
    }
    Some(store.choose(0, on))
}

/// Raises the low side of the column, makes its choice, and makes it again.
fn is_chosen(store: &mut DomainStore, low: i64, on: bool) -> Option<Tightened> {
    if store.reserve(1).is_err() || store.bounds().len() != 1 {
        return None;
    }
    let _ = store.tighten(0, Side::Low, Frac::from(low));
    chosen(store, on)
}

/// A case of the table: the choice comes to what is said there, and is open again after it is taken back.
fn comes_to(store: &mut DomainStore, start: Checkpoint, at: usize) -> bool
    requires case { at < 4 }
    requires start { start ≡ 0 }
{
    let (low, on, answer, (least, most), is_open) = CHOICES[at];
    let answered = is_chosen(store, low, on);
    let choice = store.choices().at(0);
    let is_made = has(store, between(least, most))
        && choice.is_open() == is_open
        && choice.is_on() == (on && !is_open);
    store.undo_to(start);
    answered == Some(answer)
        && is_made
        && has(store, between(0, 5))
        && store.choices().at(0).is_open()
}

/// All cases of the table come to what is said there.
fn come_to(store: &mut DomainStore, start: Checkpoint) -> bool
    requires start { start ≡ 0 }
{
    for at in 0..CHOICES.len() {
        if !comes_to(store, start, at) {
            return false;
        }
    }
    true
}

/// One open choice, which is off at 0 or on from 2 to 5.
fn one_choice(alloc: Global) -> Result<Choices, AllocError> {
    let mut choices = Choices::new(alloc);
    choices.push(Choice::open(between(2, 5)))?;
    Ok(choices)
}

/// The store of one column from 0 to 5 with a choice.
fn with_a_choice(alloc: Global) -> Result<DomainStore, AllocError>
    ensures { IfOk result (λ store. store.before ≡ []) }
{
    let bounds = one_column(alloc, 5)?;
    Ok(DomainStore::new(alloc, Region::new(bounds, one_choice(alloc)?)))
}

fn are_chosen(alloc: Global) -> bool {
    match with_a_choice(alloc) {
        Ok(mut store) => {
            let start = store.mark();
            let is_so = come_to(&mut store, start);
            drop(store);
            is_so
        }
        Err(_) => false,
    }
}

#[test]
fn choices_are_made_and_put_back(rt: HostRuntime) {
    assert!(rt; are_chosen(rt.alloc()));
}
