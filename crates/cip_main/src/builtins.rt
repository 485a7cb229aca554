//! The call of `run` with the built-in plugins.
ghost use Rattle.std.specs.Prelude.{◌≡◌, ◌+◌, ◌≤◌, vec_len, vec_capacity};

use crate::{Log, Words, run};
use cip_guides::{
    DiveHeuristic, ExchangeHeuristic, FirstRule, MostFractionalRule, PseudoCostRule, RoundHeuristic,
};
use cip_handlers::{Class, ClassHandler};
use cip_io::{Sink, Store};
use cip_plugin::{AnyPlugin, Kit};
use cip_solve::is_few;
use cip_tighten::{
    ActivityPropagator, CoverSeparator, MixedSeparator, ReducedCostPropagator, RoundingSeparator,
};
use std::alloc::{AllocError, Global};

/// How many built-in plugins there are.
const PLUGINS: usize = 15;

/// Does what the words ask for with these plugins, and answers the exit status. `Err` comes where they aren't few.
fn run_with<S: Store, K: Sink>(
    alloc: Global,
    words: &Words,
    store: &mut S,
    out: &mut K,
    start: Vec<AnyPlugin>,
    logs: &mut Vec<Log>,
) -> Result<u8, AllocError> {
    let mut kit = Kit {
        start,
        shelf: Vec::new(alloc),
        spent: Vec::new(alloc),
    };
    if !is_few(&kit) {
        drop(kit);
        return Err(AllocError);
    }
    let status = run(alloc, words, store, out, &mut kit, logs);
    drop(kit);
    Ok(status)
}

/// Five values, each in a box.
type Boxes<A, B, C, D, E> = (Box<A>, Box<B>, Box<C>, Box<D>, Box<E>);

/// Puts a value in a box behind what is held. `Err` where nothing is held, or memory was refused.
fn add<H: Drop, T: Drop>(
    alloc: Global,
    held: Result<H, AllocError>,
    value: T,
) -> Result<(H, Box<T>), AllocError> {
    match held {
        Ok(held) => match Box::new(alloc, value) {
            Ok(boxed) => Ok((held, boxed)),
            Err(_) => {
                drop(held);
                Err(AllocError)
            }
        },
        Err(error) => {
            drop(value);
            Err(error)
        }
    }
}

/// Puts five values in boxes. `Err` where memory was refused.
fn boxes<A: Drop, B: Drop, C: Drop, D: Drop, E: Drop>(
    alloc: Global,
    first: A,
    second: B,
    third: C,
    fourth: D,
    fifth: E,
) -> Result<Boxes<A, B, C, D, E>, AllocError> {
    let one = add(alloc, Ok(()), first);
    let two = add(alloc, one, second);
    let three = add(alloc, two, third);
    let four = add(alloc, three, fourth);
    let ((((((), one), two), three), four), five) = add(alloc, four, fifth)?;
    Ok((one, two, three, four, five))
}

/// Puts five values behind a list, which has room for them.
fn put<T: Drop>(list: &mut Vec<T>, first: T, second: T, third: T, fourth: T, fifth: T)
    requires { vec_len list.old + 5 ≤ vec_capacity list.old }
    ensures len { vec_len list.new ≡ vec_len list.old + 5 }
    ensures capacity { vec_capacity list.new ≡ vec_capacity list.old }
{
    list.push_reserved(first);
    list.push_reserved(second);
    list.push_reserved(third);
    list.push_reserved(fourth);
    list.push_reserved(fifth);
}

/// The handlers, and the separator that rounds. `Err` where memory was refused.
fn first_five(
    alloc: Global,
) -> Result<
    Boxes<ClassHandler, ClassHandler, ClassHandler, ClassHandler, RoundingSeparator>,
    AllocError,
> {
    boxes(
        alloc,
        ClassHandler::new(alloc, Class::Linear),
        ClassHandler::new(alloc, Class::Knapsack),
        ClassHandler::new(alloc, Class::SetPack),
        ClassHandler::new(alloc, Class::SetPart),
        RoundingSeparator::new(alloc),
    )
}

/// The other separators, the propagators, and the heuristic that rounds. `Err` where memory was refused.
fn next_five(
    alloc: Global,
) -> Result<
    Boxes<
        CoverSeparator,
        MixedSeparator,
        ActivityPropagator,
        ReducedCostPropagator,
        RoundHeuristic,
    >,
    AllocError,
> {
    boxes(
        alloc,
        CoverSeparator::new(alloc),
        MixedSeparator::new(alloc),
        ActivityPropagator::new(alloc),
        ReducedCostPropagator::new(alloc),
        RoundHeuristic::new(alloc),
    )
}

/// The other heuristics, and the branching rules. `Err` where memory was refused.
fn last_five(
    alloc: Global,
) -> Result<
    Boxes<DiveHeuristic, ExchangeHeuristic, PseudoCostRule, MostFractionalRule, FirstRule>,
    AllocError,
> {
    boxes(
        alloc,
        DiveHeuristic::new(alloc),
        ExchangeHeuristic::new(alloc),
        PseudoCostRule::new(alloc),
        MostFractionalRule::new(),
        FirstRule::new(),
    )
}

/// Does what the words ask for with the built-in plugins, adds the log of a search, and answers the exit status. `Err`
/// comes where memory was refused as they were made, and nothing is done then.
pub fn run_with_builtins<S: Store, K: Sink>(
    alloc: Global,
    words: &Words,
    store: &mut S,
    out: &mut K,
    logs: &mut Vec<Log>,
) -> Result<u8, AllocError> {
    let mut start = Vec::with_capacity(alloc, PLUGINS)?;
    let Ok((linear, knapsack, setpack, setpart, rounding)) = first_five(alloc) else {
        drop(start);
        return Err(AllocError);
    };
    put(
        &mut start,
        AnyPlugin::ConsHandler(linear),
        AnyPlugin::ConsHandler(knapsack),
        AnyPlugin::ConsHandler(setpack),
        AnyPlugin::ConsHandler(setpart),
        AnyPlugin::Separator(rounding),
    );
    let Ok((cover, mir, activity, redcost, round)) = next_five(alloc) else {
        drop(start);
        return Err(AllocError);
    };
    put(
        &mut start,
        AnyPlugin::Separator(cover),
        AnyPlugin::Separator(mir),
        AnyPlugin::Propagator(activity),
        AnyPlugin::Propagator(redcost),
        AnyPlugin::Heuristic(round),
    );
    let Ok((dive, exchange, pseudo, mostfrac, first)) = last_five(alloc) else {
        drop(start);
        return Err(AllocError);
    };
    put(
        &mut start,
        AnyPlugin::Heuristic(dive),
        AnyPlugin::Heuristic(exchange),
        AnyPlugin::BranchRule(pseudo),
        AnyPlugin::BranchRule(mostfrac),
        AnyPlugin::BranchRule(first),
    );
    run_with(alloc, words, store, out, start, logs)
}
