//! A call of `run`, with whoever serves.

use crate::fakes::Fake;
use crate::fields::key_and_value;
use crate::plugs::Plug;
use crate::row::Row;
use crate::setup::Setup;
use cip_io::MemorySink;
use cip_main::{Log, no_plugins, run, run_with_builtins};
use cip_plugin::{AnyPlugin, Kind, Kit};
use cip_solve::is_few;
use std::alloc::{AllocError, Global};

/// What a call of `run` did.
#[derive(Drop)]
pub struct Outcome {
    pub status: u8,
    pub out: MemorySink,
    pub logs: Vec<Log>,
    /// How many plugins are left in the start and on the shelf of the kit.
    pub left: (usize, usize),
    /// The numbers of those that are spent.
    pub spent: Vec<Option<u32>>,
}

/// Lists the numbers of the plugins of a kit that are spent.
fn list_spent(kit: &Kit, numbers: &mut Vec<Option<u32>>) -> Result<(), AllocError> {
    for spent in &kit.spent {
        numbers.push(spent.id)?;
    }
    Ok(())
}

/// The plugin that a line of a head puts into a kit, and whether into its start; none where it puts in none.
fn plug_of<'a>(line: &'a str) -> Option<(bool, Plug<'a>)> {
    let (place, said) = key_and_value(line);
    if place != "start" && place != "shelf" {
        return None;
    }
    match Plug::read(said) {
        Some(plug) => Some((place == "start", plug)),
        None => None,
    }
}

/// Puts a plugin at the end of a kit's start or shelf.
fn put(kit: &mut Kit, is_start: bool, plugin: AnyPlugin) -> Result<(), AllocError> {
    if is_start {
        kit.start.push(plugin)?;
    } else {
        kit.shelf.push(plugin)?;
    }
    Ok(())
}

/// Calls `run` as a row and the lines of one of its runs say, with this kit or the built-in plugins.
fn call(
    alloc: Global,
    row: &Row<'_>,
    own: &str,
    setup: &Setup<'_>,
    kit: &mut Kit,
    outcome: &mut Outcome,
) -> Result<(), AllocError> {
    let words = row.words(alloc, own)?;
    let Ok(mut store) = row.store(alloc, setup) else {
        drop(words);
        return Err(AllocError);
    };
    let out = &mut outcome.out;
    let logs = &mut outcome.logs;
    let status = if setup.builtins {
        run_with_builtins(alloc, &words, &mut store, out, logs)
    } else if is_few(kit) {
        Ok(run(alloc, &words, &mut store, out, kit, logs))
    } else {
        Ok(255)
    };
    drop(store);
    drop(words);
    outcome.status = status?;
    Ok(())
}

/// The same, and says what is left of the kit.
fn call_and_list(
    alloc: Global,
    row: &Row<'_>,
    own: &str,
    setup: &Setup<'_>,
    kit: &mut Kit,
    outcome: &mut Outcome,
) -> Result<(), AllocError> {
    call(alloc, row, own, setup, kit, outcome)?;
    outcome.left = (kit.start.len(), kit.shelf.len());
    list_spent(kit, &mut outcome.spent)
}

/// The same, with a new outcome, which says what is left of the kit.
fn answered(
    alloc: Global,
    row: &Row<'_>,
    own: &str,
    setup: &Setup<'_>,
    kit: &mut Kit,
) -> Result<Outcome, AllocError> {
    let mut outcome = Outcome {
        status: 255,
        out: MemorySink::new(alloc, setup.room)?,
        logs: Vec::new(alloc),
        left: (0, 0),
        spent: Vec::new(alloc),
    };
    if call_and_list(alloc, row, own, setup, kit, &mut outcome).is_err() {
        drop(outcome);
        return Err(AllocError);
    }
    Ok(outcome)
}

/// The fake that a plug says.
fn boxed_fake(alloc: Global, plug: &Plug<'_>) -> Result<Box<Fake>, AllocError> {
    Ok(Box::new(alloc, Fake::new(alloc, plug)?)?)
}

/// Calls `run` as a row and the lines of one of its runs say, with a kit of the plugins of these lines, and such a
/// store and sink.
pub fn outcome_of(
    alloc: Global,
    row: &Row<'_>,
    own: &str,
    setup: &Setup<'_>,
) -> Result<Outcome, AllocError> {
    let mut kit = no_plugins(alloc);
    for line in row.shared().split('\n').chain(own.split('\n')) {
        let Some((is_start, plug)) = plug_of(line) else {
            continue;
        };
        let Ok(fake) = boxed_fake(alloc, &plug) else {
            drop(kit);
            return Err(AllocError);
        };
        let plugin = match plug.kind {
            Kind::Separator => AnyPlugin::Separator(fake),
            Kind::Propagator => AnyPlugin::Propagator(fake),
            Kind::Heuristic => AnyPlugin::Heuristic(fake),
            Kind::BranchRule => AnyPlugin::BranchRule(fake),
            Kind::ConsHandler => AnyPlugin::ConsHandler(fake),
            Kind::EventHandler => AnyPlugin::EventHandler(fake),
            Kind::Pricer => {
                drop(fake);
                continue;
            }
        };
        if put(&mut kit, is_start, plugin).is_err() {
            drop(kit);
            return Err(AllocError);
        }
    }
    let outcome = answered(alloc, row, own, setup, &mut kit);
    drop(kit);
    outcome
}
