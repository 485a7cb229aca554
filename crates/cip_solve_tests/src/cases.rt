//! All cases: a kit, and what is done with its roster.
ghost use Rattle.std.specs.Prelude.{◌+◌, ◌<◌, ◌^◌, length};

use crate::deliveries::{
    DISABLES_THE_NEXT, Delivery, ENABLE_EACH_OTHER, FREES_ITSELF, FREES_THE_NEXT, INCLUDE_ONE,
    is_told,
};
use crate::fakes::{Lent, QUIET, add_finders, add_wishers, empty_kit};
use crate::roster_calls::{FINDERS, are_ranked, gives_nothing};
use crate::roster_endings::ends_well;
use crate::tellers::Teller;
use crate::wishes::are_wished;
use cip_plugin::{AnyPlugin, Kit, View};
use cip_roster::{Roster, Seated};
use std::alloc::{AllocError, Global};
use std::test::Fail;

/// What a kit has, and what is done with its roster.
#[derive(Clone, Copy)]
enum Case {
    /// Nothing; it gives nothing.
    Nothing,
    /// Heuristics of the table, which are called in their order.
    Ranks,
    /// A heuristic on the shelf, for the wishes of the table.
    Wishes,
    /// Two handlers, and a heuristic on the shelf: an event is told.
    Tells(Delivery),
    /// A heuristic that tells its calls, one that doesn't, and two on the shelf; it is closed.
    Ends,
}

static CASES: [Case; 9] = [
    Case::Nothing,
    Case::Ranks,
    Case::Wishes,
    Case::Tells(FREES_ITSELF),
    Case::Tells(ENABLE_EACH_OTHER),
    Case::Tells(FREES_THE_NEXT),
    Case::Tells(DISABLES_THE_NEXT),
    Case::Tells(INCLUDE_ONE),
    Case::Ends,
];

/// Puts a heuristic that tells its calls behind plugins.
fn add_teller(plugins: &mut Vec<AnyPlugin>, alloc: Global) -> Result<(), AllocError> {
    plugins.reserve(1)?;
    let teller = Box::new(alloc, Teller::new(alloc)?)?;
    plugins.push_reserved(AnyPlugin::Heuristic(teller));
    Ok(())
}

/// Puts the plugins of the case in which a roster ends into a kit.
fn fill_to_end(kit: &mut Kit, alloc: Global) -> Result<(), AllocError> {
    add_teller(&mut kit.start, alloc)?;
    add_finders(&mut kit.start, alloc, &[QUIET])?;
    add_finders(&mut kit.shelf, alloc, &[QUIET, QUIET])
}

/// Puts two handlers into a kit, and a heuristic onto its shelf.
fn fill_to_tell(kit: &mut Kit, alloc: Global, delivery: &Delivery) -> Result<(), AllocError> {
    add_wishers(&mut kit.start, alloc, &delivery.wishes)?;
    add_finders(&mut kit.shelf, alloc, &[QUIET])
}

/// Puts the plugins of a case into a kit.
fn fill(kit: &mut Kit, alloc: Global, case: Case) -> Result<(), AllocError> {
    match case {
        Case::Nothing => Ok(()),
        Case::Ranks => add_finders(&mut kit.start, alloc, &FINDERS),
        Case::Wishes => add_finders(&mut kit.shelf, alloc, &[QUIET]),
        Case::Tells(delivery) => fill_to_tell(kit, alloc, &delivery),
        Case::Ends => fill_to_end(kit, alloc),
    }
}

/// Whether what is done with the roster of a kit comes to what its case says.
fn comes_true(kit: &mut Kit, alloc: Global, view: &View<'_>, case: Case) -> Result<bool, AllocError>
    requires { length kit.old.start.items + length kit.old.shelf.items < 2 ^ 32 }
{
    let mut roster = Roster::start(alloc, kit, true, view)?;
    let is_so = match case {
        Case::Nothing => gives_nothing(&mut roster, alloc, view),
        Case::Ranks => are_ranked(&mut roster, alloc, view),
        Case::Wishes => Ok(are_wished(&mut roster, alloc, view)),
        Case::Tells(delivery) => is_told(&mut roster, alloc, view, delivery.lines),
        Case::Ends => ends_well(&mut roster, kit, alloc, view),
    };
    drop(roster);
    is_so
}

/// Whether a case comes true in a kit that is filled for it.
fn comes_true_filled(
    kit: &mut Kit,
    alloc: Global,
    view: &View<'_>,
    case: Case,
) -> Result<bool, AllocError> {
    fill(kit, alloc, case)?;
    if kit.start.len() > 3 || kit.shelf.len() > 2 {
        return Ok(false);
    }
    comes_true(kit, alloc, view, case)
}

/// Whether a case comes true.
fn holds(alloc: Global, view: &View<'_>, case: Case) -> Result<bool, AllocError> {
    let mut kit = empty_kit(alloc);
    let is_so = comes_true_filled(&mut kit, alloc, view, case);
    drop(kit);
    is_so
}

#[test]
fn rosters_do_as_is_said(rt: HostRuntime) -> Result<(), Fail> {
    let lent = Lent::new(rt.alloc())?;
    for at in 0..CASES.len() {
        assert!(rt; holds(rt.alloc(), &lent.view(), CASES[at])?, "case {at}");
    }
    Ok(())
}
