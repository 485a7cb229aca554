//! The plugins of a kit go into a roster, and come back.
ghost use Rattle.std.specs.Prelude.{◌≡◌, ◌↔◌, IfOk, IsTrue, OnErr, vec_len, vec_capacity};
ghost use Rattle.cip_roster.specs.Turns.{IsSound};
ghost use Rattle.cip_solve.specs.Kits.{stock_of, IsFew, is_bare as is_bare_stock, HasBegun, HasRoomFor, HasEnded};

use cip_events::Trace;
use cip_plugin::{AnyPlugin, Kit, Tells, View};
use cip_roster::{Roster, Seated};
use std::alloc::{AllocError, Global};

/// Whether a kit has no plugin, neither to start with nor on its shelf.
pub fn is_bare(kit: &Kit) -> bool
    ensures { result ≡ is_bare_stock (stock_of ⟦<AnyPlugin as Tells>⟧.who kit.now) }
{
    kit.start.is_empty() && kit.shelf.is_empty()
}

/// Whether start and shelf of a kit together have fewer than 2^32 plugins, so that a search can number them.
pub fn is_few(kit: &Kit) -> bool
    ensures { IsTrue result ↔ IsFew (stock_of ⟦<AnyPlugin as Tells>⟧.who kit.now) }
{
    let most = u32::MAX as usize;
    let start = kit.start.len();
    start <= most && kit.shelf.len() <= most - start
}

/// Moves the plugins of a kit into a roster, and calls those of its start for the first two times, in their order;
/// they are lent this view. Lines of a trace are kept where that is asked for. `Err` comes where memory was refused:
/// then nobody was called, and the kit is as it was.
pub fn begin(
    alloc: Global,
    kit: &mut Kit,
    kept: bool,
    view: &View<'_>,
) -> Result<Roster, AllocError>
    requires few { IsFew (stock_of ⟦<AnyPlugin as Tells>⟧.who kit.old) }
    ensures begun { IfOk result (λ roster. HasBegun (stock_of ⟦<AnyPlugin as Tells>⟧.who kit.old)
        (stock_of ⟦<AnyPlugin as Tells>⟧.who kit.new) kept (⟦<Roster as Seated>⟧.state roster)) }
    ensures sound { IfOk result (λ roster. IsSound (⟦<Roster as Seated>⟧.state roster)
        (⟦<Roster as Seated>⟧.room roster)) }
    ensures room { IfOk result (λ roster. HasRoomFor (vec_len kit.new.spent) (vec_capacity kit.new.spent)
        (⟦<Roster as Seated>⟧.state roster)) }
    ensures err { OnErr result (stock_of ⟦<AnyPlugin as Tells>⟧.who kit.new
        ≡ stock_of ⟦<AnyPlugin as Tells>⟧.who kit.old) }
{
    Roster::start(alloc, kit, kept, view)
}

/// Closes a roster: each live plugin is called for the last two times, by number, and all go back into the kit. It
/// answers the trace, where lines were to be kept.
pub fn end(alloc: Global, kit: &mut Kit, roster: &mut Roster, kept: bool) -> Option<Trace>
    requires sound { IsSound (⟦<Roster as Seated>⟧.state roster.old) (⟦<Roster as Seated>⟧.room roster.old) }
    requires room { HasRoomFor (vec_len kit.old.spent) (vec_capacity kit.old.spent)
        (⟦<Roster as Seated>⟧.state roster.old) }
    ensures ended { HasEnded kept (⟦<Roster as Seated>⟧.state roster.old) (stock_of ⟦<AnyPlugin as Tells>⟧.who kit.old)
        (stock_of ⟦<AnyPlugin as Tells>⟧.who kit.new) result }
{
    roster.close(kit);
    if !kept {
        return None;
    }
    Some(roster.take_trace(alloc))
}
