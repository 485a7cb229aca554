//! How a search begins, and its plugins.
ghost use Rattle.std.specs.Prelude.{◌≡◌, IfOk, OnErr, vec_len, vec_capacity};
ghost use Rattle.cip_solve.specs.PresolvedPrograms.{IsPresolved};
ghost use Rattle.cip_solve.specs.Beginning.{AreNearColumns};
ghost use Rattle.cip_solve.specs.Turns.{IsSound};
ghost use Rattle.cip_solve.specs.Kits.{stock_of, IsFew, HasBegun, HasRoomFor};
ghost use Rattle.cip_solve.specs.Outsets.{HasBegunWith};

use crate::kits::begin;
use cip_calls::{Core, Last, Presolved, view_of};
use cip_frac::Frac;
use cip_model::Program;
use cip_node::NodeWork;
use cip_plugin::{AnyPlugin, Kit, Tells, View};
use cip_roster::{Roster, Seated};
use std::alloc::{AllocError, Global};

/// What a search begins with: what is worked on, and room for the point that is found.
#[derive(Drop)]
pub(crate) struct Begun<'p> {
    pub(crate) work: NodeWork<'p>,
    pub(crate) point: Vec<Frac>,
}

/// Moves the plugins of a kit into a roster, and calls those of its start for the first two times: they see the core
/// before a node was taken up, without a combination, blocks or a guess. `Err` comes where memory was refused: then
/// nobody was called, and the kit is as it was.
pub(crate) fn ask(
    alloc: Global,
    core: &Core<'_>,
    kit: &mut Kit,
    kept: bool,
) -> Result<Roster, AllocError>
    requires few { IsFew (stock_of ⟦<AnyPlugin as Tells>⟧.who kit.old) }
    ensures begun { IfOk result (λ roster. HasBegun (stock_of ⟦<AnyPlugin as Tells>⟧.who kit.old)
        (stock_of ⟦<AnyPlugin as Tells>⟧.who kit.new) kept (⟦<Roster as Seated>⟧.state roster)) }
    ensures sound { IfOk result (λ roster. IsSound (⟦<Roster as Seated>⟧.state roster)
        (⟦<Roster as Seated>⟧.room roster)) }
    ensures room { IfOk result (λ roster. HasRoomFor (vec_len kit.new.spent) (vec_capacity kit.new.spent)
        (⟦<Roster as Seated>⟧.state roster)) }
    ensures err { OnErr result (stock_of ⟦<AnyPlugin as Tells>⟧.who kit.new
        ≡ stock_of ⟦<AnyPlugin as Tells>⟧.who kit.old) }
{
    let guess = None;
    let view = View {
        blocks: None,
        ..view_of(core, 0, Last::none(), &guess)
    };
    begin(alloc, kit, kept, &view)
}

/// What a search begins with of the program that presolve made of one, before a node was taken. `Err` comes where
/// memory was refused.
pub(crate) fn begun_with<'p>(
    alloc: Global,
    program: &'p Program,
    presolved: &'p Presolved,
) -> Result<Begun<'p>, AllocError>
    requires near { AreNearColumns presolved.now.reduced }
    requires back { IsPresolved program.now presolved.now }
    ensures { IfOk result (HasBegunWith program.now presolved.now) }
{
    let columns = program.columns();
    let point = vec![in alloc; Frac::zero(); columns]?;
    match NodeWork::new(alloc, program, presolved) {
        Err(error) => Err(error),
        Ok(work) => {
            work.core.is_sound();
            Ok(Begun { work, point })
        }
    }
}
