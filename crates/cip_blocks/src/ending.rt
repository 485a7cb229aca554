//! The end of a text of blocks.
ghost use Rattle.std.specs.Prelude.{◌≡◌, ◌||◌, ◌<◌, ◌≤◌, not, None, is_none, IfSome, IfOk};
ghost use Rattle.std.specs.List.{list_any};

use crate::block_words::BlockWords;
use crate::owners::Owners;
use crate::word_places::WordPlace;
use cip_model::Blocks;
use cip_text_rules::block_steps::owners_are_right;
use std::alloc::AllocError;

/// What the words come to where the text ends.
#[derive(Drop)]
pub(crate) struct Ending {
    pub(crate) row_blocks: Vec<Option<u32>>,
    pub(crate) owners: Owners,
}

impl BlockWords<'_> {
    ghost use Rattle.cip_blocks.specs.BlockWordsRead.{program_of, state_of, steps_of};
    ghost use Rattle.cip_blocks.specs.Endings.{IsEnding};

    /// What the words come to where the text ends.
    pub(crate) fn ending(&self) -> Result<Ending, AllocError>
        ensures { IfOk result (IsEnding (program_of self.now) (state_of self.now)) }
    {
        let mut row_blocks = Vec::new(self.alloc);
        for row in &self.rows {
            row_blocks.push(row.block())?;
        }
        let owners = Owners::of(self.alloc, self.program, row_blocks.as_slice())?;
        Ok(Ending { row_blocks, owners })
    }

    /// Whether there is no number of blocks, or a block was not begun.
    fn lacks_block(&self) -> bool
        ensures { result ≡ (is_none self.now.count || list_any not self.now.begun.items) }
    {
        for is_begun in &self.begun {
            if !*is_begun {
                return true;
            }
        }
        self.count.is_none()
    }

    /// The kind of the fault behind the last line, if there is one.
    pub(crate) fn end_kind(&self, ending: &Ending) -> Option<u32>
        requires { IsEnding (program_of self.now) (state_of self.now) ending.now }
        ensures fault { result ≡ (steps_of self.now).end_fault (state_of self.now) }
        ensures kinds { IfSome result (λ kind. (0 < kind) × (kind ≤ 9)) }
    {
        owners_are_right();
        let due = match self.place {
            WordPlace::ZeroDue => Some(1),
            WordPlace::CountDue => Some(2),
            WordPlace::BlockDue => Some(3),
            WordPlace::KeywordDue | WordPlace::NamesOf(_) => None,
        };
        if due.is_some() {
            return due;
        }
        if ending.owners.links {
            return Some(6);
        }
        if ending.owners.has_open(self.program) {
            return Some(7);
        }
        if self.lacks_block() { Some(8) } else { None }
    }

    /// The blocks, where there is no fault behind the last line.
    pub(crate) fn blocks(&self, ending: &Ending) -> Result<Blocks, AllocError>
        requires ending { IsEnding (program_of self.now) (state_of self.now) ending.now }
        requires no_fault { (steps_of self.now).end_fault (state_of self.now) ≡ None }
        ensures { IfOk result (λ blocks. blocks ≡ (steps_of self.now).result (state_of self.now)) }
    {
        owners_are_right();
        let count = self.begun.len();
        Blocks::new(
            self.alloc,
            count,
            ending.row_blocks.as_slice(),
            ending.owners.blocks.as_slice(),
        )
    }
}
