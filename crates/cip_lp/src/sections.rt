//! Section words, and tokens by their section.
ghost use Rattle.std.specs.Prelude.{◌≡◌, IfOk};
ghost use Rattle.cip_text_rules.specs.LpGrammar as grammar;
ghost use Rattle.cip_text_rules.specs.LpGrammar.{section_read, read, may_end};
ghost use Rattle.cip_lp.specs.LpKinds.{part_shown};
ghost use Rattle.cip_lp.specs.LpLines.{token_shown};
ghost use Rattle.cip_lp.specs.LpStages.{place_at, where_of};
ghost use Rattle.cip_lp.specs.LpTaken.{AreTaken};

use crate::places::Stage;
use crate::statements::Statements;
use crate::{LpPart, Token};
use std::alloc::AllocError;

/// Whether the objective is behind.
fn is_past(part: LpPart) -> bool
    ensures { result ≡ grammar.is_past (part_shown part) }
{
    match part {
        LpPart::NoPart | LpPart::Minimize | LpPart::Maximize => false,
        _ => true,
    }
}

/// Whether no section was opened.
fn is_before(part: LpPart) -> bool
    ensures { result ≡ grammar.is_before (part_shown part) }
{
    match part {
        LpPart::NoPart => true,
        _ => false,
    }
}

/// Whether a section is that of the objective.
fn is_costs(part: LpPart) -> bool
    ensures { result ≡ grammar.is_costs (part_shown part) }
{
    match part {
        LpPart::Minimize | LpPart::Maximize => true,
        _ => false,
    }
}

impl Statements {
    /// Whether a statement may end here.
    fn may_end(&self) -> bool
        ensures { result ≡ may_end (part_shown self.now.part) (place_at self.now.place.stage self.now.place) }
    {
        match self.part {
            LpPart::Minimize | LpPart::Maximize => self.place.stage == Stage::AfterTerm,
            LpPart::Bounds => matches!(self.place.stage, Stage::Start | Stage::BoundedName),
            _ => self.place.stage == Stage::Start,
        }
    }

    /// Whether a section can't be opened here: it is opened again or too late, or another stands before it.
    fn is_out_of_order(&self, part: LpPart) -> bool
        ensures { result ≡ grammar.is_out_of_order (where_of self.now) (part_shown part) }
    {
        match part {
            LpPart::NoPart => true,
            LpPart::Minimize | LpPart::Maximize => !is_before(self.part),
            LpPart::Constraints => !is_costs(self.part),
            LpPart::Bounds => !is_past(self.part) || self.bounds,
            LpPart::Generals => !is_past(self.part) || self.generals,
            LpPart::Binaries => !is_past(self.part) || self.binaries,
            LpPart::End => !is_past(self.part),
        }
    }

    /// Takes a section word.
    fn open(&mut self, part: LpPart) -> Option<u32>
        ensures { AreTaken self.old self.new (section_read (where_of self.old) (part_shown part)) result }
    {
        if self.is_out_of_order(part) {
            return Some(2);
        }
        if !self.may_end() {
            return Some(3);
        }
        match part {
            LpPart::Minimize => self.draft.open_costs(false),
            LpPart::Maximize => self.draft.open_costs(true),
            LpPart::Constraints => self.draft.open_rows(),
            LpPart::Bounds => self.bounds = true,
            LpPart::Generals => self.generals = true,
            LpPart::Binaries => self.binaries = true,
            _ => {}
        }
        self.part = part;
        self.place.stage = Stage::Start;
        None
    }

    /// Takes what a token says.
    pub(crate) fn read(&mut self, token: Token<'_>) -> Result<Option<u32>, AllocError>
        ensures { IfOk result (AreTaken self.old self.new (read (where_of self.old) (token_shown token.entry))) }
    {
        match token {
            Token::Bad => Ok(Some(1)),
            Token::Opening(part) => Ok(self.open(part)),
            Token::OutsideSection => {
                if !is_past(self.part) {
                    return Ok(Some(2));
                }
                if self.may_end() {
                    return Ok(Some(11));
                }
                Ok(Some(3))
            }
            _ => match self.part {
                LpPart::NoPart => Ok(Some(2)),
                LpPart::Minimize | LpPart::Maximize => self.read_cost(token),
                LpPart::Constraints => self.read_row(token),
                LpPart::Bounds => self.read_bound(token),
                LpPart::Generals => self.read_whole(token, false),
                LpPart::Binaries => self.read_whole(token, true),
                LpPart::End => Ok(Some(2)),
            },
        }
    }
}
