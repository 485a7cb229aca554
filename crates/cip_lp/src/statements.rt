//! The statements of a text, as far as its tokens have come.
ghost use Rattle.std.specs.Prelude.{◌≡◌, IfOk};
ghost use Rattle.cip_text_rules.specs.LpFacts as facts;
ghost use Rattle.cip_lp.specs.LpLines.{token_shown};
ghost use Rattle.cip_lp.specs.LpTaken.{IsTokenTaken};

use crate::places::Place;
use crate::{LpDraft, LpPart, Program, Token};
use std::alloc::AllocError;

/// What the tokens of a text have said, and where the next one stands.
#[derive(Drop)]
pub struct Statements {
    /// The program as far as it goes.
    pub(crate) draft: LpDraft,
    /// The section of the next token.
    pub(crate) part: LpPart,
    /// Bounds was opened.
    pub(crate) bounds: bool,
    /// Generals was opened.
    pub(crate) generals: bool,
    /// Binaries was opened.
    pub(crate) binaries: bool,
    /// The objective has its constant.
    pub(crate) constant: bool,
    /// The place of the next token.
    pub(crate) place: Place,
}

impl Statements {
    /// Takes one token more, and answers the kind of its fault, if it has one. `Err` comes where a growth was refused.
    pub fn take(&mut self, token: Token<'_>) -> Result<Option<u32>, AllocError>
        ensures { IfOk result (IsTokenTaken self.old self.new (token_shown token.entry)) }
    {
        let kind = self.settle(token)?;
        if kind.is_some() {
            return Ok(kind);
        }
        self.read(token)
    }

    /// The program of the tokens. `Err` comes where a growth was refused.
    pub fn into_program(self) -> Result<Program, AllocError>
        ensures { IfOk result (λ program. program ≡ facts.program_of self.draft) }
    {
        let Statements { draft, place, .. } = self;
        drop(place);
        draft.into_program()
    }
}
