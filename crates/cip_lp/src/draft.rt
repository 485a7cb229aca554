//! What is kept of the tokens of a text.
use crate::form::Form;
use cip_frac::Frac;
use cip_lin::{Row, Sides};
use cip_mps_lines::NameIndex;
use std::alloc::Global;
use std::marker::Model;

/// A program as far as the tokens of an LP text have said it.
#[derive(Drop)]
pub struct LpDraft {
    pub(crate) alloc: Global,
    pub(crate) maximized: bool,
    /// The objective's name.
    pub(crate) objective: Option<Vec<u8>>,
    /// The rows that have ended.
    pub(crate) row_names: NameIndex,
    pub(crate) rows: Vec<Row>,
    /// The name of the row that hasn't.
    pub(crate) row_name: Option<Vec<u8>>,
    pub(crate) column_names: NameIndex,
    pub(crate) costs: Vec<Frac>,
    pub(crate) sides: Vec<Sides>,
    pub(crate) whole: Vec<bool>,
    pub(crate) constant: Frac,
    /// The form in hand.
    pub(crate) form: Form,
    /// How many numbers of rows aren't 0.
    pub(crate) entries: usize,
    /// The column that is looked at first for the next name.
    pub(crate) near: usize,
}

impl Model for LpDraft {
    ghost use Rattle.cip_text_rules.specs.LpFacts.{LpFacts};
    ghost use Rattle.cip_lp.specs.LpCodes.{facts_code};
    ghost use Rattle.cip_lp.specs.LpDrafts.{facts_in, IsKeptLp};

    ghost Value = { LpFacts };

    ghost coded = { facts_code };

    ghost view = { facts_in };

    ghost invariant = { λ draft. IsKeptLp (facts_in draft) };
}
