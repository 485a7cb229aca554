//! Programs from LP texts, in whatever pieces the text comes: the tokens of a line, where they have ended, their values
//! and relations, and the program as far as the text has said it.
#![tactic(auto)]

mod amounts;
mod bounds;
mod columns;
mod cost_terms;
mod costs;
mod draft;
mod faults;
mod form;
mod kinds;
mod laws;
mod lengths;
mod line_reader;
mod line_tokens;
mod lp_text;
mod numbers;
mod parts;
mod pieces;
mod places;
mod program;
mod reader;
mod relations;
mod row_lines;
mod rows;
mod sections;
mod settled;
mod sides;
mod statements;
mod terms;
mod whole_text;
mod words;

pub use amounts::{Amount, is_zero, unit};
pub use cip_model::Program;
pub use cip_text::{ReadFault, TextFault};
pub use draft::LpDraft;
pub use kinds::LpKind;
pub use laws::known_lp_faults_stay;
pub use line_tokens::{LineTokens, Token};
pub use lp_text::LpText;
pub use numbers::{Limit, amount_of, limit_of};
pub use parts::{ends_before, hangs};
pub use reader::LpReader;
pub use relations::{agree, flipped, high_side, is_equality, is_wrong, low_side};
use statements::Statements;
pub use whole_text::read_lp;
pub use words::{LpPart, Relation};
