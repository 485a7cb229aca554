//! Programs from texts of free MPS, in whatever pieces the text comes.
#![tactic(auto)]

mod bound_lines;
mod column_draft;
mod column_program;
mod column_puts;
mod column_tests;
mod draft;
mod group_rows;
mod groups;
mod kinds;
mod laws;
mod line_reader;
mod mps_text;
mod names;
mod program;
mod range_lines;
mod reader;
mod right_side_lines;
mod row_head;
mod row_lines;
mod row_table;
mod row_terms;
mod sections;
mod semi_sides;
mod steps;
mod table_rows;
mod values;
mod whole_text;

use cip_model::Program;
use cip_mps_lines::{Line, LinePlace, Part, said};
use cip_text::record_of;
pub use cip_text::{ReadFault, TextFault};
use draft::Draft;
use groups::Held;
pub use kinds::MpsKind;
pub use laws::known_faults_stay;
pub use mps_text::MpsText;
pub use reader::MpsReader;
use row_table::RowTable;
pub use whole_text::read_mps;
