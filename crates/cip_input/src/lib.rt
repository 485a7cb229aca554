//! What the program is given: the words of a call, and texts from a store, pulled in pieces to their end and read as
//! they come; points from texts that give each column of a program its value; the programs that are drawn from a seed;
//! and the answers without figures.
#![tactic(auto)]

mod block_texts;
mod columns;
mod counts;
mod draws;
mod generator_laws;
mod kinds;
mod laws;
mod model_kinds;
mod models;
mod plain;
mod point_laws;
mod point_lines;
mod point_text;
mod points;
mod programs;
mod pulling;
mod reader;
mod refusal_laws;
mod refusals;
mod rows;
mod tasks;
mod unread;
mod whole_text;
mod words;

pub use block_texts::read_blocks;
pub use cip_blocks::{BlockKind, ReadFault, TextFault};
pub use cip_lp::{LpKind, LpReader};
pub use cip_mps::MpsKind;
pub use counts::entries;
pub use generator_laws::{
    generated_are_formed, generated_examples, leaves_are_counted, limit_agrees, ones_are_feasible,
};
pub use kinds::PointKind;
pub use laws::programs_are_limited;
pub use model_kinds::ModelKind;
pub use models::read_program;
pub use plain::Plain;
pub use point_laws::known_point_faults_stay;
pub use point_text::PointText;
pub use points::read_point;
pub use programs::{MOST_DRAWN, generate};
pub use reader::PointReader;
pub use refusal_laws::refusals_tell;
pub use refusals::FaultyText;
pub use tasks::{Task, read_task};
pub use unread::Unread;
pub use whole_text::point_of_text;
pub use words::{Job, Limits, USUAL_NODES, Words, WordsFault};
