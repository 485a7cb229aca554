//! Presolve: steps that take out rows and columns of a program, each a proved reduction; what is left of a program in
//! work without them; and the way back from it: points and whole values of it as those of the program.
#![tactic(auto)]

mod candidates;
mod columns;
mod copies;
mod drafts;
mod extents;
mod faults;
mod fixed_columns;
mod forms;
mod keeping;
mod keys;
mod leaving;
mod left_lists;
mod left_programs;
mod left_rows;
mod locks;
mod lone;
mod merging;
mod moves;
mod open;
mod places;
mod presolved;
mod queues;
mod replacing;
mod rests;
mod rounds;
mod row_copies;
mod row_looks;
mod row_steps;
mod rules;
mod single_rows;
mod spent;
mod staying;
mod steps;
mod substituting;
mod taking;
mod terms;
mod values;

pub use faults::PostsolveFault;
pub use left_programs::Presolved;
use merging::try_merge;
use moves::try_moves;
pub use presolved::{PresolveEnd, presolve, presolve_all, presolved_leads_back};
pub use row_looks::Place;
pub use steps::{Steps, leaf_fits, postsolve, whole_part};
