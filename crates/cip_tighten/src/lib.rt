//! Separators, plugins that bring cuts, and propagators, plugins that bring sides of columns: each with what proves it.
//! They are made of rows that stand at a side, added up, in the ways of their columns from sides; combinations of cuts;
//! which cuts of a round are brought, and what rounds gained; and sides that rows imply.
#![tactic(auto)]

mod activities;
mod budgets;
mod candidates;
mod column_rows;
mod combos;
mod cost_rows;
mod covering;
mod covers;
mod gains;
mod implied;
mod mixed;
mod mixing;
mod numbers;
mod paths;
mod patience;
mod reduced_costs;
mod reductions;
mod rounding;
mod roundings;
mod shifts;
mod split_cuts;
mod stops;
mod sums;
mod tight;
mod watched;

pub use activities::ActivityPropagator;
pub use candidates::Candidates;
pub use column_rows::ColumnRows;
pub use covering::CoverSeparator;
pub use gains::{Gains, cost_of, has_fraction, is_long, most_cost};
pub use implied::{Implied, Narrowing, Region, Source, list_implied};
pub use mixed::MixedSeparator;
pub use numbers::{UNIT, rough};
pub use patience::Patience;
pub use reduced_costs::ReducedCostPropagator;
pub use reductions::{MOST_REDUCTIONS, add_reductions};
pub use rounding::RoundingSeparator;
pub use roundings::rounded_cut;
pub use shifts::{Aim, Shifted};
pub use stops::{Stop, unless_refused};
pub use sums::{Standing, Sum};
pub use tight::{activity, short, tight_row};
pub use watched::Watched;
