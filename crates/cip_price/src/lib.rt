//! Pricing: column generation over the blocks of a program, whose bound is shown at each end.
#![tactic(auto)]

mod answers;
mod asker;
mod asks;
mod block_answers;
mod block_rounds;
mod bounding;
mod crossing;
mod offering;
mod pricing;
mod rounds;
mod tasks;
mod work;

pub use answers::{PriceAnswer, PriceCause, PriceLimits};
pub use asker::AskPricer;
pub use block_answers::{Accepted, BlockAnswer};
pub use block_rounds::{Round, ask_blocks};
pub use cip_master::{MasterCause, PointVerdict};
pub use offering::Growth;
pub use pricing::price;
pub use tasks::PriceTask;
