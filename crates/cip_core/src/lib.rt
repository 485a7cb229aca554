//! The core of a search: the nodes, the point held, the pool of rows and the region in work, and the steps that keep
//! what holds of them.
#![tactic(auto)]

mod adding;
mod beginning;
mod closing;
mod cores;
mod costs;
mod entering;
mod laws;
mod offering;
mod pools;
mod raising;
mod splitting;
mod tightening;

pub use adding::Asked;
pub use beginning::root_bound;
pub use cip_model::{Program, Verdict};
pub use cip_presolve::{PostsolveFault, Presolved, Steps, postsolve, whole_part};
pub use cores::Core;
pub use laws::steps_compose;
pub use offering::cost_of;
