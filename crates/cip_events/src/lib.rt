//! Events of the search, the queue that keeps their order, and the lines of the trace.
#![tactic(auto)]

mod events;
mod masks;
mod names;
mod queues;
mod traces;
mod words;

pub use events::{Event, EventKind};
pub use masks::EventMask;
pub use names::Name;
pub use queues::EventQueue;
pub use traces::{Trace, TraceLine};
pub use words::Word;
