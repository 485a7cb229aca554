//! The outside, as a program sees it: stores, from which named texts are pulled, and sinks, to which bytes are
//! pushed. Each counts its faults. A call answers `Failed` only where the count rose in that call or stands at its
//! last value, and an `Ok` leaves the count as it was. So a caller above can tell whether the outside failed.
#![tactic(auto)]

mod host_sink;
mod host_store;
mod memory_sink;
mod memory_store;
mod shelf;
mod sink;
mod sound_store;
mod store;

pub use host_sink::HostSink;
pub use host_store::HostStore;
pub use memory_sink::MemorySink;
pub use memory_store::MemoryStore;
pub use sink::{Sink, push_all};
pub use sound_store::SoundStore;
pub use store::Store;

/// The outside failed: a fault was counted.
#[derive(Clone, Copy)]
pub struct Failed;
