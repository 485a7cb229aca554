//! Constraint handlers: plugins that keep the rows of a class by what they come to, and by rounding.
#![tactic(auto)]

mod classes;
mod handling;
mod rounding;
mod tries;

pub use classes::Class;
pub use handling::ClassHandler;
