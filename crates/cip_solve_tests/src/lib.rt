//! Tests of the roster, of presolve and of the search behind it: single calls on programs worked out by hand, what
//! splits that are proposed come to, random programs, of which the reduced and the whole one are searched, and random
//! programs with semi-continuous columns, whose choices are enumerated; and of stores and sinks, of the words of the
//! command line, of texts where `run` doesn't show what is asked, and of programs that are drawn.
#![tactic(auto)]

#[cfg(test)]
mod blocks;
#[cfg(test)]
mod calls;
#[cfg(test)]
mod cases;
#[cfg(test)]
mod choices;
#[cfg(test)]
mod commands;
#[cfg(test)]
mod deliveries;
#[cfg(test)]
mod drawn;
#[cfg(test)]
mod endings;
#[cfg(test)]
mod entries;
#[cfg(test)]
mod fakes;
#[cfg(test)]
mod faltering;
#[cfg(test)]
mod files;
#[cfg(test)]
mod fronts;
#[cfg(test)]
mod generated;
#[cfg(test)]
mod known;
#[cfg(test)]
mod parted;
#[cfg(test)]
mod points;
#[cfg(test)]
mod programs;
#[cfg(test)]
mod random;
#[cfg(test)]
mod roster_calls;
#[cfg(test)]
mod roster_endings;
mod tellers;
#[cfg(test)]
mod text_programs;
mod told;
#[cfg(test)]
mod wishes;

pub use tellers::Teller;
pub use told::Told;
