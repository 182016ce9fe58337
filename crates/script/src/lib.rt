//! Scripts: the engine driven by text, one record a line.
//!
//! A script names a network and a measure, puts ties, colours nodes and asks. `run` plays it: what
//! it prints is appended to the bytes that are handed, and its refusals are given in order, each a
//! [`Fault`] that says which record is refused, where that begins and why. A refused record prints
//! one line and alters nothing. What is printed is a function of the bytes of the script, and the
//! contract of `run` has the laws of all scripts. `read` tells what one [`Record`] says.

#![tactic(auto)]

pub use faults::{Fault, Reason};
pub use player::{LIMIT, run};
pub use reading::read;
pub use record::Record;

// A whole script.
pub mod player;
// Why a record is refused.
pub mod faults;
// What a record says.
pub mod record;
// From the bytes of a record to what it says.
pub mod reading;
// Where bytes are cut.
mod cutting;
// A network whose kind is chosen by the script.
mod any_network;
// A question that is added to.
mod draft;
// The lines that are printed.
mod lines;
// What GO prints.
mod listing;
// The work on a network.
mod work;
// What a record does.
mod stage;
#[cfg(test)]
mod tests;
