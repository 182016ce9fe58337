//! Networks: where ties live, and when a put is refused.
//!
//! A network has n nodes, numbered from 0, at most [`MOST_NODES`], and from each node to each a
//! tie byte: bit k of it says that there is a tie of kind k. [`Readable`] is what every network
//! tells, [`Editable`] what one takes that can be altered. [`Matrix`] keeps a byte for each pair of
//! nodes, [`TwoMode`] one for each pair from one side to the other, [`SlotList`] a slot for each
//! tied pair. [`Turned`] and [`NoLoops`] are layers: each holds a network and is one again. The
//! memory is the host's: a making takes it, `into_memory` gives it back, and nothing is allocated.
//! What cannot be done is refused with a [`Fault`], and then nothing is altered.

#![tactic(auto)]

pub use faults::Fault;
pub use interface::{Editable, MOST_NODES, Readable};
pub use matrix::Matrix;
pub use no_loops::NoLoops;
pub use slot::Slot;
pub use slot_list::SlotList;
pub use turned::Turned;
pub use two_mode::TwoMode;

// The refusals of a network, with their numbers.
pub mod faults;
// What a network tells and takes.
pub mod interface;
// A byte for each pair, in memory that is handed to the making.
mod grid;
// Every pair allowed, a byte for each.
pub mod matrix;
// Ties from one side to the other.
pub mod two_mode;
// What a slot holds.
pub mod slot;
// Every pair allowed, a slot for each tied pair.
pub mod slot_list;
// Every tie of the network below the other way round.
pub mod turned;
// The network below without new ties from a node to itself.
pub mod no_loops;
#[cfg(test)]
mod tests;
