//! A session driven by a list of calls, and the promise.
//!
//! `drive` makes a session of a network and a measure, gives it each call of a list, settles it and
//! gives it back, and its contract is the promise: what the session then has, and what each call
//! replied and left in its area, whatever was called and whatever was refused. A call edits, moves
//! the session on, writes into an area or tells. `Session` takes one call after another for a host
//! that goes on by itself, and `known_networks` are small networks whose tables are known.

#![tactic(auto)]

pub use call::{Call, Edit, Exchange, Move, Reply, Tell, Write};
pub use known::{KnownNetwork, known_networks};
pub use state::Session;

// The calls, and what they reply.
pub mod call;
// A session, open or settled, that takes calls in turn.
pub mod state;
// A whole list of calls, and the promise.
pub mod drive;
// The small networks with known tables, and what is known of them.
pub mod known;
#[cfg(test)]
mod tests;
