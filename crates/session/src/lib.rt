//! Sessions: ties and colours change, and roles are split until the table is regular.
//!
//! `Open::new` takes a network and a measure. An open session takes put and colour, which bring its
//! table back to the starting classes; step, which splits one role in two; and settle, which splits
//! roles until the table is the coarsest regular one within the starting classes. What it gives
//! then, a `Settled` session, answers a question for each role, and nothing of it can be altered
//! until it is open again. Both kinds tell their roles, and answer a question for each node.
//!
//! A session allocates nothing, and holds at most 128 nodes.

#![tactic(auto)]

// One role: its lowest node and its size.
pub mod role;
// The table of roles.
mod table;
// What a row of an answer has columns for.
mod columns;
// The refusals of a session.
pub mod faults;
// What a step did.
pub mod step;
// Ties and colours change, and roles are split.
pub mod open;
// The coarsest regular table.
pub mod settled;
#[cfg(test)]
mod tests;

pub use faults::Fault;
pub use open::Open;
pub use role::Role;
pub use settled::Settled;
pub use step::Step;
