//! Questions about the nodes of a network.
//!
//! A question is a list of 1 to 32 lines, and each line is true or false of each node: the node has
//! a colour, a line before is false of it, two lines before are true of it, or its total toward the
//! nodes that a line before is true of holds a test. What the last line is true of is the answer.
//!
//! `Line::colour`, `Line::not`, `Line::and` and `Line::tied` make the lines, and `check` tells
//! whether a question can be answered. A session answers it: `look` for each node, and `ask` for
//! each role.

#![tactic(auto)]

pub use checking::check;
pub use faults::Fault;
pub use line::{Claim, Line};
pub use rows::row_at;

// A line, and what it claims.
pub mod line;
// The refusals of a question.
pub mod faults;
// Whether a question can be answered.
pub mod checking;
// The rows of an area.
pub mod rows;
#[cfg(test)]
mod tests;
