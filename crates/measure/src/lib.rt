//! Measures: how the ties of a node are weighed.
//!
//! A measure gives each pair of nodes a value, by the byte that goes out and the byte that comes
//! in, joins the values of many pairs into one total, and says whether two totals are equal and
//! which tests hold of one. Kinds, Bundles and Tally are three of them; a host may write its own
//! and prove the laws. What a measure tells apart, and no more, the engine tells apart.

#![tactic(auto)]

// What a measure tells, and the laws it keeps.
pub mod interface;
// Membership in a set of numbers.
mod members;
// The sets of kinds that go out and come in.
pub mod kinds;
// The combinations of kinds that there are with a single node.
pub mod bundles;
// The numbers of ties that go out and come in.
pub mod tally;
#[cfg(test)]
mod tests;

pub use bundles::Bundles;
pub use interface::Measure;
pub use kinds::Kinds;
pub use tally::Tally;
