//! Regular equivalence of the nodes of a network, and the vet of a table.
//!
//! A table gives each node its role. It is regular, under a measure, when two nodes of one role
//! have equal totals toward every role. `vet` says whether a table of bytes is regular, and shows
//! three nodes where it is not. Under each of the three measures regular is a notion of its field:
//! their own `vet`, of the trait `Classical`, says so.

#![tactic(auto)]

// The refusals of the vet.
pub mod faults;
// What a node has with a set of nodes.
pub mod totals;
// Which nodes leave a role when it is split.
pub mod leaving;
// Whether a table is regular.
pub mod vetting;
// What regular means in the classical notions.
pub mod classical;
#[cfg(test)]
mod tests;

pub use classical::Classical;
pub use faults::Fault;
pub use vetting::vet;
