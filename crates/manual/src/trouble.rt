// What goes wrong: a refusal, want of memory, or output that cannot be written.
use std::alloc::AllocError;
use std::{fmt, io};
use thiserror::Error;

#[derive(Drop, Error)]
pub enum Trouble {
    #[error("the network refuses with {}", .0.number())]
    Network(#[from] network::Fault),
    #[error("the vet refuses with {}", .0.number())]
    Vet(#[from] equivalence::Fault),
    #[error("out of memory")]
    Memory(#[from] AllocError),
    #[error("the output cannot be written")]
    Output(#[from] io::Error),
}

// The runtime prints what `main` returns by this: the same words.
impl fmt::Debug for Trouble {
    fn fmt<W: fmt::Write>(&self, f: &mut fmt::Formatter<W>) -> fmt::Result {
        write!(f, "{self}")
    }
}
