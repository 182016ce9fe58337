// What goes wrong: a refusal, want of memory, or output that cannot be written.
use std::alloc::AllocError;
use std::{fmt, io};
use thiserror::Error;

#[derive(Drop, Error)]
pub enum Trouble {
    #[error("{0}")]
    Network(#[from] network::Fault),
    #[error("{0}")]
    Vet(#[from] equivalence::Fault),
    #[error("{0}")]
    Session(#[from] session::Fault),
    #[error("{0}")]
    Question(#[from] question::Fault),
    #[error("out of memory")]
    Memory(#[from] AllocError),
    #[error("the output cannot be written")]
    Output(#[from] io::Error),
}

// The runtime prints what `main` returns by this: the same words.
impl fmt::Debug for Trouble {
    fn fmt<W: fmt::Write>(&self, f: &mut fmt::Formatter<W>) -> fmt::Result {
        write!(f, "{self}")
    }
}
