// What ends the program: a difference, want of memory, or output that cannot be written.
use super::case::Difference;
use std::alloc::AllocError;
use std::{fmt, io};
use thiserror::Error;

#[derive(Drop, Error)]
pub(crate) enum Trouble {
    #[error("{0}")]
    Difference(Difference),
    #[error("out of memory")]
    Memory(#[from(alloc)] AllocError),
    #[error("the output cannot be written")]
    Output(#[from] io::Error),
}

// The runtime prints what `main` returns by this: the same words.
impl fmt::Debug for Trouble {
    fn fmt<W: fmt::Write>(&self, f: &mut fmt::Formatter<W>) -> fmt::Result {
        write!(f, "{self}")
    }
}
