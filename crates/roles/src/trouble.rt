// What ends the program with an error: input that cannot be read, want of memory, or output that
// cannot be written.
use std::alloc::AllocError;
use std::{fmt, io};
use thiserror::Error;

#[derive(Drop, Error)]
pub enum Trouble {
    #[error("the input cannot be read")]
    Input(#[source] io::Error),
    #[error("out of memory")]
    Memory(#[from] AllocError),
    #[error("the output cannot be written")]
    Output(#[source] io::Error),
}

// The runtime prints what `main` returns by this: the same words.
impl fmt::Debug for Trouble {
    fn fmt<W: fmt::Write>(&self, f: &mut fmt::Formatter<W>) -> fmt::Result {
        write!(f, "{self}")
    }
}
