// One case that is held: a network of a shape, its colours, and a measure. It prints as a script.
use super::book::Book;
use super::drawing::Drawing;
use super::shapes::Shape;
use super::tables::role_count;
use super::totals::Weighing;
use super::trouble::Trouble;
use std::alloc::{AllocError, Global};
use std::fmt;

/// What is held: the network in its shape, its measure, and its ties and colours.
#[derive(Clone, Copy)]
pub(crate) struct Case {
    pub(crate) heap: Global,
    pub(crate) shape: Shape,
    pub(crate) weighing: Weighing,
    pub(crate) book: Book,
}

/// Something that the engine gave, and was not to give.
#[derive(Drop)]
pub(crate) struct Difference {
    what: String,
    case: Case,
}

impl Case {
    /// A network that was drawn, by a measure.
    pub(crate) fn of(heap: Global, weighing: Weighing, drawing: &Drawing) -> Case {
        Case {
            heap,
            shape: drawing.shape,
            weighing,
            book: drawing.book,
        }
    }

    /// With a colour for each node.
    pub(crate) fn coloured(self, colours: &[u8]) -> Case {
        Case {
            book: self.book.coloured(colours),
            ..self
        }
    }

    /// How many splits lead to the table from the starting classes.
    pub(crate) fn splits_to(self, table: &[u8]) -> usize {
        role_count(table).saturating_sub(role_count(self.book.colours()))
    }

    /// The difference in so many words, or want of memory for them.
    pub(crate) fn differs(self, what: Result<String, AllocError>) -> Trouble {
        match what {
            Ok(what) => Trouble::Difference(Difference { what, case: self }),
            Err(fault) => Trouble::Memory(fault),
        }
    }

    /// Holds what the engine gave, when asked this, against what it was to give.
    pub(crate) fn hold<T: PartialEq + fmt::Debug + Drop>(
        self,
        asked: impl fmt::Display + Drop,
        given: T,
        wanted: T,
    ) -> Result<(), Trouble> {
        if given == wanted {
            return Ok(());
        }
        let heap = self.heap;
        Err(self.differs(format!(in heap; "{asked} gives {given:?}, and not {wanted:?}")))
    }
}

/// A call that was handed a number.
#[derive(Clone, Copy)]
pub(crate) struct At<'a>(pub(crate) &'a str, pub(crate) usize);

impl fmt::Display for At<'_> {
    fn fmt<W: fmt::Write>(&self, f: &mut fmt::Formatter<W>) -> fmt::Result {
        write!(f, "{}({})", self.0, self.1)
    }
}

// The record that names the network, and the one that chooses the measure.
fn write_begin<W: fmt::Write>(case: &Case, f: &mut fmt::Formatter<W>) -> fmt::Result {
    let nodes = case.book.nodes;
    match case.shape {
        Shape::Sides(a) => writeln!(f, "NT {a} {}", nodes.saturating_sub(a))?,
        Shape::List(slots) | Shape::Layers(slots) => writeln!(f, "NL {nodes} {slots}")?,
        Shape::Matrix | Shape::Turned | Shape::NoLoops => writeln!(f, "NM {nodes}")?,
    }
    f.write_str(match case.weighing {
        Weighing::Kinds => "MK\n",
        Weighing::Bundles => "MB\n",
        Weighing::Tally => "MT\n",
    })
}

// The puts from node i.
fn write_ties<W: fmt::Write>(book: &Book, i: usize, f: &mut fmt::Formatter<W>) -> fmt::Result {
    for j in 0..book.nodes {
        let byte = book.tie(i, j);
        if byte > 0 {
            writeln!(f, "PU {i} {j} {byte}")?;
        }
    }
    Ok(())
}

// A layer is written as the matrix or the list that it means.
impl fmt::Display for Case {
    fn fmt<W: fmt::Write>(&self, f: &mut fmt::Formatter<W>) -> fmt::Result {
        write_begin(self, f)?;
        for i in 0..self.book.nodes {
            write_ties(&self.book, i, f)?;
        }
        for (i, colour) in self.book.colours().iter().enumerate() {
            writeln!(f, "CO {i} {colour}")?;
        }
        f.write_str("GO\n")
    }
}

// A script: what differs, as a remark, and then the network.
impl fmt::Display for Difference {
    fn fmt<W: fmt::Write>(&self, f: &mut fmt::Formatter<W>) -> fmt::Result {
        let Case {
            shape,
            weighing,
            ..
        } = self.case;
        writeln!(f, "RM on a {shape}, by {weighing}: {}", self.what)?;
        let script = &self.case;
        write!(f, "{script}")
    }
}
