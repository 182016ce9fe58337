// The shapes of networks: what each means without ties, and the engine's network of it.
use super::book::{Book, Tie};
use super::case::Case;
use super::drawing::Drawing;
use super::totals::Weighing;
use super::trouble::Trouble;
use measure::{Bundles, Kinds, Measure, Tally};
use network::{Editable, Matrix, NoLoops, Slot, SlotList, Turned, TwoMode};
use std::fmt;

#[derive(Clone, Copy, PartialEq, Eq)]
pub(crate) enum Shape {
    Matrix,
    /// The layer turned over a matrix.
    Turned,
    /// The layer no-loops over a matrix.
    NoLoops,
    /// Two modes, with so many nodes on side A.
    Sides(usize),
    /// The list with so many slots.
    List(usize),
    /// The layers no-loops and turned over such a list.
    Layers(usize),
}

impl fmt::Display for Shape {
    fn fmt<W: fmt::Write>(&self, f: &mut fmt::Formatter<W>) -> fmt::Result {
        match self {
            Shape::Matrix => f.write_str("matrix"),
            Shape::Turned => f.write_str("turned matrix"),
            Shape::NoLoops => f.write_str("matrix without loops"),
            Shape::Sides(a) => write!(f, "two-mode network with {a} on side A"),
            Shape::List(1) => f.write_str("list of 1 slot"),
            Shape::List(slots) => write!(f, "list of {slots} slots"),
            Shape::Layers(slots) => write!(f, "turned list of {slots} slots without loops"),
        }
    }
}

impl Shape {
    pub(crate) fn allows(self, i: usize, j: usize) -> bool {
        match self {
            Shape::Matrix | Shape::Turned | Shape::List(_) => true,
            Shape::NoLoops | Shape::Layers(_) => i != j,
            Shape::Sides(a) => i < a && j >= a,
        }
    }

    // How many pairs may be tied at a time.
    fn cap(self, nodes: usize) -> usize {
        match self {
            Shape::List(slots) | Shape::Layers(slots) => slots,
            Shape::Sides(a) => a.saturating_mul(nodes.saturating_sub(a)),
            Shape::Matrix | Shape::Turned | Shape::NoLoops => nodes.saturating_mul(nodes),
        }
    }

    /// The network of n nodes without ties.
    pub(crate) fn untied(self, nodes: usize) -> Book {
        let mut book = Book::new(nodes, self.cap(nodes));
        for i in 0..nodes {
            for j in 0..nodes {
                book.allow(i, j, self.allows(i, j));
            }
        }
        book
    }

    /// The least number of nodes.
    pub(crate) fn fewest(self) -> usize {
        match self {
            Shape::Sides(a) => a.saturating_add(1),
            _ => 1,
        }
    }

    /// Whether the tie can be put, below the layer or through it.
    pub(crate) fn holds(self, tie: Tie) -> bool {
        self.is_below(tie) || self.allows(tie.from, tie.to)
    }

    /// Whether the tie is put below, before the layer goes over. Through turned half of them are.
    pub(crate) fn is_below(self, tie: Tie) -> bool {
        match self {
            Shape::Turned => tie.from < tie.to,
            Shape::NoLoops => tie.from == tie.to,
            Shape::Matrix | Shape::Sides(_) | Shape::List(_) | Shape::Layers(_) => false,
        }
    }
}

/// What is tried of a network, whatever its type and its measure.
pub(crate) trait Trial {
    fn run<N: Editable + Drop, M: Measure + Copy>(
        &mut self,
        network: N,
        measure: M,
    ) -> Result<(), Trouble>;
}

// The trial by the measure of the case.
fn run_by<N: Editable + Drop, T: Trial>(
    case: &Case,
    network: N,
    trial: &mut T,
) -> Result<(), Trouble> {
    match case.weighing {
        Weighing::Kinds => trial.run(network, Kinds),
        Weighing::Bundles => trial.run(network, Bundles),
        Weighing::Tally => trial.run(network, Tally),
    }
}

// A matrix with the ties that are put below.
fn matrix_below(case: &Case, drawing: &Drawing) -> Result<Matrix, Trouble> {
    let heap = case.heap;
    let nodes = case.book.nodes;
    let mut matrix = Matrix::new(nodes, vec![in heap; 7; nodes.saturating_mul(nodes)]?);
    for &Tie { from, to, byte } in &drawing.below {
        let answer = if case.shape == Shape::Turned {
            matrix.put(to, from, byte)
        } else {
            matrix.put(from, to, byte)
        };
        case.hold("a put below", answer, Ok(()))?;
    }
    Ok(matrix)
}

// A list over slots that held something before.
fn list(case: &Case, slots: usize) -> Result<SlotList, Trouble> {
    let heap = case.heap;
    let slot = Slot::Taken {
        from: 0,
        to: 0,
        byte: 7,
    };
    Ok(SlotList::new(case.book.nodes, vec![in heap; slot; slots]?))
}

/// The trial of the network of the case's shape and size, with the ties that are put below.
pub(crate) fn run_on<T: Trial>(
    case: &Case,
    drawing: &Drawing,
    trial: &mut T,
) -> Result<(), Trouble> {
    let heap = case.heap;
    let nodes = case.book.nodes;
    match case.shape {
        Shape::Matrix => run_by(case, matrix_below(case, drawing)?, trial),
        Shape::Turned => run_by(case, Turned(matrix_below(case, drawing)?), trial),
        Shape::NoLoops => run_by(case, NoLoops(matrix_below(case, drawing)?), trial),
        Shape::Sides(a) => {
            let b = nodes.saturating_sub(a);
            let memory = vec![in heap; 7; a.saturating_mul(b)]?;
            run_by(case, TwoMode::new(a, b, memory), trial)
        }
        Shape::List(slots) => run_by(case, list(case, slots)?, trial),
        Shape::Layers(slots) => run_by(case, Turned(NoLoops(list(case, slots)?)), trial),
    }
}
