// How a network of a shape comes to its ties: some are put below a layer, the others through it.
use super::book::{Book, Tie};
use super::shapes::Shape;
use driving::call::Edit;
use std::alloc::{AllocError, Global};

#[derive(Drop)]
pub(crate) struct Drawing {
    pub(crate) shape: Shape,
    /// The ties that are put before the layer goes over.
    pub(crate) below: Vec<Tie>,
    /// The network with these.
    pub(crate) start: Book,
    /// What it is then given, in order.
    pub(crate) edits: Vec<Edit>,
    /// The network after the edits that it takes.
    pub(crate) book: Book,
}

// The ties that are put below, or those that are not.
fn chosen(heap: Global, shape: Shape, ties: &[Tie], below: bool) -> Result<Vec<Tie>, AllocError> {
    let mut chosen = Vec::new(heap);
    for &tie in ties {
        if shape.is_below(tie) == below {
            chosen.push(tie)?;
        }
    }
    Ok(chosen)
}

impl Drawing {
    // With these ties below.
    fn over(shape: Shape, nodes: usize, below: Vec<Tie>, edits: Vec<Edit>) -> Drawing {
        let mut start = shape.untied(nodes);
        for &Tie { from, to, byte } in &below {
            start.set(from, to, byte);
        }
        let book = start.after(&edits);
        Drawing {
            shape,
            below,
            start,
            edits,
            book,
        }
    }

    /// The network of the shape after these edits.
    pub(crate) fn by(heap: Global, shape: Shape, nodes: usize, edits: Vec<Edit>) -> Drawing {
        Drawing::over(shape, nodes, Vec::new(heap), edits)
    }

    /// The network of the shape with these ties.
    pub(crate) fn of(
        heap: Global,
        shape: Shape,
        nodes: usize,
        ties: &[Tie],
    ) -> Result<Drawing, AllocError> {
        let below = chosen(heap, shape, ties, true)?;
        let mut edits = Vec::new(heap);
        for &Tie { from, to, byte } in &chosen(heap, shape, ties, false)? {
            edits.push(Edit::Put(from, to, byte))?;
        }
        Ok(Drawing::over(shape, nodes, below, edits))
    }
}
