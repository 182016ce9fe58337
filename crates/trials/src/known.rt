// The small networks with known tables, as they are drawn and on each other shape that holds them.
use super::book::Tie;
use super::case::Case;
use super::counts::Counts;
use super::drawing::Drawing;
use super::search::Search;
use super::settling::Settling;
use super::shapes::Shape;
use super::tables::{all_tables, head, role_count};
use super::totals::Weighing;
use super::trouble::Trouble;
use driving::known::{KnownNetwork, Start, Weighing as KnownWeighing, known_networks};
use std::alloc::{AllocError, Global};

// The shape of the network as it is drawn, and how many nodes it has.
fn start(known: &KnownNetwork) -> (Shape, usize) {
    match known.start {
        Start::Matrix(n) => (Shape::Matrix, n),
        Start::TwoMode(a, b) => (Shape::Sides(a), a.saturating_add(b)),
        Start::List(n, slots) => (Shape::List(slots), n),
    }
}

fn weighing(known: &KnownNetwork) -> Weighing {
    match known.weighing {
        KnownWeighing::Kinds => Weighing::Kinds,
        KnownWeighing::Bundles => Weighing::Bundles,
        KnownWeighing::Tally => Weighing::Tally,
    }
}

// The network as it is drawn.
fn drawn(heap: Global, known: &KnownNetwork) -> Result<Drawing, AllocError> {
    let (shape, nodes) = start(known);
    let edits = known.edits.iter().map(|&(edit, _)| edit).collect(heap)?;
    Ok(Drawing::by(heap, shape, nodes, edits))
}

// The model replies to each edit what is known.
fn hold_replies(case: &Case, known: &KnownNetwork, drawing: &Drawing) -> Result<(), Trouble> {
    let mut book = drawing.start;
    for &(edit, reply) in known.edits {
        case.hold("an edit of the model", book.edit(edit), reply)?;
    }
    Ok(())
}

// Whether a table is the known one: this has for each node the head of its role.
fn is_known(known: &KnownNetwork, table: &[u8]) -> bool {
    table.len() == known.table.len()
        && table.iter().zip(known.table.iter()).all(|(&role, &its)| head(table, role)
            == Some(usize::from(its)))
}

// The model finds the table that is known.
fn hold_model(case: &Case, known: &KnownNetwork, tables: &[Vec<u8>]) -> Result<(), Trouble> {
    let heap = case.heap;
    let splits = case.splits_to(known.table);
    case.hold("the known table", role_count(known.table), known.roles)?;
    case.hold("the known table's splits", splits, known.splits)?;
    let search = Search::among(case, tables)?;
    let found = search.coarsest(case.book.colours());
    if !found.is_some_and(|table| is_known(known, table)) {
        return Err(case.differs(format!(in heap; "the model finds {found:?}")));
    }
    Ok(())
}

// Settles the network, and vets every table of so many nodes.
fn hold_drawing(
    case: &Case,
    drawing: &Drawing,
    known: &KnownNetwork,
    tables: &[Vec<u8>],
    counts: &mut Counts,
) -> Result<(), Trouble> {
    hold_model(case, known, tables)?;
    let mut settling = Settling {
        case: *case,
        drawing,
        coarsest: known.table,
        vetted: tables,
        irregular: known.irregular,
    };
    settling.hold()?;
    counts.settled = counts.settled.saturating_add(1);
    counts.vetted = counts.vetted.saturating_add(tables.len());
    Ok(())
}

// The other shapes that can hold every tie.
fn others(heap: Global, drawing: &Drawing, ties: &[Tie]) -> Result<Vec<Shape>, AllocError> {
    // A slot for each tie, and no more than a list must have.
    let slots = ties.len().max(1);
    let shapes = [
        Shape::Matrix,
        Shape::Turned,
        Shape::NoLoops,
        Shape::List(slots),
        Shape::Layers(slots),
    ];
    let sides = (1..drawing.book.nodes).map(Shape::Sides);
    let mut others = Vec::new(heap);
    for shape in shapes.into_iter().chain(sides) {
        if shape != drawing.shape && ties.iter().all(|&tie| shape.holds(tie)) {
            others.push(shape)?;
        }
    }
    Ok(others)
}

// Holds one network as it is drawn, and with its ties and colours on each other shape.
fn hold_network(heap: Global, known: &KnownNetwork, counts: &mut Counts) -> Result<(), Trouble> {
    let drawing = drawn(heap, known)?;
    let Drawing { book, .. } = drawing;
    let tables = all_tables(heap, book.nodes)?;
    let case = Case::of(heap, weighing(known), &drawing);
    hold_replies(&case, known, &drawing)?;
    hold_drawing(&case, &drawing, known, &tables, counts)?;
    let ties = book.ties(heap)?;
    for &shape in others(heap, &drawing, &ties)?.iter() {
        let other = Drawing::of(heap, shape, book.nodes, &ties)?;
        let case = Case::of(heap, weighing(known), &other).coloured(book.colours());
        hold_drawing(&case, &other, known, &tables, counts)?;
    }
    counts.networks = counts.networks.saturating_add(1);
    Ok(())
}

/// Holds each known network.
pub(crate) fn hold_known(heap: Global) -> Result<Counts, Trouble> {
    let mut counts = Counts::default();
    for known in &known_networks() {
        hold_network(heap, known, &mut counts)?;
    }
    Ok(counts)
}
