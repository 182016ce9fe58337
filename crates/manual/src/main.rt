// Settles a dispute over a manual page: which of the role tables that the page prints are regular,
// and under which measure; which roles each of its networks settles into, and whom a question is
// true of there.

#![tactic(auto)]

// What a settled session is asked.
mod asking;
// A network as a page draws it.
mod drawing;
// Whether a table is regular under a measure.
mod judging;
// What goes wrong.
mod trouble;
// What the page says.
mod words;

use asking::{Asks, answered};
use drawing::{drawn, drawn_sides};
use equivalence::Classical;
use judging::{confirmed, judged};
use measure::{Bundles, Kinds, Tally};
use network::{Editable, NoLoops, Readable, Turned};
use session::open::Open;
use session::settled::Settled;
use std::{fmt, io};
use trouble::Trouble;
use words::{Outcome, Roles, Settlement, Ties, Verdict};

// Prints the nodes and ties of a network.
fn show<N: Readable>(rt: &impl Print, name: &str, network: &N) -> io::Result<()> {
    let n = network.nodes();
    println!(rt; "The {name} network has {n} nodes: {}.", Ties(network))
}

// Prints a verdict on a table, under a measure.
fn pronounce<M: fmt::Display>(
    rt: &impl Print,
    name: &str,
    measure: &M,
    table: &[u8],
    verdict: Verdict,
) -> io::Result<()> {
    println!(rt;
        "  Under {measure}, {name} roles {} {verdict}",
        Roles(table)
    )
}

// Vets a table under a measure, and prints what comes of it.
fn judge<N: Readable, M: Classical + fmt::Display>(
    rt: &impl Print,
    network: &N,
    name: &str,
    measure: &M,
    table: &[u8],
) -> Result<(), Trouble> {
    let verdict = judged(network, measure, table)?;
    pronounce(rt, name, measure, table, verdict)?;
    Ok(())
}

// One table under each measure.
fn compare<N: Readable>(rt: &impl Print, network: &N, table: &[u8]) -> Result<(), Trouble> {
    judge(rt, network, "the", &Kinds, table)?;
    judge(rt, network, "the", &Bundles, table)?;
    judge(rt, network, "the", &Tally, table)
}

// Asks a settled session the measure's question, and prints what it answers.
fn ask<N: Editable, M: Asks + fmt::Display>(
    rt: &(impl Print + AllocGlobal),
    settled: &Settled<N, M>,
    measure: &M,
) -> Result<(), Trouble> {
    let question = measure.question();
    let answer = answered(rt.alloc(), settled, &question.lines)?;
    println!(rt;
        "  Under {measure}, asked who {}, {answer}.",
        question.words
    )?;
    Ok(())
}

// Settles a session, prints its roles, the vet's verdict on them and what they answer, and opens it
// again.
fn settle<N: Editable + Drop, M: Asks + Drop + fmt::Display>(
    rt: &(impl Print + AllocGlobal),
    session: Open<N, M>,
    measure: &M,
) -> Result<Open<N, M>, Trouble> {
    let settled = session.settle();
    println!(rt;
        "  Under {measure}, it settles into {}.",
        Settlement(&settled)
    )?;
    let verdict = confirmed(&settled, measure)?;
    pronounce(rt, "the settled", measure, settled.table(), verdict)?;
    ask(rt, &settled, measure)?;
    Ok(settled.reopen())
}

// Settles a network under a measure, and gives it back.
fn settle_under<N: Editable + Drop, M: Asks + Copy + fmt::Display>(
    rt: &(impl Print + AllocGlobal),
    network: N,
    measure: M,
) -> Result<N, Trouble> {
    let session = settle(rt, Open::new(network, measure), &measure)?;
    let (network, _) = session.into_parts();
    Ok(network)
}

// One network settled under each measure.
fn settle_under_each<N: Editable + Drop>(
    rt: &(impl Print + AllocGlobal),
    network: N,
) -> Result<(), Trouble> {
    let network = settle_under(rt, network, Kinds)?;
    let network = settle_under(rt, network, Bundles)?;
    settle_under(rt, network, Tally)?;
    Ok(())
}

// Prints what comes of putting a tie.
fn tell(rt: &impl Print, i: usize, j: usize, outcome: Outcome) -> io::Result<()> {
    println!(rt; "  A tie from {i} to {j} is {outcome}.")
}

// The tables of the page, under kinds.
fn tables(rt: &(impl Print + AllocGlobal)) -> Result<(), Trouble> {
    let heap = rt.alloc();
    let first = drawn(3, vec![in heap; 0; 9]?, &[(0, 1), (1, 2)])?;
    show(rt, "first", &first)?;
    judge(rt, &first, "the draft's", &Kinds, &[0, 1, 2])?;
    settle_under(rt, first, Kinds)?;

    let second = drawn(3, vec![in heap; 0; 9]?, &[(0, 1)])?;
    show(rt, "second", &second)?;
    judge(rt, &second, "the draft's", &Kinds, &[0, 1, 1])?;
    judge(rt, &second, "the corrected", &Kinds, &[0, 1, 2])?;

    // A put alters what the second settles into.
    let mut session = settle(rt, Open::new(second, Kinds), &Kinds)?;
    tell(rt, 2, 1, Outcome(session.put(2, 1, 1)))?;
    show(rt, "second", session.network())?;
    settle(rt, session, &Kinds)?;
    Ok(())
}

// Where the measures differ.
fn contrast(rt: &(impl Print + AllocGlobal)) -> Result<(), Trouble> {
    let heap = rt.alloc();
    let teams = drawn(5, vec![in heap; 0; 25]?, &[(0, 1), (0, 2), (3, 4)])?;
    show(rt, "teams", &teams)?;
    compare(rt, &teams, &[0, 1, 1, 0, 1])?;
    settle_under_each(rt, teams)?;

    let ties = [(0, 1), (1, 2), (2, 0), (3, 4), (4, 3)];
    let circles = drawn(5, vec![in heap; 0; 25]?, &ties)?;
    show(rt, "circles", &circles)?;
    compare(rt, &circles, &[0, 0, 0, 0, 0])?;
    settle_under_each(rt, circles)
}

// Students 0 to 2 and exams 3 and 4, from both sides; and a network that takes no loops.
fn layers(rt: &(impl Print + AllocGlobal)) -> Result<(), Trouble> {
    let heap = rt.alloc();
    let exams = drawn_sides(3, 2, vec![in heap; 0; 6]?, &[(0, 3), (1, 3)])?;
    show(rt, "students and exams", &exams)?;
    judge(rt, &exams, "the", &Kinds, &[0, 0, 2, 1, 2])?;
    let exams = settle_under(rt, exams, Kinds)?;

    let turned = Turned(exams);
    show(rt, "turned", &turned)?;
    judge(rt, &turned, "the", &Kinds, &[0, 0, 2, 1, 2])?;
    settle_under(rt, turned, Kinds)?;

    let mut bare = NoLoops(drawn(2, vec![in heap; 0; 4]?, &[(0, 1), (1, 1)])?);
    show(rt, "no-loops", &bare)?;
    tell(rt, 0, 0, Outcome(bare.put(0, 0, 1)))?;
    tell(rt, 1, 0, Outcome(bare.put(1, 0, 1)))?;
    show(rt, "no-loops", &bare)?;
    settle_under(rt, bare, Kinds)?;
    Ok(())
}

fn page(rt: &(impl Print + AllocGlobal)) -> Result<(), Trouble> {
    tables(rt)?;
    contrast(rt)?;
    layers(rt)
}

fn main(rt: HostRuntime) -> Result<(), Trouble> {
    page(&rt)
}
