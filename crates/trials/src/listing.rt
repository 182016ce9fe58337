// One list of calls, driven by the engine and replayed by the model.
use super::case::{At, Case};
use super::counts::Tried;
use super::replay::Replay;
use super::shapes::Trial;
use super::tellings::hold_roles;
use super::trouble::Trouble;
use super::turns::Turn;
use driving::call::{Exchange, Reply};
use driving::drive::drive;
use measure::Measure;
use network::{Editable, Readable};
use session::Settled;
use std::alloc::{AllocError, Global};

/// A list to be driven.
#[derive(Drop)]
pub(crate) struct Listing<'a> {
    /// The network at its start.
    pub(crate) case: Case,
    /// Every table of so many nodes.
    pub(crate) tables: &'a [Vec<u8>],
    pub(crate) turns: &'a [Turn],
    /// What was held before, and then this list too.
    pub(crate) tried: Tried,
}

// The areas, each as it is lent.
fn areas(heap: Global, turns: &[Turn]) -> Result<Vec<Vec<u8>>, AllocError> {
    let mut areas = Vec::new(heap);
    for turn in turns {
        areas.push(turn.area.clone()?)?;
    }
    Ok(areas)
}

// The calls, each lent its area.
fn exchanges<'q, 'a>(
    heap: Global,
    turns: &'q [Turn],
    areas: &'a mut [Vec<u8>],
) -> Result<Vec<Exchange<'q, 'a>>, AllocError> {
    let mut exchanges = Vec::new(heap);
    for (turn, area) in turns.iter().zip(areas.iter_mut()) {
        exchanges.push(Exchange::of(turn.call(), area))?;
    }
    Ok(exchanges)
}

impl Listing<'_> {
    // Replays each call, and holds the session that was given back.
    fn replay<N: Editable, M: Measure>(
        &self,
        replies: &[Reply],
        areas: &[Vec<u8>],
        settled: &Settled<N, M>,
    ) -> Result<(), Trouble> {
        let mut replay = Replay::new(self.case, self.tables, self.tried.lists)?;
        let given = replies.iter().zip(areas.iter());
        for (turn, (&reply, area)) in self.turns.iter().zip(given) {
            replay.take(turn, reply, area)?;
        }
        replay.finish()?;
        hold_last(&replay, settled)
    }
}

// Holds the session that was given back: its table, its roles, its ties.
fn hold_last<N: Editable, M: Measure>(
    replay: &Replay<'_>,
    settled: &Settled<N, M>,
) -> Result<(), Trouble> {
    let case = &replay.case;
    for i in 0..case.book.nodes {
        for j in 0..case.book.nodes {
            let given = settled.network().tie(i, j);
            case.hold(At("the last tie of node", i), given, case.book.tie(i, j))?;
        }
    }
    hold_roles(case, settled, &replay.table)
}

impl Trial for Listing<'_> {
    fn run<N: Editable + Drop, M: Measure + Copy>(
        &mut self,
        network: N,
        measure: M,
    ) -> Result<(), Trouble> {
        let heap = self.case.heap;
        let mut areas = areas(heap, self.turns)?;
        let mut exchanges = exchanges(heap, self.turns, &mut areas)?;
        let settled = drive(network, measure, &mut exchanges);
        let replies: Vec<Reply> = exchanges
            .iter()
            .map(|exchange| exchange.reply)
            .collect(heap)?;
        drop(exchanges);
        self.replay(&replies, &areas, &settled)?;
        for &reply in &replies {
            self.tried.add_reply(reply);
        }
        self.tried.add_list();
        Ok(())
    }
}
