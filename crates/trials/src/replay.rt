// A list of calls replayed by a plain model of the session, which holds each reply and each area.
use super::case::Case;
use super::search::Search;
use super::steps::{Stepped, after_step};
use super::tables::in_order;
use super::told::{Told, telling, writing};
use super::trouble::Trouble;
use super::turns::Turn;
use driving::call::{Call, Move, Reply, Write};
use std::alloc::AllocError;

#[derive(Drop)]
pub(crate) struct Replay<'a> {
    /// The ties and colours so far.
    pub(crate) case: Case,
    /// Every table of so many nodes.
    tables: &'a [Vec<u8>],
    /// The table that the session has.
    pub(crate) table: Vec<u8>,
    settled: bool,
    /// How many lists went before, and how many calls of this one.
    list: usize,
    at: usize,
}

impl<'a> Replay<'a> {
    /// An open session at the starting classes.
    pub(crate) fn new(
        case: Case,
        tables: &'a [Vec<u8>],
        list: usize,
    ) -> Result<Replay<'a>, AllocError> {
        Ok(Replay {
            case,
            tables,
            table: in_order(case.heap, case.book.colours())?,
            settled: false,
            list,
            at: 0,
        })
    }

    // Back at the starting classes.
    fn restart(&mut self) -> Result<(), AllocError> {
        self.table = in_order(self.case.heap, self.case.book.colours())?;
        Ok(())
    }

    /// Ends the list: the session is settled where it is open.
    pub(crate) fn finish(&mut self) -> Result<(), Trouble> {
        if self.settled {
            return Ok(());
        }
        self.settle()
    }

    // On to the coarsest table.
    fn settle(&mut self) -> Result<(), Trouble> {
        let case = self.case;
        let heap = case.heap;
        let colours = case.book.colours();
        let search = Search::among(&case, self.tables)?;
        let Some(coarsest) = search.coarsest(colours) else {
            return Err(case.differs(format!(in heap; "no table is coarsest of {colours:?}")));
        };
        self.table = in_order(heap, coarsest)?;
        self.settled = true;
        Ok(())
    }

    // Whether the reply is a step that the table allows, and on to the table after it.
    fn step(&mut self, reply: Reply) -> Result<bool, AllocError> {
        let Reply::Step(step) = reply else {
            return Ok(false);
        };
        match after_step(&self.case, &self.table, step)? {
            Stepped::Stable => {}
            Stepped::Split(table) => self.table = table,
            Stepped::Wrong => return Ok(false),
        }
        Ok(true)
    }

    // Whether the session's state takes the call.
    fn takes(&self, call: Call<'_>) -> bool {
        match call {
            Call::Edit(_) | Call::Move(Move::Step | Move::Settle) => !self.settled,
            Call::Move(Move::Reopen) | Call::Write(Write::Ask(_)) => self.settled,
            Call::Write(Write::Look(_)) | Call::Tell(_) => true,
        }
    }

    // What the call is to reply and leave, and the ties and colours after it. None of a step, which
    // is free in what it splits.
    fn due(&mut self, turn: &Turn) -> Result<Option<Told>, AllocError> {
        let call = turn.call();
        let reply = match call {
            _ if !self.takes(call) => Reply::NotTaken,
            Call::Edit(edit) => self.case.book.edit(edit),
            Call::Move(Move::Step) => return Ok(None),
            Call::Move(Move::Settle) => Reply::Settled,
            Call::Move(Move::Reopen) => Reply::Reopened,
            Call::Write(write) => {
                return writing(&self.case, &self.table, write, &turn.area).map(Some);
            }
            Call::Tell(tell) => telling(&self.case, &self.table, tell),
        };
        let area = turn.area.clone()?;
        Ok(Some(Told { reply, area }))
    }

    /// Takes a call, with what the engine replied and left in the area.
    pub(crate) fn take(&mut self, turn: &Turn, reply: Reply, area: &[u8]) -> Result<(), Trouble> {
        let fits = match self.due(turn)? {
            Some(due) => reply == due.reply && area == due.area.as_slice(),
            None => area == turn.area.as_slice() && self.step(reply)?,
        };
        if !fits {
            return Err(self.differs(turn, reply, area));
        }
        match reply {
            Reply::Put(Ok(())) | Reply::Colour(Ok(())) => self.restart()?,
            Reply::Settled => self.settle()?,
            Reply::Reopened => self.settled = false,
            _ => {}
        }
        self.at = self.at.saturating_add(1);
        Ok(())
    }

    // The call that was not answered as it is to be.
    fn differs(&self, turn: &Turn, reply: Reply, area: &[u8]) -> Trouble {
        let heap = self.case.heap;
        let list = self.list;
        let at = self.at;
        let table = self.table.as_slice();
        self.case.differs(format!(in heap;
            "list {list}, call {at}, table {table:?}: {turn:?} gives {reply:?}, leaves {area:?}"
        ))
    }
}
