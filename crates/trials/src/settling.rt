// A network settled from one colouring, whole and step by step, with a question put to its roles.
use super::asking::hold_question;
use super::case::{At, Case};
use super::drawing::Drawing;
use super::shapes::{Trial, run_on};
use super::steps::{Stepped, after_step};
use super::tables::{in_order, role_headed};
use super::tellings::hold_roles;
use super::trouble::Trouble;
use super::vets::{hold_irregular, hold_vets};
use driving::call::{Edit, Reply};
use driving::known::Irregular;
use measure::Measure;
use network::{Editable, Readable};
use session::{Open, Settled, Step};

/// A network to be settled, and what is to come of it.
#[derive(Drop)]
pub(crate) struct Settling<'a> {
    /// The network with all its ties, and colours.
    pub(crate) case: Case,
    /// How it comes to its ties.
    pub(crate) drawing: &'a Drawing,
    /// The coarsest table.
    pub(crate) coarsest: &'a [u8],
    /// The tables that are vetted.
    pub(crate) vetted: &'a [Vec<u8>],
    /// Tables that are known not to be regular.
    pub(crate) irregular: &'a [Irregular],
}

// Gives the session a put or a colour.
fn give<N: Editable, M: Measure>(session: &mut Open<N, M>, edit: Edit) -> Reply {
    match edit {
        Edit::Put(i, j, b) => Reply::Put(session.put(i, j, b)),
        Edit::Colour(i, c) => Reply::Colour(session.colour(i, c)),
    }
}

impl Settling<'_> {
    /// Settles the network and holds what is told.
    pub(crate) fn hold(&mut self) -> Result<(), Trouble> {
        let case = self.case;
        run_on(&case, self.drawing, self)
    }

    // Gives the edits, and then each colour. Each is answered as the book answers it.
    fn draw<N: Editable, M: Measure>(&self, session: &mut Open<N, M>) -> Result<(), Trouble> {
        let mut book = self.drawing.start;
        for (at, &edit) in self.drawing.edits.iter().enumerate() {
            let given = give(session, edit);
            self.case.hold(At("edit", at), given, book.edit(edit))?;
        }
        for (x, &colour) in self.case.book.colours().iter().enumerate() {
            let given = session.colour(x, colour);
            self.case.hold(At("colour", x), given, Ok(()))?;
        }
        Ok(())
    }

    // Each head of the starting classes is still one.
    fn hold_heads<N: Editable, M: Measure>(
        &self,
        settled: &Settled<N, M>,
        classes: &[u8],
    ) -> Result<(), Trouble> {
        for x in 0..classes.len() {
            if role_headed(classes, x).is_some() {
                let role = settled.role_of(x).and_then(|r| settled.role(r));
                let given = role.map(|role| role.head);
                self.case.hold(At("the head of node", x), given, Ok(x))?;
            }
        }
        Ok(())
    }

    // Steps from the starting classes until the table is stable, and holds each answer.
    fn step_through<N: Editable, M: Measure>(
        &self,
        session: &mut Open<N, M>,
        classes: Vec<u8>,
    ) -> Result<(), Trouble> {
        let case = &self.case;
        let heap = case.heap;
        let mut table = classes;
        for _ in 0..=case.book.nodes {
            let step = session.step();
            match after_step(case, &table, step)? {
                Stepped::Stable => return hold_roles(case, session, self.coarsest),
                Stepped::Split(next) => table = next,
                Stepped::Wrong => {
                    let what = format!(in heap; "a step from {table:?} gives {step:?}");
                    return Err(case.differs(what));
                }
            }
            hold_roles(case, session, &table)?;
        }
        Err(case.differs(format!(in heap; "steps do not end")))
    }
}

impl Trial for Settling<'_> {
    fn run<N: Editable + Drop, M: Measure + Copy>(
        &mut self,
        network: N,
        measure: M,
    ) -> Result<(), Trouble> {
        let case = &self.case;
        let mut session = Open::new(network, measure);
        self.draw(&mut session)?;
        hold_vets(case, session.network(), &measure, self.vetted)?;
        for irregular in self.irregular {
            hold_irregular(case, session.network(), &measure, irregular)?;
        }
        let settled = session.settle();
        hold_roles(case, &settled, self.coarsest)?;
        let classes = in_order(case.heap, case.book.colours())?;
        self.hold_heads(&settled, &classes)?;
        hold_question(case, &settled)?;
        let mut session = settled.reopen();
        case.hold("a step of the settled", session.step(), Step::Stable)?;
        // A colour brings the table back to the starting classes, also where it was so before.
        let first = case.book.colours().first().copied().unwrap_or(0);
        case.hold("colour again", session.colour(0, first), Ok(()))?;
        hold_roles(case, &session, &classes)?;
        self.step_through(&mut session, classes)
    }
}
