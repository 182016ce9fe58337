// The work on a network: a session under the measure that the script chose.
ghost use Rattle.std.specs.Prelude.{◌≡◌, ◌++◌, ◌≤◌, length, OnOk, IfOk, Ok, []};
ghost use Rattle.network.specs.Put.{put_answer};
ghost use Rattle.question.specs.Checks.{lines_check};
ghost use Rattle.session.specs.OpenSessions.{state_of};
ghost use Rattle.session.specs.Sessions.{colour_answer};
ghost use Rattle.driving.specs.Book.{after_colour, after_put, book_in, opened};
ghost use Rattle.script.specs.Listings.{go_lines};
ghost use Rattle.script.specs.Networks.{meant};
ghost use Rattle.script.specs.Works.{Chosen, book_of, go_by, measure_of};

use super::any_network::AnyNetwork;
use super::draft::Draft;
use super::listing::{print_answer, print_roles};
use measure::{Bundles, Kinds, Measure, Tally};
use network::Editable;
use question::Line;
use session::open::Open;
use std::alloc::{AllocError, Global};
use std::io;

// Settles, lists and asks, and opens again.
#[tactic(auto, unfolding(crate::specs::Listings::go_lines))]
fn go<N: Editable + Drop, M: Measure + Drop>(
    session: Box<Open<N, M>>,
    question: &[Line],
    heap: Global,
    out: &mut Vec<u8>,
) -> io::Result<Box<Open<N, M>>>
    requires passes { lines_check 0 question.now ≡ Ok tt }
    requires few { length question.now ≤ 32 }
    ensures book { let book = book_in (state_of session.value) in
        IfOk result (λ next. book_in (state_of next.value) ≡ book) }
    ensures printed { let book = book_in (state_of session.value) in
        OnOk result (out.new.items ≡ out.old.items ++ go_lines M.Measure.ops book question.now) }
{
    let settled = Box::into_inner(session).settle();
    print_roles(&settled, out)?;
    print_answer(&settled, question, out)?;
    Ok(Box::new(heap, settled.reopen())?)
}

// A session under one of the measures, in a box, so that it moves cheaply.
#[derive(Drop)]
pub(crate) enum AnySession {
    ByKinds(Box<Open<AnyNetwork, Kinds>>),
    ByBundles(Box<Open<AnyNetwork, Bundles>>),
    ByTally(Box<Open<AnyNetwork, Tally>>),
}

impl AnySession {
    pub(crate) fn put(&mut self, i: usize, j: usize, b: u8) -> Result<(), network::Fault>
        ensures answer { result ≡ put_answer (book_of self.old).network i j b }
        ensures book { book_of self.new ≡ after_put (book_of self.old) i j b }
        ensures measure { measure_of self.new ≡ measure_of self.old }
    {
        match self {
            AnySession::ByKinds(session) => session.put(i, j, b),
            AnySession::ByBundles(session) => session.put(i, j, b),
            AnySession::ByTally(session) => session.put(i, j, b),
        }
    }

    pub(crate) fn colour(&mut self, i: usize, c: u8) -> Result<(), session::faults::Fault>
        ensures answer { result ≡ colour_answer (book_of self.old).network.nodes i }
        ensures book { book_of self.new ≡ after_colour (book_of self.old) i c }
        ensures measure { measure_of self.new ≡ measure_of self.old }
    {
        match self {
            AnySession::ByKinds(session) => session.colour(i, c),
            AnySession::ByBundles(session) => session.colour(i, c),
            AnySession::ByTally(session) => session.colour(i, c),
        }
    }

    // Settles, lists and asks, and opens again.
    fn go(self, question: &[Line], heap: Global, out: &mut Vec<u8>) -> io::Result<AnySession>
        requires passes { lines_check 0 question.now ≡ Ok tt }
        requires few { length question.now ≤ 32 }
        ensures book { IfOk result (λ next. book_of next ≡ book_of self) }
        ensures measure { IfOk result (λ next. measure_of next ≡ measure_of self) }
        ensures printed { let lines = go_by (measure_of self) (book_of self) question.now in
            OnOk result (out.new.items ≡ out.old.items ++ lines) }
    {
        match self {
            AnySession::ByKinds(session) => Ok(AnySession::ByKinds(go(
                session, question, heap, out,
            )?)),
            AnySession::ByBundles(session) => Ok(AnySession::ByBundles(go(
                session, question, heap, out,
            )?)),
            AnySession::ByTally(session) => Ok(AnySession::ByTally(go(
                session, question, heap, out,
            )?)),
        }
    }
}

// What is worked on: the session, and the question so far.
#[derive(Drop)]
pub(crate) struct Work {
    pub(crate) session: AnySession,
    pub(crate) question: Box<Draft>,
}

impl Work {
    ghost use Rattle.script.specs.Drafts.{lines_of};
    ghost use Rattle.script.specs.Stages.{Phase, work_phase};

    // With no question yet.
    fn begun(session: AnySession, heap: Global) -> Result<Work, AllocError>
        ensures { IfOk result (λ work.
            work_phase work ≡ Phase.Work (measure_of session) (book_of session) []) }
    {
        let question = Box::new(heap, Draft::new())?;
        Ok(Work { session, question })
    }

    pub(crate) fn by_kinds(network: AnyNetwork, heap: Global) -> Result<Work, AllocError>
        ensures { let book = opened (meant network) in
            IfOk result (λ work. work_phase work ≡ Phase.Work Chosen.Kinds book []) }
    {
        let session = Box::new(heap, Open::new(network, Kinds))?;
        Work::begun(AnySession::ByKinds(session), heap)
    }

    pub(crate) fn by_bundles(network: AnyNetwork, heap: Global) -> Result<Work, AllocError>
        ensures { let book = opened (meant network) in
            IfOk result (λ work. work_phase work ≡ Phase.Work Chosen.Bundles book []) }
    {
        let session = Box::new(heap, Open::new(network, Bundles))?;
        Work::begun(AnySession::ByBundles(session), heap)
    }

    pub(crate) fn by_tally(network: AnyNetwork, heap: Global) -> Result<Work, AllocError>
        ensures { let book = opened (meant network) in
            IfOk result (λ work. work_phase work ≡ Phase.Work Chosen.Tally book []) }
    {
        let session = Box::new(heap, Open::new(network, Tally))?;
        Work::begun(AnySession::ByTally(session), heap)
    }

    // Settles, lists and asks, and opens again, with no question yet.
    pub(crate) fn go(self, heap: Global, out: &mut Vec<u8>) -> io::Result<Work>
        ensures work { let by = measure_of self.session in
            let book = book_of self.session in
            IfOk result (λ next. work_phase next ≡ Phase.Work by book []) }
        ensures printed { let lines = lines_of self.question.value in
            let printed = go_by (measure_of self.session) (book_of self.session) lines in
            OnOk result (out.new.items ≡ out.old.items ++ printed) }
    {
        let Work {
            session,
            mut question,
        } = self;
        let session = session.go(question.lines(), heap, out)?;
        question.clear();
        Ok(Work { session, question })
    }
}
