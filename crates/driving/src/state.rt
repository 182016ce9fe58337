// A session, open or settled, that takes calls in turn.
ghost use Rattle.std.specs.Prelude.{◌≡◌, false, true};
ghost use Rattle.session.specs.OpenSessions.{parts_of, state_of};
ghost use Rattle.session.specs.Sessions.{Ended};
ghost use Rattle.session.specs.SettledSessions.{settled_parts, settled_state};
ghost use Rattle.session.specs.States.{IsSound};
ghost use Rattle.driving.specs.Courses.{course_after, takes};
ghost use Rattle.driving.specs.States.{course_in, is_put, is_settled, parts_in, state_in};
ghost use Rattle.driving.specs.Turns.{Edits, Turn, told};
ghost use Rattle.driving.specs.declared.call.Call.{Call};

use super::call::{Call, Edit, Move, Reply, Tell, Write};
use measure::interface::Measure;
use network::interface::Editable;
use session::open::Open;
use session::settled::Settled;

/// An open or a settled session.
#[derive(Drop)]
pub enum Session<N: Editable, M: Measure> {
    Open(Open<N, M>),
    Settled(Settled<N, M>),
}

fn edit<N: Editable, M: Measure>(session: &mut Open<N, M>, change: Edit) -> Reply
    ensures edits { Edits change (state_of session.old) (state_of session.new) result }
    ensures measure { (parts_of session.new).1 ≡ (parts_of session.old).1 }
    ensures network { is_put (Call.Edit change) ≡ false
        → parts_of session.new ≡ parts_of session.old }
{
    match change {
        Edit::Put(i, j, b) => Reply::Put(session.put(i, j, b)),
        Edit::Colour(i, c) => Reply::Colour(session.colour(i, c)),
    }
}

fn tell_open<N: Editable, M: Measure>(session: &Open<N, M>, tell: Tell) -> Reply
    ensures { result ≡ told (state_of session.now) tell }
{
    match tell {
        Tell::Roles => Reply::Roles(session.roles()),
        Tell::Splits => Reply::Splits(session.splits()),
        Tell::RoleOf(x) => Reply::RoleOf(session.role_of(x)),
        Tell::Role(r) => Reply::Role(session.role(r)),
    }
}

fn tell_settled<N: Editable, M: Measure>(session: &Settled<N, M>, tell: Tell) -> Reply
    ensures { result ≡ told (settled_state session.now) tell }
{
    match tell {
        Tell::Roles => Reply::Roles(session.roles()),
        Tell::Splits => Reply::Splits(session.splits()),
        Tell::RoleOf(x) => Reply::RoleOf(session.role_of(x)),
        Tell::Role(r) => Reply::Role(session.role(r)),
    }
}

impl<N: Editable, M: Measure> Session<N, M> {
    /// Gives the session the call, where it takes it. Otherwise the reply is `NotTaken`.
    pub fn call(self, call: Call<'_>, area: &mut [u8]) -> (Session<N, M>, Reply)
        ensures course { course_in result.0 ≡ course_after (course_in self) call.entry }
        ensures turn { let s = state_in self in let t = state_in result.0 in
            Turn M.Measure.ops (is_settled self) call.entry s t area.old result.1 area.new }
        ensures sound { IsSound M.Measure.ops (state_in result.0) }
        ensures measure { (parts_in result.0).1 ≡ (parts_in self).1 }
        ensures network { is_put call.entry ≡ false → parts_in result.0 ≡ parts_in self }
        ensures untaken { takes (is_settled self) call.entry ≡ false
            → parts_in result.0 ≡ parts_in self }
    {
        match (self, call) {
            (Session::Open(mut session), Call::Edit(change)) => {
                let reply = edit(&mut session, change);
                (Session::Open(session), reply)
            }
            (Session::Open(mut session), Call::Move(Move::Step)) => {
                let step = session.step();
                (Session::Open(session), Reply::Step(step))
            }
            (Session::Open(session), Call::Move(Move::Settle)) => {
                (Session::Settled(session.settle()), Reply::Settled)
            }
            (Session::Settled(session), Call::Move(Move::Reopen)) => {
                (Session::Open(session.reopen()), Reply::Reopened)
            }
            (Session::Open(session), Call::Write(Write::Look(question))) => {
                let start = session.look(question, area);
                (Session::Open(session), Reply::Look(start))
            }
            (Session::Settled(session), Call::Write(Write::Look(question))) => {
                let start = session.look(question, area);
                (Session::Settled(session), Reply::Look(start))
            }
            (Session::Settled(session), Call::Write(Write::Ask(question))) => {
                let reply = Reply::Ask(session.ask(question, area));
                (Session::Settled(session), reply)
            }
            (Session::Open(session), Call::Tell(tell)) => {
                let reply = tell_open(&session, tell);
                (Session::Open(session), reply)
            }
            (Session::Settled(session), Call::Tell(tell)) => {
                let reply = tell_settled(&session, tell);
                (Session::Settled(session), reply)
            }
            (session, _) => (session, Reply::NotTaken),
        }
    }

    /// The session settled, with the same ties and colours. One that is settled stays as it is.
    pub fn settle(self) -> Settled<N, M>
        ensures ended { let s = state_in self in
            is_settled self ≡ false → Ended M.Measure.ops s (settled_state result) }
        ensures settled { is_settled self ≡ true → settled_state result ≡ state_in self }
        ensures parts { settled_parts result ≡ parts_in self }
    {
        match self {
            Session::Open(session) => session.settle(),
            Session::Settled(session) => session,
        }
    }
}
