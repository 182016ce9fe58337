// The calls of a session, and what they reply.
ghost use Rattle.std.specs.Prelude.{◌≡◌};
ghost use Rattle.driving.specs.declared.call.Reply.{Reply};

use network::faults::Fault as NetworkFault;
use question::faults::Fault as QuestionFault;
use question::line::Line;
use session::faults::Fault as SessionFault;
use session::role::Role;
use session::step::Step;

/// A call with its arguments, by its kind.
#[derive(Clone, Copy, Debug)]
pub enum Call<'a> {
    /// Alters ties or colours. An open session takes it.
    Edit(Edit),
    /// Moves the session on. An open session takes step and settle, a settled one reopen.
    Move(Move),
    /// Writes into the area that is lent. Either takes look, a settled session ask.
    Write(Write<'a>),
    /// Tells of the table. Either takes it.
    Tell(Tell),
}

/// A call that alters ties or colours.
#[derive(Clone, Copy, Debug)]
pub enum Edit {
    /// The tie byte from one node to another becomes this.
    Put(usize, usize, u8),
    /// The node becomes of this colour.
    Colour(usize, u8),
}

/// A call that moves a session on.
#[derive(Clone, Copy, Debug)]
pub enum Move {
    Step,
    Settle,
    Reopen,
}

/// A call that writes rows into an area.
#[derive(Clone, Copy, Debug)]
pub enum Write<'a> {
    Look(&'a [Line]),
    Ask(&'a [Line]),
}

/// A call that alters nothing and writes nothing.
#[derive(Clone, Copy, Debug)]
pub enum Tell {
    Roles,
    Splits,
    /// Of a node.
    RoleOf(usize),
    /// Of a role.
    Role(usize),
}

/// What a call replies.
#[derive(Clone, Copy, PartialEq, Eq, Debug)]
pub enum Reply {
    Put(Result<(), NetworkFault>),
    Colour(Result<(), SessionFault>),
    Step(Step),
    Settled,
    Reopened,
    Look(Result<usize, QuestionFault>),
    Ask(Result<usize, QuestionFault>),
    Roles(usize),
    Splits(usize),
    RoleOf(Result<usize, SessionFault>),
    Role(Result<Role, SessionFault>),
    /// The session's state does not take the call, and it was not given.
    NotTaken,
}

/// A call, the area that it is lent, and its reply.
#[derive(Drop)]
pub struct Exchange<'q, 'a> {
    pub call: Call<'q>,
    /// Where look and ask write. Every other call leaves it as it is.
    pub area: &'a mut [u8],
    /// What stood here before the call was given does not count.
    pub reply: Reply,
}

impl<'q, 'a> Exchange<'q, 'a> {
    /// The call, not yet given.
    pub fn of(call: Call<'q>, area: &'a mut [u8]) -> Exchange<'q, 'a>
        ensures call { result.call ≡ call.entry }
        ensures area { result.area.now ≡ area.old }
        ensures lent { result.area.ghost_name ≡ area.entry.ghost_name }
        ensures reply { result.reply ≡ Reply.NotTaken }
    {
        Exchange {
            call,
            area,
            reply: Reply::NotTaken,
        }
    }
}
