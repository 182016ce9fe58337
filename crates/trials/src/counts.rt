// How much was held.
use driving::call::Reply;
use network::Fault;
use std::fmt;

/// How many networks were held, and of them how many tables were settled and vetted.
#[derive(Clone, Copy, Default)]
pub(crate) struct Counts {
    pub(crate) networks: usize,
    pub(crate) settled: usize,
    pub(crate) vetted: usize,
}

impl fmt::Display for Counts {
    fn fmt<W: fmt::Write>(&self, f: &mut fmt::Formatter<W>) -> fmt::Result {
        let Counts {
            networks,
            settled,
            vetted,
        } = self;
        write!(f, "{networks} networks, {settled} settled, {vetted} vetted")
    }
}

/// How many lists of calls were held, and what was replied to the calls.
#[derive(Clone, Copy, Default)]
pub(crate) struct Tried {
    pub(crate) lists: usize,
    pub(crate) calls: usize,
    /// Calls that the session refused, and of these puts for which there was no room.
    pub(crate) refused: usize,
    pub(crate) full: usize,
    /// Calls that the session's state did not take.
    pub(crate) untaken: usize,
}

impl Tried {
    /// One list more.
    pub(crate) fn add_list(&mut self) {
        self.lists = self.lists.saturating_add(1);
    }

    /// One call more, with its reply.
    pub(crate) fn add_reply(&mut self, reply: Reply) {
        self.calls = self.calls.saturating_add(1);
        match reply {
            Reply::Put(Err(Fault::Full)) => {
                self.full = self.full.saturating_add(1);
                self.refused = self.refused.saturating_add(1);
            }
            Reply::Put(Err(_)) | Reply::Colour(Err(_)) | Reply::RoleOf(Err(_)) => {
                self.refused = self.refused.saturating_add(1);
            }
            Reply::Role(Err(_)) | Reply::Look(Err(_)) | Reply::Ask(Err(_)) => {
                self.refused = self.refused.saturating_add(1);
            }
            Reply::NotTaken => self.untaken = self.untaken.saturating_add(1),
            _ => {}
        }
    }
}

impl fmt::Display for Tried {
    fn fmt<W: fmt::Write>(&self, f: &mut fmt::Formatter<W>) -> fmt::Result {
        let Tried {
            lists,
            calls,
            refused,
            full,
            untaken,
        } = self;
        write!(
            f,
            "{lists} lists, {calls} calls, {refused} refused ({full} for want of room), "
        )?;
        write!(f, "{untaken} not taken")
    }
}
