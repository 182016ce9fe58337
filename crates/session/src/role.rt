// One role of a table.
ghost use Rattle.std.specs.Prelude.{◌≡◌, ◌+◌, ◌≤◌};
ghost use Rattle.network.specs.Meaning.{most_nodes};

/// A role's record, as a session keeps and tells it.
#[derive(Clone, Copy, PartialEq, Eq, Debug, Default)]
pub struct Role {
    /// The lowest node of the role.
    pub head: usize,
    pub size: usize,
}

impl Role {
    // One node more, above the head.
    pub(crate) fn grow(&mut self)
        requires { self.old.size ≤ most_nodes }
        ensures { self.new ≡ record { head = self.old.head; size = self.old.size + 1 } }
    {
        self.size += 1;
    }
}
