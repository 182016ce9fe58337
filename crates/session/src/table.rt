// The table of roles.
ghost use Rattle.std.specs.Prelude.{◌≡◌, ◌<◌, filter};
ghost use Rattle.std.specs.List.{range_with_len};
ghost use Rattle.network.specs.Meaning.{most_nodes};
ghost use Rattle.equivalence.specs.Regular.{members};
ghost use Rattle.session.specs.Roles.{Recorded};

use super::role::Role;
use arrayvec::ArrayVec;
use network::MOST_NODES;

// From the heads of the nodes.
mod building;
// From the network and its colours.
mod starting;
// One role in two.
mod splitting;

// colours[x] is the colour of node x, role_of[x] its role; roles[r] has the lowest node of role r
// and its size.
#[derive(Debug, Drop)]
pub(crate) struct Table {
    colours: [u8; MOST_NODES],
    role_of: ArrayVec<u8, MOST_NODES>,
    roles: ArrayVec<Role, MOST_NODES>,
    // How many roles were split since the starting classes.
    splits: usize,
    ghost recorded: { Recorded role_of.items roles.items },
}

impl Table {
    ghost use Rattle.session.specs.Tables.{nodes_in, colour_in, role_in, count_in, record_in};

    pub(crate) fn nodes(&self) -> usize
        ensures { result ≡ nodes_in self.now }
    {
        self.role_of.len()
    }

    pub(crate) fn count(&self) -> usize
        ensures { result ≡ count_in self.now }
    {
        self.roles.len()
    }

    // The roles of the nodes, in order.
    pub(crate) fn roles_of(&self) -> &[u8]
        ensures { result.now ≡ self.now.role_of.items }
    {
        &self.role_of
    }

    // The nodes of role r, in order.
    #[tactic(auto, using(crate::proofs::Ranges::filter_in, crate::proofs::Ranges::filter_out))]
    pub(crate) fn members(&self, r: usize) -> ArrayVec<u8, MOST_NODES>
        ensures { let nodes = range_with_len 0 (nodes_in self.now) in
            result.items ≡ filter (members (role_in self.now) r) nodes }
    {
        let mut nodes = ArrayVec::new();
        for (y, &role) in self.role_of.iter().enumerate() {
            if usize::from(role) == r {
                nodes.push(y as u8);
            }
        }
        nodes
    }

    pub(crate) fn splits(&self) -> usize
        ensures { result ≡ self.now.splits }
    {
        self.splits
    }

    pub(crate) fn role_of(&self, x: usize) -> usize
        requires { x < nodes_in self.now }
        ensures { result ≡ role_in self.now x }
    {
        usize::from(self.role_of[x])
    }

    pub(crate) fn colour_of(&self, x: usize) -> u8
        requires { x < most_nodes }
        ensures { result ≡ colour_in self.now x }
    {
        self.colours[x]
    }

    pub(crate) fn role(&self, r: usize) -> Role
        requires { r < count_in self.now }
        ensures { result ≡ record_in self.now r }
    {
        self.roles[r]
    }
}
