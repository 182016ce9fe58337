// A table is built from the heads of its nodes.
ghost use Rattle.std.specs.Prelude.{◌≡◌, ℕ, ◌<◌, [], ◌∷◌, ◌++◌, length};
ghost use Rattle.network.specs.Meaning.{most_nodes};
ghost use Rattle.equivalence.specs.Heads.{head_of};
ghost use Rattle.equivalence.specs.Vetted.{table_of};
ghost use Rattle.session.specs.Roles.{Headed};
ghost use Rattle.session.specs.Tables.{nodes_in, count_in, head_in, role_in};
ghost use Rattle.session.specs.declared.role.Role.{Role};

use super::super::role::Role;
use super::Table;
use arrayvec::ArrayVec;
use network::MOST_NODES;

impl Table {
    // No nodes and no roles.
    fn empty(colours: [u8; MOST_NODES], splits: usize) -> Table
        ensures colours { result.colours ≡ colours }
        ensures nodes { result.role_of.items ≡ [] }
        ensures roles { result.roles.items ≡ [] }
        ensures splits { result.splits ≡ splits }
    {
        Table {
            colours,
            role_of: ArrayVec::new(),
            roles: ArrayVec::new(),
            splits,
        }
    }

    // The next node begins a role.
    #[tactic(auto, using(crate::proofs::Records::begun))]
    fn begin(&mut self)
        requires room { nodes_in self.old < most_nodes }
        ensures table { self.new.role_of.items ≡ self.old.role_of.items ++ count_in self.old ∷ [] }
        ensures roles { let role : Role = record { head = nodes_in self.old; size = 1 } in
            self.new.roles.items ≡ self.old.roles.items ++ role ∷ [] }
        ensures colours { self.new.colours ≡ self.old.colours }
        ensures splits { self.new.splits ≡ self.old.splits }
    {
        let head = self.role_of.len();
        self.role_of.push(self.roles.len() as u8);
        self.roles.push(Role { head, size: 1 });
    }

    // The next node joins role r.
    fn join(&mut self, r: usize)
        requires room { nodes_in self.old < most_nodes }
        requires known { r < count_in self.old }
        ensures table { self.new.role_of.items ≡ self.old.role_of.items ++ r ∷ [] }
        ensures count { count_in self.new ≡ count_in self.old }
        ensures heads { (q : ℕ) → head_in self.new q ≡ head_in self.old q }
        ensures colours { self.new.colours ≡ self.old.colours }
        ensures splits { self.new.splits ≡ self.old.splits }
    {
        self.role_of.push(r as u8);
        self.roles[r].grow();
    }

    // The table in which heads[x] is the head of node x's role. One pass.
    pub(super) fn of_heads(heads: &[u8], colours: [u8; MOST_NODES], splits: usize) -> Table
        requires { Headed heads.now }
        ensures nodes { nodes_in result ≡ length heads.now }
        ensures heads { (x : ℕ) → x < length heads.now
            → head_of (role_in result) x ≡ table_of heads.now x }
        ensures colours { result.colours ≡ colours }
        ensures splits { result.splits ≡ splits }
    {
        let mut table = Table::empty(colours, splits);
        for (x, &head) in heads.iter().enumerate() {
            if usize::from(head) == x {
                table.begin();
            } else {
                table.join(table.role_of(usize::from(head)));
            }
        }
        table
    }
}
