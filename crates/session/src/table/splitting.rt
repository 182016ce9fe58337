// Nodes leave their roles.
ghost use Rattle.std.specs.Prelude.{◌≡◌, ℕ, ◌+◌, ◌<◌, ◌≤◌, cond, false, true, MatchOption};
ghost use Rattle.network.specs.Meaning.{most_nodes};
ghost use Rattle.equivalence.specs.Heads.{head_of};
ghost use Rattle.equivalence.specs.Totals.{flag};
ghost use Rattle.session.specs.Tables.{nodes_in, count_in, head_in, role_in};

use super::Table;
use arrayvec::ArrayVec;
use network::MOST_NODES;

impl Table {
    // The lowest node that leaves.
    pub(crate) fn lowest(&self, leaves: &[bool; MOST_NODES]) -> Option<usize>
        ensures { MatchOption result
            ((k : ℕ) → k < nodes_in self.now → flag leaves.now k ≡ false)
            (λ x. (x < nodes_in self.now) × (flag leaves.now x ≡ true)
            × ((k : ℕ) → k < x → flag leaves.now k ≡ false)) }
    {
        (0..self.role_of.len()).find(|&x| leaves[x])
    }

    // The head of node x, where those that leave have the head `fresh`.
    fn next_head(&self, leaves: &[bool; MOST_NODES], fresh: usize, x: usize) -> usize
        requires { x < nodes_in self.now }
        ensures { result ≡ cond (flag leaves.now x) fresh (head_in self.now (role_in self.now x)) }
    {
        if leaves[x] {
            fresh
        } else {
            self.role(self.role_of(x)).head
        }
    }

    // Those that leave are a role. Their lowest is `fresh`, and no head leaves.
    pub(crate) fn split(&mut self, fresh: usize, leaves: &[bool; MOST_NODES])
        requires node { fresh < nodes_in self.old }
        requires leaves { flag leaves.now fresh ≡ true }
        requires lowest { (k : ℕ) → k < fresh → flag leaves.now k ≡ false }
        requires stay { (r : ℕ) → r < count_in self.old
            → flag leaves.now (head_in self.old r) ≡ false }
        requires few { self.old.splits ≤ most_nodes }
        ensures nodes { nodes_in self.new ≡ nodes_in self.old }
        ensures heads { (x : ℕ) → x < nodes_in self.old → head_of (role_in self.new) x
            ≡ cond (flag leaves.now x) fresh (head_of (role_in self.old) x) }
        ensures colours { self.new.colours ≡ self.old.colours }
        ensures splits { self.new.splits ≡ self.old.splits + 1 }
    {
        let mut heads = ArrayVec::<u8, MOST_NODES>::new();
        for x in 0..self.role_of.len() {
            heads.push(self.next_head(leaves, fresh, x) as u8);
        }
        *self = Table::of_heads(&heads, self.colours, self.splits + 1);
    }
}
