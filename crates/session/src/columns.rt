// What a row has columns for: each node, or each role by its head.
ghost use Rattle.std.specs.Prelude.{◌≡◌, ℕ, ◌<◌, ◌≤◌, length};
ghost use Rattle.network.specs.Meaning.{most_nodes};
ghost use Rattle.arrayvec.specs.ArrayVec.{array_vec_len};
ghost use Rattle.question.specs.Truth.{each_node, each_role};
ghost use Rattle.question.specs.Truth as truth;
ghost use Rattle.session.specs.Tables.{head_in, role_in};

use super::table::Table;

pub(crate) trait Columns {
    // How many nodes have a column here.
    ghost nodes: { Self → ℕ };

    // How many columns there are.
    ghost width: { Self → ℕ };

    ghost columns: { Self → truth.Columns };

    fn width(&self) -> usize
        ensures value { result ≡ width self.now }
        ensures few { result ≤ most_nodes };

    // The node that stands for column p.
    fn node(&self, p: usize) -> usize
        requires { p < width self.now }
        ensures value { result ≡ (columns self.now).node p }
        ensures known { result < nodes self.now };

    // The column of node y.
    fn column(&self, y: usize) -> usize
        requires { y < nodes self.now }
        ensures value { result ≡ (columns self.now).column y }
        ensures known { result < width self.now };

    ghost known: { (s : Self) (y : ℕ) → y < nodes s → (columns s).column y < width s };
}

// A column for each of so many nodes.
#[derive(Clone, Copy)]
pub(crate) struct EachNode {
    nodes: usize,
    ghost few: { nodes ≤ most_nodes },
}

impl EachNode {
    pub(crate) fn of(nodes: usize) -> EachNode
        requires { nodes ≤ most_nodes }
        ensures { result.nodes ≡ nodes }
    {
        EachNode { nodes }
    }
}

impl Columns for EachNode {
    ghost nodes = { λ e. e.nodes };

    ghost width = { λ e. e.nodes };

    ghost columns = { λ _. each_node };

    ghost known = { λ e y node. node };

    fn width(&self) -> usize {
        self.nodes
    }

    fn node(&self, p: usize) -> usize {
        p
    }

    fn column(&self, y: usize) -> usize {
        y
    }
}

impl Columns for Table {
    ghost nodes = { λ t. length t.role_of.items };

    ghost width = { λ t. array_vec_len t.roles };

    ghost columns = { λ t. each_role (role_in t) (head_in t) };

    ghost known = { λ t. t.recorded.ranged };

    fn width(&self) -> usize {
        self.count()
    }

    fn node(&self, p: usize) -> usize {
        self.role(p).head
    }

    fn column(&self, y: usize) -> usize {
        self.role_of(y)
    }
}
