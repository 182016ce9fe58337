// The small networks with known tables.
ghost use Rattle.std.specs.Prelude.{◌≡◌, All, map};
ghost use Rattle.driving.specs.Known.{Known, entry_of};
ghost use Rattle.driving.specs.KnownNetworks.{known_networks};

use super::call::{Edit, Reply};

// Their ties, colours and tables.
mod networks;

use networks::NETWORKS;

/// A small network whose coarsest table is known.
#[derive(Clone, Copy)]
pub struct KnownNetwork {
    pub start: Start,
    /// The puts and colours that draw it, one after another, each with what it replies.
    pub edits: &'static [(Edit, Reply)],
    pub weighing: Weighing,
    /// The coarsest table: for each node the head of its role.
    pub table: &'static [u8],
    /// How many roles it has.
    pub roles: usize,
    /// How many splits lead to it from the starting classes.
    pub splits: usize,
    /// Tables that are not regular.
    pub irregular: &'static [Irregular],
}

/// A network without ties.
#[derive(Clone, Copy)]
pub enum Start {
    /// A matrix of so many nodes.
    Matrix(usize),
    /// So many nodes on each side.
    TwoMode(usize, usize),
    /// A list of so many nodes and slots.
    List(usize, usize),
}

/// The measure by which it is weighed.
#[derive(Clone, Copy)]
pub enum Weighing {
    Kinds,
    Bundles,
    Tally,
}

/// A table that is not regular, and the only three nodes that show it.
#[derive(Clone, Copy)]
pub struct Irregular {
    pub table: &'static [u8],
    pub witness: (usize, usize, usize),
}

/// The small networks, one entry for each measure under which the table is known.
pub fn known_networks() -> [KnownNetwork; 12]
    ensures data { map entry_of result ≡ known_networks }
    ensures known { All Known known_networks }
{
    NETWORKS
}
