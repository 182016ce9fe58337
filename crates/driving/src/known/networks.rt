// The small networks, their ties with byte 1.
use super::super::call::{Edit, Reply};
use super::{Irregular, KnownNetwork, Start, Weighing};
use network::faults::Fault;

const TAKEN: Reply = Reply::Put(Ok(()));

const COLOURED: Reply = Reply::Colour(Ok(()));

// A team of three, and one of two.
const TEAMS: KnownNetwork = KnownNetwork {
    start: Start::Matrix(5),
    edits: &[
        (Edit::Put(0, 1, 1), TAKEN),
        (Edit::Put(0, 2, 1), TAKEN),
        (Edit::Put(3, 4, 1), TAKEN),
    ],
    weighing: Weighing::Kinds,
    table: &[0, 1, 1, 0, 1],
    roles: 2,
    splits: 1,
    irregular: &[],
};

// A cycle of three, and a mutual tie.
const CYCLES: KnownNetwork = KnownNetwork {
    start: Start::Matrix(5),
    edits: &[
        (Edit::Put(0, 1, 1), TAKEN),
        (Edit::Put(1, 2, 1), TAKEN),
        (Edit::Put(2, 0, 1), TAKEN),
        (Edit::Put(3, 4, 1), TAKEN),
        (Edit::Put(4, 3, 1), TAKEN),
    ],
    weighing: Weighing::Kinds,
    table: &[0, 0, 0, 0, 0],
    roles: 1,
    splits: 0,
    irregular: &[],
};

pub(crate) const NETWORKS: [KnownNetwork; 12] = [
    // No ties, and two colours.
    KnownNetwork {
        start: Start::Matrix(4),
        edits: &[
            (Edit::Colour(0, 0), COLOURED),
            (Edit::Colour(1, 1), COLOURED),
            (Edit::Colour(2, 0), COLOURED),
            (Edit::Colour(3, 1), COLOURED),
        ],
        weighing: Weighing::Kinds,
        table: &[0, 1, 0, 1],
        roles: 2,
        splits: 0,
        irregular: &[],
    },
    // A node that is tied to itself.
    KnownNetwork {
        start: Start::Matrix(1),
        edits: &[(Edit::Put(0, 0, 1), TAKEN)],
        weighing: Weighing::Kinds,
        table: &[0],
        roles: 1,
        splits: 0,
        irregular: &[],
    },
    // A chain of three.
    KnownNetwork {
        start: Start::Matrix(3),
        edits: &[(Edit::Put(0, 1, 1), TAKEN), (Edit::Put(1, 2, 1), TAKEN)],
        weighing: Weighing::Kinds,
        table: &[0, 1, 2],
        roles: 3,
        splits: 2,
        irregular: &[],
    },
    // A chain of nine.
    KnownNetwork {
        start: Start::Matrix(9),
        edits: &[
            (Edit::Put(0, 1, 1), TAKEN),
            (Edit::Put(1, 2, 1), TAKEN),
            (Edit::Put(2, 3, 1), TAKEN),
            (Edit::Put(3, 4, 1), TAKEN),
            (Edit::Put(4, 5, 1), TAKEN),
            (Edit::Put(5, 6, 1), TAKEN),
            (Edit::Put(6, 7, 1), TAKEN),
            (Edit::Put(7, 8, 1), TAKEN),
        ],
        weighing: Weighing::Kinds,
        table: &[0, 1, 2, 3, 4, 5, 6, 7, 8],
        roles: 9,
        splits: 8,
        irregular: &[],
    },
    // One tie. Node 2, without ties, differs from node 1 toward node 0.
    KnownNetwork {
        start: Start::Matrix(3),
        edits: &[(Edit::Put(0, 1, 1), TAKEN)],
        weighing: Weighing::Kinds,
        table: &[0, 1, 2],
        roles: 3,
        splits: 2,
        irregular: &[Irregular {
            table: &[0, 1, 1],
            witness: (1, 2, 0),
        }],
    },
    TEAMS,
    KnownNetwork {
        weighing: Weighing::Tally,
        table: &[0, 1, 1, 3, 4],
        roles: 4,
        splits: 3,
        ..TEAMS
    },
    CYCLES,
    KnownNetwork {
        weighing: Weighing::Bundles,
        table: &[0, 0, 0, 3, 3],
        roles: 2,
        splits: 1,
        ..CYCLES
    },
    KnownNetwork {
        weighing: Weighing::Tally,
        ..CYCLES
    },
    // Nodes 0 to 2 on side A, nodes 3 and 4 on side B.
    KnownNetwork {
        start: Start::TwoMode(3, 2),
        edits: &[(Edit::Put(0, 3, 1), TAKEN), (Edit::Put(1, 3, 1), TAKEN)],
        weighing: Weighing::Kinds,
        table: &[0, 0, 2, 3, 2],
        roles: 3,
        splits: 2,
        irregular: &[],
    },
    // The second tie waits until the first leaves the only slot.
    KnownNetwork {
        start: Start::List(3, 1),
        edits: &[
            (Edit::Put(0, 1, 1), TAKEN),
            (Edit::Put(0, 2, 1), Reply::Put(Err(Fault::Full))),
            (Edit::Put(0, 1, 0), TAKEN),
            (Edit::Put(0, 2, 1), TAKEN),
        ],
        weighing: Weighing::Kinds,
        table: &[0, 1, 2],
        roles: 3,
        splits: 2,
        irregular: &[],
    },
];
