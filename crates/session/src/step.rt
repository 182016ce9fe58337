// What a step does.

/// What a step did. Roles are named by their heads, their lowest nodes.
#[derive(Clone, Copy, PartialEq, Eq, Debug)]
pub enum Step {
    /// The table is regular.
    Stable,
    /// The role of `part` was split: those that stay with it have its total toward the role of
    /// `toward`, as it was before; the others, which have it not, are now the role of `fresh`.
    Split {
        part: usize,
        toward: usize,
        fresh: usize,
    },
}
