// What the page says.
ghost use Rattle.std.specs.Prelude.{Decides, Some};
ghost use Rattle.manual.specs.Drawing.{Isolated};
ghost use Rattle.manual.specs.Words.{answer_words, count_words, outcome_words, role_words};
ghost use Rattle.manual.specs.Words.{those_words, verdict_words};

use super::asking::Answer;
use measure::Measure;
use network::{Editable, Fault, Readable};
use session::role::Role;
use session::settled::Settled;
use std::fmt;

// What the vet's answer says of a table.
#[derive(Clone, Copy)]
pub(crate) struct Verdict(pub(crate) Option<(usize, usize, usize)>);

impl fmt::Display for Verdict {
    ghost output = { λ v. Some (verdict_words v.0) };

    fn fmt<W: fmt::Write>(&self, f: &mut fmt::Formatter<W>) -> fmt::Result {
        match self.0 {
            None => f.write_str("are regular."),
            Some((x, y, z)) => write!(
                f,
                "are not regular: nodes {x} and {y} share a role, yet differ toward the role of node {z}."
            ),
        }
    }
}

// What a put's answer says.
#[derive(Clone, Copy)]
pub(crate) struct Outcome(pub(crate) Result<(), Fault>);

impl fmt::Display for Outcome {
    ghost output = { λ o. Some (outcome_words o.0) };

    fn fmt<W: fmt::Write>(&self, f: &mut fmt::Formatter<W>) -> fmt::Result {
        match self.0 {
            Ok(()) => f.write_str("taken"),
            Err(fault) => write!(f, "refused with {}", fault.number()),
        }
    }
}

// The roles of the nodes, in order.
#[derive(Clone, Copy)]
pub(crate) struct Roles<'a>(pub(crate) &'a [u8]);

impl fmt::Display for Roles<'_> {
    fn fmt<W: fmt::Write>(&self, f: &mut fmt::Formatter<W>) -> fmt::Result {
        let mut separator = "";
        for role in self.0 {
            write!(f, "{separator}{role}")?;
            separator = ", ";
        }
        Ok(())
    }
}

// Whether x has no tie, out or in.
fn isolated<N: Readable>(network: &N, x: usize) -> bool
    ensures { Decides result (Isolated (N.meaning network.now) x) }
{
    (0..network.nodes()).all(|y| network.tie(x, y) == 0 && network.tie(y, x) == 0)
}

// Each tied pair of the network, and each node without a tie.
#[derive(Drop)]
pub(crate) struct Ties<'a, N>(pub(crate) &'a N);

impl<N: Readable> fmt::Display for Ties<'_, N> {
    fn fmt<W: fmt::Write>(&self, f: &mut fmt::Formatter<W>) -> fmt::Result {
        let network = self.0;
        let n = network.nodes();
        let mut separator = "";
        for i in 0..n {
            if isolated(network, i) {
                write!(f, "{separator}{i} has no tie")?;
                separator = ", ";
            }
            for j in 0..n {
                if network.tie(i, j) == 0 {
                    continue;
                }
                write!(f, "{separator}{i} is tied to {j}")?;
                separator = ", ";
            }
        }
        Ok(())
    }
}

// How many there are of what the noun names.
#[derive(Clone, Copy)]
struct Count<'a>(usize, &'a str);

impl fmt::Display for Count<'_> {
    ghost output = { λ c. Some (count_words c.0 c.1.now) };

    fn fmt<W: fmt::Write>(&self, f: &mut fmt::Formatter<W>) -> fmt::Result {
        let plural = if self.0 == 1 { "" } else { "s" };
        write!(f, "{} {}{plural}", self.0, self.1)
    }
}

// A role with its number.
#[derive(Clone, Copy)]
struct NumberedRole(usize, Role);

impl fmt::Display for NumberedRole {
    ghost output = { λ r. Some (role_words r.0 r.1) };

    fn fmt<W: fmt::Write>(&self, f: &mut fmt::Formatter<W>) -> fmt::Result {
        let Role { head, size } = self.1;
        write!(f, "{} (head {head}, size {size})", self.0)
    }
}

// What a session has settled into: how many roles after how many splits, and each role.
#[derive(Drop)]
pub(crate) struct Settlement<'a, N: Editable, M: Measure>(pub(crate) &'a Settled<N, M>);

impl<N: Editable, M: Measure> fmt::Display for Settlement<'_, N, M> {
    fn fmt<W: fmt::Write>(&self, f: &mut fmt::Formatter<W>) -> fmt::Result {
        let settled = self.0;
        let roles = Count(settled.roles(), "role");
        let splits = Count(settled.splits(), "split");
        write!(f, "{roles} after {splits}: ")?;
        let mut separator = "";
        for r in 0..settled.roles() {
            // No fault: r is a role's number.
            let role = NumberedRole(r, settled.role(r).unwrap());
            write!(f, "{separator}{role}")?;
            separator = ", ";
        }
        Ok(())
    }
}

// Some of those that the noun names, by number.
#[derive(Clone, Copy)]
struct Those<'a>(&'a str, &'a [usize]);

impl fmt::Display for Those<'_> {
    ghost output = { λ t. Some (those_words t.0.now t.1.now) };

    fn fmt<W: fmt::Write>(&self, f: &mut fmt::Formatter<W>) -> fmt::Result {
        let noun = self.0;
        match self.1 {
            [] => write!(f, "no {noun}"),
            [only] => write!(f, "{noun} {only}"),
            [first, middle @ .., last] => {
                write!(f, "{noun}s {first}")?;
                for number in middle {
                    write!(f, ", {number}")?;
                }
                write!(f, " and {last}")
            }
        }
    }
}

impl fmt::Display for Answer {
    ghost output = { λ a. Some (answer_words a.roles.items a.nodes.items) };

    fn fmt<W: fmt::Write>(&self, f: &mut fmt::Formatter<W>) -> fmt::Result {
        let roles = Those("role", &self.roles);
        let nodes = Those("node", &self.nodes);
        write!(f, "the table names {roles}, and the network {nodes}")
    }
}
