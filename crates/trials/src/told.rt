// What the calls that alter nothing reply and leave, where the session has a given table.
use super::asking::{heads, nodes};
use super::case::Case;
use super::tables::{head, label, role_count, size};
use super::truth::{Answer, answered};
use driving::call::{Reply, Tell, Write};
use session::{Fault, Role};
use std::alloc::AllocError;

/// A reply, and what then stands in the area.
#[derive(Drop)]
pub(crate) struct Told {
    pub(crate) reply: Reply,
    pub(crate) area: Vec<u8>,
}

// The record of a role.
fn record(table: &[u8], r: usize) -> Result<Role, Fault> {
    let role = label(r);
    match head(table, role) {
        Some(head) if r < table.len() => Ok(Role {
            head,
            size: size(table, role),
        }),
        _ => Err(Fault::Role),
    }
}

/// What a call that writes nothing replies.
pub(crate) fn telling(case: &Case, table: &[u8], tell: Tell) -> Reply {
    match tell {
        Tell::Roles => Reply::Roles(role_count(table)),
        Tell::Splits => Reply::Splits(case.splits_to(table)),
        Tell::RoleOf(x) => {
            let role = table.get(x).map(|&role| usize::from(role));
            Reply::RoleOf(role.ok_or(Fault::Node))
        }
        Tell::Role(r) => Reply::Role(record(table, r)),
    }
}

/// What a look or an ask replies, and leaves in the area that it is lent.
pub(crate) fn writing(
    case: &Case,
    table: &[u8],
    write: Write<'_>,
    lent: &[u8],
) -> Result<Told, AllocError> {
    match write {
        Write::Look(question) => {
            let Answer { start, area } = answered(case, question, &nodes(case)?, lent)?;
            let reply = Reply::Look(start);
            Ok(Told { reply, area })
        }
        Write::Ask(question) => {
            let Answer { start, area } = answered(case, question, &heads(case, table)?, lent)?;
            let reply = Reply::Ask(start);
            Ok(Told { reply, area })
        }
    }
}
