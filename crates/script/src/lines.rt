// The lines that a script prints.
ghost use Rattle.std.specs.Prelude.{◌≡◌, ◌++◌, OnOk};
ghost use Rattle.script.specs.Faults.{number};
ghost use Rattle.script.specs.Words.{node_line, refusal_line, remark_line, settled_line, true_line};

use super::faults::Fault;
use std::io::{self, Write};

pub(crate) fn print_refusal(fault: Fault, out: &mut Vec<u8>) -> io::Result<()>
    ensures { let line = refusal_line fault.«record» (number fault.reason) in
        OnOk result (out.new.items ≡ out.old.items ++ line) }
{
    writeln!(out, "ER {} {}", fault.record, fault.number())
}

// How many roles there are, and how many splits.
pub(crate) fn print_totals(roles: usize, splits: usize, out: &mut Vec<u8>) -> io::Result<()>
    ensures { OnOk result (out.new.items ≡ out.old.items ++ settled_line roles splits) }
{
    writeln!(out, "GO {roles} {splits}")
}

// A node, and the head of its role.
pub(crate) fn print_node(x: usize, head: usize, out: &mut Vec<u8>) -> io::Result<()>
    ensures { OnOk result (out.new.items ≡ out.old.items ++ node_line x head) }
{
    writeln!(out, "NO {x} {head}")
}

// A node that the question is true of.
pub(crate) fn print_true(x: usize, out: &mut Vec<u8>) -> io::Result<()>
    ensures { OnOk result (out.new.items ≡ out.old.items ++ true_line x) }
{
    writeln!(out, "QU {x}")
}

// A remark, as it stands.
pub(crate) fn print_remark(text: &[u8], out: &mut Vec<u8>) -> io::Result<()>
    ensures { OnOk result (out.new.items ≡ out.old.items ++ remark_line text.now) }
{
    out.write_all(b"RM")?;
    out.write_all(text)?;
    out.write_all(b"\n")
}
