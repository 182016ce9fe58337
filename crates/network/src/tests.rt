// What each network answers, and what its memory then holds.
use super::faults::Fault;

mod layers;
mod matrix;
mod slot_list;
mod two_mode;

#[test]
fn each_fault_has_its_number(rt: HostRuntime) {
    assert_eq!(rt; Fault::Size.number(), 1);
    assert_eq!(rt; Fault::Memory.number(), 2);
    assert_eq!(rt; Fault::Node.number(), 3);
    assert_eq!(rt; Fault::Pair.number(), 4);
    assert_eq!(rt; Fault::Full.number(), 5);
    assert_eq!(rt; Fault::Full.origin(), "network");
}
