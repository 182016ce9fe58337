// A step splits one role in two, exactly where the vet says that the table is not regular.
use super::super::open::Open;
use super::super::step::Step;
use super::{CYCLES, Tells, chain, matrix, shows, tied};
use equivalence::totals::total_toward;
use equivalence::vetting::vet;
use measure::bundles::Bundles;
use measure::interface::Measure;
use measure::kinds::Kinds;
use network::interface::Editable;
use std::alloc::Global;
use std::process::Abort;
use std::test::Fail;

// The role of node x in the table.
fn role_in(rt: &impl Abort, table: &[u8], x: usize) -> u8 {
    table.get(x).copied().expect(rt, "a node")
}

// Whether no node below x has its role in the table.
fn is_head(rt: &impl Abort, table: &[u8], x: usize) -> bool {
    let role = role_in(rt, table, x);
    table.iter().position(|&r| r == role) == Some(x)
}

// The step that the session makes, which fits the vet and the tables before and after it.
fn steps<N: Editable + Drop, M: Measure + Drop>(
    rt: &impl Abort,
    heap: Global,
    open: &mut Open<N, M>,
    measure: &M,
) -> Result<Step, Fail> {
    let old = open.table().to_vec(heap)?;
    let counts = open.counts();
    let regular = vet(open.network(), measure, &old) == Ok(None);
    let step = open.step();
    match step {
        Step::Stable => {
            assert!(rt; regular);
            assert!(rt; open.table() == old.as_slice());
            assert_eq!(rt; open.counts(), counts);
        }
        Step::Split {
            part,
            toward,
            fresh,
        } => {
            assert!(rt; !regular);
            assert_eq!(rt;
                open.counts(),
                (counts.0.saturating_add(1), counts.1.saturating_add(1))
            );
            assert!(rt; is_head(rt, &old, part) && is_head(rt, &old, toward));
            let stayed = open.role_at(part).expect(rt, "a role");
            let left = open.role_at(fresh).expect(rt, "a role");
            assert_eq!(rt; (stayed.head, left.head), (part, fresh));
            let was = role_in(rt, &old, part);
            assert_eq!(rt; role_in(rt, &old, fresh), was);
            let size = old.iter().filter(|&&r| r == was).count();
            assert_eq!(rt; stayed.size.saturating_add(left.size), size);
            // The two differ in the total that is told.
            let toward = role_in(rt, &old, toward);
            assert!(rt;
                !measure.same(
                    total_toward(open.network(), measure, part, &old, toward),
                    total_toward(open.network(), measure, fresh, &old, toward),
                )
            );
        }
    }
    Ok(step)
}

#[test]
fn a_chain_is_split_step_by_step(rt: HostRuntime) -> Result<(), Fail> {
    let mut open = chain(&rt, rt.alloc(), 4)?;
    let tables = [[0, 0, 0, 0], [0, 1, 1, 1], [0, 1, 2, 2]];
    for (splits, heads) in tables.iter().enumerate() {
        shows(&rt, &open, splits, heads);
        assert!(rt; steps(&rt, rt.alloc(), &mut open, &Kinds)? != Step::Stable);
    }
    shows(&rt, &open, 3, &[0, 1, 2, 3]);
    assert_eq!(rt; steps(&rt, rt.alloc(), &mut open, &Kinds)?, Step::Stable);
    Ok(())
}

#[test]
fn the_mutual_tie_is_split_off_under_bundles(rt: HostRuntime) -> Result<(), Fail> {
    let mut open = tied(&rt, matrix(rt.alloc(), 5)?, Bundles, &CYCLES);
    let split = Step::Split {
        part: 0,
        toward: 0,
        fresh: 3,
    };
    assert_eq!(rt; steps(&rt, rt.alloc(), &mut open, &Bundles)?, split);
    shows(&rt, &open, 1, &[0, 0, 0, 3, 3]);
    assert_eq!(rt; steps(&rt, rt.alloc(), &mut open, &Bundles)?, Step::Stable);
    Ok(())
}
