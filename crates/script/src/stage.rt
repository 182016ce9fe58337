// The stages of a script, and what a record does at each.
ghost use Rattle.std.specs.Prelude.{◌≡◌, ◌++◌, IfOk, OnOk};
ghost use Rattle.script.specs.Records.{said_in};

use super::any_network::AnyNetwork;
use super::draft::Draft;
use super::faults::Reason;
use super::lines::print_remark;
use super::record::Record;
use super::work::Work;
use std::alloc::Global;
use std::io;

// What the script names next, or works on.
#[derive(Drop)]
pub(crate) enum Stage {
    Network,
    Measure(AnyNetwork),
    Work(Work),
}

impl Stage {
    ghost use Rattle.script.specs.Stages.{answer_in, does, next_phase, phase_of, printed_in};

    // The next stage, and the refusal where there is one; nothing is printed of a refusal.
    pub(crate) fn play(
        self,
        what: Record<'_>,
        heap: Global,
        out: &mut Vec<u8>,
    ) -> io::Result<(Stage, Result<(), Reason>)>
        ensures stage { let phase = phase_of self in let said = said_in what.entry in
            IfOk result (λ turn. phase_of turn.0 ≡ next_phase phase (does phase said)) }
        ensures answer { let said = said_in what.entry in
            IfOk result (λ turn. turn.1 ≡ answer_in (does (phase_of self) said)) }
        ensures printed { let printed = printed_in (does (phase_of self) (said_in what.entry)) in
            OnOk result (out.new.items ≡ out.old.items ++ printed) }
    {
        match (self, what) {
            (stage, Record::Remark(text)) => {
                print_remark(text, out)?;
                Ok((stage, Ok(())))
            }
            (Stage::Network, Record::Matrix(n)) => {
                match AnyNetwork::matrix(n, heap)? {
                    Ok(network) => Ok((Stage::Measure(network), Ok(()))),
                    Err(fault) => Ok((Stage::Network, Err(Reason::Network(fault)))),
                }
            }
            (Stage::Network, Record::TwoMode(a, b)) => {
                match AnyNetwork::two_mode(a, b, heap)? {
                    Ok(network) => Ok((Stage::Measure(network), Ok(()))),
                    Err(fault) => Ok((Stage::Network, Err(Reason::Network(fault)))),
                }
            }
            (Stage::Network, Record::Slots(n, s)) => {
                match AnyNetwork::list(n, s, heap)? {
                    Ok(network) => Ok((Stage::Measure(network), Ok(()))),
                    Err(fault) => Ok((Stage::Network, Err(Reason::Network(fault)))),
                }
            }
            (Stage::Measure(network), Record::Kinds) => {
                Ok((Stage::Work(Work::by_kinds(network, heap)?), Ok(())))
            }
            (Stage::Measure(network), Record::Bundles) => {
                Ok((Stage::Work(Work::by_bundles(network, heap)?), Ok(())))
            }
            (Stage::Measure(network), Record::Tally) => {
                Ok((Stage::Work(Work::by_tally(network, heap)?), Ok(())))
            }
            (Stage::Work(mut work), Record::Put(i, j, b)) => {
                let answer = work.session.put(i, j, b).map_err(Reason::Network);
                Ok((Stage::Work(work), answer))
            }
            (Stage::Work(mut work), Record::Colour(i, c)) => {
                let answer = work.session.colour(i, c).map_err(Reason::Session);
                Ok((Stage::Work(work), answer))
            }
            (Stage::Work(mut work), Record::Question(line)) => {
                let answer = work.question.add(line).map_err(Reason::Question);
                Ok((Stage::Work(work), answer))
            }
            (Stage::Work(work), Record::Go) => { Ok((Stage::Work(work.go(heap, out)?), Ok(()))) }
            (stage, _) => Ok((stage, Err(Reason::Stage))),
        }
    }
}
