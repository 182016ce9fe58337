// A whole script, record by record.
ghost use Rattle.std.specs.Prelude.{◌≡◌, ◌++◌, ◌+◌, ◌<◌, ◌≤◌, length, IfOk, OnOk, OnErr, [], ◌∷◌};
ghost use Rattle.std.specs.List.{after_first, before_first};
ghost use Rattle.script.specs.Faults.{number};
ghost use Rattle.script.specs.Transcripts.{limit, newline, play, refusals, too_long, transcript};
ghost use Rattle.script.specs.Words.{refusal_line};
ghost use Rattle.script.specs.Laws.{ScriptLaws};
ghost use Rattle.script.specs.Stages.{answer_in, next_phase, outcome, phase_of, printed_in};

use super::cutting::len_before;
use super::faults::{Fault, Reason};
use super::lines::print_refusal;
use super::reading::read;
use super::stage::Stage;
use std::alloc::{AllocError, Global};
use std::io;

/// How many bytes a script may have. One of more is refused as a whole.
pub const LIMIT: usize = 32_768;

// The first line, and what stands behind its line feed.
fn cut(rest: &[u8]) -> (&[u8], &[u8])
    ensures line { result.0.now ≡ before_first newline rest.now }
    ensures after { result.1.now ≡ after_first newline rest.now }
{
    let (line, after) = rest.split_at(len_before(rest, b'\n'));
    match after {
        [_, after @ ..] => (line, after),
        [] => (line, after),
    }
}

// What the bytes of a record do: the next stage, and the refusal where there is one.
fn act(
    stage: Stage,
    line: &[u8],
    heap: Global,
    out: &mut Vec<u8>,
) -> io::Result<(Stage, Result<(), Reason>)>
    ensures stage { let phase = phase_of stage in
        IfOk result (λ turn. phase_of turn.0 ≡ next_phase phase (outcome phase line.now)) }
    ensures answer { let did = outcome (phase_of stage) line.now in
        IfOk result (λ turn. turn.1 ≡ answer_in did) }
    ensures printed { let printed = printed_in (outcome (phase_of stage) line.now) in
        OnOk result (out.new.items ≡ out.old.items ++ printed) }
{
    match read(line) {
        Ok(what) => stage.play(what, heap, out),
        Err(reason) => Ok((stage, Err(reason))),
    }
}

// A script as far as it is played.
#[derive(Drop)]
struct Player {
    stage: Stage,
    // How many records there were, and where the next one begins.
    count: usize,
    offset: usize,
    faults: Vec<Fault>,
}

impl Player {
    ghost use Rattle.script.specs.Players.{played_in};

    // Plays a record more.
    fn play(self, line: &[u8], heap: Global, out: &mut Vec<u8>) -> io::Result<Player>
        requires few { self.count ≤ limit }
        requires short { self.offset + length line.now ≤ limit }
        ensures { IfOk result (λ next.
            played_in next out.new.items ≡ play (played_in self out.old.items) line.now) }
    {
        let Player {
            stage,
            count,
            offset,
            mut faults,
        } = self;
        let (stage, answer) = act(stage, line, heap, out)?;
        let count = count + 1;
        if let Err(reason) = answer {
            let fault = Fault {
                reason,
                record: count,
                offset,
            };
            print_refusal(fault, out)?;
            faults.push(fault)?;
        }
        Ok(Player {
            stage,
            count,
            offset: offset + (line.len() + 1),
            faults,
        })
    }
}

// Refuses a script as a whole.
fn refuse_all(heap: Global, out: &mut Vec<u8>) -> io::Result<Vec<Fault>>
    ensures printed { let line = refusal_line too_long.«record» (number too_long.reason) in
        OnOk result (out.new.items ≡ out.old.items ++ line) }
    ensures refusals { IfOk result (λ faults. faults.items ≡ too_long ∷ []) }
{
    let fault = Fault {
        reason: Reason::Length,
        record: 0,
        offset: 0,
    };
    print_refusal(fault, out)?;
    let mut faults = Vec::new(heap);
    faults.push(fault)?;
    Ok(faults)
}

// Plays each record, or refuses the whole script.
fn play_all(script: &[u8], heap: Global, out: &mut Vec<u8>) -> io::Result<Vec<Fault>>
    ensures printed { OnOk result (out.new.items ≡ out.old.items ++ transcript script.now) }
    ensures refusals { IfOk result (λ faults. faults.items ≡ refusals script.now) }
{
    if script.len() > LIMIT {
        return refuse_all(heap, out);
    }
    let mut player = Player {
        stage: Stage::Network,
        count: 0,
        offset: 0,
        faults: Vec::new(heap),
    };
    let mut rest = script;
    while !rest.is_empty() {
        let (line, after) = cut(rest);
        player = player.play(line, heap, out)?;
        rest = after;
    }
    Ok(player.faults)
}

/// Runs a script: what it prints is appended to `out`, and its refusals are given in order. Where
/// memory is short, `out` holds what it held.
#[tactic(auto, using(crate::proofs::Laws::script_laws))]
pub fn run(script: &[u8], heap: Global, out: &mut Vec<u8>) -> Result<Vec<Fault>, AllocError>
    ensures printed { OnOk result (out.new.items ≡ out.old.items ++ transcript script.now) }
    ensures refusals { IfOk result (λ faults. faults.items ≡ refusals script.now) }
    ensures failed { OnErr result (out.new.items ≡ out.old.items) }
    ensures laws { ScriptLaws }
{
    let mut printed = Vec::new(heap);
    // Nothing else fails in writing to a `Vec`.
    let faults = play_all(script, heap, &mut printed).map_err(|_| AllocError)?;
    out.extend_from_slice(&printed)?;
    Ok(faults)
}
