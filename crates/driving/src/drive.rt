// A session that is driven by a list of calls, and what is promised of it.
ghost use Rattle.std.specs.Prelude.{◌≡◌};
ghost use Rattle.equivalence.specs.Coarsest.{FewestLaw};
ghost use Rattle.equivalence.specs.Levels.{CoarsestNamed, LevelsCoarsest};
ghost use Rattle.equivalence.specs.Splitting.{SplitLaw};
ghost use Rattle.session.specs.SettledSessions.{settled_parts, settled_state};
ghost use Rattle.driving.specs.Courses.{last_book};
ghost use Rattle.driving.specs.Laws.{RunLaws};
ghost use Rattle.driving.specs.Promise.{AnsweredByBook, Driven, Promise};

use super::call::Exchange;
use super::state::Session;
use measure::interface::Measure;
use network::interface::Editable;
use session::open::Open;
use session::settled::Settled;

/// Makes a session, gives it each call that its state takes, in order, and settles it.
/// Each exchange then has the reply to its call, and its area holds what look or ask left there.
pub fn drive<N: Editable, M: Measure>(
    network: N,
    measure: M,
    exchanges: &mut [Exchange<'_, '_>],
) -> Settled<N, M>
    ensures promise { let book = last_book (N.Readable.meaning network) exchanges.old in
        Promise M.Measure.ops book (settled_state result) }
    ensures edits { let m = N.Readable.meaning network in
        AnsweredByBook m exchanges.old exchanges.new }
    ensures driven { let m = N.Readable.meaning network in
        Driven M.Measure.ops m exchanges.old exchanges.new (settled_state result) }
    ensures measure { (settled_parts result).1 ≡ measure }

    // Of every run, and so of this one, and of each split in it.
    ensures laws { RunLaws M.Measure.ops }
    ensures splits { SplitLaw M.Measure.ops }

    // Of every network and all starting classes.
    ensures fewest { FewestLaw M.Measure.ops }
    ensures levels { LevelsCoarsest M.Measure.ops }
    ensures named { CoarsestNamed M.Measure.ops }
{
    let mut session = Session::Open(Open::new(network, measure));
    for exchange in exchanges.iter_mut() {
        (session, exchange.reply) = session.call(exchange.call, exchange.area);
    }
    session.settle()
}
