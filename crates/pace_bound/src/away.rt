//! Statements that make a step, and how far away that is.

ghost use Rattle.std.specs.Prelude.{◌≡◌, ◌+◌, max, nat_lt, if◌then◌else◌};
ghost use Rattle.handshake_expand.specs.Layout.{capped};
ghost use Rattle.pace_bound.specs.Whereabouts.{away_of};

use width_check::TStmt;

/// A statement that makes a step, and how many moves lead to that, or follow it until the answer has fallen; their
/// number saturates at 2^64 - 1.
#[derive(Clone, Copy)]
pub(crate) struct StepAway<'p> {
    pub statement: &'p TStmt,
    pub moves: u64,
}

/// The step of the statement itself.
pub(crate) fn own_step<'p>(statement: &'p TStmt, moves: u64) -> StepAway<'p>
    ensures moves { result.moves ≡ moves }
    ensures statement { result.statement.now ≡ statement.now }
{
    StepAway { statement, moves }
}

/// The same step, so many moves farther away.
pub(crate) fn after<'p>(step: StepAway<'p>, moves: u64) -> StepAway<'p>
    ensures moves { result.moves ≡ capped (step.entry.moves + moves) }
    ensures statement { result.statement.now ≡ step.entry.statement.now }
{
    StepAway {
        statement: step.statement,
        moves: step.moves.saturating_add(moves),
    }
}

/// The same step, at least so many moves away.
pub(crate) fn at_least<'p>(step: StepAway<'p>, moves: u64) -> StepAway<'p>
    ensures moves { result.moves ≡ max step.entry.moves moves }
    ensures statement { result.statement.now ≡ step.entry.statement.now }
{
    StepAway {
        statement: step.statement,
        moves: step.moves.max(moves),
    }
}

/// The one of two steps that is farther away; the first one where both are as far.
pub(crate) fn farther<'p>(best: StepAway<'p>, next: StepAway<'p>) -> StepAway<'p>
    ensures farthest { away_of result ≡
        (if nat_lt best.entry.moves next.entry.moves then away_of next.entry else away_of best.entry) }
    ensures moves { result.moves ≡ max best.entry.moves next.entry.moves }
{
    if next.moves > best.moves { next } else { best }
}
