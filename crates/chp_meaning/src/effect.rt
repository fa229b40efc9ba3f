//! What the steps of a round change.

ghost use Rattle.std.specs.Prelude.{◌≡◌, ◌<◌, length};
ghost use Rattle.env_script.specs.Scripts.{offer_at, is_over};
ghost use Rattle.width_check.specs.View.{process_of, choices_in};
ghost use Rattle.chp_meaning.specs.Remaining.{GuardsHaveValues};
ghost use Rattle.chp_meaning.specs.AtOnce.{plain_move, next_of, sent_move, received_move, ending_move, is_met, true_guards, guards_counted};
ghost use Rattle.chp_meaning.specs.Standing.{offer_of_rest, outset_of, HasTables, CanRun};

use crate::config::{Config, Rest};
use env_script::Count;
use width_check::{TArm, TExpr, TStmt, value};

/// What a step changes besides the term.
#[derive(Clone, Copy)]
pub(crate) struct Move {
    /// A variable, and its new value.
    pub write: Option<(u32, u64)>,
    /// The channel on which the script uses up a value or an acceptance.
    pub uses: Option<u32>,
    /// A channel, and the value that passes on it.
    pub pass: Option<(u32, u64)>,
}

/// A step that changes the term alone.
pub(crate) fn plain_move() -> Move
    ensures { result ≡ plain_move }
{
    Move {
        write: None,
        uses: None,
        pass: None,
    }
}

/// The next value that the environment sends.
fn next_value(rest: &Rest) -> Option<u64>
    ensures { result ≡ next_of (offer_of_rest rest.now) }
{
    match rest {
        Rest::Gives { values, sent } => values.get(*sent).copied(),
        _ => None,
    }
}

fn is_over(count: Count) -> bool
    ensures { result ≡ is_over count 0 }
{
    match count {
        Count::All => true,
        Count::Times(count) => 0 < count,
    }
}

/// The step of an active send of this value.
fn sent(config: &Config, chan: u32, value: u64) -> Option<Move>
    requires tables { HasTables config.now }
    requires channel { chan < length config.now.rests.items }
    ensures { result ≡ sent_move (outset_of config.now) chan value (offer_at (outset_of config.now).rests chan) }
{
    match &config.rests[chan as usize] {
        Rest::Gives { .. } => None,
        Rest::Takes { count } => {
            if is_over(*count) {
                Some(Move {
                    write: None,
                    uses: Some(chan),
                    pass: Some((chan, value)),
                })
            } else {
                None
            }
        }
        Rest::Nothing => match config.receives[chan as usize] {
            Some(target) => Some(Move {
                write: Some((target, value)),
                uses: None,
                pass: Some((chan, value)),
            }),
            None => None,
        },
    }
}

/// The step of an active receive, where the environment sends.
fn received(config: &Config, chan: u32, var: u32) -> Option<Move>
    requires { chan < length config.now.rests.items }
    ensures { result ≡ received_move chan var (next_of (offer_at (outset_of config.now).rests chan)) }
{
    match next_value(&config.rests[chan as usize]) {
        Some(value) => Some(Move {
            write: Some((var, value)),
            uses: Some(chan),
            pass: Some((chan, value)),
        }),
        None => None,
    }
}

/// The step of an active statement that ends with it.
pub(crate) fn ending(config: &Config, stmt: &TStmt) -> Option<Move>
    requires { CanRun config.now (process_of stmt.now) }
    ensures { result ≡ ending_move (outset_of config.now) (process_of stmt.now) }
{
    match stmt {
        TStmt::Skip => Some(plain_move()),
        TStmt::Assign { var, value: e, .. } => Some(Move {
            write: Some((*var, value(e, &config.store))),
            uses: None,
            pass: None,
        }),
        TStmt::Send { chan, value: e, .. } => sent(config, *chan, value(e, &config.store)),
        TStmt::Receive { chan, var, .. } => received(config, *chan, *var),
        _ => None,
    }
}

/// Whether the statement is a receive to which an active send sends.
pub(crate) fn is_met(config: &Config, stmt: &TStmt) -> bool
    requires { CanRun config.now (process_of stmt.now) }
    ensures { result ≡ is_met (outset_of config.now) (process_of stmt.now) }
{
    match stmt {
        TStmt::Receive { chan, .. } => match config.rests[*chan as usize] {
            Rest::Nothing => config.sends[*chan as usize],
            _ => false,
        },
        _ => false,
    }
}

/// Which guards are true.
#[derive(Clone, Copy)]
pub(crate) enum TrueGuards {
    Zero,
    One(usize),
    Several,
}

/// Which guards of the arms are true.
pub(crate) fn chosen(arms: &[TArm], store: &[u64]) -> TrueGuards
    requires { GuardsHaveValues (choices_in arms.now) }
    ensures { result ≡ guards_counted (true_guards store.now 0 (choices_in arms.now)) }
{
    let mut found = TrueGuards::Zero;
    for (index, arm) in arms.iter().enumerate() {
        if value(&arm.guard, store) == 1 {
            match found {
                TrueGuards::Zero => found = TrueGuards::One(index),
                _ => return TrueGuards::Several,
            }
        }
    }
    found
}
