//! How many nodes the circuit of a program has.

ghost use Rattle.std.specs.Prelude.{◌≡◌, if◌then◌else◌};
ghost use Rattle.width_check.specs.Typed.{program_of};
ghost use Rattle.width_check.specs.Typing.{channel_width, var_width, IsProcess};
ghost use Rattle.width_check.specs.Values.{IsWellFormed};
ghost use Rattle.width_check.specs.View.{formula_of, process_of, choices_in};
ghost use Rattle.handshake_expand.specs.Answers.{select_own, again_own};
ghost use Rattle.handshake_expand.specs.Layout.{block_size, assign_size, size_of, guards_size, node_count, capped};
ghost use Rattle.handshake_expand.specs.PartTree.{HasFormedGuards};

use crate::expr::{expr_nodes, reads};
use width_check::{TArm, TExpr, TStmt, Typed};

/// The number of bits of a channel; 0 for a channel that the program doesn't have.
#[tactic(auto, using(crate::proofs::Rows::channel_found, crate::proofs::Rows::no_channel))]
fn channel_bits(program: &Typed, chan: u32) -> u8
    ensures { result ≡ channel_width program.now.channels chan }
{
    match program.channels().get(chan as usize) {
        Some(channel) => channel.width,
        None => 0,
    }
}

/// The number of bits of a variable; 0 for a variable that the program doesn't have.
#[tactic(auto, using(crate::proofs::Rows::var_found, crate::proofs::Rows::no_var))]
pub(crate) fn var_bits(program: &Typed, var: u32) -> u8
    ensures { result ≡ var_width program.now.vars var }
{
    match program.vars().get(var as usize) {
        Some(declared) => declared.width,
        None => 0,
    }
}

/// How many nodes the block of a variable of the width has.
pub(crate) fn block_nodes(width: u8) -> u64
    ensures { result ≡ block_size width }
{
    (6 * u64::from(width)).saturating_sub(1)
}

/// How many nodes an assignment has.
fn assign_nodes(program: &Typed, var: u32, value: &TExpr) -> u64
    requires { IsWellFormed (formula_of value.now) }
    ensures { result ≡ capped (assign_size (program_of program.now) var (formula_of value.now)) }
{
    let own = expr_nodes(value).saturating_add(1);
    if reads(value, var) {
        let width = var_bits(program, var);
        own.saturating_add(block_nodes(width) + 2 * u64::from(width) + 4)
    } else {
        own
    }
}

/// How many nodes a selection or a guarded repetition has, not counting the latch and the start of each guard.
pub(crate) fn own_nodes(again: bool) -> u64
    ensures { result ≡ if again then again_own else select_own }
{
    if again { 6 } else { 3 }
}

/// How many nodes a statement of the program has, including those of the statements in it; the count saturates at
/// 2^64 - 1.
pub fn statement_nodes(program: &Typed, s: &TStmt) -> u64
    requires { IsProcess program.now.channels program.now.vars (process_of s.now) }
    ensures { result ≡ capped (size_of (program_of program.now) (process_of s.now)) }
{
    match s {
        TStmt::Skip => 1,
        TStmt::Assign { var, value, .. } => assign_nodes(program, *var, value),
        TStmt::Send { value, .. } => expr_nodes(value).saturating_add(1),
        TStmt::Receive { chan, .. } => 2 + 2 * u64::from(channel_bits(program, *chan)),
        TStmt::Then { parts } => {
            let mut count = 3u64.saturating_mul((parts.len() as u64).saturating_sub(1));
            for part in parts {
                count = count.saturating_add(statement_nodes(program, part));
            }
            count
        }
        TStmt::Beside { parts } => {
            let branches = parts.len() as u64;
            let mut count = 3u64
                .saturating_mul(branches)
                .saturating_add(branches.saturating_sub(1));
            for branch in parts {
                count = count.saturating_add(statement_nodes(program, branch));
            }
            count
        }
        TStmt::Select { again, arms } => {
            let mut count = 2u64
                .saturating_mul(arms.len() as u64)
                .saturating_add(own_nodes(*again));
            for arm in arms {
                let guard = expr_nodes(&arm.guard);
                count = count.saturating_add(guard.saturating_add(statement_nodes(
                    program, &arm.body,
                )));
            }
            count
        }
        TStmt::Repeat { body } => statement_nodes(program, body).saturating_add(2),
    }
}

/// How many nodes the guards have together; the count saturates at 2^64 - 1.
pub(crate) fn guard_nodes(arms: &[TArm]) -> u64
    requires { HasFormedGuards (choices_in arms.now) }
    ensures { result ≡ capped (guards_size (choices_in arms.now)) }
{
    let mut count: u64 = 0;
    for arm in arms {
        count = count.saturating_add(expr_nodes(&arm.guard));
    }
    count
}

/// How many nodes the circuit of a program has; the count saturates at 2^64 - 1.
pub fn count_nodes(program: &Typed) -> u64
    ensures { result ≡ node_count (program_of program.now) }
{
    let mut count: u64 = 4;
    for channel in program.channels() {
        count = count.saturating_add(2 * u64::from(channel.width) + 1);
    }
    for var in program.vars() {
        count = count.saturating_add(block_nodes(var.width));
    }
    count.saturating_add(statement_nodes(program, program.body()))
}
