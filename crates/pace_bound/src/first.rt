//! From the request of a statement to its first step.

ghost use Rattle.std.specs.Prelude.{◌≡◌, ℕ, ◌≤◌, ◌<◌, ◌-◌, ◌^◌, true, false, length};
ghost use Rattle.width_check.specs.Typed.{program_of};
ghost use Rattle.width_check.specs.Typing.{IsProcess, AreProcesses, AreChoices, channel_width, kind_at};
ghost use Rattle.width_check.specs.View.{formula_of, process_of, members_in, choices_in};
ghost use Rattle.width_check.specs.Values.{IsWellFormed};
ghost use Rattle.width_check.specs.Reads.{reads};
ghost use Rattle.handshake_expand.specs.Layout.{capped};
ghost use Rattle.round_time.specs.Longest.{depth, tree_height, var_height, send_first, receive_first, first};
ghost use Rattle.round_time.specs.Phases.{choices_first};
ghost use Rattle.round_time.specs.Ways.{first_step};
ghost use Rattle.pace_bound.specs.Halving.{assign_first_by, first_by, turn_first_by};

use crate::away::{StepAway, after, farther, own_step};
use crate::depth::{expr_depth, guards_depth};
use crate::width::{channel_height, kind_of, var_height};
use chp_base::Kind;
use handshake_expand::reads;
use width_check::{TArm, TExpr, TStmt, Typed};

/// Of an assignment that reads its own target, whose expression has so many gates one behind the other, and its target
/// a tree so high.
fn own_first(halved: bool, gates: u64, tree: u64) -> u64
    ensures { (e : ℕ) → gates ≡ capped e → result ≡ capped (assign_first_by halved true e tree) }
{
    if halved {
        gates.saturating_add(tree).saturating_add(5)
    } else {
        gates
            .saturating_mul(2)
            .saturating_add(tree.saturating_mul(3))
            .saturating_add(17)
    }
}

/// Of an assignment.
fn assign_first(program: &Typed, halved: bool, var: u32, value: &TExpr) -> u64
    requires { IsWellFormed (formula_of value.now) }
    ensures { result ≡ capped (assign_first_by halved (reads var (formula_of value.now)) (depth (formula_of value.now))
        (var_height (program_of program.now) var)) }
{
    let gates = expr_depth(value);
    let tree = var_height(program, var as usize);
    if reads(value, var) {
        own_first(halved, gates, tree)
    } else {
        gates.saturating_add(tree).saturating_add(4)
    }
}

/// Of a send.
fn send_first(program: &Typed, chan: u32, value: &TExpr) -> u64
    requires { IsWellFormed (formula_of value.now) }
    ensures { result ≡ capped (send_first (kind_at program.now.channels chan) (depth (formula_of value.now))
        (tree_height (channel_width program.now.channels chan))) }
{
    let gates = expr_depth(value);
    match kind_of(program, chan as usize) {
        Kind::Out => gates.saturating_add(2),
        Kind::In | Kind::Chan => gates
            .saturating_add(channel_height(program, chan))
            .saturating_add(8),
    }
}

/// Of a receive.
fn receive_first(program: &Typed, chan: u32, var: u32) -> u64
    ensures { result ≡ capped (receive_first (kind_at program.now.channels chan)
        (var_height (program_of program.now) var)) }
{
    let tree = var_height(program, var as usize);
    match kind_of(program, chan as usize) {
        Kind::In => tree.saturating_add(8),
        Kind::Out | Kind::Chan => tree.saturating_add(7),
    }
}

/// The statement whose step is the first one of a statement, and how many moves lead from the request to it. The number
/// is of the program as it is or in halves, the statement of the program as it is. Where the number saturates
/// (2^64 - 1) the statement may be another one.
pub(crate) fn first_step<'p>(program: &Typed, halved: bool, s: &'p TStmt) -> StepAway<'p>
    requires { IsProcess program.now.channels program.now.vars (process_of s.now) }
    ensures moves { result.moves ≡ capped (first_by halved (program_of program.now) (process_of s.now)) }
    ensures step { halved ≡ false → first (program_of program.now) (process_of s.now) < 2 ^ 64 - 1
        → process_of result.statement.now ≡ first_step (program_of program.now) (process_of s.now) }
{
    match s {
        TStmt::Skip | TStmt::Repeat { .. } => own_step(s, 1),
        TStmt::Assign { var, value, .. } => own_step(s, assign_first(program, halved, *var, value)),
        TStmt::Send { chan, value, .. } => own_step(s, send_first(program, *chan, value)),
        TStmt::Receive { chan, var, .. } => own_step(s, receive_first(program, *chan, *var)),
        TStmt::Then { parts } => after(first_step(program, halved, &parts[0]), 1),
        TStmt::Beside { parts } => {
            let mut last = first_step(program, halved, &parts[0]);
            for place in 1..parts.len() {
                last = farther(last, first_step(program, halved, &parts[place]));
            }
            after(last, 1)
        }
        TStmt::Select { again, arms } => {
            let before = if *again { 3 } else { 2 };
            own_step(s, guards_depth(arms).saturating_add(before))
        }
    }
}

/// From the request of a statement to its first step, of the program as it is or in halves; saturates at 2^64 - 1.
pub(crate) fn first(program: &Typed, halved: bool, s: &TStmt) -> u64
    requires { IsProcess program.now.channels program.now.vars (process_of s.now) }
    ensures { result ≡ capped (first_by halved (program_of program.now) (process_of s.now)) }
{
    first_step(program, halved, s).moves
}

/// The same of statements that follow one the other.
pub(crate) fn turn_first(program: &Typed, halved: bool, members: &[TStmt]) -> u64
    requires some { 1 ≤ length members.now }
    requires members { AreProcesses program.now.channels program.now.vars (members_in members.now) }
    ensures { result ≡ capped (turn_first_by halved (program_of program.now) (members_in members.now)) }
{
    let own = first(program, halved, &members[0]);
    if members.len() > 1 {
        own.saturating_add(1)
    } else {
        own
    }
}

/// From the start of a branch to its first step, of the branch that has the longest way.
pub(crate) fn choices_first(program: &Typed, arms: &[TArm]) -> u64
    requires { AreChoices program.now.channels program.now.vars (choices_in arms.now) }
    ensures { result ≡ capped (choices_first (program_of program.now) (choices_in arms.now)) }
{
    let mut most: u64 = 0;
    for arm in arms {
        most = most.max(first(program, false, &arm.body));
    }
    most
}
