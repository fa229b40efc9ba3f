//! How it is round a statement of a program.

ghost use Rattle.std.specs.Prelude.{◌≡◌, ◌≢◌, ◌+◌, ◌-◌, ◌*◌, ◌<◌, if◌then◌else◌, length, drop};
ghost use Rattle.width_check.specs.Processes.{Processes, member_count};
ghost use Rattle.width_check.specs.Typed.{program_of};
ghost use Rattle.width_check.specs.Typing.{AreProcesses, AreChoices};
ghost use Rattle.width_check.specs.View.{members_in, choices_in};
ghost use Rattle.handshake_expand.specs.Layout.{capped};
ghost use Rattle.handshake_expand.specs.PartTree.{HasFormedGuards};
ghost use Rattle.round_time.specs.Longest.{guards_depth, turn_first};
ghost use Rattle.round_time.specs.Phases.{branch_down};

use crate::depth::guards_depth;
use crate::first::turn_first;
use crate::height::{member_held, tree_height};
use width_check::{TArm, TStmt, Typed};

/// Of a statement: how it stands towards what is round it.
#[derive(Clone, Copy)]
pub(crate) struct Context {
    /// For how many moves its request stays high once it has answered.
    pub held: u64,
    /// How many moves follow the fall of its answer, one behind the other.
    pub down: u64,
}

/// What follows the fall of the answer of a member of a sequence: for the last one what follows that of the sequence,
/// for the others the next member.
fn member_down(program: &Typed, parts: &[TStmt], place: usize, down: u64) -> u64
    requires there { place < length parts.now }
    requires members { AreProcesses program.now.channels program.now.vars (members_in (drop place parts.now)) }
    ensures last { place + 1 ≡ length parts.now → result ≡ down }
    ensures other { place + 1 ≢ length parts.now → result ≡
        capped (1 + (turn_first (program_of program.now) (members_in (drop (place + 1) parts.now)) - 1)) }
{
    if place + 1 < parts.len() {
        turn_first(program, false, &parts[place + 1..])
    } else {
        down
    }
}

/// Of a member of a sequence.
pub(crate) fn of_member(program: &Typed, at: Context, parts: &[TStmt], place: usize) -> Context
    requires there { place < length parts.now }
    requires members { AreProcesses program.now.channels program.now.vars (members_in (drop place parts.now)) }
    ensures last_held { place + 1 ≡ length parts.now → result.held ≡ capped (at.held + 2 * place) }
    ensures last_down { place + 1 ≡ length parts.now → result.down ≡ at.down }
    ensures other_held { place + 1 ≢ length parts.now → result.held ≡ 2 }
    ensures other_down { place + 1 ≢ length parts.now → result.down ≡
        capped (1 + (turn_first (program_of program.now) (members_in (drop (place + 1) parts.now)) - 1)) }
{
    Context {
        held: member_held(at.held, place, parts.len()),
        down: member_down(program, parts, place, at.down),
    }
}

/// Of a branch of a parallel composition of so many.
pub(crate) fn of_branch(at: Context, count: u64) -> Context
    ensures held { result.held ≡ 2 }
    ensures down { (members : Processes) → member_count members ≡ count
        → result.down ≡ capped (branch_down members at.held at.down) }
{
    let tree = tree_height(count);
    let down = at.down.saturating_add(at.held).saturating_add(tree);
    Context {
        held: 2,
        down: down.saturating_add(tree).saturating_add(3),
    }
}

/// Of a branch of a selection, or of a repetition.
pub(crate) fn of_arm(at: Context, again: bool, arms: &[TArm]) -> Context
    requires { HasFormedGuards (choices_in arms.now) }
    ensures held { result.held ≡ capped (if again then 4 else (at.held + 3)) }
    ensures down { result.down ≡ capped (if again then (3 + guards_depth (choices_in arms.now)) else (1 + at.down)) }
{
    if again {
        Context {
            held: 4,
            down: guards_depth(arms).saturating_add(3),
        }
    } else {
        Context {
            held: at.held.saturating_add(3),
            down: at.down.saturating_add(1),
        }
    }
}
