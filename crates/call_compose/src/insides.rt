//! The parts of a typed statement that is known to have them.

ghost use Rattle.std.specs.Prelude.{◌≡◌, Bool, List};
ghost use Rattle.chp_base.specs.declared.channel.Channel.{Channel};
ghost use Rattle.width_check.specs.declared.typed.Var.{Var};
ghost use Rattle.width_check.specs.Processes.{Process, Processes, Choices, in_turn, side_by_side, choosing, repeating};
ghost use Rattle.width_check.specs.Typing.{IsProcess, AreProcesses, AreChoices};
ghost use Rattle.width_check.specs.View.{process_of, members_in, choices_in};

use width_check::{TArm, TStmt};

/// The members of a sequence, and the branches of a parallel composition; of other statements none.
pub(crate) fn members(s: &TStmt) -> &[TStmt]
    ensures turned { (inside : Processes) → process_of s.now ≡ in_turn inside → members_in result.now ≡ inside }
    ensures abreast { (inside : Processes) → process_of s.now ≡ side_by_side inside
        → members_in result.now ≡ inside }
    ensures typed { (cs : List Channel) (vs : List Var) → IsProcess cs vs (process_of s.now)
        → AreProcesses cs vs (members_in result.now) }
{
    match s {
        TStmt::Then { parts } => parts,
        TStmt::Beside { parts } => parts,
        _ => &[],
    }
}

/// The arms of a selection or a guarded repetition; of other statements none.
pub(crate) fn choices(s: &TStmt) -> &[TArm]
    ensures chosen { (again : Bool) (inside : Choices) → process_of s.now ≡ choosing again inside
        → choices_in result.now ≡ inside }
    ensures typed { (cs : List Channel) (vs : List Var) → IsProcess cs vs (process_of s.now)
        → AreChoices cs vs (choices_in result.now) }
{
    match s {
        TStmt::Select { arms, .. } => arms,
        _ => &[],
    }
}

/// What a loop repeats; another statement itself.
pub(crate) fn repeated(s: &TStmt) -> &TStmt
    ensures repeated { (inside : Process) → process_of s.now ≡ repeating inside → process_of result.now ≡ inside }
    ensures typed { (cs : List Channel) (vs : List Var) → IsProcess cs vs (process_of s.now)
        → IsProcess cs vs (process_of result.now) }
{
    match s {
        TStmt::Repeat { body } => body,
        _ => s,
    }
}
