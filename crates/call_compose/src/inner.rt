//! What a typed statement of a known form is made of.

ghost use Rattle.std.specs.Prelude.{◌≡◌, Bool};
ghost use Rattle.width_check.specs.Processes.{Process, Processes, Choices, in_turn, side_by_side, choosing, repeating};
ghost use Rattle.width_check.specs.View.{process_of, members_in, choices_in};

use width_check::{TArm, TStmt};

/// The members of a sequence.
pub(crate) fn members_of(s: &TStmt) -> &[TStmt]
    requires { (members : Processes) × (process_of s.now ≡ in_turn members) }
    ensures { process_of s.now ≡ in_turn (members_in result.now) }
{
    match s {
        TStmt::Then { parts } => parts,
        _ => unreachable!(),
    }
}

/// The branches of a parallel composition.
pub(crate) fn branches_of(s: &TStmt) -> &[TStmt]
    requires { (branches : Processes) × (process_of s.now ≡ side_by_side branches) }
    ensures { process_of s.now ≡ side_by_side (members_in result.now) }
{
    match s {
        TStmt::Beside { parts } => parts,
        _ => unreachable!(),
    }
}

/// The arms of a selection or a guarded repetition.
pub(crate) fn arms_of(s: &TStmt) -> &[TArm]
    requires { (again : Bool) × (choices : Choices) × (process_of s.now ≡ choosing again choices) }
    ensures { (again : Bool) (choices : Choices) → process_of s.now ≡ choosing again choices
        → choices ≡ choices_in result.now }
{
    match s {
        TStmt::Select { arms, .. } => arms,
        _ => unreachable!(),
    }
}

/// What a loop repeats.
pub(crate) fn repeated(s: &TStmt) -> &TStmt
    requires { (inner : Process) × (process_of s.now ≡ repeating inner) }
    ensures { process_of s.now ≡ repeating (process_of result.now) }
{
    match s {
        TStmt::Repeat { body } => body,
        _ => unreachable!(),
    }
}
