//! What holds of names and widths.

ghost use Rattle.std.specs.Prelude.{◌≡◌};
ghost use Rattle.chp_base.specs.declared.span.Span.{Span};
ghost use Rattle.chp_base.specs.declared.fault.FaultCode.{FaultCode};
ghost use Rattle.chp_syntax.specs.Trees.{ProgramTree};
ghost use Rattle.chp_syntax.specs.Shape.{IsShaped};
ghost use Rattle.width_check.specs.Faults.{naming_faults, HasNone, IsFirstFault};
ghost use Rattle.width_check.specs.Form.{channels_of, vars_of, process_form};
ghost use Rattle.width_check.specs.Typing.{IsTyped};

/// A program has at most one first fault of its names and widths, and none if none of the causes holds.
pub fn one_fault()
    ensures cause { (p : ProgramTree) (c d : FaultCode) (s t : Span) → IsFirstFault p naming_faults c s →
        IsFirstFault p naming_faults d t → c ≡ d }
    ensures place { (p : ProgramTree) (c d : FaultCode) (s t : Span) → IsFirstFault p naming_faults c s →
        IsFirstFault p naming_faults d t → s ≡ t }
    ensures none { (p : ProgramTree) (c : FaultCode) (s : Span) → HasNone p naming_faults →
        ¬ IsFirstFault p naming_faults c s }
{}

/// The typed form of a program of the grammar's shape without a fault of names and widths is a typed program.
pub fn form_is_typed()
    ensures { (p : ProgramTree) → IsShaped p → HasNone p naming_faults →
        IsTyped (channels_of p.decls) (vars_of p.decls) (process_form p.decls p.body) }
{}
