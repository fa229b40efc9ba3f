//! What holds of the language itself.

ghost use Rattle.std.specs.Prelude.{◌≡◌, ℕ, List};
ghost use Rattle.chp_base.specs.declared.span.Span.{Span};
ghost use Rattle.chp_base.specs.declared.fault.FaultCode.{FaultCode};
ghost use Rattle.chp_syntax.specs.Trees.{ProgramTree};
ghost use Rattle.chp_syntax.specs.Reading.{Reads};
ghost use Rattle.chp_syntax.specs.Refusals.{RefusedText};

/// A text reads as at most one program.
pub fn one_program()
    ensures { (text : List ℕ) (p q : ProgramTree) → Reads text p → Reads text q → p ≡ q }
{}

/// A text is refused for at most one cause, at one span, and only if it reads as no program.
pub fn one_fault()
    ensures cause { (text : List ℕ) (k j : FaultCode) (s t : Span) → RefusedText text k s → RefusedText text j t →
        k ≡ j }
    ensures place { (text : List ℕ) (k j : FaultCode) (s t : Span) → RefusedText text k s → RefusedText text j t →
        s ≡ t }
    ensures unread { (text : List ℕ) (k : FaultCode) (s : Span) (p : ProgramTree) → RefusedText text k s →
        ¬ Reads text p }
{}
