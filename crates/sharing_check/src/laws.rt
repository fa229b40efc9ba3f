//! What holds of the sharing rule itself.

ghost use Rattle.std.specs.Prelude.{◌≡◌};
ghost use Rattle.chp_base.specs.declared.span.Span.{Span};
ghost use Rattle.chp_base.specs.declared.fault.FaultCode.{FaultCode};
ghost use Rattle.width_check.specs.Processes.{Process};
ghost use Rattle.width_check.specs.Sharing.{MeetsSharing, IsFirstSharedFault, sharing_faults};

/// At most one breach of the sharing rule is reported of a program, for one cause and at one pair of spans, and none if
/// it meets the rule.
pub fn one_shared_fault()
    ensures cause { (body : Process) (c d : FaultCode) (s t u v : Span)
        → IsFirstSharedFault body sharing_faults c s t → IsFirstSharedFault body sharing_faults d u v → c ≡ d }
    ensures first { (body : Process) (c d : FaultCode) (s t u v : Span)
        → IsFirstSharedFault body sharing_faults c s t → IsFirstSharedFault body sharing_faults d u v → s ≡ u }
    ensures second { (body : Process) (c d : FaultCode) (s t u v : Span)
        → IsFirstSharedFault body sharing_faults c s t → IsFirstSharedFault body sharing_faults d u v → t ≡ v }
    ensures none { (body : Process) (c : FaultCode) (s t : Span)
        → MeetsSharing body → ¬ IsFirstSharedFault body sharing_faults c s t }
{}
