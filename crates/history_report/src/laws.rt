//! Laws of comparisons.

ghost use Rattle.std.specs.Prelude.{◌≡◌, List};
ghost use Rattle.env_script.specs.Scripts.{OfferValue};
ghost use Rattle.event_sim.specs.Simulating.{RanValue};
ghost use Rattle.width_check.specs.Processes.{TypedProgram};
ghost use Rattle.history_report.specs.declared.comparison.Against.{Against as AgainstValue};
ghost use Rattle.history_report.specs.Comparing.{IsAgainst};

/// Law: a run has only one comparison with the rounds of a program.
pub fn one_comparison()
    ensures { (r : RanValue) (p : TypedProgram) (script : List OfferValue) (a b : AgainstValue) →
        IsAgainst r p script a → IsAgainst r p script b → a ≡ b }
{}
