//! That generated programs are served: each of their texts reads as a program that is accepted, and that has a circuit
//! which isn't too large.
#![tactic(auto)]

ghost use Rattle.std.specs.Prelude.{ℕ, ◌+◌, ◌*◌, ◌≤◌};
ghost use Rattle.program_maker.specs.Generated.{generated_text};
ghost use Rattle.grown_programs.specs.Served.{IsServed, pipeline_channels};

/// Law: the text of every seed and of 1 to 400 stages reads as an accepted program, whose channels are `c0` from
/// outside, one of eight bits after each stage and the last of these to outside, and whose circuit has at most 20
/// nodes and 154 for each stage.
pub fn grown_served()
    ensures { (seed stages : ℕ) → 1 ≤ stages → stages ≤ 400 →
        IsServed (generated_text seed stages) (pipeline_channels stages) (20 + 154 * stages) }
{}
