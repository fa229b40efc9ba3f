//! Runs of a net with a reset node, from power-up.
#![tactic(auto)]

ghost use Rattle.std.specs.Prelude.{◌≡◌, None};
ghost use Rattle.prs_core.specs.Nets.{NetValue, IsNet};
ghost use Rattle.reset_runs.specs.Power.{EachFromPower};

/// Law: from every power-up state a net with a reset node first goes to its first values, each node moving once at most
/// and none taking away the move of another, and only then reset falls; what follows is a run of the net without it.
pub fn reset_runs()
    ensures { (net : NetValue) → IsNet net → net.reset ≡ None → EachFromPower net }
{}
