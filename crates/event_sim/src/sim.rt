//! Simulations.

ghost use Rattle.std.specs.Prelude.{◌≡◌, ℕ, ◌+◌, ◌≤◌, ◌<◌, ◌++◌, List, [], ◌∷◌, length, take, true, false, IsSome, Some, None, IfOk, IfSome};
ghost use Rattle.prs_core.specs.Moves.{high};
ghost use Rattle.env_script.specs.Scripts.{IsScript};
ghost use Rattle.env_script.specs.Environment.{net_channels};
ghost use Rattle.env_script.specs.Runs.{IsRun, after};
ghost use Rattle.env_script.specs.OneLength.{AllSafe, EndsAll};
ghost use Rattle.event_sim.specs.declared.ran.End.TheVariants.{AtRest};
ghost use Rattle.event_sim.specs.Following.{ArePicks};
ghost use Rattle.event_sim.specs.Passing.{passed_in};
ghost use Rattle.event_sim.specs.Ends.{end_from, end_with, EndsSo};
ghost use Rattle.event_sim.specs.Picking.{IsChoiceList};
ghost use Rattle.event_sim.specs.Asking.{IsAskedAlong, enabled_after, picker_value};

use crate::picker::Picker;
use crate::power::power_state;
use crate::ran::{End, Ran};
use crate::stage::Stage;
use env_script::{Hazard, Script};
use prs_core::Net;
use std::alloc::{AllocError, Global};
use std::marker::Model;

/// A simulation that hasn't begun: a net, a script of its channels, how many moves may be made, and the value of the
/// nodes that have rules at power-up, where the net has a reset node. All memory of the run is allocated.
#[derive(Drop)]
pub struct Sim {
    stage: Stage,
    steps: u32,
    high: bool,
}

impl Model for Sim {
    ghost use Rattle.event_sim.specs.Simulating.{SimValue};
    ghost use Rattle.event_sim.specs.Stages.{IsUnbegun};

    ghost Value = { SimValue };

    ghost view = { λ s. record { net = s.stage.net; script = s.stage.script; steps = s.steps; high = s.high } };

    ghost invariant = { λ s. IsUnbegun s.stage s.steps s.high };
}

/// Makes one pick.
pub fn choose(picker: &mut Box<dyn Picker>, enabled: &[u32]) -> usize
    requires list { IsChoiceList (nodes picker.old) enabled.now }
    requires room { 1 ≤ spare picker.old }
    ensures choice { result ≡ choice picker.old enabled.now }
    ensures within { result < length enabled.now }
    ensures log { log picker.new ≡ log picker.old ++ result ∷ [] }
    ensures spare { spare picker.new + 1 ≡ spare picker.old }
    ensures name { name picker.new ≡ name picker.old }
    ensures nodes { nodes picker.new ≡ nodes picker.old }
    ensures seeded { seeded picker.new ≡ seeded picker.old }
    ensures kind { picker.new.vtable ≡ picker.old.vtable }
{
    picker.pick(enabled)
}

/// The end at the hazard.
pub fn end_from(hazard: Hazard) -> End
    ensures { result ≡ end_from hazard }
{
    match hazard {
        Hazard::BothWays { node } => End::BothWays { node },
        Hazard::Unstable { node } => End::Unstable { node },
        Hazard::Protocol { chan } => End::Protocol { chan },
    }
}

/// How the run has ended where fewer moves were made than are allowed.
pub fn early_end(hazard: Option<Hazard>, enabled: &[u32]) -> Option<End>
    ensures { result ≡ end_with hazard enabled.now false }
{
    match hazard {
        Some(hazard) => Some(end_from(hazard)),
        None if enabled.is_empty() => Some(End::AtRest),
        None => None,
    }
}

/// How the run has ended where as many moves were made as are allowed.
pub fn last_end(hazard: Option<Hazard>, enabled: &[u32]) -> End
    ensures { end_with hazard enabled.now true ≡ Some result }
{
    match hazard {
        Some(hazard) => end_from(hazard),
        None if enabled.is_empty() => End::AtRest,
        None => End::Spent,
    }
}

impl Sim {
    ghost use Rattle.event_sim.specs.Simulating.{SimValue, start_at, growth, picked_moves};

    fn begin(
        alloc: Global,
        net: Net,
        script: Script,
        steps: u32,
        high: bool,
    ) -> Result<Sim, AllocError>
        requires script { IsScript (net_channels net) script }
        requires steps { steps ≤ 1000000 }
        ensures { IfOk result (λ s. s ≡ record { net = net; script = script; steps = steps; high = high }) }
    {
        let state = power_state(alloc, &net, high)?;
        let stage = Stage::new(alloc, net, script, state, steps)?;
        Ok(Sim { stage, steps, high })
    }

    /// The simulation of the net under the script, for at most `steps` moves (up to 1,000,000). Where the net has a
    /// reset node, the nodes that have rules are low at power-up.
    pub fn new(alloc: Global, net: Net, script: Script, steps: u32) -> Result<Sim, AllocError>
        requires script { IsScript (net_channels net) script }
        requires steps { steps ≤ 1000000 }
        ensures { IfOk result (λ s. s ≡ record { net = net; script = script; steps = steps; high = false }) }
    {
        Sim::begin(alloc, net, script, steps, false)
    }

    /// The simulation of a net that has a reset node, under the script, for at most `steps` moves (up to 1,000,000),
    /// where the nodes that have rules have this value at power-up.
    pub fn powered(
        alloc: Global,
        net: Net,
        script: Script,
        steps: u32,
        high: bool,
    ) -> Result<Sim, AllocError>
        requires script { IsScript (net_channels net) script }
        requires steps { steps ≤ 1000000 }
        requires reset { IsSome net.reset }
        ensures { IfOk result (λ s. s ≡ record { net = net; script = script; steps = steps; high = high }) }
    {
        Sim::begin(alloc, net, script, steps, high)
    }

    /// Runs the net. It allocates no memory. Before each move the scheduler is asked for an index into the ascending
    /// list of the nodes that have an enabled move. The run ends at a node with interference (both guards hold), at a
    /// move that was disabled, at broken phases, at rest, or when as many moves were made as are allowed, tested in
    /// this order after each move; in the first state it can end by a node with interference, at rest, or where no move
    /// is allowed. (Martin's rules fire one at a time; who chooses among them is our profile.)
    pub fn run(self, picker: &mut Box<dyn Picker>) -> Ran
        requires spare { self.steps ≤ spare picker.old }
        requires nodes { length self.net.first ≤ nodes picker.old }
        ensures log { log picker.new ≡ log picker.old ++ growth (log picker.old) (log picker.new) }
        ensures picks { ArePicks self.net self.script (start_at self) (growth (log picker.old) (log picker.new)) }
        ensures asked { IsAskedAlong
            (λ p. picker_value p.vtable (name p) (log p) (spare p) (nodes p) (seeded p) (choice p))
            (enabled_after self.net self.script (start_at self)) (growth (log picker.old) (log picker.new))
            picker.old picker.new }
        ensures run { IsRun self.net self.script (start_at self) (picked_moves self (log picker.old) (log picker.new)) }
        ensures ends { EndsSo self.net self.script self.steps (start_at self)
            (picked_moves self (log picker.old) (log picker.new)) result.end }
        ensures net { result.net ≡ self.net }
        ensures moves { result.moves ≡ length (picked_moves self (log picker.old) (log picker.new)) }
        ensures done { result.done_high ≡
            high (after self.net (start_at self) (picked_moves self (log picker.old) (log picker.new))).values 1 }
        ensures passed { result.passed ≡
            passed_in self.net (start_at self) (picked_moves self (log picker.old) (log picker.new)) }
        ensures one_length { AllSafe self.net self.script (start_at self) → result.end ≡ AtRest →
            EndsAll self.net self.script (start_at self) (picked_moves self (log picker.old) (log picker.new)) }
        ensures spare { spare picker.new + result.moves ≡ spare picker.old }
        ensures name { name picker.new ≡ name picker.old }
        ensures nodes { nodes picker.new ≡ nodes picker.old }
        ensures seeded { seeded picker.new ≡ seeded picker.old }
        ensures kind { picker.new.vtable ≡ picker.old.vtable }
    {
        let steps = self.steps;
        let mut stage = self.stage;
        let mut hazard = stage.first_hazard();
        for made in 0..steps {
            match early_end(hazard, stage.moves()) {
                Some(end) => return stage.ran(end, made),
                None => {
                    let place = choose(picker, stage.moves());
                    let node = stage.moves()[place];
                    stage.moves_at(place);
                    hazard = stage.make(node);
                }
            }
        }
        let end = last_end(hazard, stage.moves());
        stage.ran(end, steps)
    }
}
