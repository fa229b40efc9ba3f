//! `simulate PRS SCRIPT`: one run of a net under a script, whose moves a handed-in order chooses.

ghost use Rattle.std.specs.Prelude.{◌≡◌, ◌<◌, ◌≤◌, ◌∷◌, ◌++◌, false, length, map, IfOk, IfErr, OnOk, None, Some, option_map, option_to_list};
ghost use Rattle.env_script.specs.Environment.{net_channels};
ghost use Rattle.env_script.specs.Scripts.{IsScript};
ghost use Rattle.event_sim.specs.Asking.{picker_value};
ghost use Rattle.event_sim.specs.Simulating.{growth};
ghost use Rattle.command_answers.specs.Answers.{given_by};
ghost use Rattle.command_words.specs.CommandWords.{run_asked};
ghost use Rattle.command_steps.specs.Orders.{IsPlayedAt, KeepsOrders, order_state, place_named, played_by};
ghost use Rattle.command_answers.specs.Replies.{Stops, stop_status, told_answer};
ghost use Rattle.simulation_commands.specs.Asked.{AsksAt, AsksOrder, IsAskedAt, IsAskedThrough, simulated_enabled};
ghost use Rattle.run_reports.specs.RunReporting.{IsReported};
ghost use Rattle.command_steps.specs.RunSteps.{lacks_reset};
ghost use Rattle.simulation_commands.specs.Simulating.{SameObjects, StaysUnasked, HasPlayed, IsPlayed, Simulates, SimulatesAt, SimulatesNet, ran_value, simulation_for};
ghost use Rattle.command_words.specs.SimulateWords.{text_given};
ghost use Rattle.width_check.specs.Typed.{program_of as typed_of};

use chp_edge::Shelf;
use command_answers::{Output, Refusal, Stop};
use command_steps::{net_in, net_script_in, place_of, reference_in};
use command_words::Simulation;
use env_script::Script;
use event_sim::{Picker, Ran, Sim};
use prs_core::Net;
use run_reports::{copied_script, reported};
use sharing_check::Disjoint;
use std::alloc::{AllocError, Global};

/// Whether a power is asked for, and the net has no reset node.
pub(crate) fn is_powerless(net: &Net, power: Option<bool>) -> bool
    ensures { result ≡ lacks_reset power net.now.reset }
{
    power.is_some() && net.reset().is_none()
}

/// The simulation of the net under the script, for so many moves at most. A power asks for a net with a reset node.
fn simulation(
    alloc: Global,
    net: Net,
    script: Script,
    steps: u32,
    power: Option<bool>,
) -> Result<Sim, AllocError>
    requires script { IsScript (net_channels net) script }
    requires steps { steps ≤ 1000000 }
    requires power { lacks_reset power net.reset ≡ false }
    ensures { IfOk result (λ s. s ≡ simulation_for net script steps power) }
{
    match power {
        None => Sim::new(alloc, net, script, steps),
        Some(high) => Sim::powered(alloc, net, script, steps, high),
    }
}

/// The room that a run takes: for so many choices, from lists of nodes below this number.
#[derive(Clone, Copy)]
pub struct Room {
    pub picks: u32,
    pub nodes: u32,
}

/// Gives the order its seed, and then its room.
pub fn prepare(picker: &mut Box<dyn Picker>, seed: u64, room: Room) -> Result<(), AllocError>
    ensures seeded { seeded picker.new ≡ Some (seed, length (log picker.old)) }
    ensures name { name picker.new ≡ name picker.old }
    ensures log { log picker.new ≡ log picker.old }
    ensures picks { OnOk result (room.picks ≤ spare picker.new) }
    ensures wide { OnOk result (room.nodes ≤ nodes picker.new) }
    ensures kind { picker.new.vtable ≡ picker.old.vtable }
{
    picker.seed(seed);
    picker.make_room(room.picks, room.nodes)
}

/// Lets the order choose the moves of a run.
fn play(picker: &mut Box<dyn Picker>, sim: Sim, seed: u64, room: Room) -> Result<Ran, AllocError>
    requires steps { sim.steps ≤ room.picks }
    requires nodes { length sim.net.first ≤ room.nodes }
    ensures played { IfOk result (λ ran.
        IsPlayed sim seed (order_state (name picker.old) (log picker.old) (seeded picker.old))
        (order_state (name picker.new) (log picker.new) (seeded picker.new)) ran.end) }
    ensures led { IfOk result (λ ran. ran ≡ ran_value sim (log picker.old) (log picker.new) ran.end) }
    ensures asked { IfOk result (λ ran. IsAskedThrough
        (λ p. picker_value p.vtable (name p) (log p) (spare p) (nodes p) (seeded p) (choice p))
        (simulated_enabled sim) seed picker.old picker.new) }
    ensures name { name picker.new ≡ name picker.old }
    ensures grown { log picker.new ≡ log picker.old ++ growth (log picker.old) (log picker.new) }
    ensures kind { picker.new.vtable ≡ picker.old.vtable }
{
    prepare(picker, seed, room)?;
    Ok(sim.run(picker))
}

/// Lets the order at this index choose the moves of a run.
pub fn play_at(
    orders: &mut Vec<Box<dyn Picker>>,
    place: usize,
    sim: Sim,
    seed: u64,
    room: Room,
) -> Result<Ran, AllocError>
    requires place { place < length orders.old.items }
    requires steps { sim.steps ≤ room.picks }
    requires nodes { length sim.net.first ≤ room.nodes }
    ensures led { IfOk result (λ ran. HasPlayed (played_by
        (map (λ order. order_state (name order) (log order) (seeded order)) orders.old.items)
        (map (λ order. order_state (name order) (log order) (seeded order)) orders.new.items))
        place seed sim ran) }
    ensures asked { IfOk result (λ ran. IsAskedAt
        (λ p. picker_value p.vtable (name p) (log p) (spare p) (nodes p) (seeded p) (choice p))
        place (simulated_enabled sim) seed orders.old.items orders.new.items) }
    ensures played { IsPlayedAt place (played_by
        (map (λ order. order_state (name order) (log order) (seeded order)) orders.old.items)
        (map (λ order. order_state (name order) (log order) (seeded order)) orders.new.items)) }
    ensures objects { SameObjects (Some place) orders.old.items orders.new.items }
{
    play(&mut orders[place], sim, seed, room)
}

/// Lets the order at this index choose the moves of the run of the net under the script, and reports it.
fn report_at(
    alloc: Global,
    orders: &mut Vec<Box<dyn Picker>>,
    place: usize,
    net: Net,
    script: Script,
    program: &Option<Disjoint>,
    run: &Simulation,
) -> Result<Output, AllocError>
    requires place { place < length orders.old.items }
    requires script { IsScript (net_channels net) script }
    requires steps { run.now.steps ≤ 1000000 }
    requires power { lacks_reset run.now.power net.reset ≡ false }
    ensures answered { IfOk result (λ output. SimulatesNet (played_by
        (map (λ order. order_state (name order) (log order) (seeded order)) orders.old.items)
        (map (λ order. order_state (name order) (log order) (seeded order)) orders.new.items))
        place run.now.seed (simulation_for net script run.now.steps run.now.power)
        (λ ran. IsReported script None ran (option_map typed_of program.now)) (told_answer output)) }
    ensures asked { IfOk result (λ output. IsAskedAt
        (λ p. picker_value p.vtable (name p) (log p) (spare p) (nodes p) (seeded p) (choice p))
        place (simulated_enabled (simulation_for net script run.now.steps run.now.power)) run.now.seed
        orders.old.items orders.new.items) }
    ensures played { IsPlayedAt place (played_by
        (map (λ order. order_state (name order) (log order) (seeded order)) orders.old.items)
        (map (λ order. order_state (name order) (log order) (seeded order)) orders.new.items)) }
    ensures objects { SameObjects (Some place) orders.old.items orders.new.items }
{
    let room = Room {
        picks: run.steps,
        nodes: net.first().len() as u32,
    };
    let told = copied_script(alloc, &script)?;
    let sim = simulation(alloc, net, script, run.steps, run.power)?;
    let ran = play_at(orders, place, sim, run.seed, room)?;
    reported(alloc, &ran, None, &told, program)
}

/// What `simulate` answers, where the order at this index is asked for.
fn simulate_at<'a, S: Shelf>(
    alloc: Global,
    shelf: &mut S,
    orders: &mut Vec<Box<dyn Picker>>,
    place: usize,
    run: &Simulation<'a>,
) -> Result<Output, Stop<'a>>
    requires place { place < length orders.old.items }
    requires steps { run.now.steps ≤ 1000000 }
    ensures answered { IfOk result (λ output. SimulatesAt (run_asked run.now)
        (given_by (S.tells shelf.old) (S.holds shelf.old)) (played_by
        (map (λ order. order_state (name order) (log order) (seeded order)) orders.old.items)
        (map (λ order. order_state (name order) (log order) (seeded order)) orders.new.items))
        place (told_answer output)) }
    ensures asked { IfOk result (λ output. AsksAt
        (λ p. picker_value p.vtable (name p) (log p) (spare p) (nodes p) (seeded p) (choice p))
        (run_asked run.now) (given_by (S.tells shelf.old) (S.holds shelf.old)) place
        orders.old.items orders.new.items) }
    ensures stopped { IfErr result (Stops (SimulatesAt (run_asked run.now)
        (given_by (S.tells shelf.old) (S.holds shelf.old)) (played_by
        (map (λ order. order_state (name order) (log order) (seeded order)) orders.old.items)
        (map (λ order. order_state (name order) (log order) (seeded order)) orders.new.items)) place)
        (run.now.net.now ∷ run.now.script.now ∷ option_to_list (text_given run.now.against))
        (given_by (S.tells shelf.old) (S.holds shelf.old))
        (S.faults shelf.old) (S.faults shelf.new)) }
    ensures played { IsPlayedAt place (played_by
        (map (λ order. order_state (name order) (log order) (seeded order)) orders.old.items)
        (map (λ order. order_state (name order) (log order) (seeded order)) orders.new.items)) }
    ensures objects { SameObjects (Some place) orders.old.items orders.new.items }
    ensures unasked { IfErr result (λ stop. StaysUnasked (stop_status stop) orders.old orders.new) }
    ensures same { S.tells shelf.new ≡ S.tells shelf.old }
    ensures kept { S.holds shelf.new ≡ S.holds shelf.old }
    ensures faults { S.faults shelf.old ≤ S.faults shelf.new }
{
    let net = net_in(alloc, shelf, run.net)?;
    if is_powerless(&net, run.power) {
        return Err(Stop::Refused(Refusal::NoReset));
    }
    let script = net_script_in(alloc, shelf, run.script, &net)?;
    let program = reference_in(alloc, shelf, run.against)?;
    match report_at(alloc, orders, place, net, script, &program, run) {
        Ok(output) => Ok(output),
        Err(_) => Err(Stop::NoMemory),
    }
}

/// What `simulate` answers.
pub fn simulate<'a, S: Shelf>(
    alloc: Global,
    shelf: &mut S,
    orders: &mut Vec<Box<dyn Picker>>,
    run: &Simulation<'a>,
) -> Result<Output, Stop<'a>>
    requires { run.now.steps ≤ 1000000 }
    ensures answered { IfOk result (λ output. Simulates (run_asked run.now)
        (given_by (S.tells shelf.old) (S.holds shelf.old)) (played_by
        (map (λ order. order_state (name order) (log order) (seeded order)) orders.old.items)
        (map (λ order. order_state (name order) (log order) (seeded order)) orders.new.items))
        (told_answer output)) }
    ensures asked { IfOk result (λ output. AsksOrder
        (λ p. picker_value p.vtable (name p) (log p) (spare p) (nodes p) (seeded p) (choice p))
        (run_asked run.now) (given_by (S.tells shelf.old) (S.holds shelf.old))
        orders.old.items orders.new.items) }
    ensures stopped { IfErr result (Stops (Simulates (run_asked run.now)
        (given_by (S.tells shelf.old) (S.holds shelf.old)) (played_by
        (map (λ order. order_state (name order) (log order) (seeded order)) orders.old.items)
        (map (λ order. order_state (name order) (log order) (seeded order)) orders.new.items)))
        (run.now.net.now ∷ run.now.script.now ∷ option_to_list (text_given run.now.against))
        (given_by (S.tells shelf.old) (S.holds shelf.old))
        (S.faults shelf.old) (S.faults shelf.new)) }
    ensures orders { let before = map (λ order. order_state (name order) (log order) (seeded order))
        orders.old.items in
        KeepsOrders (place_named before run.now.order.now) (played_by before
        (map (λ order. order_state (name order) (log order) (seeded order)) orders.new.items)) }
    ensures objects { SameObjects (place_named
        (map (λ order. order_state (name order) (log order) (seeded order)) orders.old.items) run.now.order.now)
        orders.old.items orders.new.items }
    ensures unasked { IfErr result (λ stop. StaysUnasked (stop_status stop) orders.old orders.new) }
    ensures same { S.tells shelf.new ≡ S.tells shelf.old }
    ensures kept { S.holds shelf.new ≡ S.holds shelf.old }
    ensures faults { S.faults shelf.old ≤ S.faults shelf.new }
{
    match place_of(orders, run.order) {
        Some(place) => simulate_at(alloc, shelf, orders, place, run),
        None => Err(Stop::Refused(Refusal::NoOrder(run.order))),
    }
}
