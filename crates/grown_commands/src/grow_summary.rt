//! `grow SEED STAGES --sum`: the summary of a program that is made of a number.

ghost use Rattle.std.specs.Prelude.{◌≡◌, ◌+◌, ◌*◌, ◌<◌, ◌≤◌, None, length, map, IfOk, IfErr};
ghost use Rattle.env_script.specs.Environment.{net_channels};
ghost use Rattle.env_script.specs.Scripts.{IsScript};
ghost use Rattle.event_sim.specs.Asking.{picker_value};
ghost use Rattle.grown_programs.specs.Served.{pipeline_channels};
ghost use Rattle.handshake_expand.specs.Layout.{node_count};
ghost use Rattle.net_compose.specs.Carries.{Carries};
ghost use Rattle.net_compose.specs.Translation.{translation};
ghost use Rattle.program_maker.specs.Generated.{generated_text};
ghost use Rattle.width_check.specs.Typed.{program_of as typed_of};
ghost use Rattle.command_words.specs.GrowWords.{IsGrowable};
ghost use Rattle.command_steps.specs.HeldPrograms.{IsProgramOf};
ghost use Rattle.command_steps.specs.Orders.{IsPlayedAt, KeepsOrders, order_state, place_named, played_by};
ghost use Rattle.command_answers.specs.Replies.{Halts, stop_status, told_answer};
ghost use Rattle.simulation_commands.specs.Asked.{IsAskedAt, simulated_enabled};
ghost use Rattle.simulation_commands.specs.Simulating.{SameObjects, StaysUnasked, HasPlayed, simulation_for};
ghost use Rattle.grown_commands.specs.Summing.{AsksSum, AsksSumAt, SumsUp, Summarizes, grown_script, guard_rules, most_of_summed_moves, rule_count, summary_of, summing_order};

use command_answers::{Ending, Output, Refusal, Stop};
use command_steps::{accepted_program, place_of};
use command_words::Growth;
use env_script::{Count, Offer, Script};
use event_sim::{Picker, Ran, Sim};
use grown_programs::grown_served;
use history_report::report_text;
use itoa::Buffer;
use net_compose::{NetError, translate};
use program_maker::{grow_text, grow_values};
use prs_core::{Guard, Net};
use sharing_check::Disjoint;
use simulation_commands::simulate::{Room, play_at};
use std::alloc::{AllocError, Global};

/// The name of the order that chooses the moves.
const ORDER: &str = "lowest";

/// What the order begins with.
const ORDER_SEED: u64 = 0;

/// The most moves.
const MOST_OF_MOVES: u32 = 20_000;

/// The program that is made of these numbers. Its text is accepted.
fn grown_program<'a>(alloc: Global, growth: &Growth) -> Result<Disjoint, Stop<'a>>
    requires { IsGrowable growth.now }
    ensures read { IfOk result (λ program.
        IsProgramOf (generated_text growth.now.seed growth.now.stages) (typed_of program)) }
    ensures few { IfOk result (λ program. node_count (typed_of program) ≤ 20 + 154 * growth.now.stages) }
    ensures wired { IfOk result (λ program. (typed_of program).channels ≡ pipeline_channels growth.now.stages) }
    ensures stopped { IfErr result (λ stop. stop ≡ Stop.NoMemory) }
{
    grown_served();
    width_check::laws::one_fault();
    sharing_check::laws::one_shared_fault();
    match grow_text(alloc, growth.seed, growth.stages) {
        Ok(text) => accepted_program(alloc, &text),
        Err(_) => Err(Stop::NoMemory),
    }
}

/// The net of such a program, which isn't too large.
fn grown_net<'a>(alloc: Global, program: &Disjoint) -> Result<Net, Stop<'a>>
    requires { node_count (typed_of program.now) ≤ 65536 }
    ensures net { IfOk result (λ net. net ≡ translation (typed_of program.now)) }
    ensures carries { IfOk result (λ _. Carries (translation (typed_of program.now)) (typed_of program.now)) }
    ensures stopped { IfErr result (λ stop. stop ≡ Stop.NoMemory) }
{
    match translate(alloc, program) {
        Ok(net) => Ok(net),
        Err(NetError::TooManyNodes(count)) => { Err(Stop::Refused(Refusal::TooManyNodes(count))) }
        Err(NetError::NoMemory(_)) => Err(Stop::NoMemory),
    }
}

/// What the environment does: it sends the four values of the first channel, and receives on the last one.
fn grown_script(alloc: Global, growth: &Growth) -> Result<Script, AllocError>
    requires { IsGrowable growth.now }
    ensures { IfOk result (λ script. script ≡ grown_script growth.now.seed growth.now.stages) }
{
    let values = Vec::from_array(alloc, grow_values(growth.seed, growth.stages))?;
    let mut offers = Vec::new(alloc);
    offers.push(Offer::Values(values))?;
    for _channel in 0..growth.stages - 1 {
        offers.push(Offer::Nothing)?;
    }
    offers.push(Offer::Accept(Count::All))?;
    Ok(Script::new(offers))
}

/// How many rules the guard is: one, where it has terms.
fn guard_rules(guard: &Guard) -> usize
    ensures value { result ≡ guard_rules guard.now }
    ensures most { result ≤ 1 }
{
    if guard.terms().is_empty() { 0 } else { 1 }
}

/// How many rules the net has.
fn rule_count(net: &Net) -> usize
    ensures { result ≡ rule_count net.now }
{
    let mut count = 0;
    for node in 0..net.first().len() as u32 {
        count += guard_rules(net.up(node));
        count += guard_rules(net.down(node));
    }
    count
}

/// The summary of the run: how many nodes and rules its net has, and its report.
fn summary_text(alloc: Global, ran: &Ran) -> Result<Vec<u8>, AllocError>
    ensures { IfOk result (λ text. text.items ≡ summary_of ran.now) }
{
    let net = ran.net();
    let report = report_text(alloc, ran, None)?;
    let mut number = Buffer::new();
    let mut text = Vec::from_slice(alloc, b"nodes ")?;
    text.extend_from_slice(number.format(net.first().len()).as_bytes())?;
    text.extend_from_slice(b"\nrules ")?;
    text.extend_from_slice(number.format(rule_count(net)).as_bytes())?;
    text.extend_from_slice(b"\n")?;
    text.extend_from_slice(&report)?;
    Ok(text)
}

/// Lets the order at this place choose the moves of a run of the net under the script.
fn run_summed(
    alloc: Global,
    orders: &mut Vec<Box<dyn Picker>>,
    place: usize,
    net: Net,
    script: Script,
) -> Result<Ran, AllocError>
    requires place { place < length orders.old.items }
    requires script { IsScript (net_channels net) script }
    ensures led { IfOk result (λ ran. HasPlayed (played_by
        (map (λ order. order_state (name order) (log order) (seeded order)) orders.old.items)
        (map (λ order. order_state (name order) (log order) (seeded order)) orders.new.items))
        place 0 (simulation_for net script most_of_summed_moves None) ran) }
    ensures asked { IfOk result (λ ran. IsAskedAt
        (λ p. picker_value p.vtable (name p) (log p) (spare p) (nodes p) (seeded p) (choice p))
        place (simulated_enabled (simulation_for net script most_of_summed_moves None)) 0
        orders.old.items orders.new.items) }
    ensures played { IsPlayedAt place (played_by
        (map (λ order. order_state (name order) (log order) (seeded order)) orders.old.items)
        (map (λ order. order_state (name order) (log order) (seeded order)) orders.new.items)) }
    ensures objects { SameObjects (Some place) orders.old.items orders.new.items }
{
    let room = Room {
        picks: MOST_OF_MOVES,
        nodes: net.first().len() as u32,
    };
    let sim = Sim::new(alloc, net, script, MOST_OF_MOVES)?;
    play_at(orders, place, sim, ORDER_SEED, room)
}

/// What is answered, where the order at this place is wanted. Only want of memory stops it.
fn sum_up_at<'a>(
    alloc: Global,
    orders: &mut Vec<Box<dyn Picker>>,
    place: usize,
    growth: &Growth,
) -> Result<Output, Stop<'a>>
    requires place { place < length orders.old.items }
    requires growth { IsGrowable growth.now }
    ensures answered { IfOk result (λ output. SumsUp growth.now (played_by
        (map (λ order. order_state (name order) (log order) (seeded order)) orders.old.items)
        (map (λ order. order_state (name order) (log order) (seeded order)) orders.new.items))
        place (told_answer output)) }
    ensures asked { IfOk result (λ output. AsksSumAt
        (λ p. picker_value p.vtable (name p) (log p) (spare p) (nodes p) (seeded p) (choice p))
        growth.now place orders.old.items orders.new.items) }
    ensures stopped { IfErr result (λ stop. stop ≡ Stop.NoMemory) }
    ensures played { IsPlayedAt place (played_by
        (map (λ order. order_state (name order) (log order) (seeded order)) orders.old.items)
        (map (λ order. order_state (name order) (log order) (seeded order)) orders.new.items)) }
    ensures objects { SameObjects (Some place) orders.old.items orders.new.items }
{
    let program = grown_program(alloc, growth)?;
    let net = grown_net(alloc, &program)?;
    let script = match grown_script(alloc, growth) {
        Ok(script) => script,
        Err(_) => return Err(Stop::NoMemory),
    };
    let ran = match run_summed(alloc, orders, place, net, script) {
        Ok(ran) => ran,
        Err(_) => return Err(Stop::NoMemory),
    };
    match summary_text(alloc, &ran) {
        Ok(text) => Ok(Output {
            text,
            end: Ending::Done,
        }),
        Err(_) => Err(Stop::NoMemory),
    }
}

/// What `grow` answers, where a summary is wanted.
pub fn sum_up<'a>(
    alloc: Global,
    orders: &mut Vec<Box<dyn Picker>>,
    growth: &Growth,
) -> Result<Output, Stop<'a>>
    requires { IsGrowable growth.now }
    ensures answered { IfOk result (λ output. Summarizes growth.now (played_by
        (map (λ order. order_state (name order) (log order) (seeded order)) orders.old.items)
        (map (λ order. order_state (name order) (log order) (seeded order)) orders.new.items))
        (told_answer output)) }
    ensures asked { IfOk result (λ output. AsksSum
        (λ p. picker_value p.vtable (name p) (log p) (spare p) (nodes p) (seeded p) (choice p))
        growth.now orders.old.items orders.new.items) }
    ensures stopped { IfErr result (Halts (Summarizes growth.now (played_by
        (map (λ order. order_state (name order) (log order) (seeded order)) orders.old.items)
        (map (λ order. order_state (name order) (log order) (seeded order)) orders.new.items)))) }
    ensures orders { let before = map (λ order. order_state (name order) (log order) (seeded order))
        orders.old.items in
        KeepsOrders (place_named before summing_order) (played_by before
        (map (λ order. order_state (name order) (log order) (seeded order)) orders.new.items)) }
    ensures objects { SameObjects (place_named
        (map (λ order. order_state (name order) (log order) (seeded order)) orders.old.items) summing_order)
        orders.old.items orders.new.items }
    ensures unasked { IfErr result (λ stop. StaysUnasked (stop_status stop) orders.old orders.new) }
{
    match place_of(orders, ORDER) {
        Some(place) => sum_up_at(alloc, orders, place, growth),
        None => Err(Stop::Refused(Refusal::NoOrder(ORDER))),
    }
}
