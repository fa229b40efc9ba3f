//! Simulations by each scheduler, and plain runs by the choices of those that go by age.

ghost use Rattle.std.specs.Prelude.{◌≤◌, ◌<◌, length, IfSome};
ghost use Rattle.env_script.specs.Environment.{net_channels};
ghost use Rattle.env_script.specs.Scripts.{IsScript};

use crate::bench::NetBench;
use crate::runs::{Given, begun, read};
use case_text::Page;
use event_sim::{Lowest, Newest, Oldest, Picker, Ran, Random, Sim};
use plain_runs::Run;
use std::alloc::Global;

/// Since when a node has been enabled that isn't.
const NEVER: usize = usize::MAX;

/// A simulation that has ended, with what passed channel by channel, and the indices that its scheduler chose.
#[derive(Drop)]
struct Simulated {
    ran: Box<Ran>,
    passed: Vec<(u32, u64)>,
    picks: Vec<usize>,
}

/// What passed, channel by channel.
fn by_channel(alloc: Global, ran: &Ran, page: &mut Page) -> Vec<(u32, u64)> {
    let mut passed = page.copied(alloc, ran.passed());
    page.note(passed.sort_by_key(|value| value.0));
    passed
}

/// The simulation that so ended, by these choices.
fn ended(alloc: Global, ran: Box<Ran>, picks: &[usize], page: &mut Page) -> Simulated {
    Simulated {
        passed: by_channel(alloc, &ran, page),
        picks: page.copied(alloc, picks),
        ran,
    }
}

/// The run of the net under the script by the scheduler.
fn go(
    alloc: Global,
    given: Box<Given>,
    seed: u64,
    steps: u32,
    picker: &mut Box<dyn Picker>,
    page: &mut Page,
) -> Option<Box<Ran>>
    requires script { IsScript (net_channels given.value.net) given.value.script }
    requires steps { steps ≤ 1000000 }
{
    let nodes = given.net.first().len() as u32;
    picker.seed(seed);
    if picker.make_room(steps, nodes).is_err() {
        page.give_up();
        return None;
    }
    let Given { net, script } = Box::into_inner(given);
    let sim = page.taken(Sim::new(alloc, net, script, steps))?;
    page.taken(Box::new(alloc, sim.run(picker)))
}

/// The simulation by the scheduler, or None where a text is refused, or memory runs out.
fn simulate(
    alloc: Global,
    bench: &NetBench,
    seed: u64,
    steps: u32,
    picker: &mut Box<dyn Picker>,
    page: &mut Page,
) -> Option<Box<Ran>>
    requires { steps ≤ 1000000 }
{
    match read(alloc, bench, page) {
        Some(given) => go(alloc, given, seed, steps, picker, page),
        None => None,
    }
}

/// Notes of each node since which list of enabled nodes it has been in all of them. The last one is of this number.
fn note_list(since: &mut [usize], enabled: &[bool], number: usize) {
    for (since, is_enabled) in since.iter_mut().zip(enabled) {
        if !*is_enabled {
            *since = NEVER;
        } else if *since == NEVER {
            *since = number;
        }
    }
}

/// The enabled node at this index of the list of these, the least first.
fn listed(enabled: &[bool], place: usize) -> Option<usize>
    ensures { IfSome result (λ node. node < length enabled.now) }
{
    let mut left = place;
    for (node, is_enabled) in enabled.iter().enumerate() {
        if *is_enabled {
            if left == 0 {
                return Some(node);
            }
            left -= 1;
        }
    }
    None
}

/// Whether the node is the least one of those that have waited longest, or shortest.
fn is_first(since: &[usize], node: usize, longest: bool) -> bool {
    let Some(own) = since.get(node) else {
        return false;
    };
    for (other, time) in since.iter().enumerate() {
        let is_before = if longest { time < own } else { time > own };
        if *time != NEVER && (is_before || (time == own && other < node)) {
            return false;
        }
    }
    true
}

/// Makes the move of the node at this index of the list of this number. Says whether that was the first node of those
/// that have waited longest, or shortest, and the move brought no hazard.
#[tactic(auto, using(crate::proofs::ScriptChannels::counted))]
fn step(
    alloc: Global,
    run: &mut Run,
    since: &mut [usize],
    number: usize,
    place: usize,
    longest: bool,
    page: &mut Page,
) -> bool {
    let Some(enabled) = page.taken(run.enabled_nodes(alloc)) else {
        return false;
    };
    note_list(since, &enabled, number);
    let Some(node) = listed(&enabled, place) else {
        return false;
    };
    match u32::try_from(node) {
        Ok(moved) => {
            is_first(since, node, longest)
                && matches!(page.taken(run.make(alloc, moved)), Some(None))
        }
        Err(_) => false,
    }
}

/// Whether each of these choices is the first node of those that have waited longest, or shortest, in a run without a
/// hazard of a net of so many nodes.
fn follows(
    alloc: Global,
    run: &mut Run,
    nodes: usize,
    picks: &[usize],
    longest: bool,
    page: &mut Page,
) -> bool {
    let Some(mut since) = page.taken(vec![in alloc; NEVER; nodes]) else {
        return false;
    };
    for (number, place) in picks.iter().enumerate() {
        if !step(alloc, run, &mut since, number, *place, longest, page) {
            return false;
        }
    }
    true
}

/// The same of a run of the case's net under its script.
fn go_by_age(
    alloc: Global,
    bench: &NetBench,
    picks: &[usize],
    longest: bool,
    page: &mut Page,
) -> bool {
    let Some(given) = read(alloc, bench, page) else {
        return false;
    };
    let nodes = given.net.first().len();
    match begun(alloc, given, page) {
        Some(mut run) => follows(alloc, &mut run, nodes, picks, longest, page),
        None => false,
    }
}

fn put_so(page: &mut Page, text: &str, is_so: bool) {
    page.put(text);
    page.put(if is_so { "true" } else { "false" });
}

/// Prints how many choices this order made, whether each was the oldest node and whether each was the newest one, and
/// whether it chooses the same again.
fn put_picks(
    alloc: Global,
    bench: &NetBench,
    order: &str,
    picks: &[usize],
    again: &[usize],
    page: &mut Page,
) {
    page.put(order);
    page.put(":");
    page.numbers(&[picks.len() as u64]);
    let is_oldest = go_by_age(alloc, bench, picks, true, page);
    put_so(page, " picks, oldest ", is_oldest);
    let is_newest = go_by_age(alloc, bench, picks, false, page);
    put_so(page, ", newest ", is_newest);
    put_so(page, ", the same again ", picks == again);
    page.put("\n");
}

/// Simulates by this order, with a seed and for so many moves at most, and then once more, and tells what it chose. The
/// first simulation, or None where a text is refused, or memory runs out.
fn simulate_twice(
    alloc: Global,
    bench: &NetBench,
    seed: u64,
    steps: u32,
    picker: &mut Box<dyn Picker>,
    page: &mut Page,
) -> Option<Simulated>
    requires { steps ≤ 1000000 }
{
    let begin = picker.log().len();
    let ran = simulate(alloc, bench, seed, steps, picker, page)?;
    let end = picker.log().len();
    if simulate(alloc, bench, seed, steps, picker, page).is_none() {
        return None;
    }
    let picks = picker.log().get(begin..end).unwrap_or(&[]);
    let again = picker.log().get(end..).unwrap_or(&[]);
    put_picks(alloc, bench, picker.name(), picks, again, page);
    Some(ended(alloc, ran, picks, page))
}

/// Whether each of these has the same result as this one, and whether none of them was by the same choices.
fn compared(earlier: &[Simulated], run: &Simulated) -> (bool, bool) {
    let (mut agree, mut differ) = (true, true);
    for other in earlier {
        agree = agree
            && other.ran.end() == run.ran.end()
            && other.ran.moves() == run.ran.moves()
            && other.ran.done_high() == run.ran.done_high()
            && other.passed == run.passed;
        differ = differ && other.picks != run.picks;
    }
    (agree, differ)
}

/// Simulates by each of these orders, with a seed and for so many moves at most, and tells of each what it chose; then
/// whether all results are the same, and whether all choices differ.
fn compare(
    alloc: Global,
    bench: &NetBench,
    seed: u64,
    steps: u32,
    pickers: &mut Vec<Box<dyn Picker>>,
    page: &mut Page,
) -> bool
    requires { steps ≤ 1000000 }
{
    let mut earlier: Vec<Simulated> = Vec::new(alloc);
    let (mut agree, mut differ) = (true, true);
    for picker in pickers.iter_mut() {
        let Some(run) = simulate_twice(alloc, bench, seed, steps, picker, page) else {
            return false;
        };
        let (agrees, differs) = compared(&earlier, &run);
        agree = agree && agrees;
        differ = differ && differs;
        page.note(earlier.push(run));
    }
    put_so(page, "all agree ", agree);
    put_so(page, ", all picks differ ", differ);
    page.put("\n");
    true
}

/// The same of the four schedulers.
fn compare_four(alloc: Global, bench: &NetBench, seed: u64, steps: u32, page: &mut Page) -> bool
    requires { steps ≤ 1000000 }
{
    let mut pickers: Vec<Box<dyn Picker>> = Vec::new(alloc);
    if let Some(lowest) = page.taken(Box::new(alloc, Lowest::new(alloc))) {
        page.note(pickers.push(lowest));
    }
    if let Some(oldest) = page.taken(Box::new(alloc, Oldest::new(alloc))) {
        page.note(pickers.push(oldest));
    }
    if let Some(newest) = page.taken(Box::new(alloc, Newest::new(alloc))) {
        page.note(pickers.push(newest));
    }
    if let Some(random) = page.taken(Box::new(alloc, Random::new(alloc))) {
        page.note(pickers.push(random));
    }
    compare(alloc, bench, seed, steps, &mut pickers, page)
}

/// Compares the four schedulers, where the line gives a seed and the most moves.
pub fn orders(alloc: Global, bench: &NetBench, line: &str, page: &mut Page) -> bool {
    let (seed, steps) = line.split_once(' ').unwrap_or((line, ""));
    match (seed.parse::<u64>(), steps.parse::<u32>()) {
        (Ok(seed), Ok(steps)) if steps <= 1_000_000 => {
            compare_four(alloc, bench, seed, steps, page)
        }
        _ => false,
    }
}
