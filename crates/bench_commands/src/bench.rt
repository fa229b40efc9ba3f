//! `bench PRS --peer NAME`: one run of a net against a handed-in device, whose moves a handed-in order chooses.

ghost use Rattle.std.specs.Prelude.{◌≡◌, ◌+◌, ◌*◌, ◌<◌, ◌≤◌, ◌∷◌, ◌++◌, [], length, map, slice_get, IfOk, IfErr, IfSome, OnOk, Some};
ghost use Rattle.command_answers.specs.Answers.{given_by};
ghost use Rattle.command_answers.specs.Replies.{Stops, stop_status, told_answer};
ghost use Rattle.command_steps.specs.Orders.{place_named};
ghost use Rattle.command_words.specs.BenchWords.{bench_asked};
ghost use Rattle.event_sim.specs.Asking.{IsAskedAlong};
ghost use Rattle.event_sim.specs.Simulating.{growth};
ghost use Rattle.peer_bench.specs.Benches.{external_channels};
ghost use Rattle.bench_commands.specs.Asked.{AsksBench, AsksBenchAt, WithNotesOf};
ghost use Rattle.bench_commands.specs.Boxes.{order_seen, peer_seen, picker_seen};
ghost use Rattle.bench_commands.specs.HandedIn.{StayHandedIn, handed_over};
ghost use Rattle.bench_commands.specs.OnBench.{AgainstPeer, Benches, BenchesAt, BenchesNet, setup_for};
ghost use Rattle.bench_commands.specs.Peers.{KeepsPeers, peer_named, peered_over};
ghost use Rattle.bench_commands.specs.PreparedRuns.{RunsAgainst};
ghost use Rattle.simulation_commands.specs.Asked.{IsAskedAt, IsAskedThrough};
ghost use Rattle.simulation_commands.specs.Simulating.{SameObjects, StaysUnasked};

use crate::peer_places::place_of_peer;
use chp_edge::Shelf;
use command_answers::{Output, Refusal, Stop};
use command_steps::{net_in, place_of};
use command_words::Benching;
use event_sim::Picker;
use peer_bench::{Bench, Peer};
use prs_core::Net;
use run_reports::uncompared;
use simulation_commands::simulate::{Room, prepare};
use std::alloc::{AllocError, Global};
use std::mem;

/// For how many notes a run of the net needs room: two for each move, one for each channel, and one more.
fn notes_for(net: &Net, steps: u32) -> u32
    requires { steps ≤ 1000000 }
    ensures { 2 * steps + 1 + external_channels net.now ≤ result }
{
    2 * steps + 1 + net.channels().len() as u32
}

/// Gives the device room for so many notes.
fn make_ready(peer: &mut Box<dyn Peer>, notes: u32) -> Result<(), AllocError>
    ensures name { name peer.new ≡ name peer.old }
    ensures log { log peer.new ≡ log peer.old }
    ensures due { due peer.new ≡ due peer.old }
    ensures willing { willing peer.new ≡ willing peer.old }
    ensures room { OnOk result (notes ≤ spare peer.new) }
    ensures kind { peer.new.vtable ≡ peer.old.vtable }
{
    peer.make_room(notes)
}

/// Runs the net against the device at this place, by the order's choices, and reports the run. Both have room for it.
/// The devices are taken for the run, and given back after it.
fn report_on(
    alloc: Global,
    picker: &mut Box<dyn Picker>,
    peers: &mut Vec<Box<dyn Peer>>,
    which: usize,
    net: Net,
    steps: u32,
) -> Result<Output, AllocError>
    requires which { which < length peers.old.items }
    requires steps { steps ≤ 1000000 }
    requires spare { steps ≤ (⟦<dyn Picker as Picker>⟧ picker.old.vtable).spare picker.old.value }
    requires nodes { length net.first ≤ nodes picker.old }
    requires room { IfSome (slice_get peers.old.items which) (λ p. 2 * steps + 1 + external_channels net ≤
        (⟦<dyn Peer as Peer>⟧ p.vtable).spare p.value) }
    ensures answered { IfOk result (λ output. RunsAgainst (setup_for net steps)
        (order_seen Picker-box picker.old).log
        (order_seen Picker-box picker.new).log (peered_over (peer_seen Peer-box) peers.old.items peers.new.items)
        which (told_answer output)) }
    ensures asked { IfOk result (λ output. WithNotesOf net (peered_over (peer_seen Peer-box) peers.old.items
        peers.new.items) which (λ enabled. IsAskedAlong (picker_seen Picker-box) enabled
        (growth (picker_seen Picker-box picker.old).log (picker_seen Picker-box picker.new).log)
        picker.old picker.new)) }
    ensures name { (order_seen Picker-box picker.new).name ≡
        (order_seen Picker-box picker.old).name }
    ensures grown { (order_seen Picker-box picker.new).log ≡ (order_seen Picker-box picker.old).log
        ++ growth (order_seen Picker-box picker.old).log (order_seen Picker-box picker.new).log }
    ensures kind { picker.new.vtable ≡ picker.old.vtable }
    ensures seeded { seeded picker.new ≡ seeded picker.old }
    ensures peers { KeepsPeers (Some which) (peered_over (peer_seen Peer-box) peers.old.items peers.new.items) }
    ensures peer_objects { SameObjects (Some which) peers.old.items peers.new.items }
{
    let taken = mem::replace(peers, Vec::new(alloc));
    let bench = match Bench::new(alloc, net, taken, which, steps) {
        Ok(bench) => bench,
        Err((error, given_back)) => {
            *peers = given_back;
            return Err(error);
        }
    };
    let benched = bench.run(picker);
    let output = uncompared(alloc, benched.ran(), None);
    *peers = benched.into_peers();
    output
}

/// Gives the order its seed and both their room, and then runs the net against the device at this place.
fn bench_with(
    alloc: Global,
    picker: &mut Box<dyn Picker>,
    peers: &mut Vec<Box<dyn Peer>>,
    which: usize,
    net: Net,
    asked: &Benching,
) -> Result<Output, AllocError>
    requires which { which < length peers.old.items }
    requires steps { asked.now.steps ≤ 1000000 }
    ensures answered { IfOk result (λ output. AgainstPeer (setup_for net asked.now.steps) asked.now.seed
        (order_seen Picker-box picker.old)
        (order_seen Picker-box picker.new) (peered_over (peer_seen Peer-box) peers.old.items peers.new.items)
        which (told_answer output)) }
    ensures asked { IfOk result (λ output. WithNotesOf net (peered_over (peer_seen Peer-box) peers.old.items
        peers.new.items) which (λ enabled. IsAskedThrough (picker_seen Picker-box) enabled asked.now.seed
        picker.old picker.new)) }
    ensures name { (order_seen Picker-box picker.new).name ≡
        (order_seen Picker-box picker.old).name }
    ensures grown { (order_seen Picker-box picker.new).log ≡ (order_seen Picker-box picker.old).log
        ++ growth (order_seen Picker-box picker.old).log (order_seen Picker-box picker.new).log }
    ensures kind { picker.new.vtable ≡ picker.old.vtable }
    ensures peers { KeepsPeers (Some which) (peered_over (peer_seen Peer-box) peers.old.items peers.new.items) }
    ensures peer_objects { SameObjects (Some which) peers.old.items peers.new.items }
{
    let room = Room {
        picks: asked.steps,
        nodes: net.first().len() as u32,
    };
    let notes = notes_for(&net, asked.steps);
    prepare(picker, asked.seed, room)?;
    make_ready(&mut peers[which], notes)?;
    report_on(alloc, picker, peers, which, net, asked.steps)
}

/// The same, for the order at this place.
fn bench_net(
    alloc: Global,
    orders: &mut Vec<Box<dyn Picker>>,
    place: usize,
    peers: &mut Vec<Box<dyn Peer>>,
    which: usize,
    net: Net,
    asked: &Benching,
) -> Result<Output, AllocError>
    requires place { place < length orders.old.items }
    requires which { which < length peers.old.items }
    requires steps { asked.now.steps ≤ 1000000 }
    ensures answered { IfOk result (λ output. BenchesNet (handed_over (order_seen Picker-box) (peer_seen Peer-box)
        orders.old.items orders.new.items peers.old.items peers.new.items)
        place which asked.now.seed (setup_for net asked.now.steps) (told_answer output)) }
    ensures asked { IfOk result (λ output. WithNotesOf net (peered_over (peer_seen Peer-box) peers.old.items
        peers.new.items) which (λ enabled. IsAskedAt (picker_seen Picker-box) place enabled asked.now.seed
        orders.old.items orders.new.items)) }
    ensures stay { StayHandedIn (order_seen Picker-box) (peer_seen Peer-box)
        (Some place) (Some which)
        orders.old.items orders.new.items peers.old.items peers.new.items }
{
    bench_with(alloc, &mut orders[place], peers, which, net, asked)
}

/// What `bench` answers, where the order and the device at these places are wanted.
fn bench_at<'a, S: Shelf>(
    alloc: Global,
    shelf: &mut S,
    orders: &mut Vec<Box<dyn Picker>>,
    place: usize,
    peers: &mut Vec<Box<dyn Peer>>,
    which: usize,
    asked: &Benching<'a>,
) -> Result<Output, Stop<'a>>
    requires place { place < length orders.old.items }
    requires which { which < length peers.old.items }
    requires steps { asked.now.steps ≤ 1000000 }
    ensures answered { IfOk result (λ output. BenchesAt (bench_asked asked.now)
        (given_by (S.tells shelf.old) (S.holds shelf.old)) (handed_over (order_seen Picker-box) (peer_seen Peer-box)
        orders.old.items orders.new.items peers.old.items peers.new.items)
        place which (told_answer output)) }
    ensures asked { IfOk result (λ output. AsksBenchAt (picker_seen Picker-box) (peer_seen Peer-box)
        (bench_asked asked.now) (given_by (S.tells shelf.old) (S.holds shelf.old)) place which
        orders.old.items orders.new.items peers.old.items peers.new.items) }
    ensures stopped { IfErr result (Stops (BenchesAt (bench_asked asked.now)
        (given_by (S.tells shelf.old) (S.holds shelf.old)) (handed_over (order_seen Picker-box) (peer_seen Peer-box)
        orders.old.items orders.new.items peers.old.items peers.new.items) place which)
        (asked.now.net.now ∷ []) (given_by (S.tells shelf.old) (S.holds shelf.old))
        (S.faults shelf.old) (S.faults shelf.new)) }
    ensures stay { StayHandedIn (order_seen Picker-box) (peer_seen Peer-box)
        (Some place) (Some which)
        orders.old.items orders.new.items peers.old.items peers.new.items }
    ensures unasked { IfErr result (λ stop. StaysUnasked (stop_status stop) orders.old orders.new
        × StaysUnasked (stop_status stop) peers.old peers.new) }
    ensures same { S.tells shelf.new ≡ S.tells shelf.old }
    ensures kept { S.holds shelf.new ≡ S.holds shelf.old }
    ensures faults { S.faults shelf.old ≤ S.faults shelf.new }
{
    let net = net_in(alloc, shelf, asked.net)?;
    match bench_net(alloc, orders, place, peers, which, net, asked) {
        Ok(output) => Ok(output),
        Err(_) => Err(Stop::NoMemory),
    }
}

/// What `bench` answers: the report of the run, or why there is none. It stops where there is no order or no device of
/// the wanted name, where the rule file can't be read or is refused, and where memory runs out.
pub fn bench<'a, S: Shelf>(
    alloc: Global,
    shelf: &mut S,
    orders: &mut Vec<Box<dyn Picker>>,
    peers: &mut Vec<Box<dyn Peer>>,
    asked: &Benching<'a>,
) -> Result<Output, Stop<'a>>
    requires { asked.now.steps ≤ 1000000 }
    ensures answered { IfOk result (λ output. Benches (bench_asked asked.now)
        (given_by (S.tells shelf.old) (S.holds shelf.old)) (handed_over (order_seen Picker-box) (peer_seen Peer-box)
        orders.old.items orders.new.items peers.old.items peers.new.items) (told_answer output)) }
    ensures asked { IfOk result (λ output. AsksBench (picker_seen Picker-box) (peer_seen Peer-box)
        (bench_asked asked.now) (given_by (S.tells shelf.old) (S.holds shelf.old))
        orders.old.items orders.new.items peers.old.items peers.new.items) }
    ensures stopped { IfErr result (Stops (Benches (bench_asked asked.now)
        (given_by (S.tells shelf.old) (S.holds shelf.old)) (handed_over (order_seen Picker-box) (peer_seen Peer-box)
        orders.old.items orders.new.items peers.old.items peers.new.items))
        (asked.now.net.now ∷ []) (given_by (S.tells shelf.old) (S.holds shelf.old))
        (S.faults shelf.old) (S.faults shelf.new)) }
    ensures stay { StayHandedIn (order_seen Picker-box) (peer_seen Peer-box)
        (place_named (map (order_seen Picker-box)
        orders.old.items) asked.now.order.now)
        (peer_named (map (peer_seen Peer-box)
        peers.old.items) asked.now.peer.now)
        orders.old.items orders.new.items peers.old.items peers.new.items }
    ensures unasked { IfErr result (λ stop. StaysUnasked (stop_status stop) orders.old orders.new
        × StaysUnasked (stop_status stop) peers.old peers.new) }
    ensures same { S.tells shelf.new ≡ S.tells shelf.old }
    ensures kept { S.holds shelf.new ≡ S.holds shelf.old }
    ensures faults { S.faults shelf.old ≤ S.faults shelf.new }
{
    let Some(place) = place_of(orders, asked.order) else {
        return Err(Stop::Refused(Refusal::NoOrder(asked.order)));
    };
    let Some(which) = place_of_peer(peers, asked.peer) else {
        return Err(Stop::Refused(Refusal::NoPeer(asked.peer)));
    };
    bench_at(alloc, shelf, orders, place, peers, which, asked)
}
