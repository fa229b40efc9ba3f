//! A run on a bench, as far as it has come.

ghost use Rattle.std.specs.Prelude.{◌≡◌, ◌≢◌, ℕ, nat_lt, ◌≤◌, ◌<◌, ◌+◌, ◌*◌, true, false, not, ◌&&◌, ◌||◌, List, [], ◌∷◌, ◌++◌, length, Some, IfSome, option_to_list};
ghost use Rattle.prs_core.specs.Nets.{IsNet};
ghost use Rattle.prs_core.specs.Moves.{high};
ghost use Rattle.env_script.specs.Scripts.{IsScript};
ghost use Rattle.env_script.specs.Environment.{net_channels, in_reset};
ghost use Rattle.env_script.specs.Runs.{move_enabled, moved};
ghost use Rattle.env_script.specs.Hazards.{hazard_of};
ghost use Rattle.event_sim.specs.Asking.{IsAskedAlong, picker_value};
ghost use Rattle.event_sim.specs.Locality.{is_member};
ghost use Rattle.event_sim.specs.Passing.{completion};
ghost use Rattle.event_sim.specs.Simulating.{growth};
ghost use Rattle.event_sim.specs.Stages.{now_of};
ghost use Rattle.event_sim.specs.Standings.{is_idle};
ghost use Rattle.peer_bench.specs.declared.note.Note.{Note};
ghost use Rattle.peer_bench.specs.declared.note.Note.TheVariants.{Took};
ghost use Rattle.peer_bench.specs.Asking.{peer_value, HasNoted};
ghost use Rattle.peer_bench.specs.Along.{is_external, is_out, chan_is, told_passed};
ghost use Rattle.peer_bench.specs.Benches.{bench_enabled, external_channels, noted_since, IsBenchRun};
ghost use Rattle.peer_bench.specs.Steps.{IsAskedByIf, IsMoveNoted, AreOffered, AreRailsHeld, free_on};
ghost use Rattle.peer_bench.specs.Sets.{HasIdle, IsQuiet, IsQuietBut};

use crate::ask::ask_on;
use crate::channel_set::ChannelSet;
use crate::peer::Peer;
use crate::setup::Setup;
use chp_base::Kind;
use env_script::Hazard;
use event_sim::{Picker, Ran, Stage, choose, early_end, last_end};

/// Whether the environment has a part in channels of this kind.
fn is_external(kind: Kind) -> bool
    ensures { result ≡ is_external kind }
{
    match kind {
        Kind::In | Kind::Out => true,
        Kind::Chan => false,
    }
}

/// Whether the environment receives on channels of this kind.
fn is_out(kind: Kind) -> bool
    ensures { result ≡ is_out kind }
{
    match kind {
        Kind::Out => true,
        Kind::In | Kind::Chan => false,
    }
}

/// Whether this is an external channel of the stage.
fn is_external_ack(stage: &Stage, acked: Option<u32>) -> bool
    requires { IfSome acked (λ chan. chan < length stage.now.net.channels) }
    ensures ack { result ≡ chan_is is_external stage.now.net acked }
    ensures net { IsNet stage.now.net }
    ensures script { IsScript (net_channels stage.now.net) stage.now.script }
{
    let channels = stage.net().channels();
    match acked {
        None => false,
        Some(chan) => is_external(channels[chan as usize].channel.kind),
    }
}

/// Notifies the device of the value that it took.
fn tell_taken(peer: &mut Box<dyn Peer>, chan: u32, value: u64, at: u32)
    requires { 1 ≤ spare peer.old }
    ensures noted { HasNoted (Took at chan value ∷ [])
        (peer_value (name peer.old) (log peer.old) (spare peer.old) (due peer.old) (willing peer.old))
        (peer_value (name peer.new) (log peer.new) (spare peer.new) (due peer.new) (willing peer.new)) }
    ensures kind { peer.new.vtable ≡ peer.old.vtable }
{
    peer.took(chan, value, at);
}

/// Notifies the device of the value that passed on the channel, where that is an `out` channel. Returns whether it is.
fn tell_value(stage: &Stage, peer: &mut Box<dyn Peer>, chan: u32, value: u64, at: u32) -> bool
    requires chan { chan < length stage.now.net.channels }
    requires room { 1 ≤ spare peer.old }
    ensures noted { HasNoted (told_passed stage.now.net at (Some (chan, value)))
        (peer_value (name peer.old) (log peer.old) (spare peer.old) (due peer.old) (willing peer.old))
        (peer_value (name peer.new) (log peer.new) (spare peer.new) (due peer.new) (willing peer.new)) }
    ensures told { result ≡ nat_lt 0 (length (told_passed stage.now.net at (Some (chan, value)))) }
    ensures kind { peer.new.vtable ≡ peer.old.vtable }
{
    let is_taken = is_out(stage.net().channels()[chan as usize].channel.kind);
    if is_taken {
        tell_taken(peer, chan, value, at);
    }
    is_taken
}

/// Notifies the device of the value that passed, where one did, and on an `out` channel. Returns whether it did so.
fn tell(stage: &Stage, peer: &mut Box<dyn Peer>, passed: Option<(u32, u64)>, at: u32) -> bool
    requires chan { IfSome passed (λ p. p.0 < length stage.now.net.channels) }
    requires room { 1 ≤ spare peer.old }
    ensures noted { HasNoted (told_passed stage.now.net at passed)
        (peer_value (name peer.old) (log peer.old) (spare peer.old) (due peer.old) (willing peer.old))
        (peer_value (name peer.new) (log peer.new) (spare peer.new) (due peer.new) (willing peer.new)) }
    ensures told { result ≡ nat_lt 0 (length (told_passed stage.now.net at passed)) }
    ensures kind { peer.new.vtable ≡ peer.old.vtable }
{
    match passed {
        None => false,
        Some(pair) => tell_value(stage, peer, pair.0, pair.1, at),
    }
}

/// Whether a device may be asked after a move: reset is low, and it was high before or the move changed the
/// acknowledge of an external channel.
fn may_ask(is_in_reset: bool, was_in_reset: bool, is_ack: bool) -> bool
    ensures { result ≡ (not is_in_reset && (was_in_reset || is_ack)) }
{
    !is_in_reset && (was_in_reset || is_ack)
}

/// Inserts the channel whose acknowledge was moved into the set of idle channels, where it is idle now.
fn list_idle(stage: &Stage, idle: &mut ChannelSet, acked: Option<u32>)
    requires chan { IfSome acked (λ chan. chan < length stage.now.net.channels) }
    requires count { length idle.old ≡ length stage.now.net.channels }
    requires others { (chan : ℕ) → acked ≢ Some chan →
        is_idle stage.now.net stage.now.script (now_of stage.now) chan ≡ true → is_member idle.old chan ≡ true }
    ensures { HasIdle stage.now.net stage.now.script (now_of stage.now) idle.new }
{
    if let Some(chan) = acked {
        idle.set(chan, stage.is_idle(chan));
    }
}

/// The channel on which alone an answer may come: the one whose acknowledge was moved, unless the device was notified
/// or wasn't asked before.
fn only_one(acked: Option<u32>, told: bool, was_in_reset: bool) -> Option<u32>
    ensures { IfSome result (λ chan. (acked ≡ Some chan) × (told ≡ false) × (was_in_reset ≡ false)) }
{
    if told || was_in_reset { None } else { acked }
}

/// Asks the device, where it may be asked: on all idle channels, or first on the one on which alone an answer may come.
fn ask_if(
    stage: &mut Stage,
    peer: &mut Box<dyn Peer>,
    idle: &mut ChannelSet,
    asks: bool,
    only: Option<u32>,
    at: u32,
)
    requires low { asks ≡ true → in_reset stage.old.net.reset (high stage.old.values) ≡ false }
    requires chan { IfSome only (λ chan. chan < length stage.old.net.channels) }
    requires quiet { IfSome only (λ chan. IsQuietBut stage.old.net stage.old.script (now_of stage.old)
        (peer_value (name peer.old) (log peer.old) (spare peer.old) (due peer.old) (willing peer.old)) chan) }
    requires idle { HasIdle stage.old.net stage.old.script (now_of stage.old) idle.old }
    requires offered { AreOffered stage.old.script (now_of stage.old) }
    requires room { free_on stage.old.net stage.old.script (now_of stage.old) + 1 ≤ spare peer.old }
    ensures stage { stage.new ≡ record stage.old { script = stage.new.script } }
    ensures asked { (more : List Note) × IsAskedByIf asks
        (λ p. peer_value (name p) (log p) (spare p) (due p) (willing p))
        stage.old.net (now_of stage.old) at stage.old.script stage.new.script more peer.old peer.new }
    ensures idle { HasIdle stage.new.net stage.new.script (now_of stage.new) idle.new }
    ensures offered { AreOffered stage.new.script (now_of stage.new) }
    ensures room { spare peer.new + free_on stage.old.net stage.old.script (now_of stage.old) ≡
        spare peer.old + free_on stage.new.net stage.new.script (now_of stage.new) }
    ensures kind { peer.new.vtable ≡ peer.old.vtable }
{
    if asks {
        ask_on(stage, peer, idle, only, at);
    }
}

/// Makes the enabled move of the node, notifies the device of what it took by that, and asks it where the move allows
/// it. Returns the hazard that the move brings.
fn make(
    stage: &mut Stage,
    peer: &mut Box<dyn Peer>,
    idle: &mut ChannelSet,
    node: u32,
    at: u32,
) -> Option<Hazard>
    requires node { node < length stage.old.net.first }
    requires enabled { move_enabled stage.old.net stage.old.script (now_of stage.old) node ≡ true }
    requires room { 1 ≤ stage.old.room }
    requires rails { AreRailsHeld stage.old.net stage.old.script (now_of stage.old) }
    requires offered { AreOffered stage.old.script (now_of stage.old) }
    requires spare { free_on stage.old.net stage.old.script (now_of stage.old) + 3 ≤ spare peer.old }
    requires idle { HasIdle stage.old.net stage.old.script (now_of stage.old) idle.old }
    requires quiet { in_reset stage.old.net.reset (high stage.old.values) ≡ false →
        IsQuiet stage.old.net stage.old.script (now_of stage.old)
        (peer_value (name peer.old) (log peer.old) (spare peer.old) (due peer.old) (willing peer.old)) }
    ensures net { stage.new.net ≡ stage.old.net }
    ensures moved { now_of stage.new ≡ moved stage.old.net (now_of stage.old) node }
    ensures fits { IsScript (net_channels stage.new.net) stage.new.script }
    ensures passed { stage.new.passed ≡ stage.old.passed
        ++ option_to_list (completion stage.old.net (high stage.old.values) node) }
    ensures room { stage.old.room ≤ stage.new.room + 1 }
    ensures hazard { result ≡ hazard_of stage.old.net stage.old.script (now_of stage.old) node }
    ensures noted { IsMoveNoted (λ p. peer_value (name p) (log p) (spare p) (due p) (willing p))
        stage.old.net (now_of stage.old) (now_of stage.new) node at stage.old.script stage.new.script
        peer.old peer.new }
    ensures offered { AreOffered stage.new.script (now_of stage.new) }
    ensures spare { spare peer.old + free_on stage.old.net stage.new.script (now_of stage.new) ≤
        spare peer.new + free_on stage.old.net stage.old.script (now_of stage.old) + 2 }
    ensures idle { HasIdle stage.new.net stage.new.script (now_of stage.new) idle.new }
    ensures kind { peer.new.vtable ≡ peer.old.vtable }
{
    let was_in_reset = stage.in_reset();
    let acked = stage.acknowledged(node);
    let is_ack = is_external_ack(stage, acked);
    let passed = stage.completion(node);
    let hazard = stage.make(node);
    list_idle(stage, idle, acked);
    let told = tell(stage, peer, passed, at);
    let asks = may_ask(stage.in_reset(), was_in_reset, is_ack);
    let only = only_one(acked, told, was_in_reset);
    ask_if(stage, peer, idle, asks, only, at);
    // the invariant of the stage's type, about its script
    let _kept = stage.net();
    hazard
}

/// Runs the net on this stage against the device, for so many moves at most.
pub(crate) fn drive(setup: Setup, picker: &mut Box<dyn Picker>, peer: &mut Box<dyn Peer>) -> Ran
    requires spare { setup.steps ≤ (⟦<dyn Picker as Picker>⟧ picker.old.vtable).spare picker.old.value }
    requires nodes { length setup.net.first ≤ nodes picker.old }
    requires room { 2 * setup.steps + 1 + external_channels setup.net ≤
        (⟦<dyn Peer as Peer>⟧ peer.old.vtable).spare peer.old.value }
    ensures log { (⟦<dyn Picker as Picker>⟧ picker.new.vtable).log picker.new.value ≡
        (⟦<dyn Picker as Picker>⟧ picker.old.vtable).log picker.old.value
        ++ growth ((⟦<dyn Picker as Picker>⟧ picker.old.vtable).log picker.old.value)
        ((⟦<dyn Picker as Picker>⟧ picker.new.vtable).log picker.new.value) }
    ensures noted { (⟦<dyn Peer as Peer>⟧ peer.new.vtable).log peer.new.value ≡
        (⟦<dyn Peer as Peer>⟧ peer.old.vtable).log peer.old.value
        ++ noted_since ((⟦<dyn Peer as Peer>⟧ peer.old.vtable).log peer.old.value)
        ((⟦<dyn Peer as Peer>⟧ peer.new.vtable).log peer.new.value) }
    ensures run { IsBenchRun (λ p. peer_value ((⟦<dyn Peer as Peer>⟧ p.vtable).name p.value)
        ((⟦<dyn Peer as Peer>⟧ p.vtable).log p.value) ((⟦<dyn Peer as Peer>⟧ p.vtable).spare p.value) (due p)
        (willing p)) setup
        (growth ((⟦<dyn Picker as Picker>⟧ picker.old.vtable).log picker.old.value)
        ((⟦<dyn Picker as Picker>⟧ picker.new.vtable).log picker.new.value))
        (noted_since ((⟦<dyn Peer as Peer>⟧ peer.old.vtable).log peer.old.value)
        ((⟦<dyn Peer as Peer>⟧ peer.new.vtable).log peer.new.value))
        peer.old peer.new result }
    ensures asked { IsAskedAlong (λ p. picker_value p.vtable ((⟦<dyn Picker as Picker>⟧ p.vtable).name p.value)
        ((⟦<dyn Picker as Picker>⟧ p.vtable).log p.value) ((⟦<dyn Picker as Picker>⟧ p.vtable).spare p.value)
        (nodes p) (seeded p) (choice p))
        (bench_enabled setup.net (noted_since ((⟦<dyn Peer as Peer>⟧ peer.old.vtable).log peer.old.value)
        ((⟦<dyn Peer as Peer>⟧ peer.new.vtable).log peer.new.value)))
        (growth ((⟦<dyn Picker as Picker>⟧ picker.old.vtable).log picker.old.value)
        ((⟦<dyn Picker as Picker>⟧ picker.new.vtable).log picker.new.value)) picker.old picker.new }
    ensures device { (⟦<dyn Peer as Peer>⟧ peer.new.vtable).name peer.new.value ≡
        (⟦<dyn Peer as Peer>⟧ peer.old.vtable).name peer.old.value }
    ensures device_kind { peer.new.vtable ≡ peer.old.vtable }
    ensures spare { (⟦<dyn Picker as Picker>⟧ picker.new.vtable).spare picker.new.value + result.moves ≡
        (⟦<dyn Picker as Picker>⟧ picker.old.vtable).spare picker.old.value }
    ensures name { (⟦<dyn Picker as Picker>⟧ picker.new.vtable).name picker.new.value ≡
        (⟦<dyn Picker as Picker>⟧ picker.old.vtable).name picker.old.value }
    ensures nodes { nodes picker.new ≡ nodes picker.old }
    ensures seeded { seeded picker.new ≡ seeded picker.old }
    ensures kind { picker.new.vtable ≡ picker.old.vtable }
{
    let Setup {
        mut stage,
        steps,
        mut idle,
    } = setup;
    let is_in_reset = stage.in_reset();
    ask_if(&mut stage, peer, &mut idle, !is_in_reset, None, 0);
    let _kept = stage.net();
    let mut hazard = stage.first_hazard();
    for made in 0..steps {
        match early_end(hazard, stage.moves()) {
            Some(end) => return stage.ran(end, made),
            None => {
                let place = choose(picker, stage.moves());
                let node = stage.moves()[place];
                stage.moves_at(place);
                hazard = make(&mut stage, peer, &mut idle, node, made + 1);
            }
        }
    }
    let end = last_end(hazard, stage.moves());
    stage.ran(end, steps)
}
