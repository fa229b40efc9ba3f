//! How a device is asked.

ghost use Rattle.std.specs.Prelude.{◌≡◌, ℕ, ◌+◌, ◌^◌, ◌<◌, ◌≤◌, List, Bool, true, false, nat_lt, length, is_some, option_map, slice_get, Some, None, IfSome};
ghost use Rattle.chp_base.specs.declared.channel.Kind.TheVariants.{In, Out, Chan};
ghost use Rattle.prs_core.specs.declared.wires.Wires.{Wires};
ghost use Rattle.prs_core.specs.Moves.{high};
ghost use Rattle.env_script.specs.Scripts.{IsScript};
ghost use Rattle.env_script.specs.Environment.{net_channels, in_reset};
ghost use Rattle.event_sim.specs.Standings.{script_and, is_idle};
ghost use Rattle.event_sim.specs.Stages.{now_of};
ghost use Rattle.peer_bench.specs.declared.note.Note.{Note};
ghost use Rattle.peer_bench.specs.declared.note.Note.TheVariants.{Ready};
ghost use Rattle.peer_bench.specs.Asking.{peer_value, HasNoted, offer_note, ready_note};
ghost use Rattle.peer_bench.specs.Steps.{script_noting, asked_under, IsAskedBy, AreOffered, free_on};
ghost use Rattle.peer_bench.specs.Sets.{HasIdle, IsPassFrom, IsQuietBut};

use crate::channel_set::ChannelSet;
use crate::peer::Peer;
use chp_base::Kind;
use event_sim::Stage;

/// Asks for a value on the idle `in` channel, and offers it. Returns whether one came.
fn ask_value(stage: &mut Stage, peer: &mut Box<dyn Peer>, chan: u32, width: u8, at: u32) -> bool
    requires chan { chan < length stage.old.net.channels }
    requires idle { is_idle stage.old.net stage.old.script (now_of stage.old) chan ≡ true }
    requires low { in_reset stage.old.net.reset (high stage.old.values) ≡ false }
    requires script { (value : ℕ) → value < 2 ^ width →
        IsScript (net_channels stage.old.net) (script_and chan value stage.old.script) }
    requires some { 1 ≤ width }
    requires most { width ≤ 64 }
    requires room { 1 ≤ spare peer.old }
    ensures stage { stage.new ≡ record stage.old {
      script = script_noting (offer_note at chan (due peer.old chan width)) stage.old.script;
    } }
    ensures noted { HasNoted (offer_note at chan (due peer.old chan width))
        (peer_value (name peer.old) (log peer.old) (spare peer.old) (due peer.old) (willing peer.old))
        (peer_value (name peer.new) (log peer.new) (spare peer.new) (due peer.new) (willing peer.new)) }
    ensures came { result ≡ is_some (due peer.old chan width) }
    ensures kind { peer.new.vtable ≡ peer.old.vtable }
{
    match peer.offer(chan, width, at) {
        None => false,
        Some(value) => {
            stage.add(chan, value);
            true
        }
    }
}

/// Asks whether a value is taken on the idle `out` channel, and if so adds an acceptance. Returns whether it is.
fn ask_ready(stage: &mut Stage, peer: &mut Box<dyn Peer>, chan: u32, at: u32) -> bool
    requires chan { chan < length stage.old.net.channels }
    requires idle { is_idle stage.old.net stage.old.script (now_of stage.old) chan ≡ true }
    requires low { in_reset stage.old.net.reset (high stage.old.values) ≡ false }
    requires script { IsScript (net_channels stage.old.net) (script_and chan 0 stage.old.script) }
    requires room { 1 ≤ spare peer.old }
    ensures stage { stage.new ≡ record stage.old {
      script = script_noting (ready_note at chan (willing peer.old chan)) stage.old.script;
    } }
    ensures noted { HasNoted (ready_note at chan (willing peer.old chan))
        (peer_value (name peer.old) (log peer.old) (spare peer.old) (due peer.old) (willing peer.old))
        (peer_value (name peer.new) (log peer.new) (spare peer.new) (due peer.new) (willing peer.new)) }
    ensures came { result ≡ willing peer.old chan }
    ensures kind { peer.new.vtable ≡ peer.old.vtable }
{
    let is_ready = peer.ready(chan, at);
    if is_ready {
        stage.add(chan, 0);
    }
    is_ready
}

/// Asks on the idle channel. Returns whether an answer came.
fn ask(stage: &mut Stage, peer: &mut Box<dyn Peer>, chan: u32, at: u32) -> bool
    requires chan { chan < length stage.old.net.channels }
    requires idle { is_idle stage.old.net stage.old.script (now_of stage.old) chan ≡ true }
    requires low { in_reset stage.old.net.reset (high stage.old.values) ≡ false }
    requires room { 1 ≤ spare peer.old }
    ensures stage { stage.new ≡ record stage.old {
      script = script_noting (asked_under stage.old.net stage.old.script (now_of stage.old)
          (peer_value (name peer.old) (log peer.old) (spare peer.old) (due peer.old) (willing peer.old)) at chan)
          stage.old.script;
    } }
    ensures noted { HasNoted (asked_under stage.old.net stage.old.script (now_of stage.old)
        (peer_value (name peer.old) (log peer.old) (spare peer.old) (due peer.old) (willing peer.old)) at chan)
        (peer_value (name peer.old) (log peer.old) (spare peer.old) (due peer.old) (willing peer.old))
        (peer_value (name peer.new) (log peer.new) (spare peer.new) (due peer.new) (willing peer.new)) }
    ensures came { result ≡ nat_lt 0 (length (asked_under stage.old.net stage.old.script (now_of stage.old)
        (peer_value (name peer.old) (log peer.old) (spare peer.old) (due peer.old) (willing peer.old)) at chan)) }
    ensures kind { peer.new.vtable ≡ peer.old.vtable }
{
    let channel = &stage.net().channels()[chan as usize].channel;
    let kind = channel.kind;
    let width = channel.width;
    match kind {
        Kind::In => ask_value(stage, peer, chan, width, at),
        Kind::Out => ask_ready(stage, peer, chan, at),
        Kind::Chan => false,
    }
}

/// Asks on the channel, where it is idle, and takes it out of the set where it isn't or an answer came. Returns whether
/// one did.
fn ask_in(
    stage: &mut Stage,
    peer: &mut Box<dyn Peer>,
    idle: &mut ChannelSet,
    chan: u32,
    at: u32,
) -> bool
    requires chan { chan < length stage.old.net.channels }
    requires low { in_reset stage.old.net.reset (high stage.old.values) ≡ false }
    requires idle { HasIdle stage.old.net stage.old.script (now_of stage.old) idle.old }
    requires offered { AreOffered stage.old.script (now_of stage.old) }
    requires room { 1 ≤ spare peer.old }
    ensures stage { stage.new ≡ record stage.old {
      script = script_noting (asked_under stage.old.net stage.old.script (now_of stage.old)
          (peer_value (name peer.old) (log peer.old) (spare peer.old) (due peer.old) (willing peer.old)) at chan)
          stage.old.script;
    } }
    ensures noted { HasNoted (asked_under stage.old.net stage.old.script (now_of stage.old)
        (peer_value (name peer.old) (log peer.old) (spare peer.old) (due peer.old) (willing peer.old)) at chan)
        (peer_value (name peer.old) (log peer.old) (spare peer.old) (due peer.old) (willing peer.old))
        (peer_value (name peer.new) (log peer.new) (spare peer.new) (due peer.new) (willing peer.new)) }
    ensures came { result ≡ nat_lt 0 (length (asked_under stage.old.net stage.old.script (now_of stage.old)
        (peer_value (name peer.old) (log peer.old) (spare peer.old) (due peer.old) (willing peer.old)) at chan)) }
    ensures idle { HasIdle stage.new.net stage.new.script (now_of stage.new) idle.new }
    ensures few { result ≡ true → length stage.old.net.channels < 2 ^ 32 }
    ensures offered { AreOffered stage.new.script (now_of stage.new) }
    ensures room { spare peer.new + free_on stage.old.net stage.old.script (now_of stage.old) ≡
        spare peer.old + free_on stage.new.net stage.new.script (now_of stage.new) }
    ensures kind { peer.new.vtable ≡ peer.old.vtable }
{
    if !stage.is_idle(chan) {
        idle.set(chan, false);
        return false;
    }
    let came = ask(stage, peer, chan, at);
    if came {
        idle.set(chan, stage.is_idle(chan));
    }
    came
}

/// Asks on each idle channel from this one on once, in ascending order. Returns whether an answer came.
fn ask_from(
    stage: &mut Stage,
    peer: &mut Box<dyn Peer>,
    idle: &mut ChannelSet,
    from: u32,
    at: u32,
) -> bool
    requires from { from ≤ length stage.old.net.channels }
    requires low { in_reset stage.old.net.reset (high stage.old.values) ≡ false }
    requires idle { HasIdle stage.old.net stage.old.script (now_of stage.old) idle.old }
    requires offered { AreOffered stage.old.script (now_of stage.old) }
    requires room { free_on stage.old.net stage.old.script (now_of stage.old) + 1 ≤ spare peer.old }
    ensures stage { stage.new ≡ record stage.old { script = stage.new.script } }
    ensures asked { (more : List Note) × (result ≡ nat_lt 0 (length more)) × IsPassFrom
        (λ p. peer_value (name p) (log p) (spare p) (due p) (willing p))
        stage.old.net (now_of stage.old) at from stage.old.script stage.new.script more peer.old peer.new }
    ensures idle { HasIdle stage.new.net stage.new.script (now_of stage.new) idle.new }
    ensures offered { AreOffered stage.new.script (now_of stage.new) }
    ensures room { spare peer.new + free_on stage.old.net stage.old.script (now_of stage.old) ≡
        spare peer.old + free_on stage.new.net stage.new.script (now_of stage.new) }
    ensures fewer { result ≡ true → spare peer.new < spare peer.old }
    ensures kind { peer.new.vtable ≡ peer.old.vtable }
{
    let mut came = false;
    let mut first = from;
    while let Some(chan) = idle.next(first) {
        came |= ask_in(stage, peer, idle, chan, at);
        first = chan + 1;
    }
    came
}

/// Asks on each idle channel again and again, until a whole pass brings nothing.
pub(crate) fn ask_all(stage: &mut Stage, peer: &mut Box<dyn Peer>, idle: &mut ChannelSet, at: u32)
    requires low { in_reset stage.old.net.reset (high stage.old.values) ≡ false }
    requires idle { HasIdle stage.old.net stage.old.script (now_of stage.old) idle.old }
    requires offered { AreOffered stage.old.script (now_of stage.old) }
    requires room { free_on stage.old.net stage.old.script (now_of stage.old) + 1 ≤ spare peer.old }
    ensures stage { stage.new ≡ record stage.old { script = stage.new.script } }
    ensures asked { (more : List Note) × IsAskedBy (λ p. peer_value (name p) (log p) (spare p) (due p) (willing p))
        stage.old.net (now_of stage.old) at stage.old.script stage.new.script more peer.old peer.new }
    ensures idle { HasIdle stage.new.net stage.new.script (now_of stage.new) idle.new }
    ensures offered { AreOffered stage.new.script (now_of stage.new) }
    ensures room { spare peer.new + free_on stage.old.net stage.old.script (now_of stage.old) ≡
        spare peer.old + free_on stage.new.net stage.new.script (now_of stage.new) }
    ensures kind { peer.new.vtable ≡ peer.old.vtable }
{
    while ask_from(stage, peer, idle, 0, at) {}
}

/// The same, where no answer would come on any other channel than this one: these are asked only behind an answer.
fn ask_one(stage: &mut Stage, peer: &mut Box<dyn Peer>, idle: &mut ChannelSet, chan: u32, at: u32)
    requires chan { chan < length stage.old.net.channels }
    requires quiet { IsQuietBut stage.old.net stage.old.script (now_of stage.old)
        (peer_value (name peer.old) (log peer.old) (spare peer.old) (due peer.old) (willing peer.old)) chan }
    requires low { in_reset stage.old.net.reset (high stage.old.values) ≡ false }
    requires idle { HasIdle stage.old.net stage.old.script (now_of stage.old) idle.old }
    requires offered { AreOffered stage.old.script (now_of stage.old) }
    requires room { free_on stage.old.net stage.old.script (now_of stage.old) + 1 ≤ spare peer.old }
    ensures stage { stage.new ≡ record stage.old { script = stage.new.script } }
    ensures asked { (more : List Note) × IsAskedBy (λ p. peer_value (name p) (log p) (spare p) (due p) (willing p))
        stage.old.net (now_of stage.old) at stage.old.script stage.new.script more peer.old peer.new }
    ensures idle { HasIdle stage.new.net stage.new.script (now_of stage.new) idle.new }
    ensures offered { AreOffered stage.new.script (now_of stage.new) }
    ensures room { spare peer.new + free_on stage.old.net stage.old.script (now_of stage.old) ≡
        spare peer.old + free_on stage.new.net stage.new.script (now_of stage.new) }
    ensures kind { peer.new.vtable ≡ peer.old.vtable }
{
    if ask_in(stage, peer, idle, chan, at) {
        ask_from(stage, peer, idle, chan + 1, at);
        ask_all(stage, peer, idle, at);
    }
}

/// Asks on all idle channels or, where no answer would come on any other one, on this one first.
pub(crate) fn ask_on(
    stage: &mut Stage,
    peer: &mut Box<dyn Peer>,
    idle: &mut ChannelSet,
    only: Option<u32>,
    at: u32,
)
    requires chan { IfSome only (λ chan. chan < length stage.old.net.channels) }
    requires quiet { IfSome only (λ chan. IsQuietBut stage.old.net stage.old.script (now_of stage.old)
        (peer_value (name peer.old) (log peer.old) (spare peer.old) (due peer.old) (willing peer.old)) chan) }
    requires low { in_reset stage.old.net.reset (high stage.old.values) ≡ false }
    requires idle { HasIdle stage.old.net stage.old.script (now_of stage.old) idle.old }
    requires offered { AreOffered stage.old.script (now_of stage.old) }
    requires room { free_on stage.old.net stage.old.script (now_of stage.old) + 1 ≤ spare peer.old }
    ensures stage { stage.new ≡ record stage.old { script = stage.new.script } }
    ensures asked { (more : List Note) × IsAskedBy (λ p. peer_value (name p) (log p) (spare p) (due p) (willing p))
        stage.old.net (now_of stage.old) at stage.old.script stage.new.script more peer.old peer.new }
    ensures idle { HasIdle stage.new.net stage.new.script (now_of stage.new) idle.new }
    ensures offered { AreOffered stage.new.script (now_of stage.new) }
    ensures room { spare peer.new + free_on stage.old.net stage.old.script (now_of stage.old) ≡
        spare peer.old + free_on stage.new.net stage.new.script (now_of stage.new) }
    ensures kind { peer.new.vtable ≡ peer.old.vtable }
{
    match only {
        None => ask_all(stage, peer, idle, at),
        Some(chan) => ask_one(stage, peer, idle, chan, at),
    }
}
