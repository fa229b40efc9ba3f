//! The device that counts.

ghost use Rattle.std.specs.Prelude.{◌≡◌, ◌+◌, ◌%◌, ◌^◌, ◌≤◌, ◌<◌, [], ◌∷◌, ◌++◌, length, slice_set, codes, true, None, OnOk, IfSome};
ghost use Rattle.peer_bench.specs.declared.note.Note.TheVariants.{Offered, Ready, Took};
ghost use Rattle.peer_bench.specs.Notes.{is_offer_on};
ghost use Rattle.peer_bench.specs.Devices.{up_to_ten, ramp_due, AreCounts};

use crate::note::Note;
use crate::peer::Peer;
use std::alloc::{AllocError, Global};
use std::marker::Model;

/// On so many channels it counts what it offers. A net has fewer.
const COUNTED: usize = 65_536;

/// Offers 0, 1, 2 up to 9 on each `in` channel, modulo 2 to its width, and takes whatever comes. It keeps how many
/// values it has offered on each channel.
#[derive(Drop)]
pub struct Ramp {
    log: Vec<Note>,
    counts: Vec<u8>,
}

impl Model for Ramp {
    ghost use Rattle.std.specs.Prelude.{◌-◌, length, vec_capacity};
    ghost use Rattle.peer_bench.specs.Devices.{NotedValue, AreCounts};

    ghost Value = { NotedValue };

    ghost view = { λ p. record { log = p.log.items; spare = vec_capacity p.log - length p.log.items } };

    ghost invariant = { λ p. AreCounts p.log.items p.counts.items };
}

impl Ramp {
    /// A device that has done nothing. It allocates no memory.
    pub fn new(alloc: Global) -> Ramp
        ensures { result.log ≡ [] }
    {
        Ramp {
            log: Vec::new(alloc),
            counts: Vec::new(alloc),
        }
    }

    /// How many values were offered on the channel, of which at most ten are counted.
    fn offers(&self, chan: u32) -> u8
        ensures { result ≡ up_to_ten chan self.now.log }
    {
        match self.counts.get(chan as usize) {
            Some(count) => *count,
            None => up_to_ten(chan, &self.log),
        }
    }
}

/// Whether this is an offer on the channel.
fn is_offer_on(chan: u32, note: &Note) -> bool
    ensures { result ≡ is_offer_on chan note.now }
{
    match note {
        Note::Offered { chan: other, .. } => *other == chan,
        Note::Ready { .. } | Note::Took { .. } => false,
    }
}

/// How many of these notes are offers on the channel, of which at most ten are counted.
fn up_to_ten(chan: u32, log: &[Note]) -> u8
    ensures { result ≡ up_to_ten chan log.now }
{
    log.iter()
        .filter(|note| is_offer_on(chan, note))
        .take(10)
        .count() as u8
}

/// Counts on the channels that aren't counted yet.
fn count_all(counts: &mut Vec<u8>, log: &[Note]) -> Result<(), AllocError>
    requires { AreCounts log.now counts.old.items }
    ensures { AreCounts log.now counts.new.items }
{
    for chan in counts.len()..COUNTED {
        counts.push(up_to_ten(chan as u32, log))?;
    }
    Ok(())
}

/// Sets the count of the channel, where it is counted.
fn set_count(counts: &mut Vec<u8>, chan: u32, count: u8)
    ensures { counts.new.items ≡ slice_set counts.old.items chan count }
{
    let place = chan as usize;
    if place < counts.len() {
        counts[place] = count;
    }
}

/// The lowest bits of a value, so many of them.
pub(crate) fn low_bits(value: u64, width: u8) -> u64
    requires { width ≤ 64 }
    ensures value { result ≡ value % 2 ^ width }
    ensures below { result < 2 ^ width }
{
    if width == 64 {
        value
    } else {
        value % (1 << width)
    }
}

impl Peer for Ramp {
    ghost name = { λ p. codes "ramp" };

    ghost log = { λ p. p.log };

    ghost spare = { λ p. p.spare };

    ghost due = { λ p. ramp_due p.log };

    ghost willing = { λ p chan. true };

    fn name(&self) -> &str {
        "ramp"
    }

    fn make_room(&mut self, notes: u32) -> Result<(), AllocError>
        ensures log { self.new.log ≡ self.old.log }
        ensures room { OnOk result (notes ≤ self.new.spare) }
    {
        count_all(&mut self.counts, &self.log)?;
        self.log.reserve_exact(notes as usize)
    }

    fn offer(&mut self, chan: u32, width: u8, at: u32) -> Option<u64>
        requires room { 1 ≤ self.old.spare }
        requires some { 1 ≤ width }
        requires most { width ≤ 64 }
        ensures due { result ≡ ramp_due self.old.log chan width }
        ensures below { IfSome result (λ v. v < 2 ^ width) }
        ensures noted { IfSome result (λ v. self.new.log ≡ self.old.log ++ Offered at chan v ∷ []) }
        ensures spare { IfSome result (λ v. self.new.spare + 1 ≡ self.old.spare) }
        ensures same { result ≡ None → self.new ≡ self.old }
    {
        let offers = self.offers(chan);
        if offers == 10 {
            return None;
        }
        let value = low_bits(offers as u64, width);
        set_count(&mut self.counts, chan, offers + 1);
        self.log.push_reserved(Note::Offered { at, chan, value });
        Some(value)
    }

    fn ready(&mut self, chan: u32, at: u32) -> bool
        requires room { 1 ≤ self.old.spare }
        ensures willing { result ≡ true }
        ensures noted { self.new.log ≡ self.old.log ++ Ready at chan ∷ [] }
        ensures spare { self.new.spare + 1 ≡ self.old.spare }
    {
        self.log.push_reserved(Note::Ready { at, chan });
        true
    }

    fn took(&mut self, chan: u32, value: u64, at: u32)
        requires room { 1 ≤ self.old.spare }
        ensures noted { self.new.log ≡ self.old.log ++ Took at chan value ∷ [] }
        ensures spare { self.new.spare + 1 ≡ self.old.spare }
    {
        self.log.push_reserved(Note::Took { at, chan, value });
    }
}
