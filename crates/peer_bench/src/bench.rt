//! Benches.

ghost use Rattle.std.specs.Prelude.{◌≡◌, ◌≢◌, ℕ, ◌+◌, ◌*◌, ◌<◌, ◌≤◌, ◌++◌, length, map, slice_get, vec_len, IfOk, IfErr, IfSome};
ghost use Rattle.event_sim.specs.Asking.{IsAskedAlong, picker_value};
ghost use Rattle.event_sim.specs.Simulating.{growth};
ghost use Rattle.peer_bench.specs.Asking.{PeerValue, peer_value};

use crate::course::drive;
use crate::peer::Peer;
use crate::setup::Setup;
use event_sim::{Picker, Ran};
use prs_core::Net;
use std::alloc::{AllocError, Global};

/// A net that is to run against one of these devices, for so many moves at most. All memory of the run is allocated.
#[derive(Drop)]
pub struct Bench {
    setup: Setup,
    peers: Vec<Box<dyn Peer>>,
    which: usize,
    ghost within: { which < vec_len peers },
}

/// A run on a bench that has ended, with the devices.
#[derive(Drop)]
pub struct Benched {
    ran: Ran,
    peers: Vec<Box<dyn Peer>>,
}

impl Bench {
    ghost use Rattle.peer_bench.specs.Benches.{BothAt, SetupValue, bench_enabled, external_channels, noted_since, IsBenchRun};

    /// The bench of the net and the device at this index of the list, for at most `steps` moves (up to 1,000,000).
    /// Where the net has a reset node, the nodes that have rules are low at power-up. When out of memory it returns the
    /// devices.
    pub fn new(
        alloc: Global,
        net: Net,
        peers: Vec<Box<dyn Peer>>,
        which: usize,
        steps: u32,
    ) -> Result<Bench, (AllocError, Vec<Box<dyn Peer>>)>
        requires which { which < vec_len peers }
        requires steps { steps ≤ 1000000 }
        ensures setup { IfOk result (λ b. b.setup ≡ record { net = net; steps = steps }) }
        ensures which { IfOk result (λ b. b.which ≡ which) }
        ensures peers { IfOk result (λ b. b.peers.items ≡ peers.items) }
        ensures back { IfErr result (λ e. e.1.items ≡ peers.items) }
    {
        match Setup::new(alloc, net, steps) {
            Err(error) => Err((error, peers)),
            Ok(setup) => Ok(Bench {
                setup,
                peers,
                which,
            }),
        }
    }

    /// Runs the net against the device at its index of the list, by the scheduler's choices. It allocates nothing and
    /// changes no other device. The device is asked at the start and after each move that changes the acknowledge of an
    /// external channel or lowers reset, never while a reset node is high. Before it is asked after a move it is
    /// notified of what it took by that move.
    pub fn run(self, picker: &mut Box<dyn Picker>) -> Benched
        requires spare { self.setup.steps ≤ (⟦<dyn Picker as Picker>⟧ picker.old.vtable).spare picker.old.value }
        requires nodes { length self.setup.net.first ≤ nodes picker.old }
        requires room { IfSome (slice_get self.peers.items self.which)
            (λ p. 2 * self.setup.steps + 1 + external_channels self.setup.net ≤
            (⟦<dyn Peer as Peer>⟧ p.vtable).spare p.value) }
        ensures log { (⟦<dyn Picker as Picker>⟧ picker.new.vtable).log picker.new.value ≡
            (⟦<dyn Picker as Picker>⟧ picker.old.vtable).log picker.old.value
            ++ growth ((⟦<dyn Picker as Picker>⟧ picker.old.vtable).log picker.old.value)
            ((⟦<dyn Picker as Picker>⟧ picker.new.vtable).log picker.new.value) }
        ensures noted { BothAt self.peers.items result.peers.items self.which
            (λ was is. (⟦<dyn Peer as Peer>⟧ is.vtable).log is.value ≡
            (⟦<dyn Peer as Peer>⟧ was.vtable).log was.value
            ++ noted_since ((⟦<dyn Peer as Peer>⟧ was.vtable).log was.value)
            ((⟦<dyn Peer as Peer>⟧ is.vtable).log is.value)) }
        ensures run { BothAt self.peers.items result.peers.items self.which
            (λ was is. IsBenchRun (λ (p : PeerValue). p) self.setup
            (growth ((⟦<dyn Picker as Picker>⟧ picker.old.vtable).log picker.old.value)
            ((⟦<dyn Picker as Picker>⟧ picker.new.vtable).log picker.new.value))
            (noted_since ((⟦<dyn Peer as Peer>⟧ was.vtable).log was.value)
            ((⟦<dyn Peer as Peer>⟧ is.vtable).log is.value))
            (peer_value ((⟦<dyn Peer as Peer>⟧ was.vtable).name was.value)
            ((⟦<dyn Peer as Peer>⟧ was.vtable).log was.value) ((⟦<dyn Peer as Peer>⟧ was.vtable).spare was.value)
            (due was) (willing was))
            (peer_value ((⟦<dyn Peer as Peer>⟧ is.vtable).name is.value)
            ((⟦<dyn Peer as Peer>⟧ is.vtable).log is.value) ((⟦<dyn Peer as Peer>⟧ is.vtable).spare is.value)
            (due is) (willing is)) result.ran) }
        ensures asked { BothAt self.peers.items result.peers.items self.which
            (λ was is. IsAskedAlong (λ p. picker_value p.vtable ((⟦<dyn Picker as Picker>⟧ p.vtable).name p.value)
            ((⟦<dyn Picker as Picker>⟧ p.vtable).log p.value) ((⟦<dyn Picker as Picker>⟧ p.vtable).spare p.value)
            (nodes p) (seeded p) (choice p))
            (bench_enabled self.setup.net (noted_since ((⟦<dyn Peer as Peer>⟧ was.vtable).log was.value)
            ((⟦<dyn Peer as Peer>⟧ is.vtable).log is.value)))
            (growth ((⟦<dyn Picker as Picker>⟧ picker.old.vtable).log picker.old.value)
            ((⟦<dyn Picker as Picker>⟧ picker.new.vtable).log picker.new.value)) picker.old picker.new) }
        ensures others { (k : ℕ) → k ≢ self.which → slice_get result.peers.items k ≡ slice_get self.peers.items k }
        ensures count { length result.peers.items ≡ length self.peers.items }
        ensures kinds { map (λ p. p.vtable) result.peers.items ≡ map (λ p. p.vtable) self.peers.items }
        ensures spare { (⟦<dyn Picker as Picker>⟧ picker.new.vtable).spare picker.new.value + result.ran.moves ≡
            (⟦<dyn Picker as Picker>⟧ picker.old.vtable).spare picker.old.value }
        ensures name { (⟦<dyn Picker as Picker>⟧ picker.new.vtable).name picker.new.value ≡
            (⟦<dyn Picker as Picker>⟧ picker.old.vtable).name picker.old.value }
        ensures nodes { nodes picker.new ≡ nodes picker.old }
        ensures seeded { seeded picker.new ≡ seeded picker.old }
        ensures kind { picker.new.vtable ≡ picker.old.vtable }
    {
        let Bench {
            setup,
            mut peers,
            which,
        } = self;
        let ran = drive(setup, picker, &mut peers[which]);
        Benched { ran, peers }
    }
}

impl Benched {
    /// The run that was made: its net, how it ended, how many moves it had, `done`, and what has passed.
    pub fn ran(&self) -> &Ran
        ensures { result.now ≡ self.now.ran }
    {
        &self.ran
    }

    /// The devices, in the order in which they were given.
    pub fn into_peers(self) -> Vec<Box<dyn Peer>>
        ensures { result.items ≡ self.peers.items }
    {
        self.peers
    }
}
