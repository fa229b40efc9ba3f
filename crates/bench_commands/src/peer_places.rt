//! The places of devices among those that are handed in.

ghost use Rattle.std.specs.Prelude.{◌≡◌, ◌<◌, IfSome, bytes_eq, length, map, position};
ghost use Rattle.peer_bench.specs.Asking.{peer_value};
ghost use Rattle.bench_commands.specs.Peers.{peer_named};

use peer_bench::Peer;

fn is_named(peer: &Box<dyn Peer>, wanted: &str) -> bool
    ensures { result ≡ bytes_eq (name peer.now) wanted.now }
{
    peer.name() == wanted
}

fn first_named(peers: &[Box<dyn Peer>], wanted: &str) -> Option<usize>
    ensures { result ≡ position (λ peer. bytes_eq (name peer) wanted.now) peers.now }
{
    peers.iter().position(
        |peer: &Box<dyn Peer>| -> bool
            ensures { result ≡ bytes_eq (name peer.now) wanted.entry.now }
        { is_named(peer, wanted) },
    )
}

/// The place of the first device of this name, or None where there is none.
pub fn place_of_peer(peers: &Vec<Box<dyn Peer>>, wanted: &str) -> Option<usize>
    ensures place { result ≡ peer_named
        (map (λ peer. peer_value (name peer) (log peer) (spare peer) (due peer) (willing peer)) peers.now.items)
        wanted.now }
    ensures within { IfSome result (λ place. place < length peers.now.items) }
{
    first_named(peers, wanted)
}
