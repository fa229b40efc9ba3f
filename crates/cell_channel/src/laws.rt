//! Laws of the ends of a channel.

ghost use Rattle.std.specs.Prelude.{◌≡◌, ◌≢◌, ℕ, List, ◌∷◌, AllPairs};
ghost use Rattle.prs_core.specs.Pairs.{Pair, rails_of};
ghost use Rattle.prs_core.specs.Parts.{Keeps};
ghost use Rattle.cell_channel.specs.Ends.{port_owned};
ghost use Rattle.cell_channel.specs.Handshakes.{PortBit, end_part, port_part, port_bits, port_nodes};

use prs_core::laws::site_keeps;

/// Law: the answer of a send or a receive keeps its contract beside any number of other sites, and a receive port of
/// any width keeps its own, whatever the numbers of the nodes. The port may also be one whose own nodes are numbered
/// from one on.
pub fn ends_keep()
    ensures answer { (others : List ℕ) (request ack answer : ℕ) →
        AllPairs (λ (a b : ℕ). a ≢ b) (request ∷ ack ∷ answer ∷ others) → Keeps (end_part others request ack answer) }
    ensures port { (request ack : ℕ) (bits : List PortBit) →
        AllPairs (λ (a b : ℕ). a ≢ b) (request ∷ ack ∷ port_nodes bits) → Keeps (port_part request ack bits) }
    ensures numbered { (request ack from : ℕ) (rails : List Pair) →
        (port_part request ack (port_bits rails from)).own ≡ port_owned request (rails_of rails) from }
{
    site_keeps();
}
