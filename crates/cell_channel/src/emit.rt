//! The rules of a channel's ends: what answers a send or a receive, and the port by which a receive takes a value.

ghost use Rattle.std.specs.Prelude.{◌≡◌, ◌≢◌, ℕ, List, ◌∷◌, ◌+◌, ◌<◌, ◌≤◌, length, All, AllPairs, OnOk, OnErr};
ghost use Rattle.prs_core.specs.Nets.{with_rules, IsAlone};
ghost use Rattle.prs_core.specs.Parts.{Owned, Keeps, with_owned};
ghost use Rattle.prs_core.specs.Partly.{IsPartly};
ghost use Rattle.cell_channel.specs.Ends.{end_owned, taken_rail, port_owned};
ghost use Rattle.cell_channel.specs.Handshakes.{end_part, PortKeeps};

use crate::laws::ends_keep;
use prs_core::{Rules, all_of, high, low};
use std::alloc::{AllocError, Global};

/// Writes the two guards of the answer of a send or a receive, which follows the channel's acknowledge under its own
/// request, and no others (Martin). Where memory runs out, nothing is written.
pub fn emit_end(
    alloc: Global,
    request: u32,
    ack: u32,
    answer: u32,
    rules: &mut Rules,
) -> Result<(), AllocError>
    requires request { request < length rules.old.up }
    requires ack { ack < length rules.old.up }
    requires answer { answer < length rules.old.up }
    requires distinct_request { request ≢ answer }
    requires distinct_ack { ack ≢ answer }
    ensures made { OnOk result (rules.new ≡ with_owned (end_owned request ack answer) rules.old) }
    ensures kept { OnErr result (rules.new ≡ rules.old) }
    ensures nodes { length rules.new.up ≡ length rules.old.up }
    ensures others { (node : ℕ) → node ≢ answer → IsAlone rules.old rules.new node }
    ensures keeps { (others : List ℕ) → AllPairs (λ (a b : ℕ). a ≢ b) (request ∷ ack ∷ answer ∷ others) →
        Keeps (end_part others request ack answer) }
{
    ends_keep();
    let up = all_of(alloc, &[high(request), high(ack)])?;
    let down = all_of(alloc, &[low(ack)])?;
    rules.set_up(answer, up);
    rules.set_down(answer, down);
    Ok(())
}

/// Writes the two guards of the node by which a receive port takes a rail.
fn emit_taken_rail(
    alloc: Global,
    request: u32,
    rail: u32,
    node: u32,
    rules: &mut Rules,
) -> Result<(), AllocError>
    requires request { request < length rules.old.up }
    requires rail { rail < length rules.old.up }
    requires node { node < length rules.old.up }
    ensures made { OnOk result (rules.new ≡ with_rules node (taken_rail request rail) rules.old) }
    ensures kept { OnErr result (rules.new ≡ rules.old) }
    ensures nodes { length rules.new.up ≡ length rules.old.up }
    ensures others { (other : ℕ) → other ≢ node → IsAlone rules.old rules.new other }
{
    let up = all_of(alloc, &[high(request), high(rail)])?;
    let down = all_of(alloc, &[low(request), low(rail)])?;
    rules.set_up(node, up);
    rules.set_down(node, down);
    Ok(())
}

/// Writes the guards of a receive port (Martin), and no others: under `request` each of the channel's `rails` is taken
/// by a node of its own, numbered from `from` on in the order of the rails, and let go once the request and the rail
/// are low. The rails are those of bit 0, t before f, then those of bit 1, and so on. Where memory runs out, some of
/// the own nodes have their guards, and the others those that they had.
pub fn emit_receive_port(
    alloc: Global,
    request: u32,
    rails: &[u32],
    from: u32,
    rules: &mut Rules,
) -> Result<(), AllocError>
    requires request { request < length rules.old.up }
    requires rails { All (λ rail. rail < length rules.old.up) rails.now }
    requires own { from + length rails.now ≤ length rules.old.up }
    ensures made { OnOk result (rules.new ≡ with_owned (port_owned request rails.now from) rules.old) }
    ensures partly { IsPartly (port_owned request rails.now from) rules.old rules.new }
    ensures nodes { length rules.new.up ≡ length rules.old.up }
    ensures others { (node : ℕ) → All (λ (o : Owned). o.node ≢ node) (port_owned request rails.now from) →
        IsAlone rules.old rules.new node }
    ensures keeps { PortKeeps request rails.now from }
{
    ends_keep();
    // tells the proof that there are fewer than 2^32 nodes, so that the numbers from `from` on fit
    let _count = rules.nodes();
    let mut node = from;
    for rail in rails {
        emit_taken_rail(alloc, request, *rail, node, rules)?;
        node += 1;
    }
    Ok(())
}
