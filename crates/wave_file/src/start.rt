//! The values with which a timed run begins.

ghost use Rattle.std.specs.Prelude.{◌≡◌, length, IfOk};
ghost use Rattle.prs_core.specs.Nets.{IsNet};
ghost use Rattle.event_sim.specs.Following.{power_of};

use event_sim::power_state;
use prs_core::Net;
use std::alloc::{AllocError, Global};

/// The values of the nodes at power-up: in a net with a reset node those that have rules have the value `high`, and all
/// others have their first values. A net without one begins with its first values.
pub(crate) fn start_values(alloc: Global, net: &Net, high: bool) -> Result<Vec<bool>, AllocError>
    ensures values { IfOk result (λ v. v.items ≡ power_of net.now high) }
    ensures count { IfOk result (λ v. length v.items ≡ length net.now.first) }
    ensures net { IsNet net.now }
{
    let nodes = net.first().len();
    let state = power_state(alloc, net, high)?;
    let mut values = Vec::with_capacity(alloc, nodes)?;
    for node in 0..nodes as u32 {
        values.push(state.is_high(node))?;
    }
    Ok(values)
}
