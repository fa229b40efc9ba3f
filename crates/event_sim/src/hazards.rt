//! Which hazard a move brings.

ghost use Rattle.std.specs.Prelude.{◌≡◌, ℕ, ◌<◌, List, Bool, All, length};
ghost use Rattle.std.specs.List.{find};
ghost use Rattle.prs_core.specs.Moves.{high, both_ways, fired};
ghost use Rattle.env_script.specs.Hazards.{least_below};
ghost use Rattle.prs_core.specs.Fans.{readers_below};
ghost use Rattle.guard_rows.specs.Places.{readers_in, AreRows};
ghost use Rattle.event_sim.specs.Stages.{worst_cause};

use env_script::Hazard;
use guard_rows::GuardRows;
use prs_core::{Net, State, pulled_both_ways};

/// The least node with interference (both guards hold).
pub(crate) fn first_pulled(net: &Net, state: &State) -> Option<u32>
    requires { length state.now ≡ length net.now.first }
    ensures { result ≡ least_below (length net.now.first) (both_ways net.now (high state.now)) }
{
    match pulled_both_ways(net, state) {
        None => None,
        Some(node) => Some(node),
    }
}

/// The first reader that has interference of those to which these edges lead.
pub(crate) fn pulled_among(
    net: &Net,
    rows: &GuardRows,
    state: &State,
    edges: &[(u32, u32)],
) -> Option<u32>
    requires rows { AreRows net.now state.now rows.now }
    requires state { length state.now ≡ length net.now.first }
    requires readers { All (λ n. n < length net.now.first) (readers_in edges.now) }
    ensures { result ≡ find (both_ways net.now (high state.now)) (readers_in edges.now) }
{
    for (reader, _) in edges {
        let (up, down) = rows.says(net, state, *reader);
        if up && down {
            return Some(*reader);
        }
    }
    None
}

/// The least node with interference after a move, where this was the least before it, and that one is the first of the
/// readers of the moved node.
pub(crate) fn pulled_behind(
    net: &Net,
    state: &State,
    pulled: Option<u32>,
    found: Option<u32>,
) -> Option<u32>
    requires { length state.now ≡ length net.now.first }
    ensures { (before : List Bool) (node : ℕ)
        → state.now ≡ fired before node
        → pulled ≡ least_below (length net.now.first) (both_ways net.now (high before))
        → found ≡ find (both_ways net.now (high state.now)) (readers_below net.now (length net.now.first) node)
        → result ≡ least_below (length net.now.first) (both_ways net.now (high state.now)) }
{
    match pulled {
        None => found,
        Some(_) => first_pulled(net, state),
    }
}

/// A node with interference comes before one whose move was disabled, and that before a channel whose
/// phases are broken.
pub(crate) fn worst_cause(
    pulled: Option<u32>,
    lost: Option<u32>,
    broken: Option<u32>,
) -> Option<Hazard>
    ensures { result ≡ worst_cause pulled lost broken }
{
    if let Some(node) = pulled {
        return Some(Hazard::BothWays { node });
    }
    if let Some(node) = lost {
        return Some(Hazard::Unstable { node });
    }
    match broken {
        None => None,
        Some(chan) => Some(Hazard::Protocol { chan }),
    }
}
