//! Laws of simulated runs.

ghost use Rattle.std.specs.Prelude.{◌≡◌, ◌≢◌, ◌↔◌, ℕ, ◌<◌, Bool, true, false, List, [], length, Contains, slice_index_or, Option, None, IsSome};
ghost use Rattle.prs_core.specs.Nets.{NetValue, IsNet};
ghost use Rattle.prs_core.specs.Moves.{high};
ghost use Rattle.prs_core.specs.Fans.{fan_value};
ghost use Rattle.env_script.specs.Scripts.{OfferValue};
ghost use Rattle.env_script.specs.Environment.{in_reset, is_reset};
ghost use Rattle.env_script.specs.Runs.{RunState, IsRun, IsApart, IsSafeMove, IsPowered, move_enabled, moved, after, begin_at, history_at};
ghost use Rattle.env_script.specs.Hazards.{hazard_of};
ghost use Rattle.event_sim.specs.Following.{ArePicks, follow, power_of};
ghost use Rattle.event_sim.specs.Locality.{share_channel};
ghost use Rattle.event_sim.specs.Passing.{passed_in, values_through};

use prs_core::only_readers;

/// Law: picks lead to a run, and every run is led to by some picks.
pub fn runs_are_picked()
    ensures run { (net : NetValue) (script : List OfferValue) (st : RunState) (picks : List ℕ)
        → ArePicks net script st picks
        → IsRun net script st (follow net script st picks) }
    ensures picks { (net : NetValue) (script : List OfferValue) (st : RunState) (ns : List ℕ)
        → IsNet net
        → IsRun net script st ns
        → ((picks : List ℕ) × ArePicks net script st picks × (follow net script st picks ≡ ns)) }
{}

/// Law: of the values that pass in a run, those of one channel are its history.
pub fn passed_are_histories()
    ensures { (net : NetValue) (values : List Bool) (ns : List ℕ) (c : ℕ)
        → IsNet net
        → c < length net.channels
        → values_through c (passed_in net (begin_at net values) ns) ≡
        history_at (after net (begin_at net values) ns).histories c }
{}

/// Law: a move's node is one of the net's.
pub fn moves_are_in_range()
    ensures { (net : NetValue) (script : List OfferValue) (st : RunState) (n : ℕ)
        → IsNet net
        → move_enabled net script st n ≡ true
        → n < length net.first }
{}

/// Law: a move is safe, and no node has interference after it, exactly where it brings no hazard.
pub fn safe_moves_bring_no_hazard()
    ensures { (net : NetValue) (script : List OfferValue) (st : RunState) (n : ℕ)
        → IsNet net
        → ((IsSafeMove net script st n × IsApart net (moved net st n)) ↔ (hazard_of net script st n ≡ None)) }
{}

/// Law: the start of a run of a net with a reset node is one of its power-up states.
pub fn power_is_powered()
    ensures { (net : NetValue) (high : Bool)
        → IsNet net
        → IsSome net.reset
        → IsPowered net (power_of net high) }
{}

/// Law: outside of a reset a move changes what is enabled only at its own node, at the nodes that read it, and at the
/// wires of the channels that it is a wire of.
pub fn moves_concern_what_is_near()
    ensures { (net : NetValue) (script : List OfferValue) (st : RunState) (n m : ℕ)
        → in_reset net.reset (high st.values) ≡ false
        → is_reset net.reset n ≡ false
        → length st.histories ≡ length net.channels
        → n < length net.first
        → m < length net.first
        → m ≢ n
        → ¬ Contains (slice_index_or (fan_value net) n []) m
        → share_channel net n m ≡ false
        → move_enabled net script (moved net st n) m ≡ move_enabled net script st m }
{
    only_readers();
}
