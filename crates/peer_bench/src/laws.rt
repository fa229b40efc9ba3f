//! Laws of runs on a bench.

ghost use Rattle.std.specs.Prelude.{◌≡◌, ◌⊎◌, ℕ, false, List, [], length, filter, None, IsSome};
ghost use Rattle.prs_core.specs.Nets.{NetValue, IsNet};
ghost use Rattle.env_script.specs.Runs.{IsRun, IsAtRest, IsPowered, after, begin_at, run_start};
ghost use Rattle.env_script.specs.OneLength.{AllSafe};
ghost use Rattle.event_sim.specs.declared.ran.End.TheVariants.{AtRest, Spent};
ghost use Rattle.event_sim.specs.Following.{power_of};
ghost use Rattle.event_sim.specs.Simulating.{RanValue};
ghost use Rattle.peer_bench.specs.declared.note.Note.{Note};
ghost use Rattle.peer_bench.specs.Growing.{script_by};
ghost use Rattle.peer_bench.specs.Asking.{PeerValue};
ghost use Rattle.peer_bench.specs.Benches.{SetupValue, bench_start, bench_moves, IsBenchRun};
ghost use Rattle.peer_bench.specs.Instants.{may_ask_after, AreNotesAt, is_took, taken_in};

/// Law: a run on a bench is a run of the net under the script of all that the device offered and took: from the first
/// values where the net has no reset node, else from one of its power-up states.
pub fn bench_runs_are_runs()
    ensures run { (s : SetupValue) (picks : List ℕ) (notes : List Note) (was is : PeerValue) (ran : RanValue)
        → IsBenchRun (λ p. p) s picks notes was is ran
        → IsRun s.net (script_by s.net notes) (bench_start s.net) (bench_moves s.net notes picks) }
    ensures plain { (net : NetValue) → net.reset ≡ None → bench_start net ≡ run_start net }
    ensures powered { (net : NetValue)
        → IsNet net
        → IsSome net.reset
        → (bench_start net ≡ begin_at net (power_of net false)) × IsPowered net (power_of net false) }
{}

/// Law: where a run on a bench rests, it rests under that script too.
pub fn bench_rests_are_rests()
    ensures { (s : SetupValue) (picks : List ℕ) (notes : List Note) (was is : PeerValue) (ran : RanValue)
        → IsNet s.net
        → IsBenchRun (λ p. p) s picks notes was is ran
        → ran.end ≡ AtRest
        → IsAtRest s.net (script_by s.net notes) (after s.net (bench_start s.net) (bench_moves s.net notes picks)) }
{}

/// Law: a device notes an answer only at the start or at a move that changes the acknowledge of an external channel or
/// lowers reset, never while reset is high, and of an idle channel of the right kind; in a net with a reset node none
/// at the start. What it notes that it took are the values that pass on the `out` channels, in order, each at its move.
pub fn notes_are_placed()
    ensures placed { (s : SetupValue) (picks : List ℕ) (notes : List Note) (was is : PeerValue) (ran : RanValue)
        → IsBenchRun (λ p. p) s picks notes was is ran
        → AreNotesAt s.net (bench_start s.net) (bench_moves s.net notes picks) [] notes }
    ensures took { (s : SetupValue) (picks : List ℕ) (notes : List Note) (was is : PeerValue) (ran : RanValue)
        → IsBenchRun (λ p. p) s picks notes was is ran
        → filter is_took notes ≡ taken_in s.net (bench_start s.net) 0 (bench_moves s.net notes picks) }
    ensures late { (net : NetValue)
        → IsNet net
        → IsSome net.reset
        → (moves : List ℕ)
        → may_ask_after net (bench_start net) moves 0 ≡ false }
{}

/// Law: where every run of the net under that script is safe, a run on a bench ends at rest, or with its moves spent.
pub fn bench_runs_are_calm()
    ensures { (s : SetupValue) (picks : List ℕ) (notes : List Note) (was is : PeerValue) (ran : RanValue)
        → IsNet s.net
        → IsBenchRun (λ p. p) s picks notes was is ran
        → AllSafe s.net (script_by s.net notes) (bench_start s.net)
        → ((ran.end ≡ AtRest) ⊎ (ran.end ≡ Spent)) }
{}
