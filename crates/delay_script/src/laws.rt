//! Laws of delay files and of timed runs.

ghost use Rattle.std.specs.Prelude.{◌≡◌, ◌*◌, ◌≤◌, true, List, ℕ, length};
ghost use Rattle.prs_core.specs.Nets.{NetValue};
ghost use Rattle.env_script.specs.Scripts.{OfferValue};
ghost use Rattle.env_script.specs.Runs.{RunState, move_enabled, after};
ghost use Rattle.delay_script.specs.declared.fault.DelayFault.{DelayFault};
ghost use Rattle.delay_script.specs.DelayTables.{DelayTable, TakesAtMost};
ghost use Rattle.event_sim.specs.Simulating.{RanValue};
ghost use Rattle.delay_script.specs.declared.noted.NotedMove.{NotedMove};
ghost use Rattle.delay_script.specs.DelayText.{IsDelayText, IsDelayRefused};
ghost use Rattle.delay_script.specs.Causes.{IsEnabledSince};
ghost use Rattle.delay_script.specs.TimedRuns.{TimedValue, IsTimedRan};

/// Law: a text gives at most one table of delays for the nodes of some names.
pub fn one_delay_table()
    ensures { (names : List (List ℕ)) (text : List ℕ) (d e : DelayTable)
        → IsDelayText names text d
        → IsDelayText names text e
        → d ≡ e }
{}

/// Law: a text that is refused is no delay file, and is refused for one cause at one line.
pub fn one_delay_refusal()
    ensures none { (names : List (List ℕ)) (text : List ℕ) (d : DelayTable) (f : DelayFault) (n : ℕ)
        → IsDelayRefused names text f n
        → ¬ IsDelayText names text d }
    ensures only { (names : List (List ℕ)) (text : List ℕ) (f g : DelayFault) (n m : ℕ)
        → IsDelayRefused names text f n
        → IsDelayRefused names text g m
        → (f ≡ g) × (n ≡ m) }
{}

/// Law: after a run each move that is enabled has one cause, and a move with a cause is enabled.
pub fn one_cause()
    ensures some { (net : NetValue) (script : List OfferValue) (st : RunState) (ns : List ℕ) (n : ℕ)
        → move_enabled net script (after net st ns) n ≡ true
        → ((number : ℕ) × IsEnabledSince net script st ns n number) }
    ensures only { (net : NetValue) (script : List OfferValue) (st : RunState) (ns : List ℕ) (n a b : ℕ)
        → IsEnabledSince net script st ns n a
        → IsEnabledSince net script st ns n b
        → a ≡ b }
    ensures enabled { (net : NetValue) (script : List OfferValue) (st : RunState) (ns : List ℕ) (n number : ℕ)
        → IsEnabledSince net script st ns n number
        → move_enabled net script (after net st ns) n ≡ true }
{}

/// Law: a timed run has one list of moves, with one time and one cause for each, and one end.
pub fn one_timed_run()
    ensures moves { (t : TimedValue) (ms ns : List NotedMove) (r q : RanValue) (u v : ℕ)
        → IsTimedRan t ms r u
        → IsTimedRan t ns q v
        → ms ≡ ns }
    ensures ran { (t : TimedValue) (ms ns : List NotedMove) (r q : RanValue) (u v : ℕ)
        → IsTimedRan t ms r u
        → IsTimedRan t ns q v
        → r ≡ q }
    ensures time { (t : TimedValue) (ms ns : List NotedMove) (r q : RanValue) (u v : ℕ)
        → IsTimedRan t ms r u
        → IsTimedRan t ns q v
        → u ≡ v }
{}

/// Law: where no rise and no fall takes longer than some time, a timed run ends by that time for each of its moves.
pub fn timed_runs_end_in_time()
    ensures { (most : ℕ) (t : TimedValue) (ms : List NotedMove) (r : RanValue) (end_time : ℕ)
        → TakesAtMost most t.delays
        → IsTimedRan t ms r end_time
        → end_time ≤ most * length ms }
{}
