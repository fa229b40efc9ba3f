//! Laws of waves and of causes.

ghost use Rattle.std.specs.Prelude.{◌≡◌, ◌<◌, ◌≤◌, ℕ, Bool, List, length, All};
ghost use Rattle.prs_core.specs.Nets.{IsNet};
ghost use Rattle.event_sim.specs.Following.{power_of};
ghost use Rattle.event_sim.specs.Simulating.{RanValue};
ghost use Rattle.delay_script.specs.declared.noted.NotedMove.{NotedMove};
ghost use Rattle.delay_script.specs.DelayTables.{DelayTable, IsDelayTable};
ghost use Rattle.delay_script.specs.TimedRuns.{TimedValue, IsTimedRan};
ghost use Rattle.wave_file.specs.declared.fault.WaveFault.{WaveFault as FaultValue};
ghost use Rattle.wave_file.specs.CauseChains.{AreCaused, TellsCauses, values_given};
ghost use Rattle.wave_file.specs.RunWaves.{wave_of_run};
ghost use Rattle.wave_file.specs.WaveReading.{IsWaveRefused, IsWaveText};
ghost use Rattle.wave_file.specs.Waves.{WaveValue, IsWave, IsKeptWave};

/// Law: the moves of a timed run are a wave, and each has its cause; and one of at most a million moves, none of which
/// takes longer than a million, is a wave that a text can hold.
pub fn timed_runs_are_waves()
    ensures wave { (t : TimedValue) (ms : List NotedMove) (r : RanValue) (u : ℕ)
        → IsNet t.net
        → IsTimedRan t ms r u
        → IsWave (wave_of_run t.net t.high ms) }
    ensures kept { (t : TimedValue) (ms : List NotedMove) (r : RanValue) (u : ℕ)
        → IsNet t.net
        → IsDelayTable (length t.net.first) t.delays
        → t.steps ≤ 1000000
        → IsTimedRan t ms r u
        → IsKeptWave (wave_of_run t.net t.high ms) }
    ensures nodes { (t : TimedValue) (ms : List NotedMove) (r : RanValue) (u : ℕ)
        → IsNet t.net
        → IsTimedRan t ms r u
        → All (λ (m : NotedMove). m.node < length t.net.first) ms }
    ensures caused { (t : TimedValue) (ms : List NotedMove) (r : RanValue) (u : ℕ)
        → IsTimedRan t ms r u
        → AreCaused t.delays (values_given (power_of t.net t.high) ms) ms }
{}

/// Law: at most one text prints the causes of some moves.
pub fn one_causes_text()
    ensures { (names : List (List ℕ)) (d : DelayTable) (given : List Bool) (ms : List NotedMove) (a b : List ℕ)
        → TellsCauses names d given ms a
        → TellsCauses names d given ms b
        → a ≡ b }
{}

/// Law: a text is at most one wave.
pub fn one_wave()
    ensures { (text : List ℕ) (a b : WaveValue) → IsWaveText text a → IsWaveText text b → a ≡ b }
{}

/// Law: a text is refused for at most one cause at one line, and a text that is a wave for none.
pub fn one_wave_refusal()
    ensures once { (text : List ℕ) (f g : FaultValue) (l m : ℕ) → IsWaveRefused text f l → IsWaveRefused text g m →
        (f ≡ g) × (l ≡ m) }
    ensures never { (text : List ℕ) (wave : WaveValue) (f : FaultValue) (l : ℕ) → IsWaveText text wave →
        ¬ IsWaveRefused text f l }
{}
