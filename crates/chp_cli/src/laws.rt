//! Laws of what commands answer.

ghost use Rattle.std.specs.Prelude.{◌≡◌, ◌≢◌, ℕ, List, Some, true};
ghost use Rattle.command_answers.specs.declared.answer.Ending.{Ending};
ghost use Rattle.command_answers.specs.declared.answer.Ending.TheVariants as ending;
ghost use Rattle.command_answers.specs.declared.status.Status.TheVariants.{Done};
ghost use Rattle.command_answers.specs.Answers.{Answer, Given, OneAnswer, status_of, writes};
ghost use Rattle.program_commands.specs.Bodies.{IsFaithful};
ghost use Rattle.program_commands.specs.Compiling.{Compiles, IsFaithfulFile, IsFileCompiled, IsToCompile};
ghost use Rattle.command_words.specs.CompileWords.{AskedCompilation};
ghost use Rattle.program_commands.specs.Migrating.{Migrates, IsToMigrate};
ghost use Rattle.command_words.specs.CommandWords.{Asked};
ghost use Rattle.chp_cli.specs.Commands.{EndsServed, IsAnswer, IsToServe};
ghost use Rattle.command_steps.specs.Orders.{Played};
ghost use Rattle.bench_commands.specs.HandedIn.{HandedIn};
ghost use Rattle.bench_commands.specs.OnBench.{Benches};
ghost use Rattle.chp_cli.specs.BenchedFiles.{IsFileBenched, benched_run};
ghost use Rattle.command_words.specs.BenchWords.{AskedBench};
ghost use Rattle.chp_cli.specs.MadeRuns.{EndsAllAtRest, FollowsRounds};
ghost use Rattle.chp_cli.specs.Resting.{KeepsPaceWith};
ghost use Rattle.chp_cli.specs.Serving.{IsToBench, IsToSimulate, IsToTime, IsToTrace};
ghost use Rattle.chp_cli.specs.ServedRuns.{IsCompiledToBench, IsCompiledToSimulate, IsCompiledToTime, IsCompiledToTrace};
ghost use Rattle.command_steps.specs.References.{IsReferredTo, IsToReferTo};
ghost use Rattle.chp_cli.specs.Simulated.{HoldsCarrying, HoldsCompiled, IsFileSimulated, simulated_run};
ghost use Rattle.command_words.specs.SimulateWords.{AskedRun, AskedTiming};
ghost use Rattle.simulation_commands.specs.Simulating.{Simulates};
ghost use Rattle.command_answers.specs.Statuses.{is_whole};
ghost use Rattle.chp_cli.specs.TimedFiles.{IsFileTimed, timed_run};
ghost use Rattle.simulation_commands.specs.Timing.{SimulatesTimed};
ghost use Rattle.chp_cli.specs.TracedFiles.{IsFileTraced, traced_run};
ghost use Rattle.command_words.specs.WavesWords.{AskedWaves};
ghost use Rattle.simulation_commands.specs.Tracing.{Traces};
ghost use Rattle.chp_cli.specs.LaidOut.{LaidOutsAreCompared, MeansAlike};
ghost use Rattle.chp_cli.specs.Unplaced.{AreLaidOutAlike};
ghost use Rattle.chp_cli.specs.UnplacedForms.{AreFormedAlike};
ghost use Rattle.chp_cli.specs.UnplacedMeanings.{MeanTheSame};
ghost use Rattle.chp_syntax.specs.Trees.{ProgramTree};
ghost use Rattle.command_steps.specs.Inlined.{Means};
ghost use Rattle.handshake_expand.specs.Layout.{nodes_of};
ghost use Rattle.net_compose.specs.Translation.{translation};
ghost use Rattle.width_check.specs.Accepted.{IsAccepted};
ghost use Rattle.width_check.specs.Form.{typed_form};
ghost use Rattle.width_check.specs.Processes.{TypedProgram};

use call_compose::{calls_asked, calls_typed};
use command_steps::laws::{meant_buffers_are_right, meant_programs_are_shaped};
use delay_script::laws::timed_runs_end_in_time;
use event_sim::laws::{passed_are_histories, power_is_powered, safe_moves_bring_no_hazard};
use net_compose::laws::{carries, carries_reset, runs_end, runs_end_reset, whole_nets};
use net_pace::{keeps_timed_pace, keeps_timed_pace_reset, shared_bodies_keep_time};
use peer_bench::laws::{bench_rests_are_rests, bench_runs_are_calm};
use program_commands::laws::shared_nets_are_faithful;

/// Law: to the same files of an observable shelf, and with the same orders and devices before and after, a command has
/// at most one answer.
pub fn one_answer()
    ensures { (command : Asked) (given : Given) (handed : HandedIn) → given.tells ≡ true →
        OneAnswer (IsAnswer command given handed) }
{
    width_check::laws::one_fault();
    sharing_check::laws::one_shared_fault();
    history_report::laws::one_comparison();
    delay_script::laws::one_timed_run();
    wave_file::laws::one_causes_text();
}

/// Law: what `compile` writes is the one text of the net of what the one program means that a text reads as, which is
/// the file's where the shelf is observable: of this program itself, where it has neither procedures nor calls. What it
/// means is accepted. Of a text with procedures it is the net in which all calls of a procedure share one body. Where a
/// buffer is asked for, it is that of what the program means with the buffer, in which each call has a copy of its own.
/// (That the buffer keeps what passes, and that the net carries the program, are clauses of the call that compiles.)
pub fn compiled_right()
    ensures { (c : AskedCompilation) (given : Given) (end : Ending) (text : List ℕ) →
        Compiles c given (writes end text) → IsFileCompiled c given text }
{}

/// Law: a file that holds what `compile` wrote, on whatever shelf, is as is premised of files that `compile` wrote. So
/// what is said of their simulations, timed runs, waves and benches holds of it.
pub fn written_files_hold()
    ensures { (c : AskedCompilation) (given more : Given) (file written : List ℕ)
        (is : IsFaithfulFile c given written) → more.files file ≡ Some written →
        HoldsCompiled more file (typed_form is.file.made) }
{
    meant_buffers_are_right();
}

/// Law: the only answer of `compile` to a file that holds what is to be compiled is to write.
pub fn compiles_all()
    ensures { (c : AskedCompilation) (given : Given) → given.tells ≡ true → IsToCompile c given →
        (answer : Answer) → Compiles c given answer → status_of answer ≡ Done }
{
    width_check::laws::one_fault();
    sharing_check::laws::one_shared_fault();
}

/// Law: the only answer of `migrate` to a file that holds what is to be migrated is to write.
pub fn migrates_all()
    ensures { (given : Given) (file : List ℕ) → given.tells ≡ true → IsToMigrate given file → (answer : Answer) →
        Migrates given file answer → status_of answer ≡ Done }
{}

/// Law: what `simulate` writes is the report of one run of the net under the script that its files hold, to which the
/// order of the wanted name led after it was given the seed: what its log has grown by in the call are places in the
/// lists of enabled moves, one for each move; and the run has ended as is reported, and no shorter part of it has.
pub fn simulated_right()
    ensures { (s : AskedRun) (given : Given) (played : Played) → given.tells ≡ true → (end : Ending) (text : List ℕ) →
        Simulates s given played (writes end text) → IsFileSimulated s given played (writes end text) }
{}

/// Law: the only answers of `simulate` to files that hold what can be simulated, by an order that is there, are to
/// write.
pub fn simulates_all()
    ensures { (s : AskedRun) (given : Given) (played : Played) → given.tells ≡ true → IsToSimulate s given played →
        (answer : Answer) → Simulates s given played answer → is_whole (status_of answer) ≡ true }
{
    width_check::laws::one_fault();
    sharing_check::laws::one_shared_fault();
}

/// Law: where the files hold what a command is served with, and the order and the device that it asks for are there,
/// its only answers are to write: `simulate`, `bench` and `waves` how the run ended, any other that all went well.
pub fn serves_all()
    ensures { (command : Asked) (given : Given) (handed : HandedIn) → given.tells ≡ true →
        IsToServe command given handed → (answer : Answer) → IsAnswer command given handed answer →
        EndsServed command (status_of answer) }
{
    width_check::laws::one_fault();
    sharing_check::laws::one_shared_fault();
}

/// Law: the simulation of a rule file whose net carries a program finds no hazard, by whatever order and under whatever
/// script; with a reset node from whatever power-up is asked for.
pub fn carried_runs_are_safe()
    ensures { (s : AskedRun) (given : Given) (played : Played) (p : TypedProgram) → HoldsCarrying given s.net p →
        (end : Ending) (text : List ℕ) → IsFileSimulated s given played (writes end text) → end ≢ ending.Hazard }
{
    power_is_powered();
    safe_moves_bring_no_hazard();
}

/// Law: the run of such a rule file agrees with the rounds of that program, if it is compared with it: so it ends well.
pub fn carried_runs_agree()
    ensures { (s : AskedRun) (given : Given) (played : Played) (p : TypedProgram) → given.tells ≡ true →
        HoldsCarrying given s.net p → IsReferredTo given s.against p →
        (end : Ending) (text : List ℕ) → IsFileSimulated s given played (writes end text) → end ≡ ending.Done }
{
    chp_meaning::laws::rounds_hold();
    history_report::laws::one_comparison();
    passed_are_histories();
    power_is_powered();
    safe_moves_bring_no_hazard();
}

/// Law: where the simulation of such a rule file reports rest, by an order or by delays, no order makes more moves of
/// it under that script from that state, and each run that rests has as many moves, of each node as many. So it is of a
/// run on a bench, under the script of all that the device offered and took.
pub fn carried_runs_have_one_length()
    ensures simulated { (s : AskedRun) (given : Given) (played : Played) (p : TypedProgram) →
        HoldsCarrying given s.net p → (answer : Answer) (f : IsFileSimulated s given played answer) →
        EndsAllAtRest (simulated_run s f) }
    ensures timed { (t : AskedTiming) (given : Given) (p : TypedProgram) → HoldsCarrying given t.net p →
        (answer : Answer) (f : IsFileTimed t given answer) → EndsAllAtRest (timed_run t f) }
    ensures traced { (w : AskedWaves) (given : Given) (p : TypedProgram) → HoldsCarrying given w.net p →
        (answer : Answer) (f : IsFileTraced w given answer) → EndsAllAtRest (traced_run w f) }
    ensures benched { (b : AskedBench) (given : Given) (handed : HandedIn) (p : TypedProgram) →
        HoldsCarrying given b.net p → (answer : Answer) (f : IsFileBenched b given handed answer) →
        EndsAllAtRest (benched_run b f) }
{
    power_is_powered();
    safe_moves_bring_no_hazard();
}

/// Law: the net of the typed form of an accepted program, be it that in which each call has a copy of its procedure's
/// body or that in which all calls of a procedure share one, is as is promised of what `compile` writes, if it isn't
/// too large: it is one that a rule file can hold, it carries the program, and it keeps pace with it.
pub fn files_as_promised()
    ensures { (given : Given) (file : List ℕ) (p : TypedProgram) (holds : HoldsCompiled given file p) →
        IsFaithful holds.reset holds.bodies }
{
    width_check::laws::form_is_typed();
    whole_nets();
    carries();
    runs_end();
    carries_reset();
    runs_end_reset();
    shared_nets_are_faithful();
}

/// Law: what `compile` writes for a program is the rule file of a net that carries it, so what holds of simulations of
/// such files holds of each file that `compile` wrote.
pub fn compiled_files_carry()
    ensures { (given : Given) (file : List ℕ) (p : TypedProgram) → HoldsCompiled given file p →
        HoldsCarrying given file p }
{
    files_as_promised();
}

/// Law: each rule file that `compile` wrote is within the limit of rule files. So under each script of the program's
/// channels within its own limit, with any power if it has a reset node, it can be simulated and written as a wave,
/// where delays are wanted by each delay file of its nodes within their limit; it can be compared with an accepted
/// program, and put on a bench. (That these commands write then is the law `serves_all`.)
pub fn compiled_files_are_simulated()
    ensures simulated { (s : AskedRun) (given : Given) (played : Played) (p : TypedProgram) →
        IsToReferTo given s.against → IsCompiledToSimulate s given played p → IsToSimulate s given played }
    ensures timed { (t : AskedTiming) (given : Given) (p : TypedProgram) → IsToReferTo given t.against →
        IsCompiledToTime t given p → IsToTime t given }
    ensures benched { (b : AskedBench) (given : Given) (handed : HandedIn) (p : TypedProgram) →
        IsCompiledToBench b given handed p → IsToBench b given handed }
    ensures traced { (w : AskedWaves) (given : Given) (p : TypedProgram) → IsCompiledToTrace w given p →
        IsToTrace w given }
{
    files_as_promised();
}

/// Law: what `simulate` writes with delays is the report of the timed run of the net under the script by the delays
/// that its files hold: each move comes its delay later than the move since which it is enabled, and of the enabled
/// ones the first by time and by node is made; the run has ended as is reported, and no shorter part of it has.
pub fn timed_right()
    ensures { (t : AskedTiming) (given : Given) → given.tells ≡ true → (end : Ending) (text : List ℕ) →
        SimulatesTimed t given (writes end text) → IsFileTimed t given (writes end text) }
{}

/// Law: the timed simulation of a rule file whose net carries a program finds no hazard, whatever its delays are.
pub fn timed_runs_are_safe()
    ensures { (t : AskedTiming) (given : Given) (p : TypedProgram) → HoldsCarrying given t.net p →
        (end : Ending) (text : List ℕ) → IsFileTimed t given (writes end text) → end ≢ ending.Hazard }
{
    power_is_powered();
    safe_moves_bring_no_hazard();
}

/// Law: its run agrees with the rounds of that program, if it is compared with it: so it ends well.
pub fn timed_runs_agree()
    ensures { (t : AskedTiming) (given : Given) (p : TypedProgram) → given.tells ≡ true →
        HoldsCarrying given t.net p → IsReferredTo given t.against p →
        (end : Ending) (text : List ℕ) → IsFileTimed t given (writes end text) → end ≡ ending.Done }
{
    chp_meaning::laws::rounds_hold();
    history_report::laws::one_comparison();
    passed_are_histories();
    power_is_powered();
    safe_moves_bring_no_hazard();
}

/// Law: what `waves` writes tells the timed run of the net under the script by the delays that its files hold, all of
/// which are 1 where no delay file is named.
pub fn traced_right()
    ensures { (w : AskedWaves) (given : Given) → given.tells ≡ true → (end : Ending) (text : List ℕ) →
        Traces w given (writes end text) → IsFileTraced w given (writes end text) }
{}

/// Law: the wave of a rule file whose net carries a program ends in no hazard, whatever the delays are.
pub fn traced_runs_are_safe()
    ensures { (w : AskedWaves) (given : Given) (p : TypedProgram) → HoldsCarrying given w.net p →
        (end : Ending) (text : List ℕ) → IsFileTraced w given (writes end text) → end ≢ ending.Hazard }
{
    power_is_powered();
    safe_moves_bring_no_hazard();
}

/// Law: what `bench` writes is the report of one run on a bench of the net that its file holds, to which the order and
/// the device of the wanted names led: what the order's log has grown by in the call are places in the lists of enabled
/// moves, one for each move, and what the device's log has grown by are its notes of the run; and the run has ended as
/// is reported, and no shorter part of it has.
pub fn benched_right()
    ensures { (b : AskedBench) (given : Given) (handed : HandedIn) → given.tells ≡ true → (end : Ending)
        (text : List ℕ) → Benches b given handed (writes end text) → IsFileBenched b given handed (writes end text) }
{}

/// Law: the run on a bench of a rule file whose net carries a program finds no hazard, by whatever order and against
/// whatever device.
pub fn benched_runs_are_safe()
    ensures { (b : AskedBench) (given : Given) (handed : HandedIn) (p : TypedProgram) → HoldsCarrying given b.net p →
        (end : Ending) (text : List ℕ) → IsFileBenched b given handed (writes end text) → end ≢ ending.Hazard }
{
    power_is_powered();
    bench_runs_are_calm();
}

/// Law: the run on a bench of a rule file that `compile` wrote for a program passes on each channel a prefix of what
/// the program passes under the script of all that the device offered and took, and where it reports rest all of it.
pub fn benched_runs_follow()
    ensures { (b : AskedBench) (given : Given) (handed : HandedIn) (p : TypedProgram) → HoldsCompiled given b.net p →
        (answer : Answer) (f : IsFileBenched b given handed answer) → FollowsRounds p (benched_run b f) }
{
    chp_meaning::laws::rounds_hold();
    power_is_powered();
    bench_rests_are_rests();
    compiled_files_carry();
}

/// Law: a run of a rule file that `compile` wrote, by an order, by delays or written as a wave, passes on each channel
/// a prefix of what as many rounds of the program as it has moves pass under the script, and where it reports rest all
/// that the program passes.
pub fn compiled_runs_follow()
    ensures simulated { (s : AskedRun) (given : Given) (played : Played) (p : TypedProgram) →
        HoldsCompiled given s.net p → (answer : Answer) (f : IsFileSimulated s given played answer) →
        FollowsRounds p (simulated_run s f) }
    ensures timed { (t : AskedTiming) (given : Given) (p : TypedProgram) → HoldsCompiled given t.net p →
        (answer : Answer) (f : IsFileTimed t given answer) → FollowsRounds p (timed_run t f) }
    ensures traced { (w : AskedWaves) (given : Given) (p : TypedProgram) → HoldsCompiled given w.net p →
        (answer : Answer) (f : IsFileTraced w given answer) → FollowsRounds p (traced_run w f) }
{
    chp_meaning::laws::rounds_hold();
    power_is_powered();
    compiled_files_carry();
}

/// Law: where a program goes no further after m steps under the script, a run of the rule file that `compile` wrote for
/// it ends at rest, if its limit is above the most moves that its net makes till then: by whatever order it is made, or
/// by whatever delays, and on a bench under the script of all that the device offered and took. It has passed what the
/// program has, and `done` is high exactly where that has ended. Where no move takes longer than some time, the last
/// one comes no later than the most moves at that time each. And a timed run that rests has passed all that n rounds of
/// the program pass; so has one whose last move comes later than as many of these times as are enough for n rounds:
/// for each `longest`, which no way of moves through the circuit from the steps of one round to those of the next
/// exceeds, or where an assignment reads its own target twice `longest` of the program in halves; in a net with shared
/// bodies twice as many, by the program with copies; and with a reset node two more in all.
pub fn compiled_runs_rest()
    ensures simulated { (s : AskedRun) (given : Given) (played : Played) (p : TypedProgram)
        (holds : HoldsCompiled given s.net p) (answer : Answer) (f : IsFileSimulated s given played answer) →
        KeepsPaceWith holds.reset holds.bodies (simulated_run s f) }
    ensures timed { (t : AskedTiming) (given : Given) (p : TypedProgram) (holds : HoldsCompiled given t.net p)
        (answer : Answer) (f : IsFileTimed t given answer) →
        KeepsPaceWith holds.reset holds.bodies (timed_run t f) }
    ensures traced { (w : AskedWaves) (given : Given) (p : TypedProgram) (holds : HoldsCompiled given w.net p)
        (answer : Answer) (f : IsFileTraced w given answer) →
        KeepsPaceWith holds.reset holds.bodies (traced_run w f) }
    ensures benched { (b : AskedBench) (given : Given) (handed : HandedIn) (p : TypedProgram)
        (holds : HoldsCompiled given b.net p) (answer : Answer) (f : IsFileBenched b given handed answer) →
        KeepsPaceWith holds.reset holds.bodies (benched_run b f) }
{
    power_is_powered();
    safe_moves_bring_no_hazard();
    bench_runs_are_calm();
    bench_rests_are_rests();
    files_as_promised();
    compiled_files_carry();
    timed_runs_end_in_time();
    width_check::laws::form_is_typed();
    keeps_timed_pace();
    keeps_timed_pace_reset();
    shared_nets_are_faithful();
    shared_bodies_keep_time();
    calls_asked();
    calls_typed();
}

/// Law: places don't matter. Of two programs that are the same but for places, where their things stand in a text, both
/// are accepted or neither is (`accepted`), and with procedures both mean a program or neither does, and what they mean
/// is the same but for places (`meant`). The typed forms of both, which keep places for the reports of faults, are the
/// same but for places too (`formed`). And two typed programs that are so mean the same, round by round, under every
/// script (`meaning`), and have one net, of as many nodes (`net`).
pub fn places_do_not_matter()
    ensures accepted { (p q : ProgramTree) → AreLaidOutAlike p q → IsAccepted p → IsAccepted q }
    ensures meant { (p q : ProgramTree) → AreLaidOutAlike p q → (plain : ProgramTree) → Means p plain →
        MeansAlike q plain }
    ensures formed { (p q : ProgramTree) → AreLaidOutAlike p q → AreFormedAlike (typed_form p) (typed_form q) }
    ensures meaning { (p q : TypedProgram) → AreFormedAlike p q → MeanTheSame p q }
    ensures net { (p q : TypedProgram) → AreFormedAlike p q →
        (translation p ≡ translation q) × (nodes_of p ≡ nodes_of q) }
{}

/// Law: so a rule file may be compared with its program laid out differently. Let `compile` have written it from a
/// text, without a buffer, and let another file hold a text that is the same program but for places, procedures or not.
/// Then of some one program the one file is the rule file that `compile` writes, and the other one holds its text. So
/// by the clause `agreed` of `chp_main` a run of that file, compared with that text, never ends with `Differs`.
pub fn laid_outs_are_compared()
    ensures { LaidOutsAreCompared }
{
    meant_programs_are_shaped();
}
