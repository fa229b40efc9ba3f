//! How soon the net of a program passes what the program passes, whatever moves first: in sweeps and in delays.
#![tactic(auto)]

ghost use Rattle.std.specs.Prelude.{◌≡◌, ◌≤◌, ◌*◌, ℕ, List, None};
ghost use Rattle.prs_core.specs.Nets.{NetValue, IsNet};
ghost use Rattle.reset_net.specs.Resets.{reset_of};
ghost use Rattle.width_check.specs.Processes.{TypedProgram};
ghost use Rattle.width_check.specs.Sharing.{MeetsSharing};
ghost use Rattle.width_check.specs.Typing.{IsTyped};
ghost use Rattle.handshake_expand.specs.Layout.{nodes_of};
ghost use Rattle.chp_meaning.specs.Halves.{halved_program};
ghost use Rattle.round_time.specs.Longest.{longest};
ghost use Rattle.net_compose.specs.Translation.{translation};
ghost use Rattle.net_compose.specs.Carries.{Carries};
ghost use Rattle.net_compose.specs.Points.{IsTranslated};
ghost use Rattle.net_compose.specs.Time.{KeepsTime, PassesInSweeps};
ghost use Rattle.call_map.specs.CallNet.{CallProgram, IsCallProgram, inlined_program, call_count, call_names, call_net};
ghost use Rattle.env_script.specs.Scripts.{OfferValue, IsScript};
ghost use Rattle.env_script.specs.Runs.{RunState};
ghost use Rattle.net_pace.specs.Endless.{NoNodeWaits, NoValueWaits, NoValueWaitsReset, SweepsEnd};
ghost use Rattle.net_pace.specs.HalvedRounds.{TwoRoundsForOne};
ghost use Rattle.net_pace.specs.Pace.{IsRoundTime, TimedPace, KeepsTimeReset, TimedPaceReset};
ghost use Rattle.net_pace.specs.Sums.{IsRoundsTime, PassesRounds};

use call_map::{shared_bodies_carry, shared_bodies_hold, shared_bodies_layers};
use cell_parallel::laws::tree_settles;
use chp_meaning::laws::halves_are_plain;
use function_blocks::laws::expressions_hold;
use net_compose::laws::{carries, plain_nets_keep_time, whole_nets};
use reset_runs::reset_runs;

/// Law: a typed program that meets the sharing rule may be taken in halves, each `x := e` with x in e as
/// `h := e; x := h`. Two rounds of it in halves have then passed what one of its own rounds has.
pub fn halves_keep_rounds()
    ensures { TwoRoundsForOne }
{}

/// Law: `longest` of a program in halves is no greater than its own.
pub fn halves_take_no_longer()
    ensures { (p : TypedProgram) → IsTyped p.channels p.vars p.body → MeetsSharing p.body →
        longest (halved_program p) ≤ longest p }
{
    halves_are_plain();
}

/// Law: the net of each such program of at most 65,536 nodes keeps time. A sweep of a run is a stretch of it in which
/// each node moves that was enabled when it began. Where no assignment reads its own target, every run whose moves
/// begin with `longest` sweeps for each of n rounds of the program has passed what these pass, under every script and
/// in whatever order the nodes switch; in any program twice as many as `longest` of the program in halves are enough.
/// `longest` is read off the program: no way of moves, each of which waits for the one before, from the steps of one
/// round to those of the next is longer. (In both 2 nodes + 1 takes its place where it is less.)
pub fn keeps_time()
    ensures { (p : TypedProgram) → IsTranslated p → nodes_of p ≤ 65536 → (sweeps : ℕ) → IsRoundTime p sweeps →
        KeepsTime (translation p) p sweeps }
{
    carries();
    whole_nets();
    halves_are_plain();
    tree_settles();
    expressions_hold();
    halves_keep_rounds();
    plain_nets_keep_time();
}

/// Law: the net in which all calls of a procedure share one body keeps time with the program in which each call is a
/// copy, in twice as many sweeps for each round as the net with copies. What the clauses `net` of the laws below say of
/// any net then holds of it.
pub fn shared_bodies_keep_time()
    ensures { (C : CallProgram) → IsCallProgram C → IsTranslated (inlined_program C) →
        nodes_of (inlined_program C) ≤ 65536 → call_count C ≤ 65536 →
        (sweeps : ℕ) → IsRoundTime (inlined_program C) sweeps →
        KeepsTime (call_net C (call_names C)) (inlined_program C) (2 * sweeps) }
{
    carries();
    whole_nets();
    keeps_time();
    shared_bodies_layers();
    shared_bodies_carry();
    shared_bodies_hold();
}

/// Law: so it does by time. Each timed run, under every script, with delays of at most D, the environment's too, whose
/// last move comes later than as many times D for each of n rounds of the program, or which has come to rest, has
/// passed what these pass; and `net`: any net that carries a program and keeps time in so many sweeps keeps it in as
/// many times D.
pub fn keeps_timed_pace()
    ensures every { (p : TypedProgram) → IsTranslated p → nodes_of p ≤ 65536 → (sweeps : ℕ) → IsRoundTime p sweeps →
        TimedPace (translation p) p sweeps }
    ensures net { (net : NetValue) (p : TypedProgram) (sweeps : ℕ) → Carries net p → KeepsTime net p sweeps →
        TimedPace net p sweeps }
{
    carries();
    keeps_time();
}

/// Law: with a reset node it keeps time from power-up, with two sweeps more: in the first each node goes to its first
/// value, in the second reset falls.
pub fn keeps_time_reset()
    ensures every { (p : TypedProgram) → IsTranslated p → nodes_of p ≤ 65536 → (sweeps : ℕ) → IsRoundTime p sweeps →
        KeepsTimeReset (reset_of (translation p)) p sweeps }
    ensures net { (net : NetValue) (p : TypedProgram) (sweeps : ℕ) → IsNet net → net.reset ≡ None → Carries net p →
        KeepsTime net p sweeps → KeepsTimeReset (reset_of net) p sweeps }
{
    carries();
    whole_nets();
    reset_runs();
    keeps_time();
}

/// Law: and so by time, with twice D more.
pub fn keeps_timed_pace_reset()
    ensures every { (p : TypedProgram) → IsTranslated p → nodes_of p ≤ 65536 → (sweeps : ℕ) → IsRoundTime p sweeps →
        TimedPaceReset (reset_of (translation p)) p sweeps }
    ensures net { (net : NetValue) (p : TypedProgram) (sweeps : ℕ) → IsNet net → net.reset ≡ None → Carries net p →
        KeepsTime net p sweeps → TimedPaceReset (reset_of net) p sweeps }
{
    carries();
    whole_nets();
    reset_runs();
    keeps_time();
}

/// Law: in a run of a net that never ends each sweep ends, whenever it begins, if no enabled node waits for ever.
pub fn sweeps_end()
    ensures { (net : NetValue) (script : List OfferValue) (st : RunState) (nodes : ℕ → ℕ) → IsNet net →
        NoNodeWaits net script st nodes → SweepsEnd net script st nodes }
{}

/// Law: no value on a channel waits for ever because others go on. Where n rounds of a program pass a value on a
/// channel under a script, behind k others, its net passes it there behind as many, in whatever order the nodes switch:
/// each run has passed it that begins with so many sweeps for each of the n rounds; each run passes it that never ends,
/// and in which each sweep ends (which is all that is assumed of the order); and each timed run has passed it whose
/// last move comes later than as many times the longest delay, or which rests. In the net with copies these are
/// those of `keeps_time`, where bodies are shared twice as many (`shared`); and in any net as many in which it keeps
/// time (`net`).
pub fn no_value_waits()
    ensures copied { (p : TypedProgram) → IsTranslated p → nodes_of p ≤ 65536 → (sweeps : ℕ) → IsRoundTime p sweeps →
        NoValueWaits (translation p) p sweeps }
    ensures shared { (C : CallProgram) → IsCallProgram C → IsTranslated (inlined_program C) →
        nodes_of (inlined_program C) ≤ 65536 → call_count C ≤ 65536 →
        (sweeps : ℕ) → IsRoundTime (inlined_program C) sweeps →
        NoValueWaits (call_net C (call_names C)) (inlined_program C) (2 * sweeps) }
    ensures net { (net : NetValue) (p : TypedProgram) (sweeps : ℕ) → Carries net p → KeepsTime net p sweeps →
        NoValueWaits net p sweeps }
{
    carries();
    keeps_time();
    keeps_timed_pace();
    shared_bodies_carry();
    shared_bodies_keep_time();
}

/// Law: nor does one with a reset node, from every power-up state, in two sweeps more: for the nets with copies and
/// with shared bodies, and for any net that keeps time without the reset node.
pub fn no_value_waits_reset()
    ensures copied { (p : TypedProgram) → IsTranslated p → nodes_of p ≤ 65536 → (sweeps : ℕ) → IsRoundTime p sweeps →
        NoValueWaitsReset (reset_of (translation p)) p sweeps }
    ensures shared { (C : CallProgram) → IsCallProgram C → IsTranslated (inlined_program C) →
        nodes_of (inlined_program C) ≤ 65536 → call_count C ≤ 65536 →
        (sweeps : ℕ) → IsRoundTime (inlined_program C) sweeps →
        NoValueWaitsReset (reset_of (call_net C (call_names C))) (inlined_program C) (2 * sweeps) }
    ensures net { (net : NetValue) (p : TypedProgram) (sweeps : ℕ) → IsNet net → net.reset ≡ None → Carries net p →
        KeepsTime net p sweeps → NoValueWaitsReset (reset_of net) p sweeps }
{
    carries();
    whole_nets();
    keeps_time();
    keeps_time_reset();
    keeps_timed_pace_reset();
    shared_bodies_carry();
    shared_bodies_hold();
    shared_bodies_keep_time();
}

/// Law: what n rounds of a program pass under a script its net has passed after as many moves, one behind the other, as
/// these rounds come to. Each has a number of its own, read off the program's run: its steps are one move, and before
/// them come as many as the greatest phase of the steps of the round before, or, before those of the first, the rise of
/// `go` and what leads to the body's first step. Where an assignment reads its own target these are the rounds of the
/// program in halves, twice as many; and n times what is enough for any round is enough too. So it is by sweeps, in
/// whatever order the nodes switch; by time, with as many times the longest delay; and with a reset node from every
/// power-up state, with two more (`every`). With shared bodies twice as many are enough (`shared`); and what any net
/// that carries its program passes in so many sweeps it passes in each of these ways (`net`).
pub fn rounds_pass()
    ensures every { (p : TypedProgram) → IsTranslated p → nodes_of p ≤ 65536 →
        (script : List OfferValue) → IsScript p.channels script → (n moves : ℕ) → IsRoundsTime p script n moves →
        PassesRounds (translation p) p script n moves }
    ensures shared { (C : CallProgram) → IsCallProgram C → IsTranslated (inlined_program C) →
        nodes_of (inlined_program C) ≤ 65536 → call_count C ≤ 65536 →
        (script : List OfferValue) → IsScript (inlined_program C).channels script →
        (n moves : ℕ) → IsRoundsTime (inlined_program C) script n moves →
        PassesRounds (call_net C (call_names C)) (inlined_program C) script n (2 * moves) }
    ensures net { (net : NetValue) (p : TypedProgram) (script : List OfferValue) → IsNet net → net.reset ≡ None →
        Carries net p → IsScript p.channels script → (n moves : ℕ) → PassesInSweeps net p script n moves →
        PassesRounds net p script n moves }
{
    carries();
    whole_nets();
    halves_are_plain();
    tree_settles();
    expressions_hold();
    halves_keep_rounds();
    reset_runs();
    keeps_time();
    shared_bodies_layers();
    shared_bodies_carry();
    shared_bodies_hold();
}
