//! Laws of nets and the programs that they carry.

ghost use Rattle.std.specs.Prelude.{◌↔◌, ◌≤◌, ℕ};
ghost use Rattle.prs_core.specs.Nets.{NetValue, IsRules, IsNet};
ghost use Rattle.width_check.specs.Processes.{TypedProgram};
ghost use Rattle.width_check.specs.Typing.{IsTyped};
ghost use Rattle.handshake_expand.specs.Layout.{nodes_of};
ghost use Rattle.chp_meaning.specs.Halves.{halved_program, ReadsNoTarget};
ghost use Rattle.net_compose.specs.Translation.{composed, translation};
ghost use Rattle.net_compose.specs.Carries.{Carries, ResetCarries};
ghost use Rattle.net_compose.specs.Points.{
  HasPoints,
  IsTranslated,
  TranslationCarries,
  CarriesSafe,
  CarriesPrefix,
  CarriesRest,
};
ghost use Rattle.net_compose.specs.Progress.{
  PlainTranslationProgresses,
  ResetProgresses,
  TranslationProgresses,
};
ghost use Rattle.net_compose.specs.Sized.{IsOfSize};
ghost use Rattle.net_compose.specs.PartNumbers.{TranslationTakesTurns};
ghost use Rattle.net_compose.specs.Time.{KeepsTime, sweeps_for_round};

use cell_parallel::laws::tree_settles;
use chp_meaning::laws::{
    halves_are_plain, halves_follow, halves_keep_pace, one_end, one_history, rounds_hold,
    runs_append, steps_taken,
};
use circuit_places::laws::{circuits_carry, parts_take_turns};
use function_blocks::laws::expressions_hold;
use reset_runs::reset_runs;

/// Law: the net of each typed program that meets the sharing rule carries it, whatever it is made of: skip, sends of
/// any expression, receives, assignments, also those that read their own target, sequences, parallel compositions,
/// selections, guarded repetitions and loops that go on for ever, on `in`, `out` and internal channels; any number of
/// sites at each end of a channel and of a variable, in whatever branches, of any width. In every run of the net, under
/// every script and in whatever order the nodes switch, the three points hold that `carries_safe`, `carries_prefix` and
/// `carries_rest` say one by one.
pub fn carries()
    ensures { TranslationCarries }
{
    steps_taken();
    runs_append();
    one_history();
    rounds_hold();
    halves_follow();
    halves_are_plain();
    circuits_carry();
}

/// Law: the net of each such program is free of hazards. In every run no enabled move is disabled (stability), no
/// node's two guards both hold (non-interference), and no channel leaves its four phases.
pub fn carries_safe()
    ensures { (p : TypedProgram) → IsTranslated p → CarriesSafe (translation p) p }
{
    carries();
    three_points();
}

/// Law: what has passed on a channel of the net of each such program after some moves is a prefix of what has passed
/// there after as many rounds of the program.
pub fn carries_prefix()
    ensures { (p : TypedProgram) → IsTranslated p → CarriesPrefix (translation p) p }
{
    carries();
    three_points();
}

/// Law: where the net of each such program is at rest, all has passed that the program passes, the program goes no
/// further, and `done` is high exactly where it has ended.
pub fn carries_rest()
    ensures { (p : TypedProgram) → IsTranslated p → CarriesRest (translation p) p }
{
    carries();
    three_points();
}

/// Law: the net of each such program keeps pace with it, in every run. What a run of the net has passed, some run of
/// the program has passed, of m steps, and it has at most 2 · nodes · (2m + 1) moves in all; where no assignment reads
/// its own target, at most 2 · nodes · (m + 1) (`plain`). So where the program goes no further under a script after m
/// steps, each run of its net ends, without any fairness: no run has more moves than that, each goes on to one at
/// rest, and that one has passed all that the program has, with `done` high exactly where the program has ended.
pub fn runs_end()
    ensures every { TranslationProgresses }
    ensures plain { PlainTranslationProgresses }
{
    steps_taken();
    runs_append();
    one_history();
    rounds_hold();
    one_end();
    halves_are_plain();
    halves_keep_pace();
    circuits_carry();
    carries();
}

/// Law: a net carries a program exactly where its channels are the program's and each of the three points holds in
/// every run: it is free of hazards, its histories are prefixes of the rounds', and at rest it is settled with them.
pub fn three_points()
    ensures { (net : NetValue) (p : TypedProgram) → Carries net p ↔ HasPoints net p }
{}

/// Law: the net of a typed program has a name, a first value and two guards for each node that its layout counts, and
/// no more.
pub fn all_counted()
    ensures { (p : TypedProgram) → IsTyped p.channels p.vars p.body → IsOfSize (translation p) (nodes_of p) }
{
    function_blocks::laws::bits_counted();
    function_blocks::laws::rules_counted();
    cell_parallel::laws::tree_counted();
}

/// Law: a net without a reset node that carries a program still does so with one, from every power-up state: until
/// reset falls each node moves once at most, and it falls only when all nodes have their first values; then the net
/// goes on as it does without it.
pub fn carries_reset()
    ensures { (net : NetValue) (p : TypedProgram) → ResetCarries net p }
{
    reset_runs();
}

/// Law: where a net that a rule file can hold makes progress with a program, so it does with a reset node, from every
/// power-up state: only moves after the fall of reset count.
pub fn runs_end_reset()
    ensures { (net : NetValue) (p : TypedProgram) (most : ℕ → ℕ) → ResetProgresses net p most }
{
    reset_runs();
}

/// Law: the net of a typed program of at most 65,536 nodes, whose guards are over its own nodes only, is a net that a
/// rule file can hold: each name is the name of a node and no two are alike, the wires of its channels have the numbers
/// that their names say and are low at first, those of the environment have no rules, no term is empty, and there are
/// at most 64 literals for each node.
pub fn nets_hold()
    ensures { (p : TypedProgram) → IsTyped p.channels p.vars p.body → nodes_of p ≤ 65536 → IsRules (composed p) →
        IsNet (translation p) }
{
    function_blocks::laws::bits_counted();
    function_blocks::laws::rules_counted();
    cell_parallel::laws::tree_counted();
}

/// Law: the net of each typed program of at most 65,536 nodes is one that a rule file can hold: its guards are over its
/// own nodes alone.
pub fn whole_nets()
    ensures { (p : TypedProgram) → IsTyped p.channels p.vars p.body → nodes_of p ≤ 65536 → IsNet (translation p) }
{
    function_blocks::laws::bits_counted();
    function_blocks::laws::rules_counted();
    cell_parallel::laws::tree_counted();
    nets_hold();
}

/// Law: the net of each such program, no assignment of which reads its own target, keeps time. A sweep of a run is a
/// stretch of it in which each node moves that was enabled when it began. Every run whose moves begin with 2 nodes + 1
/// sweeps for each of n rounds of the program has passed what these pass, under every script and in whatever order the
/// nodes switch. So where no enabled node waits for ever, no value on a channel waits for ever because others go on.
pub fn plain_nets_keep_time()
    ensures { (p : TypedProgram) → IsTranslated p → ReadsNoTarget p.body → nodes_of p ≤ 65536 →
        KeepsTime (translation p) p (sweeps_for_round p) }
{
    carries();
    whole_nets();
    tree_settles();
    expressions_hold();
}

/// Law: the net of each such program, whatever it is made of, keeps time with the rounds of the program in halves, in
/// which an assignment that reads its own target takes two steps.
pub fn nets_keep_time()
    ensures { (p : TypedProgram) → IsTranslated p → nodes_of p ≤ 65536 →
        KeepsTime (translation p) (halved_program p) (sweeps_for_round p) }
{
    carries();
    whole_nets();
    halves_are_plain();
    tree_settles();
    expressions_hold();
}

/// Law: in each state of each run of the net of a typed program that meets the sharing rule, those statements in it
/// take turns that hold no assignment which reads its own target. One that has answered moves no node of its own before
/// its request falls; one whose request and answer are low has all its nodes low and moves none; of two that are in one
/// sequence or in one selection at least one rests; and each keeps the four phases of its handshake.
pub fn parts_in_turns()
    ensures { TranslationTakesTurns }
{
    halves_are_plain();
    parts_take_turns();
}
