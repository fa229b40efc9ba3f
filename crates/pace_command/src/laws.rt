//! What the printed numbers mean.

ghost use Rattle.std.specs.Prelude.{ℕ, List};
ghost use Rattle.command_answers.specs.Answers.{Given};
ghost use Rattle.pace_command.specs.Kept.{IsKept};
ghost use Rattle.pace_command.specs.Pacing.{AskedPace, IsPaceOf};

use call_compose::{calls_asked, calls_typed};
use command_steps::laws::meant_programs_are_shaped;
use net_compose::laws::{carries, whole_nets};
use net_pace::{
    keeps_time, keeps_time_reset, keeps_timed_pace, keeps_timed_pace_reset, rounds_pass,
    shared_bodies_keep_time,
};
use program_commands::laws::shared_nets_are_faithful;
use width_check::laws::form_is_typed;

/// Law: the net that `compile` writes for a program without `--buffer` keeps to the bound that is printed for it. Each
/// run whose moves begin with as many sweeps for each of n rounds of the program has passed what these pass, under
/// every script and in whatever order the nodes switch; and so has each timed run with delays of at most D, the
/// environment's too, whose last move comes later than as many times D for each of them, or which rests. With a reset
/// node it is so from every power-up state, with two sweeps more. Where a script is named, as many sweeps as the
/// printed sum are enough, under that script, for what the printed number of rounds pass, and as many times D; with a
/// reset node two more.
pub fn bounds_are_kept()
    ensures { (given : Given) (asked : AskedPace) (text : List ℕ) (is : IsPaceOf given asked text) → IsKept is }
{
    meant_programs_are_shaped();
    form_is_typed();
    carries();
    whole_nets();
    keeps_time();
    shared_bodies_keep_time();
    keeps_timed_pace();
    keeps_time_reset();
    keeps_timed_pace_reset();
    rounds_pass();
    shared_nets_are_faithful();
    calls_asked();
    calls_typed();
}
