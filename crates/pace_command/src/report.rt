//! What is printed of an accepted program.

ghost use Rattle.std.specs.Prelude.{◌≡◌, ◌++◌, ◌*◌, ℕ, List, [], map, IfOk, OnOk};
ghost use Rattle.chp_syntax.specs.View.{program_tree};
ghost use Rattle.env_script.specs.Scripts.{IsScript, OfferValue};
ghost use Rattle.width_check.specs.Sharing.{MeetsSharing};
ghost use Rattle.width_check.specs.Typed.{program_of as typed_of};
ghost use Rattle.width_check.specs.View.{process_of};
ghost use Rattle.handshake_expand.specs.Layout.{capped};
ghost use Rattle.round_time.specs.Longest.{longest};
ghost use Rattle.round_time.specs.Sums.{rounds_sum};
ghost use Rattle.round_time.specs.Ways as told;
ghost use Rattle.round_time.specs.Ways.{longest_way, loops};
ghost use Rattle.command_answers.specs.declared.answer.Ending.TheVariants.{Done};
ghost use Rattle.command_answers.specs.Answers.{writes};
ghost use Rattle.command_answers.specs.Replies.{told_answer};
ghost use Rattle.pace_bound.specs.Whereabouts.{IsWay, capped_loop};
ghost use Rattle.pace_command.specs.Pacing.{IsCompiled, IsLongestIfCounted, PaceReport, SumReport, whole_bound, whole_sum};
ghost use Rattle.pace_command.specs.WayTexts.{way_text, loops_text};

use crate::lines::{add_line, add_loops, add_sum, add_way};
use crate::targets::reads_target;
use chp_syntax::Program;
use command_answers::{Ending, Output};
use env_script::Script;
use pace_bound::{RunSum, Way, longest_in_halves, longest_way, loops_of, sum_of_rounds};
use std::alloc::{AllocError, Global};
use width_check::{Typed, is_call_free};

/// The most rounds that are made under a script.
const MOST_OF_ROUNDS: u32 = 1000;

/// How long a round lasts at most where each call has a copy.
#[derive(Clone, Copy)]
struct Round<'p> {
    /// The longest way from the steps of one round to those of the next.
    way: Way<'p>,
    /// What is proved of the circuit.
    bound: u64,
}

/// Both of a program.
fn round_of<'p>(alloc: Global, program: &'p Typed) -> Result<Round<'p>, AllocError>
    ensures way { IfOk result (λ round. IsWay (longest_way (typed_of program.now)) round.way) }
    ensures longest { IfOk result (λ round. round.way.length ≡ capped (longest (typed_of program.now))) }
    ensures bound { IfOk result (λ round. round.bound ≡ capped (whole_bound (typed_of program.now))) }
{
    let way = longest_way(alloc, program)?;
    let bound = if reads_target(program.body()) {
        longest_in_halves(alloc, program)?.saturating_mul(2)
    } else {
        way.length
    };
    Ok(Round { way, bound })
}

/// What the rounds of a run come to where each call has a copy, and any round has this bound.
fn whole_sum(program: &Typed, run: &RunSum, bound: u64) -> u64
    requires bound { bound ≡ capped (whole_bound (typed_of program.now)) }
    ensures { (script : List OfferValue) →
        run.now.sum ≡ capped (rounds_sum (typed_of program.now) script run.now.rounds) →
        result ≡ capped (whole_sum (typed_of program.now) script run.now.rounds) }
{
    if reads_target(program.body()) {
        (run.rounds as u64).saturating_mul(bound)
    } else {
        run.sum
    }
}

/// How many moves are enough for the circuit that `compile` writes for the program, where so many are with a copy for
/// each call.
fn compiled(program: &Program, copied: u64) -> u64
    ensures { (n : ℕ) → copied ≡ capped n → IsCompiled (program_tree program.now) n result }
{
    if is_call_free(program) {
        copied
    } else {
        copied.saturating_mul(2)
    }
}

/// Adds where the longest way of a program lies, and its loops.
fn add_ways(
    alloc: Global,
    text: &mut Vec<u8>,
    plain: &Typed,
    way: &Way<'_>,
) -> Result<(), AllocError>
    requires way { IsWay (longest_way (typed_of plain.now)) way.now }
    requires longest { way.now.length ≡ capped (longest (typed_of plain.now)) }
    ensures { OnOk result ((lies : told.Way) × IsLongestIfCounted (typed_of plain.now) lies
        × (text.new.items ≡ text.old.items ++ way_text lies
        ++ loops_text (map capped_loop (loops (typed_of plain.now))))) }
{
    add_way(text, way)?;
    let loops = loops_of(alloc, plain)?;
    add_loops(text, &loops)
}

/// The lines of a program, of which this is the checked form, with what is known of a round.
fn pace_text(
    alloc: Global,
    program: &Program,
    plain: &Typed,
    round: &Round<'_>,
) -> Result<Vec<u8>, AllocError>
    requires way { IsWay (longest_way (typed_of plain.now)) round.now.way }
    requires longest { round.now.way.length ≡ capped (longest (typed_of plain.now)) }
    requires bound { round.now.bound ≡ capped (whole_bound (typed_of plain.now)) }
    ensures { IfOk result (λ text.
        PaceReport (program_tree program.now) (typed_of plain.now) [] (writes Done text.items)) }
{
    let mut text = Vec::new(alloc);
    add_line(&mut text, b"round", round.way.length)?;
    add_line(&mut text, b"bound", compiled(program, round.bound))?;
    add_ways(alloc, &mut text, plain, &round.way)?;
    Ok(text)
}

/// What is printed of an accepted program, of which this is the checked form.
pub(crate) fn pace_report(
    alloc: Global,
    program: &Program,
    plain: &Typed,
) -> Result<Output, AllocError>
    ensures { IfOk result (λ output.
        PaceReport (program_tree program.now) (typed_of plain.now) [] (told_answer output)) }
{
    let round = round_of(alloc, plain)?;
    let text = pace_text(alloc, program, plain, &round)?;
    Ok(Output {
        text,
        end: Ending::Done,
    })
}

/// What is printed of it and of its script.
pub(crate) fn sum_report(
    alloc: Global,
    program: &Program,
    plain: &Typed,
    script: &Script,
) -> Result<Output, AllocError>
    requires script { IsScript plain.now.channels script.now }
    requires sharing { MeetsSharing (process_of plain.now.body) }
    ensures { IfOk result (λ output.
        SumReport (program_tree program.now) (typed_of plain.now) script.now (told_answer output)) }
{
    let round = round_of(alloc, plain)?;
    let run = sum_of_rounds(alloc, plain, script, MOST_OF_ROUNDS)?;
    let sum = whole_sum(plain, &run, round.bound);
    let mut text = pace_text(alloc, program, plain, &round)?;
    add_sum(&mut text, run.rounds, compiled(program, sum))?;
    Ok(Output {
        text,
        end: Ending::Done,
    })
}
