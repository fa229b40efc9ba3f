//! The call.

ghost use Rattle.std.specs.Prelude.{◌≡◌, ◌≢◌, ℕ, ◌≤◌, ◌++◌, List, true, false, Contains, Some, None};
ghost use Rattle.chp_edge.specs.Faults.{IsReadFault, Rose};
ghost use Rattle.command_answers.specs.Answers.{given_by};
ghost use Rattle.command_answers.specs.Replies.{end_line, end_status};
ghost use Rattle.command_answers.specs.Saying.{IsSaid};
ghost use Rattle.command_answers.specs.Statuses.{is_whole};
ghost use Rattle.pace_command.specs.Kept.{IsKept};
ghost use Rattle.pace_command.specs.Pacing.{AskedPace, IsPaceOf, files_of};
ghost use Rattle.pace_command.specs.Ends.{Ends, counts, words_ask};

use crate::asked::files_named;
use crate::laws::bounds_are_kept;
use crate::pace::pace;
use chp_edge::{Failed, Shelf, Sink, write_all};
use command_answers::{End, Status, tell};
use std::alloc::Global;

/// Finds what is answered for the files that the words name, and writes it.
fn run<'a, S: Shelf, K: Sink>(
    alloc: Global,
    words: &'a [String],
    shelf: &mut S,
    out: &mut K,
) -> End<'a>
    ensures ended { (appended : List ℕ) × Ends (words_ask words.now)
        (given_by (S.tells shelf.old) (S.holds shelf.old)) (counts (S.faults shelf.old) (S.faults shelf.new))
        (counts (K.faults out.old) (K.faults out.new)) (end_status result) appended (end_line result)
        × (K.tells out.old ≡ true → K.written out.new ≡ K.written out.old ++ appended) }
    ensures shelf { (S.tells shelf.new ≡ S.tells shelf.old) × (S.holds shelf.new ≡ S.holds shelf.old)
        × (S.faults shelf.old ≤ S.faults shelf.new) }
    ensures out { (K.tells out.new ≡ K.tells out.old) × (K.faults out.old ≤ K.faults out.new) }
{
    let Some(asked) = files_named(words) else {
        return End::Usage;
    };
    let output = match pace(alloc, shelf, &asked) {
        Ok(output) => output,
        Err(stop) => return End::Stopped(stop),
    };
    match write_all(out, &output.text) {
        Ok(()) => End::Whole(output.end),
        Err(Failed) => End::CutOff,
    }
}

/// Prints how long rounds of the program in the file that is named first take its circuit at most; and where a second
/// file is named, which holds a script of that program, also those that are made under the script. The words are one
/// name or two and nothing else, and whatever they begin with. Statuses and lines are those of `chpc`.
///
/// With status 0 the output is exactly these lines. `round`: `longest`, read off the program with a copy of the body
/// for each call, as the most moves of a way from the steps of one round to those of the next. (That no way in the
/// circuit has more is shown where no assignment reads its own target.) `bound`: n rounds of the circuit that
/// `compile` writes without `--buffer`, if that isn't too large, take at most n times as many moves, one behind the
/// other (`paced`). `from` and `to`: between which statements' steps the longest of the ways lies of which `round` is
/// the length, the first one of several in the text; `start` is power-up, and `end` the rise of `done`. A statement is
/// told by its kind, and by the bytes of the first name in its text, if it has one. (Nothing is said of the ends of a
/// way of 2^64 - 1 moves or more.) A line `loop` for each loop, in the order of the text, with the length of the
/// longest way within it. And under a script two more. `rounds`: how many rounds are made under the script until no
/// step is left, 1,000 at most. `sum`: so many moves, one behind the other, are enough until that circuit has passed
/// what these rounds pass. That the files hold this program and this script is said where the shelf is observable, and
/// what was written where the output is.
///
/// With other statuses the words are neither one name nor two (`usage`), a file isn't there or the shelf failed
/// (`read`), the output failed (`write`), it refuses, or memory ran out (`ended` has them all, with the line that is
/// said); and then nothing is written, unless the output failed (`silent`). An answer goes by the script only once
/// the program is accepted, and it is refused as `run` refuses it: for the first fault of its first line that has one,
/// or as too long.
pub fn pace_main<S: Shelf, K: Sink, W: Sink>(
    alloc: Global,
    words: &[String],
    shelf: &mut S,
    out: &mut K,
    say: &mut W,
) -> Status
    ensures ended { (appended : List ℕ) × (line : List ℕ) × Ends (words_ask words.now)
        (given_by (S.tells shelf.old) (S.holds shelf.old)) (counts (S.faults shelf.old) (S.faults shelf.new))
        (counts (K.faults out.old) (K.faults out.new)) result appended line
        × (K.tells out.old ≡ true → K.written out.new ≡ K.written out.old ++ appended)
        × IsSaid W.Sink say.old say.new line }
    ensures paced { result ≡ Status.Done → (asked : AskedPace) × (text : List ℕ) × (words_ask words.now ≡ Some asked)
        × (is : IsPaceOf (given_by (S.tells shelf.old) (S.holds shelf.old)) asked text) × IsKept is
        × (K.tells out.old ≡ true → K.written out.new ≡ K.written out.old ++ text) }
    ensures usage { result ≡ Status.Usage → words_ask words.now ≡ None }
    ensures read { result ≡ Status.Read → (asked : AskedPace) × (name : List ℕ) × (words_ask words.now ≡ Some asked)
        × Contains (files_of asked) name
        × IsReadFault (S.faults shelf.old) (S.faults shelf.new) (S.tells shelf.old) (S.holds shelf.old name) }
    ensures write { result ≡ Status.Write → Rose (K.faults out.old) (K.faults out.new) }
    ensures silent { is_whole result ≡ false → result ≢ Status.Write → K.tells out.old ≡ true →
        K.written out.new ≡ K.written out.old }
    ensures shelf { (S.tells shelf.new ≡ S.tells shelf.old) × (S.holds shelf.new ≡ S.holds shelf.old)
        × (S.faults shelf.old ≤ S.faults shelf.new) }
    ensures out { (K.tells out.new ≡ K.tells out.old) × (K.faults out.old ≤ K.faults out.new) }
    ensures say { (W.tells say.new ≡ W.tells say.old) × (W.faults say.old ≤ W.faults say.new) }
{
    bounds_are_kept();
    let end = run(alloc, words, shelf, out);
    tell(say, &end);
    end.status()
}
