//! From where to where the longest way of a round leads.

ghost use Rattle.std.specs.Prelude.{◌≡◌, ℕ, ◌+◌, ◌<◌, ◌≤◌, length, drop, map, true, [], ◌∷◌, IfOk};
ghost use Rattle.width_check.specs.Processes.{choosing};
ghost use Rattle.width_check.specs.Typed.{program_of};
ghost use Rattle.width_check.specs.Typing.{IsProcess, AreProcesses, AreChoices};
ghost use Rattle.width_check.specs.View.{process_of, members_in, choices_in};
ghost use Rattle.handshake_expand.specs.Layout.{capped};
ghost use Rattle.round_time.specs.Longest.{guards_depth, first, low, longest};
ghost use Rattle.round_time.specs.Ways.{step_of, way, first_step, last_step, to_turn, ways_within, first_longest, longest_way, loops};
ghost use Rattle.pace_bound.specs.Clearing.{AreFalls};
ghost use Rattle.pace_bound.specs.Whereabouts.{point_of, way_of, loop_of, capped_loop, IsWay, IsLongestOf, onward_ways};

use crate::depth::guards_depth;
use crate::first::{first_step, turn_first};
use crate::low::{Falls, last_of_arms, last_step};
use crate::table::falls;
use crate::within::{Loop, within};
use std::alloc::{AllocError, Global};
use width_check::{TArm, TStmt, Typed};

/// Where a way begins or ends.
#[derive(Clone, Copy)]
pub enum Point<'p> {
    /// Before the rise of `go`.
    Started,
    /// With the step of this statement.
    Step(&'p TStmt),
    /// With the rise of `done`.
    Ended,
}

/// A way of so many moves, each of which waits for the one before; the number saturates at 2^64 - 1.
#[derive(Clone, Copy)]
pub struct Way<'p> {
    pub from: Point<'p>,
    pub to: Point<'p>,
    pub length: u64,
}

/// From a point to the first step of a statement, whose request comes so many moves after the point.
fn to_first<'p>(program: &Typed, from: Point<'p>, to: &'p TStmt, before: u64) -> Way<'p>
    requires { IsProcess program.now.channels program.now.vars (process_of to.now) }
    ensures { (n : ℕ) → before ≡ capped n
        → IsWay (way (point_of from.entry) (step_of (first_step (program_of program.now) (process_of to.now)))
        (n + first (program_of program.now) (process_of to.now))) result }
{
    let first = first_step(program, false, to);
    Way {
        from,
        to: Point::Step(first.statement),
        length: before.saturating_add(first.moves),
    }
}

/// From the last step of a statement, whose request is high for so long after that it answers, to a point so many moves
/// behind the fall of the answer.
fn from_last<'p>(
    program: &Typed,
    falls: &Falls,
    from: &'p TStmt,
    held: u64,
    to: Point<'p>,
    after: u64,
) -> Way<'p>
    requires falls { AreFalls (program_of program.now) falls.now.channels.items falls.now.writes.items }
    requires process { IsProcess program.now.channels program.now.vars (process_of from.now) }
    ensures { (n : ℕ) → after ≡ capped n
        → IsWay (way (step_of (last_step (program_of program.now) held (process_of from.now))) (point_of to.entry)
        (low (program_of program.now) held (process_of from.now) + n)) result }
{
    let last = last_step(program, falls, from, held);
    Way {
        from: Point::Step(last.statement),
        to,
        length: last.moves.saturating_add(after),
    }
}

/// From the last step of a branch of a repetition to the latch of the next turn.
fn to_turn<'p>(
    program: &Typed,
    falls: &Falls,
    itself: &'p TStmt,
    arms: &'p [TArm],
    guards: u64,
) -> Way<'p>
    requires falls { AreFalls (program_of program.now) falls.now.channels.items falls.now.writes.items }
    requires some { 1 ≤ length arms.now }
    requires arms { AreChoices program.now.channels program.now.vars (choices_in arms.now) }
    requires itself { process_of itself.now ≡ choosing true (choices_in arms.now) }
    requires guards { guards ≡ capped (guards_depth (choices_in arms.now)) }
    ensures { IsWay (to_turn (program_of program.now) (choices_in arms.now)) result }
{
    let last = last_of_arms(program, falls, arms, 4);
    Way {
        from: Point::Step(last.statement),
        to: Point::Step(itself),
        length: last.moves.saturating_add(guards).saturating_add(4),
    }
}

/// The longer one of two ways; the first one where both are as long.
fn longer<'p>(best: Way<'p>, next: Way<'p>) -> Way<'p>
    ensures { way_of result ≡ first_longest (way_of best.entry) (way_of next.entry ∷ []) }
{
    if next.length > best.length {
        next
    } else {
        best
    }
}

/// The longer one of a way and that from the last step of a member of a sequence to the first step of the next one,
/// where there is one.
fn on_to_next<'p>(
    program: &Typed,
    falls: &Falls,
    parts: &'p [TStmt],
    place: usize,
    best: Way<'p>,
) -> Way<'p>
    requires falls { AreFalls (program_of program.now) falls.now.channels.items falls.now.writes.items }
    requires there { place < length parts.now }
    requires members { AreProcesses program.now.channels program.now.vars (members_in (drop place parts.now)) }
    ensures { IsLongestOf best.entry result (onward_ways (program_of program.now) (members_in (drop place parts.now))) }
{
    if place + 1 < parts.len() {
        let to = Point::Step(first_step(program, false, &parts[place + 1]).statement);
        let after = turn_first(program, false, &parts[place + 1..]).saturating_add(1);
        longer(best, from_last(program, falls, &parts[place], 2, to, after))
    } else {
        best
    }
}

/// Of a way and those inside of a statement the first of the longest ones.
fn longest_within<'p>(program: &Typed, falls: &Falls, s: &'p TStmt, best: Way<'p>) -> Way<'p>
    requires falls { AreFalls (program_of program.now) falls.now.channels.items falls.now.writes.items }
    requires process { IsProcess program.now.channels program.now.vars (process_of s.now) }
    ensures { IsLongestOf best.entry result (ways_within (program_of program.now) (process_of s.now)) }
{
    match s {
        TStmt::Then { parts } => {
            let mut way = best;
            for place in 0..parts.len() {
                let inner = longest_within(program, falls, &parts[place], way);
                way = on_to_next(program, falls, parts, place, inner);
            }
            way
        }
        TStmt::Beside { parts } => {
            let mut way = best;
            for part in parts {
                way = longest_within(program, falls, part, way);
            }
            way
        }
        TStmt::Select { again, arms } => {
            let guards = guards_depth(arms);
            let begun = guards.saturating_add(3);
            let mut way = best;
            for arm in arms {
                let inner = longer(way, to_first(program, Point::Step(s), &arm.body, begun));
                way = longest_within(program, falls, &arm.body, inner);
            }
            if *again {
                longer(way, to_turn(program, falls, s, arms, guards))
            } else {
                way
            }
        }
        TStmt::Repeat { body } => {
            let begun = longer(best, to_first(program, Point::Step(s), body, 0));
            let inner = longest_within(program, falls, body, begun);
            longer(inner, from_last(program, falls, body, 1, Point::Step(s), 1))
        }
        _ => best,
    }
}

/// Where the longest way of a program lies from the steps of one round to those of the next, by the definition
/// `longest_way`, which reads it off the program: the first one in the order of the text, where several are as long.
/// Its length is that of `longest_of`; of a way of 2^64 - 1 moves or more nothing is said but that. A point is told up
/// to statements that are alike: of two skips it may be either. It fails if memory runs out: it takes a number for each
/// channel and each variable.
pub fn longest_way<'p>(alloc: Global, program: &'p Typed) -> Result<Way<'p>, AllocError>
    ensures way { IfOk result (IsWay (longest_way (program_of program.now))) }
    ensures longest { IfOk result (λ found. found.length ≡ capped (longest (program_of program.now))) }
{
    let falls = falls(alloc, program)?;
    let body = program.body();
    let begun = to_first(program, Point::Started, body, 2);
    let inner = longest_within(program, &falls, body, begun);
    Ok(longer(inner, from_last(program, &falls, body, 2, Point::Ended, 2)))
}

/// The loops of a program in the order of the text, each with how long the longest way inside of it is. A loop is told
/// up to statements that are alike. It fails if memory runs out.
pub fn loops_of<'p>(alloc: Global, program: &'p Typed) -> Result<Vec<Loop<'p>>, AllocError>
    ensures { IfOk result (λ found. map loop_of found.items ≡ map capped_loop (loops (program_of program.now))) }
{
    let falls = falls(alloc, program)?;
    let mut found = Vec::new(alloc);
    within(program, &falls, false, program.body(), &mut found)?;
    Ok(found)
}
