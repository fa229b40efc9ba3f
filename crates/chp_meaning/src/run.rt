//! Rounds.

ghost use Rattle.std.specs.Prelude.{◌≡◌, ◌≤◌, ◌↔◌, List, length, IfOk, OnOk, OnErr, true, is_some, count_by};
ghost use Rattle.env_script.specs.Scripts.{OfferValue};
ghost use Rattle.width_check.specs.Sharing.{MeetsSharing};
ghost use Rattle.width_check.specs.Typed.{program_of};
ghost use Rattle.width_check.specs.View.{process_of};
ghost use Rattle.chp_meaning.specs.Fitting.{Fits};
ghost use Rattle.chp_meaning.specs.Rounds.{round};
ghost use Rattle.chp_meaning.specs.Laws.{OneHistory, RoundsHold};
ghost use Rattle.chp_meaning.specs.Remaining.{remains_of, CanRemain};
ghost use Rattle.chp_meaning.specs.Changes.{changed};
ghost use Rattle.chp_meaning.specs.AtOnce.{advanced, moves_of, statements, held_values};
ghost use Rattle.chp_meaning.specs.Ends.{seen, IsOf, CanStep, IsEnd, IsWithin, IsNext, IsEndBy, held_in, is_some_step, end_before, end_by};
ghost use Rattle.chp_meaning.specs.Standing.{outset_of, histories_of, items_of, configuration_of, next_moves, CanRun, IsStanding, IsPlan, AreWithin, HaveMoved, IsUnchanged};

use crate::change::{Change, apply};
use crate::config::Config;
use crate::effect::Move;
use crate::plan::{advanced, clear, note};
use crate::settle::{pass_all, use_all, write_all};
use std::alloc::{AllocError, Global};
use width_check::{TStmt, Typed};

/// How a run of rounds ended.
#[derive(Clone, Copy)]
pub enum RunEnd {
    /// No step is left.
    Rest,
    /// A step is left.
    Spent,
    /// One more round would bring more values than allowed.
    TooMany,
}

/// How what is left changes in the next round, and the moves of that, where the ends that wait are noted.
fn plan(alloc: Global, config: &Config, body: &TStmt) -> Result<(Change, Vec<Move>), AllocError>
    requires remains { CanRemain (process_of body.now) (remains_of config.now.left) }
    requires numbers { CanRun config.now (process_of body.now) }
    ensures left { IfOk result (λ plan. changed plan.0 (remains_of config.now.left) ≡
        advanced (outset_of config.now) (process_of body.now) (remains_of config.now.left)) }
    ensures moves { IfOk result (λ plan. plan.1.items ≡
        moves_of (outset_of config.now) (statements (process_of body.now) (remains_of config.now.left))) }
{
    let mut moves = Vec::new(alloc);
    let mut change = Change::Stays;
    advanced(alloc, &config.left, body, config, &mut moves, &mut change)?;
    Ok((change, moves))
}

/// How what is left changes in the next round, and the moves of that.
fn planned(
    alloc: Global,
    config: &mut Config,
    body: &TStmt,
) -> Result<(Change, Vec<Move>), AllocError>
    requires { IsStanding (process_of body.now) config.old }
    ensures plan { IfOk result (λ plan.
        IsPlan (process_of body.now) config.old (changed plan.0 (remains_of config.old.left)) plan.1.items) }
    ensures unchanged { IsUnchanged config.old config.new }
{
    let passed = note(
        &config.left,
        body,
        true,
        &mut config.sends,
        &mut config.receives,
    );
    let found = plan(alloc, config, body);
    clear(
        &config.left,
        body,
        passed,
        &mut config.sends,
        &mut config.receives,
    );
    found
}

/// Makes the round of a plan. Where memory runs out nothing is changed.
fn settled(config: &mut Config, change: &mut Change, moves: &[Move]) -> Result<(), AllocError>
    requires { AreWithin config.old moves.now }
    ensures ok { OnOk result
        (HaveMoved config.old config.new (changed change.old (remains_of config.old.left)) moves.now) }
    ensures err { OnErr result (IsUnchanged config.old config.new) }
{
    pass_all(&mut config.histories, moves)?;
    write_all(&mut config.store, moves);
    use_all(&mut config.rests, moves);
    apply(change, &mut config.left);
    Ok(())
}

/// Makes one round of a program that does this.
pub(crate) fn round_of(alloc: Global, config: &mut Config, body: &TStmt) -> Result<bool, AllocError>
    requires { IsStanding (process_of body.now) config.old }
    ensures standing { IsStanding (process_of body.now) config.new }
    ensures round { Fits (configuration_of (process_of body.now) config.old).term →
        OnOk result (configuration_of (process_of body.now) config.new ≡
        round (configuration_of (process_of body.now) config.old)) }
    ensures took { IfOk result (λ took. took ≡ is_some_step (next_moves (process_of body.now) config.old)) }
    ensures err { OnErr result (configuration_of (process_of body.now) config.new ≡
        configuration_of (process_of body.now) config.old) }
{
    let (mut change, moves) = planned(alloc, config, body)?;
    settled(config, &mut change, &moves)?;
    Ok(!moves.is_empty())
}

/// Makes one round: each step that is enabled now is taken once, in the order of the places (Martin). Returns whether
/// there was one. Where memory runs out nothing is changed.
pub fn round(alloc: Global, config: &mut Config, program: &Typed) -> Result<bool, AllocError>
    requires sharing { MeetsSharing (process_of program.now.body) }
    requires of { IsOf program.now config.old }
    ensures of { IsOf program.now config.new }
    ensures round { OnOk result (seen program.now config.new ≡ round (seen program.now config.old)) }
    ensures took { IfOk result (λ took. (took ≡ true) ↔ CanStep (seen program.now config.old)) }
    ensures err { OnErr result (seen program.now config.new ≡ seen program.now config.old) }
    // Any order of steps leads on to the rounds.
    ensures one_history { (script : List OfferValue) → OneHistory (program_of program.now) script }
    // Rounds are steps, and only append to the histories.
    ensures rounds_hold { (script : List OfferValue) → RoundsHold (program_of program.now) script }
{
    round_of(alloc, config, program.body())
}

/// How many values have passed on all channels together.
fn held(histories: &[Vec<u64>], most: u32) -> u64
    requires { held_values (items_of histories.now) ≤ most }
    ensures { result ≡ held_values (items_of histories.now) }
{
    let mut count: u64 = 0;
    for history in histories {
        count += history.len() as u64;
    }
    count
}

/// How many values pass.
fn passing(moves: &[Move]) -> u64
    ensures { result ≡ count_by (λ step. is_some step.pass) moves.now }
{
    moves.iter().filter(|step| step.pass.is_some()).count() as u64
}

/// How a run ends after which one more round would have these moves.
fn end_by(moves: &[Move]) -> RunEnd
    ensures { result ≡ end_by moves.now }
{
    if moves.is_empty() {
        RunEnd::Rest
    } else {
        RunEnd::Spent
    }
}

/// How a run ends before a round of these moves, or None where the round is made: `count` values have passed so far,
/// and no more than `most` may.
fn end_before(moves: &[Move], count: u64, most: u32) -> Option<RunEnd>
    requires { count ≤ most }
    ensures { result ≡ end_before moves.now count most }
{
    if moves.is_empty() {
        Some(RunEnd::Rest)
    } else if count + passing(moves) > u64::from(most) {
        Some(RunEnd::TooMany)
    } else {
        None
    }
}

/// Makes the next round, or tells how the run ends before it. `count` is how many values have passed.
fn next_round(
    alloc: Global,
    config: &mut Config,
    body: &TStmt,
    count: &mut u64,
    most: u32,
) -> Result<Option<RunEnd>, AllocError>
    requires standing { IsStanding (process_of body.now) config.old }
    requires count { count.old ≡ held_values (histories_of config.old) }
    requires most { count.old ≤ most }
    ensures next { IfOk result (IsNext (process_of body.now) most config.old config.new) }
    ensures count { OnOk result (count.new ≡ held_values (histories_of config.new)) }
    ensures err { OnErr result (IsUnchanged config.old config.new) }
{
    let (mut change, moves) = planned(alloc, config, body)?;
    if let Some(end) = end_before(&moves, *count, most) {
        return Ok(Some(end));
    }
    *count += passing(&moves);
    settled(config, &mut change, &moves)?;
    Ok(None)
}

/// How a run ends after which no round more is wanted.
fn end_after(alloc: Global, config: &mut Config, body: &TStmt) -> Result<RunEnd, AllocError>
    requires { IsStanding (process_of body.now) config.old }
    ensures end { IfOk result (IsEndBy (process_of body.now) config.old) }
    ensures unchanged { IsUnchanged config.old config.new }
{
    let (_, moves) = planned(alloc, config, body)?;
    Ok(end_by(&moves))
}

/// Makes rounds of a program that does this.
pub(crate) fn run_of(
    alloc: Global,
    config: &mut Config,
    body: &TStmt,
    n: u32,
    most: u32,
) -> Result<RunEnd, AllocError>
    requires standing { IsStanding (process_of body.now) config.old }
    requires held_values { held_values (histories_of config.old) ≤ most }
    ensures standing { IsStanding (process_of body.now) config.new }
    ensures end { Fits (configuration_of (process_of body.now) config.old).term →
        IfOk result (λ end. IsEnd n most (configuration_of (process_of body.now) config.old)
        (configuration_of (process_of body.now) config.new) end) }
    ensures err { Fits (configuration_of (process_of body.now) config.old).term →
        OnErr result (IsWithin n (configuration_of (process_of body.now) config.old)
        (configuration_of (process_of body.now) config.new)) }
    ensures few { OnErr result (held_values (histories_of config.new) ≤ most) }
{
    let mut count = held(&config.histories, most);
    for _made in 0..n {
        if let Some(end) = next_round(alloc, config, body, &mut count, most)? {
            return Ok(end);
        }
    }
    end_after(alloc, config, body)
}

/// Makes `n` rounds, but none that would bring the values that have passed over `most` in all. Stops early where no
/// step is left. Where memory runs out some of the rounds have been made, and no more than `most` values have passed.
pub fn run_rounds(
    alloc: Global,
    config: &mut Config,
    program: &Typed,
    n: u32,
    most: u32,
) -> Result<RunEnd, AllocError>
    requires sharing { MeetsSharing (process_of program.now.body) }
    requires of { IsOf program.now config.old }
    requires held_values { held_in (seen program.now config.old) ≤ most }
    ensures of { IsOf program.now config.new }
    ensures end { IfOk result (λ end. IsEnd n most (seen program.now config.old) (seen program.now config.new) end) }
    ensures err { OnErr result (IsWithin n (seen program.now config.old) (seen program.now config.new)) }
    ensures few { OnErr result (held_in (seen program.now config.new) ≤ most) }
    // Any order of steps leads on to the rounds.
    ensures one_history { (script : List OfferValue) → OneHistory (program_of program.now) script }
    // Rounds are steps, and only append to the histories.
    ensures rounds_hold { (script : List OfferValue) → RoundsHold (program_of program.now) script }
{
    run_of(alloc, config, program.body(), n, most)
}
