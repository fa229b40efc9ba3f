//! The statements whose steps a round takes.

ghost use Rattle.std.specs.Prelude.{◌≡◌, ◌++◌, All, map, is_some, Some, IfOk, OnOk};
ghost use Rattle.width_check.specs.Sharing.{MeetsSharing};
ghost use Rattle.width_check.specs.Typing.{IsProcess};
ghost use Rattle.width_check.specs.View.{process_of};
ghost use Rattle.chp_meaning.specs.Terms.{statement_at};
ghost use Rattle.chp_meaning.specs.Rounds.{enabled_places};
ghost use Rattle.chp_meaning.specs.Remaining.{remains_of, CanRemain};
ghost use Rattle.chp_meaning.specs.AtOnce.{statements, choosing_move, move_of, stepping};
ghost use Rattle.chp_meaning.specs.Standing.{outset_of, next_outset, CanRun, IsStanding, IsUnchanged};
ghost use Rattle.chp_meaning.specs.Ends.{seen, IsOf};

use crate::config::Config;
use crate::effect::{TrueGuards, chosen, ending};
use crate::left::{Left, part};
use crate::plan::{clear, note};
use std::alloc::{AllocError, Global};
use width_check::{TStmt, Typed};

/// Whether a selection makes a step where these of its guards are true.
fn chooses(again: bool, found: TrueGuards) -> bool
    ensures { result ≡ is_some (choosing_move again found) }
{
    match found {
        TrueGuards::Zero => again,
        TrueGuards::One(_) => true,
        TrueGuards::Several => false,
    }
}

/// Whether an active statement makes a step in the next round.
fn is_enabled(config: &Config, stmt: &TStmt) -> bool
    requires { CanRun config.now (process_of stmt.now) }
    ensures { result ≡ is_some (move_of (outset_of config.now) (process_of stmt.now)) }
{
    match stmt {
        TStmt::Select { again, arms } => chooses(*again, chosen(arms, &config.store)),
        TStmt::Repeat { .. } => true,
        _ => ending(config, stmt).is_some(),
    }
}

/// Appends the statements that make a step, of those that are active in what is left of this one, in the order of their
/// places.
fn list_steps<'p>(
    left: &Left,
    stmt: &'p TStmt,
    config: &Config,
    steps: &mut Vec<&'p TStmt>,
) -> Result<(), AllocError>
    requires remains { CanRemain (process_of stmt.now) (remains_of left.now) }
    requires numbers { CanRun config.now (process_of stmt.now) }
    ensures { OnOk result (map (λ s. process_of s.now) steps.new.items ≡ map (λ s. process_of s.now) steps.old.items
        ++ stepping (outset_of config.now) (statements (process_of stmt.now) (remains_of left.now))) }
{
    match left {
        Left::Done => {}
        Left::Whole => {
            if is_enabled(config, stmt) {
                steps.push(stmt)?;
            }
        }
        Left::Inside { index, inner } => list_steps(inner, part(stmt, *index), config, steps)?,
        Left::Branches { lefts } => {
            for (index, left) in lefts.iter().enumerate() {
                list_steps(left, part(stmt, index), config, steps)?;
            }
        }
    }
    Ok(())
}

/// The same as a list of its own, of all that is left.
fn listed_steps<'p>(
    alloc: Global,
    config: &Config,
    body: &'p TStmt,
) -> Result<Vec<&'p TStmt>, AllocError>
    requires remains { CanRemain (process_of body.now) (remains_of config.now.left) }
    requires numbers { CanRun config.now (process_of body.now) }
    ensures { IfOk result (λ steps. map (λ s. process_of s.now) steps.items ≡
        stepping (outset_of config.now) (statements (process_of body.now) (remains_of config.now.left))) }
{
    let mut steps = Vec::new(alloc);
    list_steps(&config.left, body, config, &mut steps).and(Ok(steps))
}

/// The same, where the ends that wait aren't noted.
fn steps_of<'p>(
    alloc: Global,
    config: &mut Config,
    body: &'p TStmt,
) -> Result<Vec<&'p TStmt>, AllocError>
    requires { IsStanding (process_of body.now) config.old }
    ensures steps { IfOk result (λ steps. map (λ s. process_of s.now) steps.items ≡
        stepping (next_outset (process_of body.now) config.old)
        (statements (process_of body.now) (remains_of config.old.left))) }
    ensures unchanged { IsUnchanged config.old config.new }
{
    let passed = note(
        &config.left,
        body,
        true,
        &mut config.sends,
        &mut config.receives,
    );
    let steps = listed_steps(alloc, config, body);
    clear(
        &config.left,
        body,
        passed,
        &mut config.sends,
        &mut config.receives,
    );
    steps
}

/// The statements whose steps the next round takes, in the order of their places. Where memory runs out nothing is
/// changed.
pub fn next_steps<'p>(
    alloc: Global,
    config: &mut Config,
    program: &'p Typed,
) -> Result<Vec<&'p TStmt>, AllocError>
    requires sharing { MeetsSharing (process_of program.now.body) }
    requires of { IsOf program.now config.old }
    ensures steps { IfOk result (λ steps. map (λ s. Some (process_of s.now)) steps.items ≡
        map (statement_at (seen program.now config.old).term) (enabled_places (seen program.now config.old))) }
    ensures typed { IfOk result (λ steps. All (λ s. IsProcess program.now.channels program.now.vars (process_of s.now))
        steps.items) }
    ensures of { IsOf program.now config.new }
    ensures unchanged { seen program.now config.new ≡ seen program.now config.old }
{
    steps_of(alloc, config, program.body())
}
