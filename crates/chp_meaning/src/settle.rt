//! What the moves of a round change.

ghost use Rattle.std.specs.Prelude.{◌≡◌, length, fold, map, All, OnOk, OnErr, slice_set, true};
ghost use Rattle.chp_meaning.specs.AtOnce.{passed, passed_on, withdrawn_on, written, used, less, is_below, number_below};
ghost use Rattle.chp_meaning.specs.Standing.{offer_of_rest, items_of};

use crate::config::Rest;
use crate::effect::Move;
use env_script::Count;
use std::alloc::AllocError;

/// Appends the value that passes, if one does. Where memory runs out nothing is changed.
fn pass(histories: &mut [Vec<u64>], step: &Move) -> Result<(), AllocError>
    requires { is_below (length histories.old) step.now.pass ≡ true }
    ensures ok { OnOk result (items_of histories.new ≡ passed (items_of histories.old) step.now) }
    ensures err { OnErr result (items_of histories.new ≡ items_of histories.old) }
{
    if let Some((chan, value)) = step.pass {
        histories[chan as usize].push(value)?;
    }
    Ok(())
}

/// Undoes the appending of the value that has passed.
fn withdraw(histories: &mut [Vec<u64>], step: &Move)
    requires { is_below (length histories.old) step.now.pass ≡ true }
    ensures { items_of histories.new ≡ withdrawn_on (items_of histories.old) step.now.pass }
{
    if let Some((chan, _)) = step.pass {
        histories[chan as usize].pop();
    }
}

/// Undoes the appending of the values that have passed.
fn withdraw_all(histories: &mut [Vec<u64>], moves: &[Move])
    requires { All (λ step. is_below (length histories.old) step.pass ≡ true) moves.now }
    ensures { (before : _) → items_of histories.old ≡ fold passed before moves.now → items_of histories.new ≡ before }
{
    for number in (0..moves.len()).rev() {
        withdraw(histories, &moves[number]);
    }
}

/// Appends the values that pass to the histories. Where memory runs out nothing is changed.
pub(crate) fn pass_all(histories: &mut [Vec<u64>], moves: &[Move]) -> Result<(), AllocError>
    requires { All (λ step. is_below (length histories.old) step.pass ≡ true) moves.now }
    ensures ok { OnOk result (items_of histories.new ≡ fold passed (items_of histories.old) moves.now) }
    ensures err { OnErr result (items_of histories.new ≡ items_of histories.old) }
{
    for done in 0..moves.len() {
        if let Err(e) = pass(histories, &moves[done]) {
            withdraw_all(histories, &moves[..done]);
            return Err(e);
        }
    }
    Ok(())
}

/// The variables get their new values.
pub(crate) fn write_all(store: &mut [u64], moves: &[Move])
    requires { All (λ step. is_below (length store.old) step.write ≡ true) moves.now }
    ensures { store.new ≡ fold written store.old moves.now }
{
    for step in moves {
        if let Some((var, value)) = step.write {
            store[var as usize] = value;
        }
    }
}

/// One value or one acceptance fewer.
fn use_one(rest: &mut Rest)
    ensures { offer_of_rest rest.new ≡ less (offer_of_rest rest.old) }
{
    match rest {
        Rest::Gives { values, sent } => {
            if *sent < values.len() {
                *sent += 1;
            }
        }
        Rest::Takes { count } => {
            if let Count::Times(left) = count {
                *left = left.saturating_sub(1);
            }
        }
        Rest::Nothing => {}
    }
}

/// The script has one value or acceptance fewer on the channel on which one is used, if one is.
fn use_up(rests: &mut [Rest], step: &Move)
    requires { number_below (length rests.old) step.now.uses ≡ true }
    ensures { map offer_of_rest rests.new ≡ used (map offer_of_rest rests.old) step.now }
{
    if let Some(chan) = step.uses {
        use_one(&mut rests[chan as usize]);
    }
}

/// The script has one value or acceptance fewer where one was used.
pub(crate) fn use_all(rests: &mut [Rest], moves: &[Move])
    requires { All (λ step. number_below (length rests.old) step.uses ≡ true) moves.now }
    ensures { map offer_of_rest rests.new ≡ fold used (map offer_of_rest rests.old) moves.now }
{
    for step in moves {
        use_up(rests, step);
    }
}
