//! The deeds of statements that one cause of refusal concerns, collected bottom-up.

ghost use Rattle.std.specs.Prelude.{◌≡◌, [], ◌∷◌, None, Option as option, IfOk, IsOkAnd, OnOk};
ghost use Rattle.chp_base.specs.declared.fault.FaultCode.{FaultCode};
ghost use Rattle.width_check.specs.Processes.{skipping, assigning, sending, receiving};
ghost use Rattle.width_check.specs.Sharing.{reads_var, writes_var, sends_on, receives_on, done_at, reads_of, SharedAt};
ghost use Rattle.width_check.specs.View.{formula_of, process_of};
ghost use Rattle.sharing_check.specs.declared.clash.Clash.{Clash as pair};
ghost use Rattle.sharing_check.specs.Leasts.{IsLeast, IsNoLaterPair};
ghost use Rattle.sharing_check.specs.Tells.{Tells, Adds, Crosses, Merges};

use crate::clash::{Clash, sooner};
use crate::table::{Table, first_meeting, joined, note};
use chp_base::{FaultCode, Span};
use std::alloc::{AllocError, Global};
use std::collections::HashMap;
use width_check::{TExpr, TStmt};

/// For each variable or channel the first span of the deeds that clash with one another, which are writes, sends or
/// receives, and of those that clash only with these, which are reads; and the pair of spans that is reported.
#[derive(Drop)]
struct Deeds {
    exclusive: Table,
    common: Table,
    clash: Option<Clash>,
}

/// The deeds of a statement as they were collected. What goes down a statement hands them on as a result, and so owns
/// none where it may be left.
type Collected = Result<Box<Deeds>, AllocError>;

fn no_deeds(alloc: Global) -> Deeds
    ensures { (cause : FaultCode) → Tells cause skipping result }
{
    Deeds {
        exclusive: HashMap::new(alloc),
        common: HashMap::new(alloc),
        clash: None,
    }
}

fn note_write(deeds: &mut Deeds, cause: FaultCode, var: u32, at: Span) -> Result<(), AllocError>
    ensures { OnOk result (Adds cause (done_at (writes_var var) at ∷ []) deeds.old deeds.new) }
{
    match cause {
        FaultCode::SharedVariable => note(&mut deeds.exclusive, var, at),
        _ => Ok(()),
    }
}

fn note_read(deeds: &mut Deeds, cause: FaultCode, var: u32, at: Span) -> Result<(), AllocError>
    ensures { OnOk result (Adds cause (done_at (reads_var var) at ∷ []) deeds.old deeds.new) }
{
    match cause {
        FaultCode::SharedVariable => note(&mut deeds.common, var, at),
        _ => Ok(()),
    }
}

fn note_send(deeds: &mut Deeds, cause: FaultCode, chan: u32, at: Span) -> Result<(), AllocError>
    ensures { OnOk result (Adds cause (done_at (sends_on chan) at ∷ []) deeds.old deeds.new) }
{
    match cause {
        FaultCode::SharedSend => note(&mut deeds.exclusive, chan, at),
        _ => Ok(()),
    }
}

fn note_receive(deeds: &mut Deeds, cause: FaultCode, chan: u32, at: Span) -> Result<(), AllocError>
    ensures { OnOk result (Adds cause (done_at (receives_on chan) at ∷ []) deeds.old deeds.new) }
{
    match cause {
        FaultCode::SharedReceive => note(&mut deeds.exclusive, chan, at),
        _ => Ok(()),
    }
}

fn note_reads(deeds: &mut Deeds, cause: FaultCode, e: &TExpr) -> Result<(), AllocError>
    ensures { OnOk result (Adds cause (reads_of (formula_of e.now)) deeds.old deeds.new) }
{
    match e {
        TExpr::Number { .. } => Ok(()),
        TExpr::Read { var, at, .. } => note_read(deeds, cause, *var, *at),
        TExpr::Join { parts } => {
            let mut noted = Ok(());
            for part in parts {
                noted = noted.and(note_reads(deeds, cause, part));
            }
            noted
        }
        TExpr::Not { inner } => note_reads(deeds, cause, inner),
        TExpr::Chain { first, rest } => {
            let mut noted = note_reads(deeds, cause, first);
            for link in rest {
                noted = noted.and(note_reads(deeds, cause, &link.right));
            }
            noted
        }
        TExpr::Compare { left, right, .. } => {
            let noted = note_reads(deeds, cause, left);
            noted.and(note_reads(deeds, cause, right))
        }
    }
}

fn assigned(alloc: Global, cause: FaultCode, var: u32, at: Span, value: &TExpr) -> Collected
    ensures { IfOk result (λ deeds. Tells cause (assigning var at (formula_of value.now)) deeds.value) }
{
    let mut deeds = no_deeds(alloc);
    note_write(&mut deeds, cause, var, at)?;
    note_reads(&mut deeds, cause, value)?;
    Ok(Box::new(alloc, deeds)?)
}

fn sent(alloc: Global, cause: FaultCode, chan: u32, at: Span, value: &TExpr) -> Collected
    ensures { IfOk result (λ deeds. Tells cause (sending chan at (formula_of value.now)) deeds.value) }
{
    let mut deeds = no_deeds(alloc);
    note_send(&mut deeds, cause, chan, at)?;
    note_reads(&mut deeds, cause, value)?;
    Ok(Box::new(alloc, deeds)?)
}

fn received(
    alloc: Global,
    cause: FaultCode,
    chan: u32,
    chan_at: Span,
    var: u32,
    var_at: Span,
) -> Collected
    ensures { IfOk result (λ deeds. Tells cause (receiving chan chan_at var var_at) deeds.value) }
{
    let mut deeds = no_deeds(alloc);
    note_receive(&mut deeds, cause, chan, chan_at)?;
    note_write(&mut deeds, cause, var, var_at)?;
    Ok(Box::new(alloc, deeds)?)
}

fn first_crossing(one: &Deeds, other: &Deeds) -> Option<Clash>
    ensures { IsLeast IsNoLaterPair (Crosses one.now other.now) result }
{
    let exclusive = first_meeting(&one.exclusive, &other.exclusive);
    let left = first_meeting(&one.exclusive, &other.common);
    let right = first_meeting(&one.common, &other.exclusive);
    sooner(exclusive, sooner(left, right))
}

fn merged(alloc: Global, one: Box<Deeds>, other: Box<Deeds>, across: Option<Clash>) -> Collected
    ensures { IfOk result (λ new. Merges one.value other.value across new.value) }
{
    let one = Box::into_inner(one);
    let other = Box::into_inner(other);
    let exclusive = joined(one.exclusive, other.exclusive)?;
    let common = joined(one.common, other.common)?;
    let clash = sooner(sooner(one.clash, other.clash), across);
    let both = Deeds {
        exclusive,
        common,
        clash,
    };
    Ok(Box::new(alloc, both)?)
}

/// The deeds of both, which don't run beside each other.
#[inline(never)]
fn apart(alloc: Global, one: Collected, other: Collected) -> Collected
    ensures { IfOk result (λ new. IsOkAnd one (λ a. IsOkAnd other (λ b. Merges a.value b.value None new.value))) }
{
    let one = one?;
    merged(alloc, one, other?, None)
}

/// The deeds of both, which run beside each other.
#[inline(never)]
fn beside(alloc: Global, one: Collected, other: Collected) -> Collected
    ensures { IfOk result (λ new. IsOkAnd one (λ a. IsOkAnd other (λ b.
        (across : option pair) × IsLeast IsNoLaterPair (Crosses a.value b.value) across
        × Merges a.value b.value across new.value))) }
{
    let one = one?;
    let other = other?;
    let across = first_crossing(&one, &other);
    merged(alloc, one, other, across)
}

/// These deeds and what the guard reads.
fn with_guard(alloc: Global, cause: FaultCode, guard: &TExpr, deeds: Box<Deeds>) -> Collected
    ensures { IfOk result (λ new. Adds cause (reads_of (formula_of guard.now)) deeds.value new.value) }
{
    let mut noted = Box::into_inner(deeds);
    note_reads(&mut noted, cause, guard)?;
    Ok(Box::new(alloc, noted)?)
}

/// The same of deeds as they were collected.
#[inline(never)]
fn guarded(alloc: Global, cause: FaultCode, guard: &TExpr, deeds: Collected) -> Collected
    ensures { IfOk result (λ new. IsOkAnd deeds (λ d.
        Adds cause (reads_of (formula_of guard.now)) d.value new.value)) }
{
    with_guard(alloc, cause, guard, deeds?)
}

/// The deeds of a statement that has none.
fn nothing_done(alloc: Global) -> Collected
    ensures { IfOk result (λ deeds. (cause : FaultCode) → Tells cause skipping deeds.value) }
{
    Ok(Box::new(alloc, no_deeds(alloc))?)
}

/// The deeds of a statement. They are boxed so that little of the stack is taken for each statement that is within
/// others.
fn deeds_of(alloc: Global, cause: FaultCode, s: &TStmt) -> Collected
    ensures { IfOk result (λ deeds. Tells cause (process_of s.now) deeds.value) }
{
    match s {
        TStmt::Skip => nothing_done(alloc),
        TStmt::Assign { var, at, value } => assigned(alloc, cause, *var, *at, value),
        TStmt::Send { chan, at, value } => sent(alloc, cause, *chan, *at, value),
        TStmt::Receive {
            chan,
            chan_at,
            var,
            var_at,
        } => received(alloc, cause, *chan, *chan_at, *var, *var_at),
        TStmt::Then { parts } => {
            let mut all = nothing_done(alloc);
            for part in parts {
                all = apart(alloc, all, deeds_of(alloc, cause, part));
            }
            all
        }
        TStmt::Beside { parts } => {
            let mut all = nothing_done(alloc);
            for branch in parts {
                all = beside(alloc, all, deeds_of(alloc, cause, branch));
            }
            all
        }
        TStmt::Select { arms, .. } => {
            let mut all = nothing_done(alloc);
            for arm in arms {
                let body = deeds_of(alloc, cause, &arm.body);
                all = apart(alloc, all, guarded(alloc, cause, &arm.guard, body));
            }
            all
        }
        TStmt::Repeat { body } => deeds_of(alloc, cause, body),
    }
}

/// The pair of spans that is reported for the cause, or None if nothing of the kind is shared.
pub(crate) fn first_clash(
    alloc: Global,
    cause: FaultCode,
    s: &TStmt,
) -> Result<Option<Clash>, AllocError>
    ensures { IfOk result (IsLeast IsNoLaterPair (λ c. SharedAt (process_of s.now) cause c.first c.second)) }
{
    let deeds = deeds_of(alloc, cause, s)?;
    Ok(deeds.clash)
}
