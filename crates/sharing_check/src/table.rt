//! Tables from the numbers of variables or channels to the first of the spans at which some of them occur.

ghost use Rattle.std.specs.Prelude.{◌≡◌, ◌<◌, ℕ, nat_eq, Some, None, IfOk, OnOk};
ghost use Rattle.std.specs.Bool.{Decides};
ghost use Rattle.std.specs.HashMap.{get};
ghost use Rattle.chp_base.specs.declared.span.Span.{Span};
ghost use Rattle.width_check.specs.Order.{IsNoLater};
ghost use Rattle.sharing_check.specs.Leasts.{IsLeast, IsNoLaterPair, IsInOrder};
ghost use Rattle.sharing_check.specs.Places.{Notes, Joins, Meeting};

use crate::clash::{Clash, in_order, is_no_later, sooner};
use chp_base::Span;
use std::alloc::AllocError;
use std::collections::HashMap;

/// A span for each number in the table.
pub(crate) type Table = HashMap<u32, Span>;

/// Whether the table has a span of the name that is no later.
fn is_noted(table: &Table, name: u32, at: Span) -> bool
    ensures { Decides result ((s : Span) × (get nat_eq table.now name ≡ Some s) × IsNoLater s at) }
{
    match table.get(&name) {
        Some(first) => is_no_later(*first, at),
        None => false,
    }
}

/// Adds a span of a name; the table keeps the earlier one.
pub(crate) fn note(table: &mut Table, name: u32, at: Span) -> Result<(), AllocError>
    ensures { OnOk result (Notes (get nat_eq table.old) name at (get nat_eq table.new)) }
{
    if !is_noted(table, name, at) {
        table.insert(name, at)?;
    }
    Ok(())
}

fn with_noted(mut table: Table, other: &Table) -> Result<Table, AllocError>
    ensures { IfOk result (λ new. Joins (get nat_eq table) (get nat_eq other.now) (get nat_eq new)) }
{
    for (name, at) in other {
        note(&mut table, *name, *at)?;
    }
    Ok(table)
}

/// Both tables in one, with the earlier span of each name. The smaller table is inserted into the other, so joining
/// many takes little more time than their names.
pub(crate) fn joined(one: Table, other: Table) -> Result<Table, AllocError>
    ensures { IfOk result (λ new. Joins (get nat_eq one) (get nat_eq other) (get nat_eq new)) }
{
    if one.len() < other.len() {
        with_noted(other, &one)
    } else {
        with_noted(one, &other)
    }
}

fn meeting(one: Span, other: Option<Span>) -> Option<Clash>
    ensures { IsLeast IsNoLaterPair (λ c. (s : Span) × (other ≡ Some s) × IsInOrder one s c) result }
{
    match other {
        Some(other) => Some(in_order(one, other)),
        None => None,
    }
}

fn first_among(few: &Table, many: &Table) -> Option<Clash>
    ensures { IsLeast IsNoLaterPair (Meeting (get nat_eq few.now) (get nat_eq many.now)) result }
{
    let mut first = None;
    for (name, one) in few {
        first = sooner(first, meeting(*one, many.get(name).copied()));
    }
    first
}

/// The first pair of spans that two tables have for one name, if there is one. The smaller table is iterated.
pub(crate) fn first_meeting(one: &Table, other: &Table) -> Option<Clash>
    ensures { IsLeast IsNoLaterPair (Meeting (get nat_eq one.now) (get nat_eq other.now)) result }
{
    if one.len() < other.len() {
        first_among(one, other)
    } else {
        first_among(other, one)
    }
}
