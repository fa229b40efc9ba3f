//! The guards of rules, by the numbers of nodes.

ghost use Rattle.std.specs.Prelude.{◌≡◌, ◌<◌, ◌+◌, ◌++◌, ◌∷◌, [], List, Some, None, true, false, length, is_none, IfOk, IfSome, IfNone, OnOk};
ghost use Rattle.std.specs.List.{count_by, list_any};
ghost use Rattle.prs_core.specs.Nets.{IsBelow};
ghost use Rattle.prs_file.specs.declared.rule.Led.{Led as LedValue};
ghost use Rattle.prs_file.specs.Indexes.{place_in};
ghost use Rattle.prs_file.specs.Named.{guard_named, add_by};
ghost use Rattle.prs_file.specs.Terms.{begins_term, terms_of};

use crate::forms::Lead;
use crate::index::NodeIndex;
use crate::rule::Led;
use prs_core::{Guard, Literal, Term};
use std::alloc::{AllocError, Global};
use std::mem;

/// The literal by the number of its node, or None if its name is no node's.
fn literal_of(index: &NodeIndex, led: &Led) -> Option<Literal>
    ensures high { IfSome result (λ literal. literal.high ≡ led.now.high) }
    ensures node { IfSome result (λ literal. place_in index.now led.now.name ≡ Some literal.node) }
    ensures none { IfNone result (place_in index.now led.now.name ≡ None) }
{
    let Some(node) = index.find(led.name.bytes()) else {
        return None;
    };
    Some(Literal {
        node,
        high: led.high,
    })
}

/// Appends the literal to the last term, or begins a new term with it, depending on what leads to it.
fn add_literal(
    terms: &mut Vec<Term>,
    last: &mut Vec<Literal>,
    lead: Lead,
    literal: Literal,
) -> Result<(), AllocError>
    requires { 0 < length last.old.items }
    ensures guard { OnOk result (terms.new.items ++ last.new.items
        ∷ [] ≡ add_by lead literal (terms.old.items ++ last.old.items ∷ [])) }
    ensures some { OnOk result (0 < length last.new.items) }
{
    match lead {
        Lead::Rule | Lead::And => {}
        Lead::Or => {
            let alloc = *last.allocator();
            let whole = mem::replace(last, Vec::new(alloc));
            terms.push(Term::new(whole).unwrap())?;
        }
    }
    last.push(literal)?;
    Ok(())
}

fn begins_term(lead: Lead) -> bool
    ensures { result ≡ begins_term lead }
{
    match lead {
        Lead::Rule | Lead::And => false,
        Lead::Or => true,
    }
}

/// The number of terms of a first literal and these further ones.
fn term_count(further: &[Led]) -> usize
    ensures { result ≡ count_by (λ (l : LedValue). begins_term l.lead) further.now + 1 }
{
    let mut count = 1;
    for led in further {
        if begins_term(led.lead) {
            count += 1;
        }
    }
    count
}

/// The guard of these literals, or None if one of them names no node.
pub fn guard_of(alloc: Global, index: &NodeIndex, leds: &[Led]) -> Result<Option<Guard>, AllocError>
    ensures named { IfOk result (λ o. IfSome o (λ guard. guard_named index.now guard ≡ terms_of leds.now)) }
    ensures within { IfOk result (λ o. IfSome o (λ guard. IsBelow (length index.now) guard)) }
    ensures some { IfOk result
        (λ o. IfSome o (λ _g. list_any (λ (l : LedValue). is_none (place_in index.now l.name)) leds.now ≡ false)) }
    ensures none { IfOk result
        (λ o. IfNone o (list_any (λ (l : LedValue). is_none (place_in index.now l.name)) leds.now ≡ true)) }
{
    let [first, further @ ..] = leds else {
        return Ok(Some(Guard::new(Vec::new(alloc))));
    };
    let Some(literal) = literal_of(index, first) else {
        return Ok(None);
    };
    let mut terms = Vec::with_capacity(alloc, term_count(further))?;
    let mut last = Vec::new(alloc);
    last.push(literal)?;
    for led in further {
        let Some(literal) = literal_of(index, led) else {
            return Ok(None);
        };
        add_literal(&mut terms, &mut last, led.lead, literal)?;
    }
    terms.push(Term::new(last).unwrap())?;
    Ok(Some(Guard::new(terms)))
}
