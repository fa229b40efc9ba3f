//! Expressions. What makes a tree of parts takes these as results, outside of the recursion, so that a function of this
//! owns at most the list that it adds to where it may be left, and its frame on the stack holds little for a bracket.

ghost use Rattle.std.specs.Prelude.{◌≡◌, ℕ, suc, ◌≤◌, ◌<◌, ◌++◌, ◌∷◌, [], List, length, drop, map, Some, Err, IfOk, IfErr, OnOk, IsOkAnd};
ghost use Rattle.chp_syntax.specs.Parts.{Good, Bad, StopsAt, WhenFault, sees, primary_front, level_part, operand_part, links_part, level_rank};
ghost use Rattle.chp_syntax.specs.declared.parser.sight.PrimaryFront.TheVariants as primary;
ghost use Rattle.chp_syntax.specs.declared.parser.sight.Stop.TheVariants.{Fault};
ghost use Rattle.chp_syntax.specs.Trees.{negation, join};
ghost use Rattle.chp_syntax.specs.Grammar.{Primary, Parts, Negated, Comparison, Disjunction, cover, from_to, end_of, longer, no_tail, chain_of};
ghost use Rattle.chp_syntax.specs.View.{covered_of, expression_of, parts_of, link_of, tail_of};

use super::sight::{
    Level, PrimaryFront, Stop, comparison_at, mark_at, operator_at, primary_at, span_at, take_mark,
    take_name, take_number,
};
use crate::token::{Mark, Token};
use crate::tree::{Expr, Link, Op};
use chp_base::Span;
use std::alloc::Global;

/// An expression and the span of its tokens, including parentheses around it.
#[derive(Drop)]
pub struct Covered {
    pub value: Expr,
    pub at: Span,
}

/// Operators with their right sides, and the span of the last one's tokens.
#[derive(Drop)]
pub struct Tail {
    pub links: Vec<Link>,
    pub last: Option<Span>,
}

fn from_to(first: Span, last: Span) -> Span
    ensures { result ≡ record { from = first.from; to = last.to } }
{
    Span {
        from: first.from,
        to: last.to,
    }
}

/// Up to the end of the last one, if there is one.
fn up_to(first: Span, last: Option<Span>) -> Span
    ensures { result ≡ from_to first (end_of first last) }
{
    match last {
        Some(last) => from_to(first, last),
        None => first,
    }
}

/// The chain of a first member and what follows it.
#[inline(never)]
fn chain(alloc: Global, first: Covered, rest: Result<Tail, Stop>) -> Result<Covered, Stop>
    ensures done { IfOk result (λ c. IsOkAnd rest (λ r. covered_of c ≡ chain_of (covered_of first) (tail_of r))) }
    ensures fault { IfErr result (λ e. WhenFault e (rest ≡ Err Fault)) }
{
    let rest = rest?;
    let at = up_to(first.at, rest.last);
    if rest.links.len() == 0 {
        return Ok(Covered {
            value: first.value,
            at,
        });
    }
    let first = Box::new(alloc, first.value)?;
    Ok(Covered {
        value: Expr::Chain {
            first,
            rest: rest.links,
            at,
        },
        at,
    })
}

/// Adds an operator with its right side.
#[inline(never)]
fn add_link(tail: &mut Tail, op: Op, right: Result<Covered, Stop>) -> Result<(), Stop>
    ensures links { OnOk result (IsOkAnd right (λ c.
        map link_of tail.new.links.items ≡ map link_of tail.old.links.items ++ (op, expression_of c.value) ∷ [])) }
    ensures last { OnOk result (IsOkAnd right (λ c. tail.new.last ≡ Some c.at)) }
    ensures fault { IfErr result (λ e. WhenFault e (right ≡ Err Fault)) }
{
    let right = right?;
    tail.last = Some(right.at);
    tail.links.push(Link {
        op,
        right: right.value,
    })?;
    Ok(())
}

/// The comparison of two sides.
#[inline(never)]
fn compare(
    alloc: Global,
    first: Covered,
    op: Op,
    right: Result<Covered, Stop>,
) -> Result<Covered, Stop>
    ensures done { IfOk result (λ c. IsOkAnd right (λ d.
        covered_of c ≡ chain_of (covered_of first) (longer op (covered_of d) no_tail))) }
    ensures fault { IfErr result (λ e. WhenFault e (right ≡ Err Fault)) }
{
    let mut tail = Tail {
        links: Vec::new(alloc),
        last: None,
    };
    let added = add_link(&mut tail, op, right);
    chain(alloc, first, added.and(Ok(tail)))
}

/// The negation behind this `~`.
#[inline(never)]
fn negation(alloc: Global, tilde: Span, inner: Result<Covered, Stop>) -> Result<Covered, Stop>
    ensures done { IfOk result (λ c. IsOkAnd inner (λ d. let s = from_to tilde d.at in
        covered_of c ≡ cover (negation (expression_of d.value) s) s)) }
    ensures fault { IfErr result (λ e. WhenFault e (inner ≡ Err Fault)) }
{
    let inner = inner?;
    let at = from_to(tilde, inner.at);
    let inner = Box::new(alloc, inner.value)?;
    Ok(Covered {
        value: Expr::Not { inner, at },
        at,
    })
}

/// What is in these parentheses.
#[inline(never)]
fn in_round(first: Span, inner: Covered, close: Result<Span, Stop>) -> Result<Covered, Stop>
    ensures done { IfOk result (λ c. IsOkAnd close (λ s.
        covered_of c ≡ cover (expression_of inner.value) (from_to first s))) }
    ensures fault { IfErr result (λ e. WhenFault e (close ≡ Err Fault)) }
{
    match close {
        Ok(close) => Ok(Covered {
            value: inner.value,
            at: from_to(first, close),
        }),
        Err(stop) => Err(stop),
    }
}

/// The join of the parts in these braces.
#[inline(never)]
fn in_braces(first: Span, parts: Vec<Expr>, close: Result<Span, Stop>) -> Result<Covered, Stop>
    ensures done { IfOk result (λ c. IsOkAnd close (λ s. let t = from_to first s in
        covered_of c ≡ cover (join (parts_of parts) t) t)) }
    ensures fault { IfErr result (λ e. WhenFault e (close ≡ Err Fault)) }
{
    let close = close?;
    let at = from_to(first, close);
    Ok(Covered {
        value: Expr::Join { parts, at },
        at,
    })
}

/// Adds a part of a join.
#[inline(never)]
fn add_part(parts: &mut Vec<Expr>, part: Result<Covered, Stop>) -> Result<(), Stop>
    ensures done { OnOk result (IsOkAnd part (λ c.
        map expression_of parts.new.items ≡ map expression_of parts.old.items ++ expression_of c.value ∷ [])) }
    ensures fault { IfErr result (λ e. WhenFault e (part ≡ Err Fault)) }
{
    let part = part?;
    parts.push(part.value)?;
    Ok(())
}

/// NAME | NAME "[" NUMBER "]" | NAME "[" NUMBER ":" NUMBER "]"
fn named(tokens: &[Token], at: &mut usize) -> Result<Covered, Stop>
    requires within { at.old ≤ length tokens.now }
    requires front { primary_front (sees (drop at.old tokens.now)) ≡ primary.Name }
    ensures within { at.new ≤ length tokens.now }
    ensures moved { OnOk result (at.old < at.new) }
    ensures good { IfOk result (λ c. Good Primary (StopsAt 10) (drop at.old tokens.now) (drop at.new tokens.now)
        (covered_of c)) }
    ensures bad { IfErr result (λ e.
        WhenFault e (Bad Primary (StopsAt 10) (drop at.old tokens.now) (drop at.new tokens.now))) }
{
    let of = take_name(tokens, at)?;
    if !mark_at(tokens, *at, Mark::OpenSquare) {
        let span = of.at;
        return Ok(Covered {
            value: Expr::Whole { of },
            at: span,
        });
    }
    *at += 1;
    let first = take_number(tokens, at)?;
    if !mark_at(tokens, *at, Mark::Colon) {
        let close = take_mark(tokens, at, Mark::CloseSquare)?;
        let at = from_to(of.at, close);
        return Ok(Covered {
            value: Expr::Bit {
                of,
                place: first.value,
                at,
            },
            at,
        });
    }
    *at += 1;
    let second = take_number(tokens, at)?;
    let close = take_mark(tokens, at, Mark::CloseSquare)?;
    let at = from_to(of.at, close);
    Ok(Covered {
        value: Expr::Slice {
            of,
            high: first.value,
            low: second.value,
            at,
        },
        at,
    })
}

/// NUMBER | NAME .. | "{" expr { "," expr } "}" | "(" expr ")"
#[cycle(expression_parts)]
fn primary(alloc: Global, tokens: &[Token], at: &mut usize) -> Result<Covered, Stop>
    requires { at.old ≤ length tokens.now }
    ensures within { at.new ≤ length tokens.now }
    ensures moved { OnOk result (at.old < at.new) }
    ensures good { IfOk result (λ c. Good Primary (StopsAt 10) (drop at.old tokens.now) (drop at.new tokens.now)
        (covered_of c)) }
    ensures bad { IfErr result (λ e.
        WhenFault e (Bad Primary (StopsAt 10) (drop at.old tokens.now) (drop at.new tokens.now))) }
{
    match primary_at(tokens, *at) {
        PrimaryFront::Number => {
            let number = take_number(tokens, at)?;
            Ok(Covered {
                value: Expr::Number {
                    value: number.value,
                    at: number.at,
                },
                at: number.at,
            })
        }
        PrimaryFront::Name => named(tokens, at),
        PrimaryFront::Curly => {
            let open = take_mark(tokens, at, Mark::OpenCurly)?;
            let members = parts(alloc, tokens, at)?;
            let close = take_mark(tokens, at, Mark::CloseCurly);
            in_braces(open, members, close)
        }
        PrimaryFront::Round => {
            let open = take_mark(tokens, at, Mark::OpenRound)?;
            let inner = chained(alloc, tokens, at, Level::Disjunction)?;
            let close = take_mark(tokens, at, Mark::CloseRound);
            in_round(open, inner, close)
        }
        PrimaryFront::Other => Err(Stop::Fault),
    }
}

/// expr { "," expr }
#[cycle(expression_parts)]
#[inline(never)]
fn parts(alloc: Global, tokens: &[Token], at: &mut usize) -> Result<Vec<Expr>, Stop>
    requires { at.old ≤ length tokens.now }
    ensures within { at.new ≤ length tokens.now }
    ensures moved { OnOk result (at.old < at.new) }
    ensures good { IfOk result (λ c. Good Parts (StopsAt 4) (drop at.old tokens.now) (drop at.new tokens.now)
        (parts_of c)) }
    ensures bad { IfErr result (λ e.
        WhenFault e (Bad Parts (StopsAt 4) (drop at.old tokens.now) (drop at.new tokens.now))) }
{
    let mut members: Vec<Expr> = Vec::new(alloc);
    let first = chained(alloc, tokens, at, Level::Disjunction);
    add_part(&mut members, first)?;
    while mark_at(tokens, *at, Mark::Comma) {
        *at += 1;
        let next = chained(alloc, tokens, at, Level::Disjunction);
        add_part(&mut members, next)?;
    }
    Ok(members)
}

/// [ "~" ] e6
#[cycle(expression_parts)]
#[inline(never)]
fn negated(alloc: Global, tokens: &[Token], at: &mut usize) -> Result<Covered, Stop>
    requires { at.old ≤ length tokens.now }
    ensures within { at.new ≤ length tokens.now }
    ensures moved { OnOk result (at.old < at.new) }
    ensures good { IfOk result (λ c. Good Negated (StopsAt 10) (drop at.old tokens.now) (drop at.new tokens.now)
        (covered_of c)) }
    ensures bad { IfErr result (λ e.
        WhenFault e (Bad Negated (StopsAt 10) (drop at.old tokens.now) (drop at.new tokens.now))) }
{
    if !mark_at(tokens, *at, Mark::Tilde) {
        return primary(alloc, tokens, at);
    }
    let tilde = span_at(tokens, *at);
    *at += 1;
    let inner = primary(alloc, tokens, at);
    negation(alloc, tilde, inner)
}

/// e4 [ ( "=" | "!=" | "<" | "<=" | ">" | ">=" ) e4 ]
#[cycle(expression_parts)]
#[inline(never)]
fn comparison(alloc: Global, tokens: &[Token], at: &mut usize) -> Result<Covered, Stop>
    requires { at.old ≤ length tokens.now }
    ensures within { at.new ≤ length tokens.now }
    ensures moved { OnOk result (at.old < at.new) }
    ensures good { IfOk result (λ c. Good Comparison (StopsAt 8) (drop at.old tokens.now) (drop at.new tokens.now)
        (covered_of c)) }
    ensures bad { IfErr result (λ e.
        WhenFault e (Bad Comparison (StopsAt 8) (drop at.old tokens.now) (drop at.new tokens.now))) }
{
    let first = chained(alloc, tokens, at, Level::Sum)?;
    let Some(op) = comparison_at(tokens, *at) else {
        return Ok(first);
    };
    *at += 1;
    let right = chained(alloc, tokens, at, Level::Sum);
    compare(alloc, first, op, right)
}

/// What the operators of this level stand between: e1, e2, e3 or e5.
#[cycle(expression_parts)]
fn operand(alloc: Global, tokens: &[Token], at: &mut usize, level: Level) -> Result<Covered, Stop>
    requires { at.old ≤ length tokens.now }
    ensures within { at.new ≤ length tokens.now }
    ensures moved { OnOk result (at.old < at.new) }
    ensures good { IfOk result (λ c. Good (operand_part level) (StopsAt (suc (level_rank level)))
        (drop at.old tokens.now) (drop at.new tokens.now) (covered_of c)) }
    ensures bad { IfErr result (λ e.
        WhenFault e (Bad (operand_part level) (StopsAt (suc (level_rank level)))
        (drop at.old tokens.now) (drop at.new tokens.now))) }
{
    match level {
        Level::Sum => negated(alloc, tokens, at),
        Level::Conjunction => comparison(alloc, tokens, at),
        Level::Exclusive => chained(alloc, tokens, at, Level::Conjunction),
        Level::Disjunction => chained(alloc, tokens, at, Level::Exclusive),
    }
}

/// Operators of this level, each with an operand behind it.
#[cycle(expression_parts)]
#[inline(never)]
fn links(alloc: Global, tokens: &[Token], at: &mut usize, level: Level) -> Result<Tail, Stop>
    requires { at.old ≤ length tokens.now }
    ensures within { at.new ≤ length tokens.now }
    ensures kept { OnOk result (at.old ≤ at.new) }
    ensures good { IfOk result (λ r. Good (links_part level) (StopsAt (level_rank level)) (drop at.old tokens.now)
        (drop at.new tokens.now) (tail_of r)) }
    ensures bad { IfErr result (λ e. WhenFault e
        (Bad (links_part level) (StopsAt (level_rank level)) (drop at.old tokens.now) (drop at.new tokens.now))) }
{
    let mut tail = Tail {
        links: Vec::new(alloc),
        last: None,
    };
    while let Some(op) = operator_at(tokens, *at, level) {
        *at += 1;
        let right = operand(alloc, tokens, at, level);
        add_link(&mut tail, op, right)?;
    }
    Ok(tail)
}

/// An operand, and further ones behind operators of this level: e1 { "|" e1 }, e2 { "^" e2 }, e3 { "&" e3 } or
/// e5 { ( "+" | "-" ) e5 }
#[cycle(expression_parts)]
fn chained(alloc: Global, tokens: &[Token], at: &mut usize, level: Level) -> Result<Covered, Stop>
    requires { at.old ≤ length tokens.now }
    ensures within { at.new ≤ length tokens.now }
    ensures moved { OnOk result (at.old < at.new) }
    ensures good { IfOk result (λ c. Good (level_part level) (StopsAt (level_rank level))
        (drop at.old tokens.now) (drop at.new tokens.now) (covered_of c)) }
    ensures bad { IfErr result (λ e.
        WhenFault e (Bad (level_part level) (StopsAt (level_rank level))
        (drop at.old tokens.now) (drop at.new tokens.now))) }
{
    let first = operand(alloc, tokens, at, level)?;
    let rest = links(alloc, tokens, at, level);
    chain(alloc, first, rest)
}

/// expr
pub fn disjunction(alloc: Global, tokens: &[Token], at: &mut usize) -> Result<Covered, Stop>
    requires { at.old ≤ length tokens.now }
    ensures within { at.new ≤ length tokens.now }
    ensures moved { OnOk result (at.old < at.new) }
    ensures good { IfOk result (λ c. Good Disjunction (StopsAt 5) (drop at.old tokens.now) (drop at.new tokens.now)
        (covered_of c)) }
    ensures bad { IfErr result (λ e.
        WhenFault e (Bad Disjunction (StopsAt 5) (drop at.old tokens.now) (drop at.new tokens.now))) }
{
    chained(alloc, tokens, at, Level::Disjunction)
}
