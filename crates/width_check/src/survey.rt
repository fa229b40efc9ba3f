//! The walk over a program that finds the first span of each cause.

ghost use Rattle.std.specs.Prelude.{◌≡◌, Some, None, is_none, option_map, unwrap_or, if◌then◌else◌};
ghost use Rattle.chp_syntax.specs.Trees as tree;
ghost use Rattle.chp_syntax.specs.View.{expression_of, statement_of};
ghost use Rattle.width_check.specs.Places as plain;
ghost use Rattle.width_check.specs.Leading.{lacks};
ghost use Rattle.width_check.specs.Walk as walk;

use crate::findings::{Findings, earlier, earlier_if};
use crate::lead::Lead;
use crate::scope::{Scope, capped, compares, slice_width, sum};
use chp_base::Span;
use chp_syntax::{DeclKind, Expr, Ident, Stmt};

/// A name used as a variable.
fn with_var(scope: &Scope, mut findings: Findings, of: &Ident) -> Findings
    ensures { result ≡ walk.noted scope.now.decls.now findings (walk.met_use (plain.use_of of.now plain.read)) }
{
    match scope.find(&of.name) {
        Some(decl) => {
            if decl.kind != DeclKind::Var {
                findings.wrong_kind = earlier(findings.wrong_kind, of.at);
            }
        }
        None => findings.undeclared = earlier(findings.undeclared, of.at),
    }
    findings
}

/// The name of a channel before `!`.
fn with_sender(scope: &Scope, mut findings: Findings, of: &Ident) -> Findings
    ensures { result ≡ walk.noted scope.now.decls.now findings (walk.met_use (plain.use_of of.now plain.sent_on)) }
{
    match scope.find(&of.name) {
        Some(decl) => match decl.kind {
            DeclKind::Var => findings.wrong_kind = earlier(findings.wrong_kind, of.at),
            DeclKind::In => findings.direction = earlier(findings.direction, of.at),
            DeclKind::Out | DeclKind::Chan => {}
        },
        None => findings.undeclared = earlier(findings.undeclared, of.at),
    }
    findings
}

/// The name of a channel before `?`.
fn with_receiver(scope: &Scope, mut findings: Findings, of: &Ident) -> Findings
    ensures { result ≡ walk.noted scope.now.decls.now findings (walk.met_use (plain.use_of of.now plain.received_on)) }
{
    match scope.find(&of.name) {
        Some(decl) => match decl.kind {
            DeclKind::Var => findings.wrong_kind = earlier(findings.wrong_kind, of.at),
            DeclKind::Out => findings.direction = earlier(findings.direction, of.at),
            DeclKind::In | DeclKind::Chan => {}
        },
        None => findings.undeclared = earlier(findings.undeclared, of.at),
    }
    findings
}

/// `x[place]`
fn with_bit(
    scope: &Scope,
    findings: Findings,
    of: &Ident,
    place: u64,
    at: Span,
    width: u8,
) -> Findings
    ensures { result ≡ walk.noted scope.now.decls.now findings
        (walk.met_in scope.now.decls.now width (tree.bit of.now place at)) }
{
    let mut findings = with_var(scope, findings, of);
    findings.slice = earlier_if(scope.width(&of.name) <= place, findings.slice, at);
    findings.with_leaf(1, width, at)
}

/// `x[high:low]`
fn with_slice(
    scope: &Scope,
    findings: Findings,
    of: &Ident,
    high: u64,
    low: u64,
    at: Span,
    width: u8,
) -> Findings
    ensures { result ≡ walk.noted scope.now.decls.now findings
        (walk.met_in scope.now.decls.now width (tree.slice of.now high low at)) }
{
    let bad = high < low || scope.width(&of.name) <= high;
    let mut findings = with_var(scope, findings, of);
    findings.slice = earlier_if(bad, findings.slice, at);
    findings.with_leaf(slice_width(high, low), width, at)
}

/// `x`
fn with_whole(scope: &Scope, findings: Findings, of: &Ident, own: u8, width: u8) -> Findings
    requires { own ≡ walk.capped_width (plain.declared_width scope.now.decls.now of.now.name) }
    ensures { result ≡ walk.noted scope.now.decls.now findings
        (walk.met_in scope.now.decls.now width (tree.whole of.now)) }
{
    let findings = with_var(scope, findings, of);
    findings.with_leaf(own, width, of.at)
}

/// The span of an expression.
fn span(e: &Expr) -> Span
    ensures { result ≡ plain.span_of (expression_of e.now) }
{
    match e {
        Expr::Number { at, .. }
        | Expr::Slice { at, .. }
        | Expr::Bit { at, .. }
        | Expr::Join { at, .. }
        | Expr::Not { at, .. }
        | Expr::Chain { at, .. } => *at,
        Expr::Whole { of } => of.at,
    }
}

/// The findings after a part of a join, which must have a width.
fn with_part(mut findings: Findings, own: Option<u8>, place: Span) -> Findings
    ensures { result ≡ walk.with_part findings (is_none own) place }
{
    findings.widthless = earlier_if(own.is_none(), findings.widthless, place);
    findings
}

/// The findings after a chain: if it compares, one of its sides must have a width, and it has one bit itself.
fn with_chain(
    mut findings: Findings,
    comparing: bool,
    lead: Lead,
    wanted: Option<u8>,
    place: Span,
) -> Findings
    ensures { result ≡ (if comparing then walk.with_leaf (walk.with_part findings (lacks lead) place) 1
        (unwrap_or wanted 1) place else findings) }
{
    if comparing {
        let lacks = matches!(lead, Lead::Nothing);
        findings.widthless = earlier_if(lacks, findings.widthless, place);
        findings.with_leaf(1, wanted.unwrap_or(1), place)
    } else {
        findings
    }
}

/// The width of a chain, whose members have this one.
fn chain_width(comparing: bool, members: Option<u8>) -> Option<u8>
    ensures { result ≡ (if comparing then Some 1 else members) }
{
    if comparing { Some(1) } else { members }
}

/// The findings after an expression, and its own width, which counts only if no width was expected.
#[derive(Clone, Copy)]
struct Surveyed {
    findings: Findings,
    own: Option<u8>,
}

/// An expression with its expected width; if there is none, its own width takes its place and is returned.
fn with_expression(scope: &Scope, findings: Findings, e: &Expr, wanted: Option<u8>) -> Surveyed
    ensures findings { result.findings ≡ walk.surveyed scope.now.decls.now findings wanted (expression_of e.now) }
    ensures own { wanted ≡ None → result.own ≡
        option_map walk.capped_width (plain.own_width scope.now.decls.now (expression_of e.now)) }
{
    match e {
        Expr::Number { value, at } => Surveyed {
            findings: findings.with_number(*value, wanted.unwrap_or(0), *at),
            own: None,
        },
        Expr::Whole { of } => {
            let own = capped(scope.width(&of.name));
            Surveyed {
                findings: with_whole(scope, findings, of, own, wanted.unwrap_or(own)),
                own: Some(own),
            }
        }
        Expr::Slice { of, high, low, at } => {
            let own = slice_width(*high, *low);
            Surveyed {
                findings: with_slice(scope, findings, of, *high, *low, *at, wanted.unwrap_or(own)),
                own: Some(own),
            }
        }
        Expr::Bit { of, place, at } => Surveyed {
            findings: with_bit(scope, findings, of, *place, *at, wanted.unwrap_or(1)),
            own: Some(1),
        },
        Expr::Join { parts, at } => {
            let mut findings = findings;
            let mut own = 0;
            for part in parts {
                let surveyed = with_expression(scope, findings, part, None);
                findings = with_part(surveyed.findings, surveyed.own, span(part));
                own = sum(own, surveyed.own.unwrap_or(0));
            }
            Surveyed {
                findings: findings.with_leaf(own, wanted.unwrap_or(own), *at),
                own: Some(own),
            }
        }
        Expr::Not { inner, .. } => with_expression(scope, findings, inner, wanted),
        Expr::Chain { first, rest, at } => {
            let comparing = compares(rest);
            let lead = scope.lead_to(wanted, first, rest);
            let findings = with_chain(findings, comparing, lead, wanted, *at);
            let surveyed = with_expression(scope, findings, first, lead.known());
            let mut findings = surveyed.findings;
            let members = lead.width(surveyed.own);
            let width = members.unwrap_or(0);
            for link in rest {
                findings = with_expression(scope, findings, &link.right, Some(width)).findings;
            }
            Surveyed {
                findings,
                own: chain_width(comparing, members),
            }
        }
    }
}

/// `v := e`, in a frame of its own: `with_statement` has one for each statement around it.
#[inline(never)]
fn with_assign(scope: &Scope, findings: Findings, target: &Ident, value: &Expr) -> Findings
    ensures { result ≡ walk.noted scope.now.decls.now findings
        (walk.met_of scope.now.decls.now (tree.assigns target.now (expression_of value.now))) }
{
    let findings = with_var(scope, findings, target);
    with_expression(
        scope,
        findings,
        value,
        Some(capped(scope.width(&target.name))),
    )
    .findings
}

/// `X!e`, in a frame of its own too.
#[inline(never)]
fn with_send(scope: &Scope, findings: Findings, chan: &Ident, value: &Expr) -> Findings
    ensures { result ≡ walk.noted scope.now.decls.now findings
        (walk.met_of scope.now.decls.now (tree.sends chan.now (expression_of value.now))) }
{
    let findings = with_sender(scope, findings, chan);
    with_expression(
        scope,
        findings,
        value,
        Some(capped(scope.width(&chan.name))),
    )
    .findings
}

/// `X?v`, likewise.
#[inline(never)]
fn with_receive(scope: &Scope, findings: Findings, chan: &Ident, target: &Ident) -> Findings
    ensures { result ≡ walk.noted scope.now.decls.now findings
        (walk.met_of scope.now.decls.now (tree.receives chan.now target.now)) }
{
    let findings = with_receiver(scope, findings, chan);
    let mut findings = with_var(scope, findings, target);
    let misfit = scope.width(&target.name) != scope.width(&chan.name);
    findings.target = earlier_if(misfit, findings.target, target.at);
    findings
}

/// A statement.
fn with_statement(scope: &Scope, findings: Findings, s: &Stmt) -> Findings
    ensures { result ≡ walk.noted scope.now.decls.now findings (walk.met_of scope.now.decls.now (statement_of s.now)) }
{
    match s {
        Stmt::Skip { .. } | Stmt::Call { .. } => findings,
        Stmt::Assign { target, value } => with_assign(scope, findings, target, value),
        Stmt::Send { chan, value } => with_send(scope, findings, chan, value),
        Stmt::Receive { chan, target } => with_receive(scope, findings, chan, target),
        Stmt::Then { parts } | Stmt::Beside { parts } => {
            let mut findings = findings;
            for part in parts {
                findings = with_statement(scope, findings, part);
            }
            findings
        }
        Stmt::Select { arms, .. } => {
            let mut findings = findings;
            for arm in arms {
                findings = with_expression(scope, findings, &arm.guard, Some(1)).findings;
                findings = with_statement(scope, findings, &arm.body);
            }
            findings
        }
        Stmt::Repeat { body } => with_statement(scope, findings, body),
    }
}

/// For each cause that concerns names, kinds and widths of a program's body, its first span.
pub fn survey(scope: &Scope, body: &Stmt) -> Findings
    ensures { result ≡ walk.noted scope.now.decls.now walk.no_findings
        (walk.met_of scope.now.decls.now (statement_of body.now)) }
{
    let none = Findings {
        undeclared: None,
        wrong_kind: None,
        direction: None,
        slice: None,
        widthless: None,
        leaf: None,
        target: None,
        number: None,
    };
    with_statement(scope, none, body)
}
