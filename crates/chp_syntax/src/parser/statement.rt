//! Statements. What makes a tree of parts takes these as results, outside of the recursion, so that a function of this
//! owns at most the list that it adds to where it may be left, and its frame on the stack holds little for a bracket.

ghost use Rattle.std.specs.Prelude.{◌≡◌, ℕ, suc, ◌≤◌, ◌<◌, ◌++◌, ◌∷◌, [], List, length, drop, map, false, Ok, Err, IfOk, IfErr, OnOk, IsOkAnd};
ghost use Rattle.std.specs.Result.{result_and};
ghost use Rattle.chp_syntax.specs.declared.parser.sight.AtomFront.TheVariants as atom;
ghost use Rattle.chp_syntax.specs.declared.parser.sight.Stop.TheVariants.{Fault};
ghost use Rattle.chp_syntax.specs.Trees.{no_members, and_member, repeats, selects};
ghost use Rattle.chp_syntax.specs.Parts.{Good, Bad, StopsAt, Anything, WhenFault, Guard, Inside, sees, atom_front, group_part, member_part, group_rank, several_of};
ghost use Rattle.chp_syntax.specs.Grammar.{Atom, Par, Guarded, GuardedCommand, GuardedCommands, guarded};
ghost use Rattle.chp_syntax.specs.View.{expression_of, statement_of, guarded_of, armed_of, onto};

use super::expression::disjunction;
use super::sight::{
    ActionFront, AtomFront, Group, Stop, action_at, atom_at, begins_statement, continues, mark_at,
    take_mark, take_name, take_word,
};
use crate::token::{Key, Mark, Token};
use crate::tree::{Arm, Expr, Stmt};
use chp_base::Span;
use std::alloc::Global;

/// NAME ":=" expr | NAME "!" expr | NAME "?" NAME
#[inline(never)]
fn action(alloc: Global, tokens: &[Token], at: &mut usize) -> Result<Stmt, Stop>
    requires within { at.old ≤ length tokens.now }
    requires front { atom_front (sees (drop at.old tokens.now)) ≡ atom.Name }
    ensures within { at.new ≤ length tokens.now }
    ensures moved { OnOk result (at.old < at.new) }
    ensures good { IfOk result (λ s. Good Atom (StopsAt 5) (drop at.old tokens.now) (drop at.new tokens.now)
        (statement_of s)) }
    ensures bad { IfErr result (λ e.
        WhenFault e (Bad Atom (StopsAt 5) (drop at.old tokens.now) (drop at.new tokens.now))) }
{
    let name = take_name(tokens, at)?;
    match action_at(tokens, *at) {
        ActionFront::Assign => {
            take_mark(tokens, at, Mark::Becomes)?;
            let value = disjunction(alloc, tokens, at)?;
            Ok(Stmt::Assign {
                target: name,
                value: value.value,
            })
        }
        ActionFront::Send => {
            take_mark(tokens, at, Mark::Bang)?;
            let value = disjunction(alloc, tokens, at)?;
            Ok(Stmt::Send {
                chan: name,
                value: value.value,
            })
        }
        ActionFront::Receive => {
            take_mark(tokens, at, Mark::Question)?;
            let target = take_name(tokens, at)?;
            Ok(Stmt::Receive { chan: name, target })
        }
        ActionFront::Other => Err(Stop::Fault),
    }
}

/// expr "->"
#[inline(never)]
fn guard(alloc: Global, tokens: &[Token], at: &mut usize) -> Result<Expr, Stop>
    requires { at.old ≤ length tokens.now }
    ensures within { at.new ≤ length tokens.now }
    ensures moved { OnOk result (at.old < at.new) }
    ensures good { IfOk result (λ e. Good Guard Anything (drop at.old tokens.now) (drop at.new tokens.now)
        (expression_of e)) }
    ensures bad { IfErr result (λ e.
        WhenFault e (Bad Guard Anything (drop at.old tokens.now) (drop at.new tokens.now))) }
{
    let guard = disjunction(alloc, tokens, at)?;
    take_mark(tokens, at, Mark::Arrow).and(Ok(guard.value))
}

/// The repetition of what is between the brackets.
#[inline(never)]
fn repeat(alloc: Global, body: Result<Stmt, Stop>) -> Result<Stmt, Stop>
    ensures done { IfOk result (λ s. IsOkAnd body (λ t. statement_of s ≡ repeats (statement_of t))) }
    ensures fault { IfErr result (λ e. WhenFault e (body ≡ Err Fault)) }
{
    let body = Box::new(alloc, body?)?;
    Ok(Stmt::Repeat { body })
}

/// The selection with these arms, up to its bracket.
#[inline(never)]
fn select(arms: Vec<Arm>, close: Result<Span, Stop>) -> Result<Stmt, Stop>
    ensures done { IfOk result (λ s. IsOkAnd close (λ c. statement_of s ≡ selects false (armed_of arms))) }
    ensures fault { IfErr result (λ e. WhenFault e (close ≡ Err Fault)) }
{
    close?;
    Ok(Stmt::Select { again: false, arms })
}

/// What stands between brackets, up to the second one.
#[inline(never)]
fn closed(inner: Stmt, close: Result<Span, Stop>) -> Result<Stmt, Stop>
    ensures { result ≡ result_and close (Ok inner) }
{
    close.and(Ok(inner))
}

/// Adds a member of a group.
#[inline(never)]
fn add_member(parts: &mut Vec<Stmt>, member: Result<Stmt, Stop>) -> Result<(), Stop>
    ensures done { OnOk result (IsOkAnd member (λ s.
        map statement_of parts.new.items ≡ map statement_of parts.old.items ++ statement_of s ∷ [])) }
    ensures fault { IfErr result (λ e. WhenFault e (member ≡ Err Fault)) }
{
    parts.push(member?)?;
    Ok(())
}

/// The arm with this guard and this statement.
#[inline(never)]
fn arm_of(guard: Expr, body: Result<Stmt, Stop>) -> Result<Arm, Stop>
    ensures done { IfOk result (λ a. IsOkAnd body (λ s.
        guarded_of a ≡ guarded (expression_of guard) (statement_of s))) }
    ensures fault { IfErr result (λ e. WhenFault e (body ≡ Err Fault)) }
{
    match body {
        Ok(body) => Ok(Arm { guard, body }),
        Err(stop) => Err(stop),
    }
}

/// Adds the arm with this guard and this statement.
#[inline(never)]
fn add_arm(arms: &mut Vec<Arm>, guard: Expr, body: Result<Stmt, Stop>) -> Result<(), Stop>
    ensures done { OnOk result (IsOkAnd body (λ s. map guarded_of arms.new.items ≡
        map guarded_of arms.old.items ++ guarded (expression_of guard) (statement_of s) ∷ [])) }
    ensures fault { IfErr result (λ e. WhenFault e (body ≡ Err Fault)) }
{
    arms.push(arm_of(guard, body)?)?;
    Ok(())
}

/// The group of several members.
#[inline(never)]
fn group_of(group: Group, parts: Vec<Stmt>) -> Stmt
    ensures { statement_of result ≡ several_of group (onto and_member (map statement_of parts.items) no_members) }
{
    match group {
        Group::Both => Stmt::Beside { parts },
        Group::Seq => Stmt::Then { parts },
        Group::Par => Stmt::Beside { parts },
    }
}

/// The last member of a group behind these; it alone, where there are no others.
#[inline(never)]
fn joined(group: Group, parts: Vec<Stmt>, last: Result<Stmt, Stop>) -> Result<Stmt, Stop>
    ensures alone { parts.items ≡ [] → result ≡ last }
    ensures several { ¬ (parts.items ≡ []) → IfOk result (λ s. IsOkAnd last (λ t. statement_of s ≡
        several_of group (onto and_member (map statement_of parts.items ++ statement_of t ∷ []) no_members))) }
    ensures fault { IfErr result (λ e. WhenFault e (last ≡ Err Fault)) }
{
    if parts.is_empty() {
        return last;
    }
    let mut parts = parts;
    add_member(&mut parts, last)?;
    Ok(group_of(group, parts))
}

/// "skip"
#[inline(never)]
fn skip(tokens: &[Token], at: &mut usize) -> Result<Stmt, Stop>
    requires within { at.old ≤ length tokens.now }
    requires front { atom_front (sees (drop at.old tokens.now)) ≡ atom.Skip }
    ensures within { at.new ≤ length tokens.now }
    ensures moved { OnOk result (at.old < at.new) }
    ensures good { IfOk result (λ s. Good Atom (StopsAt 5) (drop at.old tokens.now) (drop at.new tokens.now)
        (statement_of s)) }
    ensures bad { IfErr result (λ e.
        WhenFault e (Bad Atom (StopsAt 5) (drop at.old tokens.now) (drop at.new tokens.now))) }
{
    let span = take_word(tokens, at, Key::Skip)?;
    Ok(Stmt::Skip { at: span })
}

/// "call" NAME
#[inline(never)]
fn call(tokens: &[Token], at: &mut usize) -> Result<Stmt, Stop>
    requires within { at.old ≤ length tokens.now }
    requires front { atom_front (sees (drop at.old tokens.now)) ≡ atom.Call }
    ensures within { at.new ≤ length tokens.now }
    ensures moved { OnOk result (at.old < at.new) }
    ensures good { IfOk result (λ s. Good Atom (StopsAt 5) (drop at.old tokens.now) (drop at.new tokens.now)
        (statement_of s)) }
    ensures bad { IfErr result (λ e.
        WhenFault e (Bad Atom (StopsAt 5) (drop at.old tokens.now) (drop at.new tokens.now))) }
{
    take_word(tokens, at, Key::Call)?;
    let of = take_name(tokens, at)?;
    Ok(Stmt::Call { of })
}

/// "skip" | NAME .. | "call" NAME | "(" par ")" | "*" "[" .. "]" | "[" arms "]"
#[cycle(statement_parts)]
pub fn atom(alloc: Global, tokens: &[Token], at: &mut usize) -> Result<Stmt, Stop>
    requires { at.old ≤ length tokens.now }
    ensures within { at.new ≤ length tokens.now }
    ensures moved { OnOk result (at.old < at.new) }
    ensures good { IfOk result (λ s. Good Atom (StopsAt 5) (drop at.old tokens.now) (drop at.new tokens.now)
        (statement_of s)) }
    ensures bad { IfErr result (λ e.
        WhenFault e (Bad Atom (StopsAt 5) (drop at.old tokens.now) (drop at.new tokens.now))) }
{
    match atom_at(tokens, *at) {
        AtomFront::Skip => skip(tokens, at),
        AtomFront::Call => call(tokens, at),
        AtomFront::Name => action(alloc, tokens, at),
        AtomFront::Round => bracketed(alloc, tokens, at),
        AtomFront::Star => repetition(alloc, tokens, at),
        AtomFront::Square => selection(alloc, tokens, at),
        AtomFront::Other => Err(Stop::Fault),
    }
}

/// "(" par ")"
#[cycle(statement_parts)]
#[inline(never)]
fn bracketed(alloc: Global, tokens: &[Token], at: &mut usize) -> Result<Stmt, Stop>
    requires within { at.old ≤ length tokens.now }
    requires front { atom_front (sees (drop at.old tokens.now)) ≡ atom.Round }
    ensures within { at.new ≤ length tokens.now }
    ensures moved { OnOk result (at.old < at.new) }
    ensures good { IfOk result (λ s. Good Atom (StopsAt 5) (drop at.old tokens.now) (drop at.new tokens.now)
        (statement_of s)) }
    ensures bad { IfErr result (λ e.
        WhenFault e (Bad Atom (StopsAt 5) (drop at.old tokens.now) (drop at.new tokens.now))) }
{
    take_mark(tokens, at, Mark::OpenRound)?;
    let inner = grouped(alloc, tokens, at, Group::Par)?;
    let close = take_mark(tokens, at, Mark::CloseRound);
    closed(inner, close)
}

/// "*" "[" .. "]"
#[cycle(statement_parts)]
#[inline(never)]
fn repetition(alloc: Global, tokens: &[Token], at: &mut usize) -> Result<Stmt, Stop>
    requires within { at.old ≤ length tokens.now }
    requires front { atom_front (sees (drop at.old tokens.now)) ≡ atom.Star }
    ensures within { at.new ≤ length tokens.now }
    ensures moved { OnOk result (at.old < at.new) }
    ensures good { IfOk result (λ s. Good Atom (StopsAt 5) (drop at.old tokens.now) (drop at.new tokens.now)
        (statement_of s)) }
    ensures bad { IfErr result (λ e.
        WhenFault e (Bad Atom (StopsAt 5) (drop at.old tokens.now) (drop at.new tokens.now))) }
{
    take_mark(tokens, at, Mark::Star)?;
    take_mark(tokens, at, Mark::OpenSquare)?;
    let inner = inside(alloc, tokens, at)?;
    let close = take_mark(tokens, at, Mark::CloseSquare);
    closed(inner, close)
}

/// "[" arms "]"
#[cycle(statement_parts)]
#[inline(never)]
fn selection(alloc: Global, tokens: &[Token], at: &mut usize) -> Result<Stmt, Stop>
    requires within { at.old ≤ length tokens.now }
    requires front { atom_front (sees (drop at.old tokens.now)) ≡ atom.Square }
    ensures within { at.new ≤ length tokens.now }
    ensures moved { OnOk result (at.old < at.new) }
    ensures good { IfOk result (λ s. Good Atom (StopsAt 5) (drop at.old tokens.now) (drop at.new tokens.now)
        (statement_of s)) }
    ensures bad { IfErr result (λ e.
        WhenFault e (Bad Atom (StopsAt 5) (drop at.old tokens.now) (drop at.new tokens.now))) }
{
    take_mark(tokens, at, Mark::OpenSquare)?;
    let arms = choices(alloc, tokens, at)?;
    let close = take_mark(tokens, at, Mark::CloseSquare);
    select(arms, close)
}

/// What is between the brackets of a repetition: par | arms
#[cycle(statement_parts)]
#[inline(never)]
fn inside(alloc: Global, tokens: &[Token], at: &mut usize) -> Result<Stmt, Stop>
    requires { at.old ≤ length tokens.now }
    ensures within { at.new ≤ length tokens.now }
    ensures moved { OnOk result (at.old < at.new) }
    ensures good { IfOk result (λ s. Good Inside (StopsAt 1) (drop at.old tokens.now) (drop at.new tokens.now)
        (statement_of s)) }
    ensures bad { IfErr result (λ e.
        WhenFault e (Bad Inside (StopsAt 1) (drop at.old tokens.now) (drop at.new tokens.now))) }
{
    if begins_statement(tokens, *at) {
        let body = grouped(alloc, tokens, at, Group::Par);
        return repeat(alloc, body);
    }
    let arms = choices(alloc, tokens, at)?;
    Ok(Stmt::Select { again: true, arms })
}

/// expr "->" par, which is added to the arms
#[cycle(statement_parts)]
#[inline(never)]
fn branch(alloc: Global, tokens: &[Token], at: &mut usize, arms: &mut Vec<Arm>) -> Result<(), Stop>
    requires { at.old ≤ length tokens.now }
    ensures within { at.new ≤ length tokens.now }
    ensures moved { OnOk result (at.old < at.new) }
    ensures good { OnOk result ((g : Guarded) × Good GuardedCommand (StopsAt 2) (drop at.old tokens.now)
        (drop at.new tokens.now) g × (map guarded_of arms.new.items ≡ map guarded_of arms.old.items ++ g ∷ [])) }
    ensures bad { IfErr result (λ e.
        WhenFault e (Bad GuardedCommand (StopsAt 2) (drop at.old tokens.now) (drop at.new tokens.now))) }
{
    let guard = guard(alloc, tokens, at)?;
    let body = grouped(alloc, tokens, at, Group::Par);
    add_arm(arms, guard, body)
}

/// arm { "[]" arm }
#[cycle(statement_parts)]
fn choices(alloc: Global, tokens: &[Token], at: &mut usize) -> Result<Vec<Arm>, Stop>
    requires { at.old ≤ length tokens.now }
    ensures within { at.new ≤ length tokens.now }
    ensures moved { OnOk result (at.old < at.new) }
    ensures good { IfOk result (λ s. Good GuardedCommands (StopsAt 1) (drop at.old tokens.now) (drop at.new tokens.now)
        (armed_of s)) }
    ensures bad { IfErr result (λ e.
        WhenFault e (Bad GuardedCommands (StopsAt 1) (drop at.old tokens.now) (drop at.new tokens.now))) }
{
    let mut arms: Vec<Arm> = Vec::new(alloc);
    branch(alloc, tokens, at, &mut arms)?;
    while mark_at(tokens, *at, Mark::Choice) {
        *at += 1;
        branch(alloc, tokens, at, &mut arms)?;
    }
    Ok(arms)
}

/// A member of a group: atom, both or seq.
#[cycle(statement_parts)]
#[inline(never)]
fn member(alloc: Global, tokens: &[Token], at: &mut usize, group: Group) -> Result<Stmt, Stop>
    requires { at.old ≤ length tokens.now }
    ensures within { at.new ≤ length tokens.now }
    ensures moved { OnOk result (at.old < at.new) }
    ensures good { IfOk result (λ s. Good (member_part group) (StopsAt (suc (group_rank group)))
        (drop at.old tokens.now) (drop at.new tokens.now) (statement_of s)) }
    ensures bad { IfErr result (λ e.
        WhenFault e (Bad (member_part group) (StopsAt (suc (group_rank group)))
        (drop at.old tokens.now) (drop at.new tokens.now))) }
{
    match group {
        Group::Both => atom(alloc, tokens, at),
        Group::Seq => grouped(alloc, tokens, at, Group::Both),
        Group::Par => grouped(alloc, tokens, at, Group::Seq),
    }
}

/// A member, and further ones behind the sign of this group: atom { "," atom }, both { ";" both } or seq { "||" seq }
#[cycle(statement_parts)]
fn grouped(alloc: Global, tokens: &[Token], at: &mut usize, group: Group) -> Result<Stmt, Stop>
    requires { at.old ≤ length tokens.now }
    ensures within { at.new ≤ length tokens.now }
    ensures moved { OnOk result (at.old < at.new) }
    ensures good { IfOk result (λ s. Good (group_part group) (StopsAt (group_rank group))
        (drop at.old tokens.now) (drop at.new tokens.now) (statement_of s)) }
    ensures bad { IfErr result (λ e.
        WhenFault e (Bad (group_part group) (StopsAt (group_rank group))
        (drop at.old tokens.now) (drop at.new tokens.now))) }
{
    let mut parts: Vec<Stmt> = Vec::new(alloc);
    loop {
        let next = member(alloc, tokens, at, group);
        if !continues(tokens, *at, group) {
            return joined(group, parts, next);
        }
        add_member(&mut parts, next)?;
        *at += 1;
    }
}

/// par
pub fn par(alloc: Global, tokens: &[Token], at: &mut usize) -> Result<Stmt, Stop>
    requires { at.old ≤ length tokens.now }
    ensures within { at.new ≤ length tokens.now }
    ensures moved { OnOk result (at.old < at.new) }
    ensures good { IfOk result (λ s. Good Par (StopsAt 2) (drop at.old tokens.now) (drop at.new tokens.now)
        (statement_of s)) }
    ensures bad { IfErr result (λ e.
        WhenFault e (Bad Par (StopsAt 2) (drop at.old tokens.now) (drop at.new tokens.now))) }
{
    grouped(alloc, tokens, at, Group::Par)
}
