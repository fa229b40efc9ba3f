//! Declarations, and whole programs.

ghost use Rattle.std.specs.Prelude.{◌≡◌, ℕ, ◌≤◌, ◌<◌, List, length, drop, IfOk, IfErr, OnOk};
ghost use Rattle.std.specs.Bool.{OnTrue, OnFalse};
ghost use Rattle.chp_syntax.specs.declared.parser.sight.DeclFront.TheVariants as decl;
ghost use Rattle.chp_syntax.specs.declared.token.Key.TheVariants as key;
ghost use Rattle.chp_syntax.specs.declared.token.TokenKind.TheVariants.{Word};
ghost use Rattle.chp_syntax.specs.Parts.{Good, Bad, Anything, Exactly, Nothing, Undeclared, WhenFault, sees, decl_front};
ghost use Rattle.chp_syntax.specs.Grammar.{Declaration, Declarations, Programs, valued, defined};
ghost use Rattle.chp_syntax.specs.View.{item_of, declared_of, with_item, procedure_of, program_tree};

use super::sight::{
    DeclFront, Stop, decl_at, mark_at, take_mark, take_name, take_number, take_word,
};
use super::statement::{atom, par};
use crate::token::{Key, Mark, Token};
use crate::tree::{Decl, DeclKind, Proc, Program};
use chp_base::Span;
use std::alloc::Global;

/// What one declaration declares.
#[derive(Drop)]
pub enum Item {
    Value(Decl),
    Procedure(Proc),
}

/// What some declarations declare, in text order.
#[derive(Drop)]
pub struct Declared {
    pub decls: Vec<Decl>,
    pub procs: Vec<Proc>,
}

fn add(declared: &mut Declared, item: Item) -> Result<(), Stop>
    ensures done { OnOk result (declared_of declared.new ≡ with_item (declared_of declared.old) (item_of item)) }
    ensures no_fault { IfErr result (λ e. WhenFault e ⊥) }
{
    match item {
        Item::Value(decl) => declared.decls.push(decl)?,
        Item::Procedure(procedure) => declared.procs.push(procedure)?,
    }
    Ok(())
}

/// Whether a declaration begins here.
fn declares(tokens: &[Token], at: usize) -> bool
    requires { at ≤ length tokens.now }
    ensures some { OnTrue result (¬ Undeclared (sees (drop at tokens.now))) }
    ensures none { OnFalse result (Undeclared (sees (drop at tokens.now))) }
{
    match decl_at(tokens, at) {
        DeclFront::Channel(_) => true,
        DeclFront::Variable => true,
        DeclFront::Procedure => true,
        DeclFront::Other => false,
    }
}

/// ( "in" | "out" | "chan" ) NAME ":" NUMBER ";"
fn channel(tokens: &[Token], at: &mut usize, kind: DeclKind) -> Result<Decl, Stop>
    requires within { at.old ≤ length tokens.now }
    requires front { decl_front (sees (drop at.old tokens.now)) ≡ decl.Channel kind }
    ensures within { at.new ≤ length tokens.now }
    ensures moved { OnOk result (at.old < at.new) }
    ensures good { IfOk result (λ d. Good Declaration Anything (drop at.old tokens.now) (drop at.new tokens.now)
        (valued d)) }
    ensures bad { IfErr result (λ e.
        WhenFault e (Bad Declaration Anything (drop at.old tokens.now) (drop at.new tokens.now))) }
{
    *at += 1;
    let name = take_name(tokens, at)?;
    take_mark(tokens, at, Mark::Colon)?;
    let width = take_number(tokens, at)?;
    take_mark(tokens, at, Mark::Semicolon)?;
    Ok(Decl {
        kind,
        name,
        width: width.value,
        width_at: width.at,
        first: 0,
        first_at: width.at,
    })
}

/// "var" NAME ":" NUMBER [ "=" NUMBER ] ";"
fn variable(tokens: &[Token], at: &mut usize) -> Result<Decl, Stop>
    requires within { at.old ≤ length tokens.now }
    requires front { decl_front (sees (drop at.old tokens.now)) ≡ decl.Variable }
    ensures within { at.new ≤ length tokens.now }
    ensures moved { OnOk result (at.old < at.new) }
    ensures good { IfOk result (λ d. Good Declaration Anything (drop at.old tokens.now) (drop at.new tokens.now)
        (valued d)) }
    ensures bad { IfErr result (λ e.
        WhenFault e (Bad Declaration Anything (drop at.old tokens.now) (drop at.new tokens.now))) }
{
    take_word(tokens, at, Key::Var)?;
    let name = take_name(tokens, at)?;
    take_mark(tokens, at, Mark::Colon)?;
    let width = take_number(tokens, at)?;
    if !mark_at(tokens, *at, Mark::Equal) {
        take_mark(tokens, at, Mark::Semicolon)?;
        return Ok(Decl {
            kind: DeclKind::Var,
            name,
            width: width.value,
            width_at: width.at,
            first: 0,
            first_at: width.at,
        });
    }
    *at += 1;
    let first = take_number(tokens, at)?;
    take_mark(tokens, at, Mark::Semicolon)?;
    Ok(Decl {
        kind: DeclKind::Var,
        name,
        width: width.value,
        width_at: width.at,
        first: first.value,
        first_at: first.at,
    })
}

/// "proc" NAME "=" atom ";"
fn procedure(alloc: Global, tokens: &[Token], at: &mut usize) -> Result<Proc, Stop>
    requires within { at.old ≤ length tokens.now }
    requires front { decl_front (sees (drop at.old tokens.now)) ≡ decl.Procedure }
    ensures within { at.new ≤ length tokens.now }
    ensures moved { OnOk result (at.old < at.new) }
    ensures good { IfOk result (λ d. Good Declaration Anything (drop at.old tokens.now) (drop at.new tokens.now)
        (defined (procedure_of d))) }
    ensures bad { IfErr result (λ e.
        WhenFault e (Bad Declaration Anything (drop at.old tokens.now) (drop at.new tokens.now))) }
{
    take_word(tokens, at, Key::Proc)?;
    let name = take_name(tokens, at)?;
    take_mark(tokens, at, Mark::Equal)?;
    let body = atom(alloc, tokens, at)?;
    take_mark(tokens, at, Mark::Semicolon).and(Ok(Proc { name, body }))
}

/// decl
fn declaration(alloc: Global, tokens: &[Token], at: &mut usize) -> Result<Item, Stop>
    requires { at.old ≤ length tokens.now }
    ensures within { at.new ≤ length tokens.now }
    ensures moved { OnOk result (at.old < at.new) }
    ensures good { IfOk result (λ d. Good Declaration Anything (drop at.old tokens.now) (drop at.new tokens.now)
        (item_of d)) }
    ensures bad { IfErr result (λ e.
        WhenFault e (Bad Declaration Anything (drop at.old tokens.now) (drop at.new tokens.now))) }
{
    match decl_at(tokens, *at) {
        DeclFront::Channel(kind) => {
            let decl = channel(tokens, at, kind)?;
            Ok(Item::Value(decl))
        }
        DeclFront::Variable => {
            let decl = variable(tokens, at)?;
            Ok(Item::Value(decl))
        }
        DeclFront::Procedure => {
            let body = procedure(alloc, tokens, at)?;
            Ok(Item::Procedure(body))
        }
        DeclFront::Other => Err(Stop::Fault),
    }
}

/// { decl }
fn declarations(alloc: Global, tokens: &[Token], at: &mut usize) -> Result<Declared, Stop>
    requires { at.old ≤ length tokens.now }
    ensures within { at.new ≤ length tokens.now }
    ensures good { IfOk result (λ d. Good Declarations Undeclared (drop at.old tokens.now) (drop at.new tokens.now)
        (declared_of d)) }
    ensures bad { IfErr result (λ e.
        WhenFault e (Bad Declarations Undeclared (drop at.old tokens.now) (drop at.new tokens.now))) }
{
    let mut declared = Declared {
        decls: Vec::new(alloc),
        procs: Vec::new(alloc),
    };
    while declares(tokens, *at) {
        let item = declaration(alloc, tokens, at)?;
        add(&mut declared, item)?;
    }
    Ok(declared)
}

/// "end", and nothing after it
fn take_end(tokens: &[Token], at: &mut usize) -> Result<Span, Stop>
    requires { at.old ≤ length tokens.now }
    ensures within { at.new ≤ length tokens.now }
    ensures whole { OnOk result (at.new ≡ length tokens.now) }
    ensures good { IfOk result
        (Good (Exactly (Word key.End)) Nothing (drop at.old tokens.now) (drop at.new tokens.now)) }
    ensures bad { IfErr result (λ e.
        WhenFault e (Bad (Exactly (Word key.End)) Nothing (drop at.old tokens.now) (drop at.new tokens.now))) }
{
    let span = take_word(tokens, at, Key::End)?;
    if *at < tokens.len() {
        return Err(Stop::Fault);
    }
    Ok(span)
}

/// { decl } "begin" par "end", and nothing after it
pub fn program(alloc: Global, tokens: &[Token], at: &mut usize) -> Result<Program, Stop>
    requires { at.old ≤ length tokens.now }
    ensures within { at.new ≤ length tokens.now }
    ensures whole { OnOk result (at.new ≡ length tokens.now) }
    ensures good { IfOk result (λ d. Good Programs Nothing (drop at.old tokens.now) (drop at.new tokens.now)
        (program_tree d)) }
    ensures bad { IfErr result (λ e.
        WhenFault e (Bad Programs Nothing (drop at.old tokens.now) (drop at.new tokens.now))) }
{
    let declared = declarations(alloc, tokens, at)?;
    take_word(tokens, at, Key::Begin)?;
    let body = par(alloc, tokens, at)?;
    let program = Program {
        decls: declared.decls,
        procs: declared.procs,
        body,
    };
    take_end(tokens, at).and(Ok(program))
}
