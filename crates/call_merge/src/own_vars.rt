//! The variables of assignments that read their own target.

ghost use Rattle.std.specs.Prelude.{◌≡◌, ◌<◌, ◌≤◌, ◌^◌, ◌++◌, ◌∷◌, ◌↔◌, ℕ, List, map, false, true, decimal, All, IfOk, OnOk};
ghost use Rattle.std.specs.HashSet.{contains};
ghost use Rattle.std.specs.List.{list_any};
ghost use Rattle.std.specs.Str.{bytes_eq};
ghost use Rattle.chp_base.specs.Names.{IsName};
ghost use Rattle.chp_syntax.specs.View.{program_tree as tree_of, expression_of, statement_of};
ghost use Rattle.width_check.specs.Places.{is_var, uses_in, declared_width};
ghost use Rattle.call_merge.specs.CallSplits.{names_read, is_var_name, reads_itself, own_readers, all_own_readers, program_names, all_uses, all_names, own_name, width_place, own_var, AreOwnVars};

use crate::copies::copied_name;
use crate::firsts::FirstDecls;
use crate::sites::{all_calls, note_names, table_of};
use chp_base::{Name, Span, name_of};
use chp_syntax::{Decl, DeclKind, Expr, Ident, Proc, Program, Stmt};
use itoa::Buffer;
use std::alloc::{AllocError, Global};
use std::collections::HashSet;

/// Where no width is declared.
const NOWHERE: Span = Span { from: 0, to: 0 };

/// Adds the names that the expression reads.
fn note_reads(names: &mut Vec<Name>, e: &Expr) -> Result<(), AllocError>
    ensures { OnOk result (names.new.items ≡ names.old.items ++ names_read (expression_of e.now)) }
{
    match e {
        Expr::Number { .. } => Ok(()),
        Expr::Whole { of } | Expr::Slice { of, .. } | Expr::Bit { of, .. } => {
            names.push(of.name.copy()?)?;
            Ok(())
        }
        Expr::Join { parts, .. } => {
            for part in parts {
                note_reads(names, part)?;
            }
            Ok(())
        }
        Expr::Not { inner, .. } => note_reads(names, inner),
        Expr::Chain { first, rest, .. } => {
            note_reads(names, first)?;
            for link in rest {
                note_reads(names, &link.right)?;
            }
            Ok(())
        }
    }
}

/// Adds the names of variables and channels in a statement.
fn note_uses(names: &mut Vec<Name>, s: &Stmt) -> Result<(), AllocError>
    ensures { OnOk result (names.new.items ≡ names.old.items ++ map (λ u. u.name) (uses_in (statement_of s.now))) }
{
    match s {
        Stmt::Skip { .. } | Stmt::Call { .. } => Ok(()),
        Stmt::Assign { target: of, value } | Stmt::Send { chan: of, value } => {
            names.push(of.name.copy()?)?;
            note_reads(names, value)
        }
        Stmt::Receive { chan, target } => {
            names.push(chan.name.copy()?)?;
            names.push(target.name.copy()?)?;
            Ok(())
        }
        Stmt::Then { parts } | Stmt::Beside { parts } => {
            for part in parts {
                note_uses(names, part)?;
            }
            Ok(())
        }
        Stmt::Select { arms, .. } => {
            for arm in arms {
                note_reads(names, &arm.guard)?;
                note_uses(names, &arm.body)?;
            }
            Ok(())
        }
        Stmt::Repeat { body } => note_uses(names, body),
    }
}

fn is_var(kind: DeclKind) -> bool
    ensures { result ≡ is_var kind }
{
    matches!(kind, DeclKind::Var)
}

/// Whether the first declaration of the name is a variable's.
fn is_var_name(decls: &FirstDecls, name: &Name) -> bool
    ensures { result ≡ is_var_name decls.now name.now }
{
    match decls.find(name) {
        Some(decl) => is_var(decl.kind),
        None => false,
    }
}

fn has_name(names: &[Name], name: &Name) -> bool
    ensures { result ≡ list_any (bytes_eq name.now) names.now }
{
    names.iter().any(|one| *name == *one)
}

/// Whether an assignment reads its own target, which is a variable.
pub(crate) fn reads_itself(
    alloc: Global,
    decls: &FirstDecls,
    target: &Ident,
    value: &Expr,
) -> Result<bool, AllocError>
    ensures { IfOk result (λ itself. itself ≡ reads_itself decls.now target.now (expression_of value.now)) }
{
    if !is_var_name(decls, &target.name) {
        return Ok(false);
    }
    let mut read = Vec::new(alloc);
    note_reads(&mut read, value)?;
    Ok(has_name(&read, &target.name))
}

/// Adds the targets of the assignments that read their own target.
fn note_own_readers(
    alloc: Global,
    decls: &FirstDecls,
    found: &mut Vec<Ident>,
    s: &Stmt,
) -> Result<(), AllocError>
    ensures { OnOk result (found.new.items ≡ found.old.items ++ own_readers decls.now (statement_of s.now)) }
{
    match s {
        Stmt::Skip { .. } | Stmt::Send { .. } | Stmt::Receive { .. } | Stmt::Call { .. } => Ok(()),
        Stmt::Assign { target, value } => {
            if reads_itself(alloc, decls, target, value)? {
                found.push(copied_name(target)?)?;
            }
            Ok(())
        }
        Stmt::Then { parts } | Stmt::Beside { parts } => {
            for part in parts {
                note_own_readers(alloc, decls, found, part)?;
            }
            Ok(())
        }
        Stmt::Select { arms, .. } => {
            for arm in arms {
                note_own_readers(alloc, decls, found, &arm.body)?;
            }
            Ok(())
        }
        Stmt::Repeat { body } => note_own_readers(alloc, decls, found, body),
    }
}

/// The targets of such assignments in the bodies of procedures.
fn all_own_readers(
    alloc: Global,
    decls: &FirstDecls,
    program: &Program,
) -> Result<Vec<Ident>, AllocError>
    requires { decls.now ≡ program.now.decls.items }
    ensures { IfOk result (λ found. found.items ≡ all_own_readers (tree_of program.now)) }
{
    let mut found = Vec::new(alloc);
    for procedure in &program.procs {
        note_own_readers(alloc, decls, &mut found, &procedure.body)?;
    }
    Ok(found)
}

/// Adds the names of declarations and procedures.
fn note_declared(names: &mut Vec<Name>, program: &Program) -> Result<(), AllocError>
    ensures { OnOk result (names.new.items ≡ names.old.items ++ program_names (tree_of program.now)) }
{
    for decl in &program.decls {
        names.push(decl.name.name.copy()?)?;
    }
    for procedure in &program.procs {
        names.push(procedure.name.name.copy()?)?;
    }
    Ok(())
}

/// Adds the names of variables and channels where the program uses them.
fn note_all_uses(names: &mut Vec<Name>, program: &Program) -> Result<(), AllocError>
    ensures { OnOk result (names.new.items ≡ names.old.items ++ map (λ u. u.name) (all_uses (tree_of program.now))) }
{
    for procedure in &program.procs {
        note_uses(names, &procedure.body)?;
    }
    note_uses(names, &program.body)
}

/// Every name of the program.
fn all_names(alloc: Global, program: &Program) -> Result<Vec<Name>, AllocError>
    ensures { IfOk result (λ names. names.items ≡ all_names (tree_of program.now)) }
{
    let mut names = Vec::new(alloc);
    note_declared(&mut names, program)?;
    note_all_uses(&mut names, program)?;
    note_names(&mut names, &all_calls(alloc, program)?)?;
    Ok(names)
}

/// The name `h` with a number.
fn own_name(alloc: Global, number: u64) -> Result<Name, AllocError>
    ensures { IfOk result (λ name. name ≡ own_name number) }
{
    let mut text = Vec::new(alloc);
    text.push(b'h')?;
    text.extend_from_slice(Buffer::new().format(number).as_bytes())?;
    Ok(name_of(alloc, &text)?.unwrap())
}

/// A name `h` with a number.
#[derive(Drop)]
struct FreeName {
    name: Name,
    number: u64,
    ghost numbered: { name ≡ own_name number },
    ghost is_name: { IsName name },
}

fn numbered(alloc: Global, number: u64) -> Result<FreeName, AllocError>
    ensures { IfOk result (λ made. made.number ≡ number) }
{
    Ok(FreeName {
        name: own_name(alloc, number)?,
        number,
    })
}

/// The first such name that isn't taken, where those of the numbers below `from` are.
fn free_name(alloc: Global, taken: &HashSet<Name>, from: u64) -> Result<FreeName, AllocError>
    requires { (j : ℕ) → j < from → contains bytes_eq taken.now (own_name j) ≡ true }
    ensures free { IfOk result (λ made. contains bytes_eq taken.now made.name ≡ false) }
    ensures least { IfOk result (λ made. (j : ℕ) → j < made.number →
        contains bytes_eq taken.now (own_name j) ≡ true) }
{
    let most = taken.len() as u64;
    for number in from..most {
        let made = numbered(alloc, number)?;
        if !taken.contains(&made.name) {
            return Ok(made);
        }
    }
    numbered(alloc, most)
}

fn declared_width(decls: &FirstDecls, name: &Name) -> u64
    ensures { result ≡ declared_width decls.now name.now }
{
    match decls.find(name) {
        Some(decl) => decl.width,
        None => 0,
    }
}

fn width_place(decls: &FirstDecls, name: &Name) -> Span
    ensures { result ≡ width_place decls.now name.now }
{
    match decls.find(name) {
        Some(decl) => decl.width_at,
        None => NOWHERE,
    }
}

fn own_var(decls: &FirstDecls, name: Name, target: &Ident) -> Decl
    ensures { result ≡ own_var decls.now name target.now }
{
    let place = width_place(decls, &target.name);
    Decl {
        kind: DeclKind::Var,
        name: Ident {
            name,
            at: target.at,
        },
        width: declared_width(decls, &target.name),
        width_at: place,
        first: 0,
        first_at: place,
    }
}

/// For each target a variable, with a name that is neither among these nor that of a variable before it.
fn vars_for(
    alloc: Global,
    decls: &FirstDecls,
    names: Vec<Name>,
    targets: &[Ident],
) -> Result<Vec<Decl>, AllocError>
    ensures own { IfOk result (λ vars. AreOwnVars decls.now names.items targets.now vars.items) }
    ensures names { IfOk result (λ vars. All (λ d. IsName d.name.name) vars.items) }
{
    let mut taken = table_of(alloc, names)?;
    let mut vars = Vec::new(alloc);
    let mut from = 0;
    for target in targets {
        let free = free_name(alloc, &taken, from)?;
        from = free.number;
        taken.insert(free.name.copy()?)?;
        vars.push(own_var(decls, free.name, target))?;
    }
    Ok(vars)
}

/// The variables of the assignments in procedures that read their own target.
pub(crate) fn own_vars(
    alloc: Global,
    decls: &FirstDecls,
    program: &Program,
) -> Result<Vec<Decl>, AllocError>
    requires { decls.now ≡ program.now.decls.items }
    ensures own { IfOk result (λ vars. AreOwnVars program.now.decls.items (all_names (tree_of program.now))
        (all_own_readers (tree_of program.now)) vars.items) }
    ensures names { IfOk result (λ vars. All (λ d. IsName d.name.name) vars.items) }
{
    let targets = all_own_readers(alloc, decls, program)?;
    let names = all_names(alloc, program)?;
    vars_for(alloc, decls, names, &targets)
}
