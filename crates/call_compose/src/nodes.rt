//! How many nodes a net has in which all calls of a procedure share one body. All counts saturate at 2^64 - 1.

ghost use Rattle.std.specs.Prelude.{◌≡◌, ◌≤◌, ◌+◌, ℕ, List, map, length, if◌then◌else◌, IfOk};
ghost use Rattle.std.specs.List.{All};
ghost use Rattle.chp_syntax.specs.declared.tree.Decl.{Decl};
ghost use Rattle.chp_syntax.specs.View.{program_tree, statement_of};
ghost use Rattle.width_check.specs.Processes.{Process};
ghost use Rattle.width_check.specs.Typed.{program_of};
ghost use Rattle.width_check.specs.Typing.{IsProcess, AreProcesses, AreChoices};
ghost use Rattle.width_check.specs.View.{process_of, members_in, choices_in};
ghost use Rattle.width_check.specs.Walk.{statements_in, arms_in};
ghost use Rattle.handshake_expand.specs.Answers.{select_own, again_own};
ghost use Rattle.handshake_expand.specs.Layout.{root_request, capped};
ghost use Rattle.call_map.specs.Calling.{inlined, inlined_each, inlined_choices, called_size};
ghost use Rattle.call_map.specs.CallNet.{procs_size, call_count};
ghost use Rattle.call_compose.specs.CalledForm.{called_form, called_forms, called_arms, call_program};
ghost use Rattle.call_compose.specs.CalledNodes.{called_members_size, called_arms_size};
ghost use Rattle.call_compose.specs.Inlined.{AreInlined};

use crate::bodies::{find_bodies, procedure_names};
use crate::insides::{choices, members, repeated};
use crate::{calls_meant, calls_typed};
use chp_syntax::{Arm, Program, Stmt};
use handshake_expand::{expr_nodes, statement_nodes};
use sharing_check::Disjoint;
use std::alloc::{AllocError, Global};
use width_check::{TArm, TStmt, Typed};

/// How many nodes a selection has besides those of its arms, or, where `again`, a guarded repetition.
fn own_nodes(again: bool) -> u64
    ensures { result ≡ if again then again_own else select_own }
{
    if again { 6 } else { 3 }
}

/// How many nodes members have together, where each call in them has one.
#[cycle(statements)]
fn members_nodes(program: &Typed, parts: &[Stmt], typed: &[TStmt]) -> u64
    requires { AreProcesses program.now.channels program.now.vars (members_in typed.now) }
    ensures { (bs : List Process) (decls : List Decl) (names : List (List ℕ))
        → members_in typed.now ≡ inlined_each bs (called_forms decls names (statements_in parts.now))
        → result ≡ capped (called_members_size bs (program_of program.now)
        (called_forms decls names (statements_in parts.now))) }
{
    let mut count: u64 = 0;
    for (part, member) in parts.iter().zip(typed) {
        count = count.saturating_add(called_nodes(program, part, member));
    }
    count
}

/// How many nodes branches of a selection have, with their guards, latches and starts.
#[cycle(statements)]
fn arms_nodes(program: &Typed, arms: &[Arm], typed: &[TArm]) -> u64
    requires { AreChoices program.now.channels program.now.vars (choices_in typed.now) }
    ensures { (bs : List Process) (decls : List Decl) (names : List (List ℕ))
        → choices_in typed.now ≡ inlined_choices bs (called_arms decls names (arms_in arms.now))
        → result ≡ capped (called_arms_size bs (program_of program.now)
        (called_arms decls names (arms_in arms.now))) }
{
    let mut count: u64 = 0;
    for (arm, choice) in arms.iter().zip(typed) {
        let own = expr_nodes(&choice.guard).saturating_add(2);
        let body = called_nodes(program, &arm.body, &choice.body);
        count = count.saturating_add(own.saturating_add(body));
    }
    count
}

/// How many nodes a statement has, where each call in it has one.
#[cycle(statements)]
fn called_nodes(program: &Typed, plain: &Stmt, s: &TStmt) -> u64
    requires { IsProcess program.now.channels program.now.vars (process_of s.now) }
    ensures { (bs : List Process) (decls : List Decl) (names : List (List ℕ))
        → process_of s.now ≡ inlined bs (called_form decls names (statement_of plain.now))
        → result ≡ capped (called_size bs (program_of program.now)
        (called_form decls names (statement_of plain.now))) }
{
    match plain {
        Stmt::Skip { .. } | Stmt::Assign { .. } | Stmt::Send { .. } | Stmt::Receive { .. } => {
            statement_nodes(program, s)
        }
        Stmt::Then { parts } => {
            let elements = (parts.len() as u64).saturating_sub(1).saturating_mul(3);
            elements.saturating_add(members_nodes(program, parts, members(s)))
        }
        Stmt::Beside { parts } => {
            let branches = parts.len() as u64;
            let tree = branches.saturating_sub(1);
            let own = branches.saturating_mul(3).saturating_add(tree);
            own.saturating_add(members_nodes(program, parts, members(s)))
        }
        Stmt::Select { again, arms } => {
            arms_nodes(program, arms, choices(s)).saturating_add(own_nodes(*again))
        }
        Stmt::Repeat { body } => called_nodes(program, body, repeated(s)).saturating_add(2),
        Stmt::Call { .. } => 1,
    }
}

/// How many nodes the circuits of bodies have together, each with its request.
fn bodies_nodes(program: &Typed, bodies: &[&TStmt]) -> u64
    requires { All (λ b. IsProcess program.now.channels program.now.vars (process_of b.now)) bodies.now }
    ensures { result ≡ capped (procs_size (program_of program.now) (map (λ b. process_of b.now) bodies.now)) }
{
    let mut count: u64 = 0;
    for body in bodies {
        count = count.saturating_add(statement_nodes(program, body).saturating_add(1));
    }
    count
}

/// How many nodes there are before those of the procedures: go, done, the wires of channels, and the blocks of
/// variables.
fn declared_nodes(program: &Typed) -> u64
    ensures { result ≡ capped (root_request (program_of program.now)) }
{
    // the contract of `body` says what holds of a checked program
    let _kept = program.body();
    let mut count: u64 = 2;
    for channel in program.channels() {
        count = count.saturating_add(2 * u64::from(channel.width) + 1);
    }
    for var in program.vars() {
        count = count.saturating_add((6 * u64::from(var.width)).saturating_sub(1));
    }
    count
}

/// How many nodes the net with shared bodies has, whose bodies are these.
pub(crate) fn shared_nodes(program: &Program, inlined: &Typed, bodies: &[&TStmt]) -> u64
    requires inlined { AreInlined (program_tree program.now) (program_of inlined.now) }
    requires bodies { (h : AreInlined (program_tree program.now) (program_of inlined.now))
        → map (λ b. process_of b.now) bodies.now ≡ (call_program (program_tree program.now) h.inlined.vars).procs }
    ensures { (h : AreInlined (program_tree program.now) (program_of inlined.now))
        → result ≡ capped (call_count (call_program (program_tree program.now) h.inlined.vars)) }
{
    calls_typed();
    calls_meant();
    let body = inlined.body();
    let own = declared_nodes(inlined).saturating_add(2);
    let shared = bodies_nodes(inlined, bodies);
    let calling = called_nodes(inlined, &program.body, body);
    own.saturating_add(shared).saturating_add(calling)
}

/// How many nodes the net has in which all calls of a procedure share one body, for a program with procedures and the
/// checked program without them that was made of it. It takes memory for a table of the procedures.
pub fn count_calls(alloc: Global, program: &Program, inlined: &Disjoint) -> Result<u64, AllocError>
    requires few { length program.now.procs.items ≤ 300000 }
    requires inlined { AreInlined (program_tree program.now) (program_of inlined.now) }
    ensures { IfOk result (λ count. (h : AreInlined (program_tree program.now) (program_of inlined.now))
        → count ≡ capped (call_count (call_program (program_tree program.now) h.inlined.vars))) }
{
    let typed = inlined.typed();
    let names = procedure_names(alloc, program)?;
    let bodies = find_bodies(alloc, &names, program, typed)?;
    Ok(shared_nodes(program, typed, &bodies))
}
