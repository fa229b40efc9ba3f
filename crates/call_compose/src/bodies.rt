//! The typed bodies of procedures, found where these are called.

ghost use Rattle.std.specs.Prelude.{◌≡◌, ◌<◌, ◌≤◌, ℕ, List, length, map, IfOk};
ghost use Rattle.chp_syntax.specs.declared.tree.Decl.{Decl};
ghost use Rattle.chp_syntax.specs.View.{program_tree, statement_of};
ghost use Rattle.width_check.specs.Processes.{Process};
ghost use Rattle.width_check.specs.Typed.{program_of};
ghost use Rattle.width_check.specs.View.{process_of};
ghost use Rattle.call_merge.specs.CallFaults.{MeetsCalling};
ghost use Rattle.call_map.specs.Calling.{inlined};
ghost use Rattle.call_compose.specs.CalledForm.{procedure_names, called_form, call_program};
ghost use Rattle.call_compose.specs.Inlined.{AreInlined};
ghost use Rattle.call_compose.specs.Noted.{AreNoted};

use crate::insides::{choices, members, repeated};
use crate::{calls_meant, calls_typed};
use chp_base::Symbols;
use chp_syntax::{Program, Stmt};
use std::alloc::{AllocError, Global};
use width_check::{TStmt, Typed};

/// The names of a program's procedures, in order. No name is there twice, and the table gives each its number.
pub(crate) fn procedure_names(alloc: Global, program: &Program) -> Result<Symbols, AllocError>
    requires few { length program.now.procs.items ≤ 300000 }
    requires meets { MeetsCalling (program_tree program.now) }
    ensures { IfOk result (λ names. names ≡ procedure_names (program_tree program.now).procs) }
{
    let mut names = Symbols::new(alloc);
    for procedure in &program.procs {
        names.add(procedure.name.name.copy()?)?;
    }
    Ok(names)
}

/// Notes the body of each procedure that a statement calls, under the procedure's number: what stands in the program
/// without procedures where the call does.
fn note_bodies<'a>(names: &Symbols, plain: &Stmt, s: &'a TStmt, bodies: &mut [&'a TStmt])
    requires { length bodies.old ≡ length names.now }
    ensures { (bs : List Process) (decls : List Decl)
        → process_of s.now ≡ inlined bs (called_form decls names.now (statement_of plain.now))
        → AreNoted bs (called_form decls names.now (statement_of plain.now))
        (map (λ b. b.now) bodies.old) (map (λ b. b.now) bodies.new) }
{
    match plain {
        Stmt::Skip { .. } | Stmt::Assign { .. } | Stmt::Send { .. } | Stmt::Receive { .. } => {}
        Stmt::Then { parts } => {
            for (part, member) in parts.iter().zip(members(s)) {
                note_bodies(names, part, member, bodies);
            }
        }
        Stmt::Beside { parts } => {
            for (part, branch) in parts.iter().zip(members(s)) {
                note_bodies(names, part, branch, bodies);
            }
        }
        Stmt::Select { arms, .. } => {
            for (arm, choice) in arms.iter().zip(choices(s)) {
                note_bodies(names, &arm.body, &choice.body, bodies);
            }
        }
        Stmt::Repeat { body } => note_bodies(names, body, repeated(s), bodies),
        Stmt::Call { of } => {
            if let Some(place) = names.find(&of.name) {
                bodies[place as usize] = s;
            }
        }
    }
}

/// The typed bodies of a program's procedures, in order: what stands where they are called in the program without them.
pub(crate) fn find_bodies<'a>(
    alloc: Global,
    names: &Symbols,
    program: &Program,
    inlined: &'a Typed,
) -> Result<Vec<&'a TStmt>, AllocError>
    requires { names.now ≡ procedure_names (program_tree program.now).procs }
    ensures { IfOk result (λ bodies. (h : AreInlined (program_tree program.now) (program_of inlined.now))
        → map (λ b. process_of b.now) bodies.items ≡ (call_program (program_tree program.now) h.inlined.vars).procs) }
{
    calls_typed();
    calls_meant();
    let body = inlined.body();
    let mut bodies = Vec::new(alloc);
    for _procedure in &program.procs {
        bodies.push(body)?;
    }
    note_bodies(names, &program.body, body, &mut bodies);
    Ok(bodies)
}
