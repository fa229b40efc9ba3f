//! The drivers of a body that calls procedures: a call has one node, its answer, and the bodies of procedures stand
//! elsewhere.

ghost use Rattle.std.specs.Prelude.{◌≡◌, ◌+◌, ◌-◌, ◌^◌, ◌<◌, ◌≤◌, ◌++◌, ◌∷◌, [], length, IfOk, OnOk};
ghost use Rattle.prs_core.specs.Sites.{site_answer};
ghost use Rattle.chp_syntax.specs.Trees.{follows, besides, selects, repeats};
ghost use Rattle.chp_syntax.specs.View.{statement_of};
ghost use Rattle.width_check.specs.Processes.{in_turn, side_by_side, choosing, repeating};
ghost use Rattle.width_check.specs.Typed.{program_of};
ghost use Rattle.width_check.specs.Typing.{IsProcess};
ghost use Rattle.width_check.specs.View.{process_of, members_in, choices_in};
ghost use Rattle.width_check.specs.Walk.{statements_in, arms_in};
ghost use Rattle.net_compose.specs.Begins.{channel_firsts, var_firsts};
ghost use Rattle.call_compose.specs.CalledForm.{procedure_number};
ghost use Rattle.call_compose.specs.Walking.{Copied, with_calls, HasRoom, HasAdded, pieces, answer_at};

use crate::inner::{arms_of, branches_of, members_of, repeated};
use chp_base::{Name, Symbols};
use chp_syntax::{Arm, Stmt};
use net_compose::Driver;
use net_compose::parts::{
    Contact, Firsts, begin_element, begin_loop, choice, close_element, close_loop, join_answers,
    own_nodes, statement, tree,
};
use std::alloc::{AllocError, Global};
use width_check::{TArm, TStmt, Typed};

/// A call of a procedure: the number of the procedure, in order of declaration, and the node that requests the call.
#[derive(Drop)]
pub(crate) struct Call {
    pub proc: u32,
    pub request: u32,
}

/// The number of a procedure, in order of declaration; of a name that isn't declared, how many there are.
fn number_of(procs: &Symbols, count: usize, name: &Name) -> u32
    requires count { count ≡ length procs.now }
    requires few { length procs.now < 2 ^ 32 }
    ensures { result ≡ procedure_number procs.now name.now }
{
    match procs.find(name) {
        Some(proc) => proc,
        None => count as u32,
    }
}

/// Adds the driver of a call's only node, its answer, and notes the call.
fn call_node(
    procs: &Symbols,
    answers: &[u32],
    name: &Name,
    request: u32,
    from: u32,
    calls: &mut Vec<Call>,
    drivers: &mut Vec<Driver>,
) -> Result<u32, AllocError>
    requires numbers { (length answers.now ≡ length procs.now) × (length procs.now < 2 ^ 32) }
    ensures made { OnOk result (drivers.new.items ≡ drivers.old.items
        ++ site_answer request (answer_at answers.now (procedure_number procs.now name.now)) ∷ []) }
    ensures noted { OnOk result (calls.new.items ≡ calls.old.items
        ++ record { proc = procedure_number procs.now name.now; request = request } ∷ []) }
    ensures answer { IfOk result (λ answer. answer ≡ from) }
{
    let proc = number_of(procs, answers.len(), name);
    let answer = answers.get(proc as usize).copied().unwrap_or(0);
    drivers.push(Driver::site(request, answer))?;
    calls.push(Call { proc, request })?;
    Ok(from)
}

/// The node behind those of the drivers that were added since there were `begun`, if these are numbered from `from` on.
fn node_behind(from: u32, begun: usize, now: usize) -> u32
    requires { (begun ≤ now) × (from + (now - begun) < 2 ^ 32) }
    ensures { result ≡ from + (now - begun) }
{
    from + (now - begun) as u32
}

/// Adds the drivers of a sequence with calls, as `net_compose` does of one without, and returns the node that answers
/// its request.
#[cycle(called_statements)]
fn called_sequence(
    alloc: Global,
    program: &Typed,
    procs: &Symbols,
    answers: &[u32],
    parts: &[Stmt],
    members: &[TStmt],
    request: u32,
    from: u32,
    firsts: &Firsts,
    first: &mut [bool],
    contacts: &mut Vec<Contact>,
    calls: &mut Vec<Call>,
    drivers: &mut Vec<Driver>,
) -> Result<u32, AllocError>
    requires channels { firsts.now.channels.items ≡ channel_firsts (program_of program.now) }
    requires vars { firsts.now.vars.items ≡ var_firsts (program_of program.now) }
    requires numbers { (length answers.now ≡ length procs.now) × (length procs.now < 2 ^ 32) }
    requires process { IsProcess program.now.channels program.now.vars (in_turn (members_in members.now)) }
    requires room { HasRoom procs.now (program_of program.now) (in_turn (members_in members.now))
        (follows (statements_in parts.now)) from (length first.old) }
    ensures added { IfOk result (λ answer. (k : Copied procs.now (in_turn (members_in members.now))
        (follows (statements_in parts.now))) → HasAdded k.bodies (program_of program.now) (answer_at answers.now)
        (with_calls k) request from answer (pieces drivers.old.items contacts.old.items first.old calls.old.items)
        (pieces drivers.new.items contacts.new.items first.new calls.new.items)) }
    ensures count { length first.new ≡ length first.old }
{
    let last = members.len() - 1;
    let mut asked = request;
    let mut next = from;
    for place in 0..last {
        let begun = drivers.len();
        let part = &parts[place];
        let member = &members[place];
        let own = next + 3;
        begin_element(asked, next + 1, drivers)?;
        let answer = called_statement(
            alloc, program, procs, answers, part, member, next, own, firsts, first, contacts,
            calls, drivers,
        )?;
        close_element(begun, asked, next + 1, answer, drivers);
        asked = next + 2;
        next = node_behind(next, begun, drivers.len());
    }
    let part = &parts[last];
    let member = &members[last];
    called_statement(
        alloc, program, procs, answers, part, member, asked, next, firsts, first, contacts, calls,
        drivers,
    )
}

/// Adds the drivers of a parallel composition with calls, as `net_compose` does of one without, and returns the node
/// that answers its request, its last one.
#[cycle(called_statements)]
fn called_parallel(
    alloc: Global,
    program: &Typed,
    procs: &Symbols,
    answers: &[u32],
    parts: &[Stmt],
    branches: &[TStmt],
    request: u32,
    from: u32,
    firsts: &Firsts,
    first: &mut [bool],
    contacts: &mut Vec<Contact>,
    calls: &mut Vec<Call>,
    drivers: &mut Vec<Driver>,
) -> Result<u32, AllocError>
    requires channels { firsts.now.channels.items ≡ channel_firsts (program_of program.now) }
    requires vars { firsts.now.vars.items ≡ var_firsts (program_of program.now) }
    requires numbers { (length answers.now ≡ length procs.now) × (length procs.now < 2 ^ 32) }
    requires process { IsProcess program.now.channels program.now.vars (side_by_side (members_in branches.now)) }
    requires room { HasRoom procs.now (program_of program.now) (side_by_side (members_in branches.now))
        (besides (statements_in parts.now)) from (length first.old) }
    ensures added { IfOk result (λ answer. (k : Copied procs.now (side_by_side (members_in branches.now))
        (besides (statements_in parts.now))) → HasAdded k.bodies (program_of program.now) (answer_at answers.now)
        (with_calls k) request from answer (pieces drivers.old.items contacts.old.items first.old calls.old.items)
        (pieces drivers.new.items contacts.new.items first.new calls.new.items)) }
    ensures count { length first.new ≡ length first.old }
{
    let whole = drivers.len();
    let mut ends = Vec::new(alloc);
    let mut next = from;
    for place in 0..branches.len() {
        let begun = drivers.len();
        let part = &parts[place];
        let branch = &branches[place];
        let own = next + 3;
        begin_element(request, next + 1, drivers)?;
        let answer = called_statement(
            alloc, program, procs, answers, part, branch, next, own, firsts, first, contacts,
            calls, drivers,
        )?;
        close_element(begun, request, next + 1, answer, drivers);
        ends.push(next + 2)?;
        next = node_behind(next, begun, drivers.len());
    }
    tree(alloc, &ends, next, drivers)?;
    Ok(node_behind(from, whole, drivers.len()) - 1)
}

/// Adds the drivers of a selection or a guarded repetition with calls in its branches, as `net_compose` does of one
/// without, and returns the node that answers its request.
#[cycle(called_statements)]
fn called_selection(
    alloc: Global,
    program: &Typed,
    procs: &Symbols,
    answers: &[u32],
    again: bool,
    parts: &[Arm],
    arms: &[TArm],
    request: u32,
    from: u32,
    firsts: &Firsts,
    first: &mut [bool],
    contacts: &mut Vec<Contact>,
    calls: &mut Vec<Call>,
    drivers: &mut Vec<Driver>,
) -> Result<u32, AllocError>
    requires channels { firsts.now.channels.items ≡ channel_firsts (program_of program.now) }
    requires vars { firsts.now.vars.items ≡ var_firsts (program_of program.now) }
    requires numbers { (length answers.now ≡ length procs.now) × (length procs.now < 2 ^ 32) }
    requires process { IsProcess program.now.channels program.now.vars (choosing again (choices_in arms.now)) }
    requires room { HasRoom procs.now (program_of program.now) (choosing again (choices_in arms.now))
        (selects again (arms_in parts.now)) from (length first.old) }
    ensures added { IfOk result (λ answer. (k : Copied procs.now (choosing again (choices_in arms.now))
        (selects again (arms_in parts.now))) → HasAdded k.bodies (program_of program.now) (answer_at answers.now)
        (with_calls k) request from answer (pieces drivers.old.items contacts.old.items first.old calls.old.items)
        (pieces drivers.new.items contacts.new.items first.new calls.new.items)) }
    ensures count { length first.new ≡ length first.old }
{
    let whole = drivers.len();
    choice(
        alloc,
        program,
        again,
        arms,
        request,
        from,
        &firsts.vars,
        drivers,
    )?;
    let mut start = from + own_nodes(again) + arms.len() as u32;
    let mut next = node_behind(from, whole, drivers.len());
    let mut ends = Vec::new(alloc);
    for place in 0..arms.len() {
        let begun = drivers.len();
        let part = &parts[place];
        let arm = &arms[place];
        let answer = called_statement(
            alloc, program, procs, answers, &part.body, &arm.body, start, next, firsts, first,
            contacts, calls, drivers,
        )?;
        ends.push(answer)?;
        start += 1;
        next = node_behind(next, begun, drivers.len());
    }
    join_answers(whole, again, from, ends, drivers);
    Ok(from)
}

/// Adds the drivers of a loop with calls in its body, and returns its answer, which never rises.
#[cycle(called_statements)]
fn called_loop(
    alloc: Global,
    program: &Typed,
    procs: &Symbols,
    answers: &[u32],
    part: &Stmt,
    body: &TStmt,
    request: u32,
    from: u32,
    firsts: &Firsts,
    first: &mut [bool],
    contacts: &mut Vec<Contact>,
    calls: &mut Vec<Call>,
    drivers: &mut Vec<Driver>,
) -> Result<u32, AllocError>
    requires channels { firsts.now.channels.items ≡ channel_firsts (program_of program.now) }
    requires vars { firsts.now.vars.items ≡ var_firsts (program_of program.now) }
    requires numbers { (length answers.now ≡ length procs.now) × (length procs.now < 2 ^ 32) }
    requires process { IsProcess program.now.channels program.now.vars (repeating (process_of body.now)) }
    requires room { HasRoom procs.now (program_of program.now) (repeating (process_of body.now))
        (repeats (statement_of part.now)) from (length first.old) }
    ensures added { IfOk result (λ answer. (k : Copied procs.now (repeating (process_of body.now))
        (repeats (statement_of part.now))) → HasAdded k.bodies (program_of program.now) (answer_at answers.now)
        (with_calls k) request from answer (pieces drivers.old.items contacts.old.items first.old calls.old.items)
        (pieces drivers.new.items contacts.new.items first.new calls.new.items)) }
    ensures count { length first.new ≡ length first.old }
{
    let place = drivers.len();
    let start = from + 1;
    let next = from + 2;
    begin_loop(drivers)?;
    let answer = called_statement(
        alloc, program, procs, answers, part, body, start, next, firsts, first, contacts, calls,
        drivers,
    )?;
    close_loop(place, request, answer, drivers);
    Ok(from)
}

/// Adds the drivers of a statement with calls whose own nodes are numbered from `from` on and which this node requests,
/// and returns the node that answers the request. The statement is given as its text has it, and as `s` in its typed
/// form with a copy of the body in place of each call; `answers` are the nodes that answer the bodies, in order of
/// declaration. Each call is noted with its request. Sites are listed in text order, and the nodes of hidden variables
/// that are high at first are raised, but none of the bodies.
#[cycle(called_statements)]
pub(crate) fn called_statement(
    alloc: Global,
    program: &Typed,
    procs: &Symbols,
    answers: &[u32],
    plain: &Stmt,
    s: &TStmt,
    request: u32,
    from: u32,
    firsts: &Firsts,
    first: &mut [bool],
    contacts: &mut Vec<Contact>,
    calls: &mut Vec<Call>,
    drivers: &mut Vec<Driver>,
) -> Result<u32, AllocError>
    requires channels { firsts.now.channels.items ≡ channel_firsts (program_of program.now) }
    requires vars { firsts.now.vars.items ≡ var_firsts (program_of program.now) }
    requires numbers { (length answers.now ≡ length procs.now) × (length procs.now < 2 ^ 32) }
    requires process { IsProcess program.now.channels program.now.vars (process_of s.now) }
    requires room { HasRoom procs.now (program_of program.now) (process_of s.now) (statement_of plain.now) from
        (length first.old) }
    ensures added { IfOk result (λ answer. (k : Copied procs.now (process_of s.now) (statement_of plain.now))
        → HasAdded k.bodies (program_of program.now) (answer_at answers.now) (with_calls k) request from answer
        (pieces drivers.old.items contacts.old.items first.old calls.old.items)
        (pieces drivers.new.items contacts.new.items first.new calls.new.items)) }
    ensures count { length first.new ≡ length first.old }
{
    match plain {
        Stmt::Skip { .. } | Stmt::Assign { .. } | Stmt::Send { .. } | Stmt::Receive { .. } => {
            statement(
                alloc, program, s, request, from, firsts, first, contacts, drivers,
            )
        }
        Stmt::Call { of } => call_node(procs, answers, &of.name, request, from, calls, drivers),
        Stmt::Then { parts } => {
            let members = members_of(s);
            called_sequence(
                alloc, program, procs, answers, parts, members, request, from, firsts, first,
                contacts, calls, drivers,
            )
        }
        Stmt::Beside { parts } => {
            let branches = branches_of(s);
            called_parallel(
                alloc, program, procs, answers, parts, branches, request, from, firsts, first,
                contacts, calls, drivers,
            )
        }
        Stmt::Select { again, arms } => {
            let typed = arms_of(s);
            called_selection(
                alloc, program, procs, answers, *again, arms, typed, request, from, firsts, first,
                contacts, calls, drivers,
            )
        }
        Stmt::Repeat { body } => {
            let inner = repeated(s);
            called_loop(
                alloc, program, procs, answers, body, inner, request, from, firsts, first,
                contacts, calls, drivers,
            )
        }
    }
}
