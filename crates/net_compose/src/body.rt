//! The drivers of statements: those of a statement's own nodes, and of the statements in it.

ghost use Rattle.std.specs.Prelude.{◌≡◌, ℕ, ◌+◌, ◌≤◌, ◌<◌, ◌++◌, ◌∷◌, [], true, fold, length, slice_set, IfOk, OnOk};
ghost use Rattle.prs_core.specs.Pairs.{no_rules};
ghost use Rattle.width_check.specs.Processes.{Process, Processes, Choices, TypedProgram, in_turn, side_by_side, choosing};
ghost use Rattle.width_check.specs.Typed.{program_of};
ghost use Rattle.width_check.specs.Typing.{IsProcess, AreChoices};
ghost use Rattle.width_check.specs.View.{process_of, members_in, choices_in};
ghost use Rattle.handshake_expand.specs.Layout.{size_of, bodies_size, nodes_of, root_request, body_from};
ghost use Rattle.handshake_expand.specs.Answers.{answer_of};
ghost use Rattle.handshake_expand.specs.Sites.{sites_in, in_body};
ghost use Rattle.cell_sequence.specs.Sequence.{skip_answer, loop_request};
ghost use Rattle.net_compose.specs.Begins.{channel_firsts, var_firsts};
ghost use Rattle.net_compose.specs.Translation.{rules_of, bodies_rules, hidden_high};
ghost use Rattle.net_compose.specs.Contacts.{every_contact};

use crate::choice::{choice, join_answers, own_nodes};
use crate::contact::Contact;
use crate::driver::Driver;
use crate::firsts::Firsts;
use crate::formula::{begin_element, close_element};
use crate::leaves::{assign, receive, send};
use crate::tree::tree;
use handshake_expand::{count_nodes, statement_nodes};
use std::alloc::{AllocError, Global};
use width_check::{TArm, TStmt, Typed};

/// Law: a statement and the bodies of a selection have a driver for each node that the layout counts.
pub fn statements_counted()
    ensures statements { (p : TypedProgram) (s : Process) (request from : ℕ) → IsProcess p.channels p.vars s
        → length (rules_of p s request from) ≡ size_of p s }
    ensures bodies { (p : TypedProgram) (choices : Choices) (start from : ℕ) → AreChoices p.channels p.vars choices
        → length (bodies_rules p choices start from) ≡ bodies_size p choices }
{
    function_blocks::laws::bits_counted();
    function_blocks::laws::rules_counted();
    cell_parallel::laws::tree_counted();
}

/// Adds the driver of a skip's answer, its only node, and returns that node.
fn skip(request: u32, from: u32, drivers: &mut Vec<Driver>) -> Result<u32, AllocError>
    ensures made { OnOk result (drivers.new.items ≡ drivers.old.items ++ skip_answer request ∷ []) }
    ensures answer { IfOk result (λ answer. answer ≡ from) }
{
    drivers.push(Driver::skip(request))?;
    Ok(from)
}

/// Adds a loop's own nodes: its answer, which never rises, and the request of its body, which isn't driven until the
/// body's answer is known.
pub fn begin_loop(drivers: &mut Vec<Driver>) -> Result<(), AllocError>
    ensures { OnOk result (drivers.new.items ≡ drivers.old.items ++ no_rules ∷ no_rules ∷ []) }
{
    drivers.push(Driver::undriven())?;
    drivers.push(Driver::undriven())?;
    Ok(())
}

/// Sets the request of a loop's body (Burns and Martin). The loop's own drivers begin at `place`.
pub fn close_loop(place: usize, request: u32, body_answer: u32, drivers: &mut Vec<Driver>)
    requires { place + 1 < length drivers.old.items }
    ensures { drivers.new.items ≡ slice_set drivers.old.items (place + 1) (loop_request request body_answer) }
{
    drivers[place + 1] = Driver::child(request, body_answer);
}

/// Adds the drivers of a sequence, and returns the node that answers its request. Each member but the last has a
/// Q-element of three nodes: its request, the latch, and the request of what follows.
#[cycle(statements)]
fn sequence(
    alloc: Global,
    program: &Typed,
    members: &[TStmt],
    request: u32,
    from: u32,
    firsts: &Firsts,
    first: &mut [bool],
    contacts: &mut Vec<Contact>,
    drivers: &mut Vec<Driver>,
) -> Result<u32, AllocError>
    requires channels { firsts.now.channels.items ≡ channel_firsts (program_of program.now) }
    requires vars { firsts.now.vars.items ≡ var_firsts (program_of program.now) }
    requires process { IsProcess program.now.channels program.now.vars (in_turn (members_in members.now)) }
    requires root { root_request (program_of program.now) ≤ from }
    requires own { from + size_of (program_of program.now) (in_turn (members_in members.now)) ≤ length first.old }
    requires few { length first.old ≤ 65536 }
    ensures made { OnOk result (drivers.new.items ≡ drivers.old.items
        ++ rules_of (program_of program.now) (in_turn (members_in members.now)) request from) }
    ensures answer { IfOk result (λ answer. answer ≡ answer_of (program_of program.now)
        (in_turn (members_in members.now)) from) }
    ensures contacts { OnOk result (contacts.new.items ≡ contacts.old.items
        ++ sites_in (program_of program.now) (every_contact (program_of program.now))
        (in_turn (members_in members.now)) from) }
    ensures first { OnOk result (first.new ≡ fold (λ values node. slice_set values node true) first.old
        (sites_in (program_of program.now) (hidden_high (program_of program.now))
        (in_turn (members_in members.now)) from)) }
    ensures count { length first.new ≡ length first.old }
{
    statements_counted();
    let last = members.len() - 1;
    let mut asked = request;
    let mut next = from;
    for place in 0..last {
        let begun = drivers.len();
        let member = &members[place];
        let own = next + 3;
        begin_element(asked, next + 1, drivers)?;
        let answer = statement(
            alloc, program, member, next, own, firsts, first, contacts, drivers,
        )?;
        close_element(begun, asked, next + 1, answer, drivers);
        asked = next + 2;
        next += (drivers.len() - begun) as u32;
    }
    let member = &members[last];
    statement(
        alloc, program, member, asked, next, firsts, first, contacts, drivers,
    )
}

/// Adds the drivers of a parallel composition, and returns the node that answers its request, its last one. Each branch
/// has a Q-element under the common request; a completion tree over the next requests of these comes last.
#[cycle(statements)]
fn parallel(
    alloc: Global,
    program: &Typed,
    branches: &[TStmt],
    request: u32,
    from: u32,
    firsts: &Firsts,
    first: &mut [bool],
    contacts: &mut Vec<Contact>,
    drivers: &mut Vec<Driver>,
) -> Result<u32, AllocError>
    requires channels { firsts.now.channels.items ≡ channel_firsts (program_of program.now) }
    requires vars { firsts.now.vars.items ≡ var_firsts (program_of program.now) }
    requires process { IsProcess program.now.channels program.now.vars (side_by_side (members_in branches.now)) }
    requires root { root_request (program_of program.now) ≤ from }
    requires own { from + size_of (program_of program.now) (side_by_side (members_in branches.now))
        ≤ length first.old }
    requires few { length first.old ≤ 65536 }
    ensures made { OnOk result (drivers.new.items ≡ drivers.old.items
        ++ rules_of (program_of program.now) (side_by_side (members_in branches.now)) request from) }
    ensures answer { IfOk result (λ answer. answer ≡ answer_of (program_of program.now)
        (side_by_side (members_in branches.now)) from) }
    ensures contacts { OnOk result (contacts.new.items ≡ contacts.old.items
        ++ sites_in (program_of program.now) (every_contact (program_of program.now))
        (side_by_side (members_in branches.now)) from) }
    ensures first { OnOk result (first.new ≡ fold (λ values node. slice_set values node true) first.old
        (sites_in (program_of program.now) (hidden_high (program_of program.now))
        (side_by_side (members_in branches.now)) from)) }
    ensures count { length first.new ≡ length first.old }
{
    statements_counted();
    let whole = drivers.len();
    let mut ends = Vec::new(alloc);
    let mut next = from;
    for branch in branches {
        let begun = drivers.len();
        let own = next + 3;
        begin_element(request, next + 1, drivers)?;
        let answer = statement(
            alloc, program, branch, next, own, firsts, first, contacts, drivers,
        )?;
        close_element(begun, request, next + 1, answer, drivers);
        ends.push(next + 2)?;
        next += (drivers.len() - begun) as u32;
    }
    tree(alloc, &ends, next, drivers)?;
    let count = (drivers.len() - whole) as u32;
    Ok(from + count - 1)
}

/// Adds the drivers of a selection or a guarded repetition: its own nodes, the guards, and the branches, each under its
/// start.
#[cycle(statements)]
fn selection(
    alloc: Global,
    program: &Typed,
    again: bool,
    arms: &[TArm],
    request: u32,
    from: u32,
    firsts: &Firsts,
    first: &mut [bool],
    contacts: &mut Vec<Contact>,
    drivers: &mut Vec<Driver>,
) -> Result<u32, AllocError>
    requires channels { firsts.now.channels.items ≡ channel_firsts (program_of program.now) }
    requires vars { firsts.now.vars.items ≡ var_firsts (program_of program.now) }
    requires process { IsProcess program.now.channels program.now.vars (choosing again (choices_in arms.now)) }
    requires root { root_request (program_of program.now) ≤ from }
    requires own { from + size_of (program_of program.now) (choosing again (choices_in arms.now)) ≤ length first.old }
    requires few { length first.old ≤ 65536 }
    ensures made { OnOk result (drivers.new.items ≡ drivers.old.items
        ++ rules_of (program_of program.now) (choosing again (choices_in arms.now)) request from) }
    ensures answer { IfOk result (λ answer. answer ≡ answer_of (program_of program.now)
        (choosing again (choices_in arms.now)) from) }
    ensures contacts { OnOk result (contacts.new.items ≡ contacts.old.items
        ++ sites_in (program_of program.now) (every_contact (program_of program.now))
        (choosing again (choices_in arms.now)) from) }
    ensures first { OnOk result (first.new ≡ fold (λ values node. slice_set values node true) first.old
        (sites_in (program_of program.now) (hidden_high (program_of program.now))
        (choosing again (choices_in arms.now)) from)) }
    ensures count { length first.new ≡ length first.old }
{
    statements_counted();
    let whole = drivers.len();
    let vars = &firsts.vars;
    choice(alloc, program, again, arms, request, from, vars, drivers)?;
    let mut start = from + own_nodes(again) + arms.len() as u32;
    let mut next = from + (drivers.len() - whole) as u32;
    let mut answers = Vec::new(alloc);
    for arm in arms {
        let begun = drivers.len();
        let answer = statement(
            alloc, program, &arm.body, start, next, firsts, first, contacts, drivers,
        )?;
        answers.push(answer)?;
        start += 1;
        next += (drivers.len() - begun) as u32;
    }
    join_answers(whole, again, from, answers, drivers);
    Ok(from)
}

/// Adds the drivers of a statement whose own nodes are numbered from `from` on and which this node requests, and
/// returns the node that answers the request. Its sites on channels and variables are listed in text order, and the
/// nodes of hidden variables that are high at first are raised.
#[cycle(statements)]
pub fn statement(
    alloc: Global,
    program: &Typed,
    s: &TStmt,
    request: u32,
    from: u32,
    firsts: &Firsts,
    first: &mut [bool],
    contacts: &mut Vec<Contact>,
    drivers: &mut Vec<Driver>,
) -> Result<u32, AllocError>
    requires channels { firsts.now.channels.items ≡ channel_firsts (program_of program.now) }
    requires vars { firsts.now.vars.items ≡ var_firsts (program_of program.now) }
    requires process { IsProcess program.now.channels program.now.vars (process_of s.now) }
    requires root { root_request (program_of program.now) ≤ from }
    requires own { from + size_of (program_of program.now) (process_of s.now) ≤ length first.old }
    requires few { length first.old ≤ 65536 }
    ensures made { OnOk result (drivers.new.items ≡ drivers.old.items
        ++ rules_of (program_of program.now) (process_of s.now) request from) }
    ensures answer { IfOk result (λ answer. answer ≡ answer_of (program_of program.now) (process_of s.now) from) }
    ensures contacts { OnOk result (contacts.new.items ≡ contacts.old.items
        ++ sites_in (program_of program.now) (every_contact (program_of program.now))
        (process_of s.now) from) }
    ensures first { OnOk result (first.new ≡ fold (λ values node. slice_set values node true) first.old
        (sites_in (program_of program.now) (hidden_high (program_of program.now))
        (process_of s.now) from)) }
    ensures count { length first.new ≡ length first.old }
{
    let vars = &firsts.vars;
    match s {
        TStmt::Skip => skip(request, from, drivers),
        TStmt::Assign { var, value, .. } => assign(
            alloc, program, *var, value, request, from, vars, first, contacts, drivers,
        ),
        TStmt::Send { chan, value, .. } => send(
            alloc, program, *chan, value, request, from, firsts, contacts, drivers,
        ),
        TStmt::Receive { chan, var, .. } => receive(
            alloc, program, *chan, *var, request, from, firsts, contacts, drivers,
        ),
        TStmt::Then { parts } => sequence(
            alloc, program, parts, request, from, firsts, first, contacts, drivers,
        ),
        TStmt::Beside { parts } => parallel(
            alloc, program, parts, request, from, firsts, first, contacts, drivers,
        ),
        TStmt::Select { again, arms } => selection(
            alloc, program, *again, arms, request, from, firsts, first, contacts, drivers,
        ),
        TStmt::Repeat { body } => {
            let place = drivers.len();
            let start = from + 1;
            let next = from + 2;
            begin_loop(drivers)?;
            let answer = statement(
                alloc, program, body, start, next, firsts, first, contacts, drivers,
            )?;
            close_loop(place, request, answer, drivers);
            Ok(from)
        }
    }
}

/// The drivers of a program's body, and its sites on channels and variables in text order. The nodes of its hidden
/// variables that are high at first are raised.
pub(crate) fn body(
    alloc: Global,
    program: &Typed,
    firsts: &Firsts,
    first: &mut [bool],
    contacts: &mut Vec<Contact>,
) -> Result<Vec<Driver>, AllocError>
    requires channels { firsts.now.channels.items ≡ channel_firsts (program_of program.now) }
    requires vars { firsts.now.vars.items ≡ var_firsts (program_of program.now) }
    requires own { nodes_of (program_of program.now) ≡ length first.old }
    requires few { length first.old ≤ 65536 }
    requires none { contacts.old.items ≡ [] }
    ensures made { IfOk result (λ drivers. drivers.items ≡ rules_of (program_of program.now)
        (process_of program.now.body) (root_request (program_of program.now)) (body_from (program_of program.now))) }
    ensures contacts { OnOk result (contacts.new.items
        ≡ in_body (program_of program.now) (every_contact (program_of program.now))) }
    ensures first { OnOk result (first.new ≡ fold (λ values node. slice_set values node true) first.old
        (in_body (program_of program.now) (hidden_high (program_of program.now)))) }
    ensures count { length first.new ≡ length first.old }
{
    let body = program.body();
    let count = count_nodes(program);
    let from = (count - statement_nodes(program, body)) as u32;
    // with room for those of the declared nodes and of a reset node
    let mut drivers = Vec::with_capacity(alloc, count as usize + 1)?;
    statement(
        alloc,
        program,
        body,
        from - 2,
        from,
        firsts,
        first,
        contacts,
        &mut drivers,
    )?;
    Ok(drivers)
}
