//! The circuit of a program with procedures, in which all calls of a procedure share one body.

ghost use Rattle.std.specs.Prelude.{◌≡◌, ◌≤◌, ◌<◌, ◌⊎◌, [], true, fold, length, map, max, slice_set, if◌then◌else◌, IfOk, OnOk, IfErr};
ghost use Rattle.chp_syntax.specs.View.{program_tree as tree_of};
ghost use Rattle.width_check.specs.Typed.{program_of};
ghost use Rattle.width_check.specs.View.{process_of};
ghost use Rattle.handshake_expand.specs.Layout.{capped, nodes_of, node_count, root_request};
ghost use Rattle.reset_net.specs.Resets.{reset_of};
ghost use Rattle.net_compose.specs.Begins.{channel_firsts, var_firsts};
ghost use Rattle.net_compose.specs.Carries.{Carries};
ghost use Rattle.net_compose.specs.Contacts.{every_contact};
ghost use Rattle.net_compose.specs.Errors.{IfTooMany};
ghost use Rattle.net_compose.specs.Translation.{hidden_high};
ghost use Rattle.call_map.specs.CallNet.{all_sites, call_answer, call_count, call_names, call_net, call_root, call_rules};
ghost use Rattle.call_compose.specs.CalledForm.{procedure_names};
ghost use Rattle.call_compose.specs.Inlined.{AreInlined};
ghost use Rattle.call_compose.specs.Placing.{shared_of, inner_rules};

use crate::bodies::{find_bodies, procedure_names};
use crate::nodes::shared_nodes;
use crate::procs::{ask_bodies, place_bodies};
use crate::walk::called_statement;
use crate::{calls_asked, calls_carried, calls_hold};
use chp_base::Symbols;
use chp_syntax::Program;
use handshake_expand::{count_nodes, statement_nodes};
use net_compose::parts::{
    Contact, Firsts, MOST_NODES, add, add_reset, declared, declared_values, firsts_of, names_of,
    net_of, statements_counted, wires_of,
};
use net_compose::{Circuit, Driver, NetError};
use prs_core::Net;
use sharing_check::Disjoint;
use std::alloc::{AllocError, Global};
use width_check::{TStmt, Typed};

/// The procedures of a program, in order of declaration.
#[derive(Drop)]
struct Procedures<'a> {
    names: Symbols,
    bodies: Vec<&'a TStmt>,
}

/// The procedures of a program, where `typed` is the program in which each call is its procedure's body.
fn procedures_of<'a>(
    alloc: Global,
    program: &Program,
    typed: &'a Typed,
) -> Result<Procedures<'a>, AllocError>
    requires few { length program.now.procs.items ≤ 300000 }
    requires inlined { AreInlined (tree_of program.now) (program_of typed.now) }
    ensures names { IfOk result (λ procs. procs.names ≡ procedure_names (tree_of program.now).procs) }
    ensures bodies { IfOk result (λ procs. (h : AreInlined (tree_of program.now) (program_of typed.now))
        → map (λ b. process_of b.now) procs.bodies.items ≡ (shared_of h).procs) }
{
    let names = procedure_names(alloc, program)?;
    let bodies = find_bodies(alloc, &names, program, typed)?;
    Ok(Procedures { names, bodies })
}

/// What the declared nodes are to know of the root.
#[derive(Drop)]
struct Root {
    /// Its request.
    request: u32,
    /// The node that answers for the body.
    answer: u32,
}

/// Adds the drivers of the procedures, whose nodes are numbered from `from` on, of the root and of the body. `bodies`
/// are those of the procedures. Sites are listed, those of the procedures first, and the nodes of hidden variables that
/// are high at first are raised.
fn inner_drivers(
    alloc: Global,
    program: &Program,
    typed: &Typed,
    names: &Symbols,
    bodies: &[&TStmt],
    from: u32,
    firsts: &Firsts,
    first: &mut [bool],
    contacts: &mut Vec<Contact>,
    drivers: &mut Vec<Driver>,
) -> Result<Root, AllocError>
    requires inlined { AreInlined (tree_of program.now) (program_of typed.now) }
    requires names { names.now ≡ procedure_names (tree_of program.now).procs }
    requires bodies { (h : AreInlined (tree_of program.now) (program_of typed.now))
        → map (λ b. process_of b.now) bodies.now ≡ (shared_of h).procs }
    requires from { from ≡ root_request (program_of typed.now) }
    requires channels { firsts.now.channels.items ≡ channel_firsts (program_of typed.now) }
    requires vars { firsts.now.vars.items ≡ var_firsts (program_of typed.now) }
    requires own { (h : AreInlined (tree_of program.now) (program_of typed.now))
        → call_count (shared_of h) ≡ length first.old }
    requires few { length first.old ≤ 65536 }
    requires copies { nodes_of (program_of typed.now) ≤ 65536 }
    requires none { (contacts.old.items ≡ []) × (drivers.old.items ≡ []) }
    ensures made { OnOk result ((h : AreInlined (tree_of program.now) (program_of typed.now))
        → drivers.new.items ≡ inner_rules (shared_of h)) }
    ensures root { IfOk result (λ root. (h : AreInlined (tree_of program.now) (program_of typed.now))
        → root.request ≡ call_root (shared_of h)) }
    ensures answer { IfOk result (λ root. (h : AreInlined (tree_of program.now) (program_of typed.now))
        → root.answer ≡ call_answer (shared_of h)) }
    ensures contacts { OnOk result ((h : AreInlined (tree_of program.now) (program_of typed.now))
        → contacts.new.items ≡ all_sites (shared_of h) (every_contact (program_of typed.now))) }
    ensures first { OnOk result ((h : AreInlined (tree_of program.now) (program_of typed.now))
        → first.new ≡ fold (λ values node. slice_set values node true) first.old
        (all_sites (shared_of h) (hidden_high (program_of typed.now)))) }
    ensures count { length first.new ≡ length first.old }
{
    calls_asked();
    statements_counted();
    let body = typed.body();
    let placed = place_bodies(alloc, typed, bodies, from, firsts, first, contacts, drivers)?;
    let request = placed.next;
    let latch = drivers.len() + 1;
    add(Driver::child(0, request + 1), drivers)?;
    // the latch isn't driven until it is known which node answers for the body
    add(Driver::undriven(), drivers)?;
    let mut calls = Vec::new(alloc);
    let answer = called_statement(
        alloc,
        typed,
        names,
        &placed.answers,
        &program.body,
        body,
        request,
        request + 2,
        firsts,
        first,
        contacts,
        &mut calls,
        drivers,
    )?;
    ask_bodies(alloc, &calls, from, &placed.requests, drivers)?;
    drivers[latch] = Driver::latch(0, answer);
    Ok(Root { request, answer })
}

/// The drivers of all nodes, in order of their numbers. The rails of hidden variables that are high at first are
/// raised.
fn drivers_of(
    alloc: Global,
    program: &Program,
    typed: &Typed,
    names: &Symbols,
    bodies: &[&TStmt],
    firsts: &Firsts,
    first: &mut [bool],
) -> Result<Vec<Driver>, AllocError>
    requires inlined { AreInlined (tree_of program.now) (program_of typed.now) }
    requires names { names.now ≡ procedure_names (tree_of program.now).procs }
    requires bodies { (h : AreInlined (tree_of program.now) (program_of typed.now))
        → map (λ b. process_of b.now) bodies.now ≡ (shared_of h).procs }
    requires channels { firsts.now.channels.items ≡ channel_firsts (program_of typed.now) }
    requires vars { firsts.now.vars.items ≡ var_firsts (program_of typed.now) }
    requires own { (h : AreInlined (tree_of program.now) (program_of typed.now))
        → call_count (shared_of h) ≡ length first.old }
    requires few { length first.old ≤ 65536 }
    requires copies { nodes_of (program_of typed.now) ≤ 65536 }
    ensures made { IfOk result (λ drivers. (h : AreInlined (tree_of program.now) (program_of typed.now))
        → drivers.items ≡ call_rules (shared_of h)) }
    ensures first { OnOk result ((h : AreInlined (tree_of program.now) (program_of typed.now))
        → first.new ≡ fold (λ values node. slice_set values node true) first.old
        (all_sites (shared_of h) (hidden_high (program_of typed.now)))) }
    ensures count { length first.new ≡ length first.old }
{
    calls_asked();
    let body = typed.body();
    let from = (count_nodes(typed) - statement_nodes(typed, body)) as u32 - 2;
    let mut contacts = Vec::new(alloc);
    // with room for those of the declared nodes and of a reset node
    let mut drivers = Vec::with_capacity(alloc, first.len() + 1)?;
    // What drives the declared nodes is known only after the bodies, and they come first.
    let root = inner_drivers(
        alloc,
        program,
        typed,
        names,
        bodies,
        from,
        firsts,
        first,
        &mut contacts,
        &mut drivers,
    )?;
    let own = drivers.len();
    declared(
        alloc,
        typed,
        &firsts.vars,
        contacts,
        root.request + 1,
        root.answer,
        &mut drivers,
    )?;
    drivers.rotate_left(own);
    Ok(drivers)
}

/// The circuit of a program that has `count` nodes, with a reset node where one is asked for.
fn make(
    alloc: Global,
    program: &Program,
    typed: &Typed,
    procs: &Procedures,
    count: u32,
    reset: bool,
) -> Result<Circuit, AllocError>
    requires inlined { AreInlined (tree_of program.now) (program_of typed.now) }
    requires names { procs.now.names ≡ procedure_names (tree_of program.now).procs }
    requires bodies { (h : AreInlined (tree_of program.now) (program_of typed.now))
        → map (λ b. process_of b.now) procs.now.bodies.items ≡ (shared_of h).procs }
    requires own { (h : AreInlined (tree_of program.now) (program_of typed.now)) → call_count (shared_of h) ≡ count }
    requires few { count ≤ 65536 }
    requires copies { nodes_of (program_of typed.now) ≤ 65536 }
    ensures { IfOk result (λ net. (h : AreInlined (tree_of program.now) (program_of typed.now)) → net
        ≡ if reset then reset_of (call_net (shared_of h) (call_names (shared_of h)))
        else call_net (shared_of h) (call_names (shared_of h))) }
{
    calls_hold();
    let firsts = firsts_of(alloc, typed)?;
    let mut first = declared_values(alloc, typed, &firsts.vars, count)?;
    let mut drivers = drivers_of(
        alloc,
        program,
        typed,
        &procs.names,
        &procs.bodies,
        &firsts,
        &mut first,
    )?;
    let names = names_of(alloc, typed, count, reset)?;
    let channels = wires_of(alloc, typed)?;
    let at = add_reset(reset, &mut first, &mut drivers)?;
    Ok(Circuit {
        names,
        first,
        drivers,
        channels,
        reset: at,
    })
}

/// The circuit of a program with procedures, in which all calls of a procedure share one body, with a reset node
/// where one is asked for. `inlined` is the checked program in which each call is its procedure's body. Where the
/// circuit, the reset node left out of the count, or that of the inlined program would have more than 65,536 nodes, it
/// is refused with the greater one of their numbers.
pub fn call_circuit_of(
    alloc: Global,
    program: &Program,
    inlined: &Disjoint,
    reset: bool,
) -> Result<Circuit, NetError>
    requires few { length program.now.procs.items ≤ 300000 }
    requires inlined { AreInlined (tree_of program.now) (program_of inlined.now) }
    ensures net { IfOk result (λ net. (h : AreInlined (tree_of program.now) (program_of inlined.now)) → net
        ≡ if reset then reset_of (call_net (shared_of h) (call_names (shared_of h)))
        else call_net (shared_of h) (call_names (shared_of h))) }
    ensures fits { OnOk result ((h : AreInlined (tree_of program.now) (program_of inlined.now))
        → call_count (shared_of h) ≤ 65536) }
    ensures copies { OnOk result (nodes_of (program_of inlined.now) ≤ 65536) }
    ensures count { IfErr result (IfTooMany (λ count. (h : AreInlined (tree_of program.now) (program_of inlined.now))
        → count ≡ max (capped (call_count (shared_of h))) (node_count (program_of inlined.now)))) }
    ensures too_many { IfErr result (IfTooMany (λ _.
        (h : AreInlined (tree_of program.now) (program_of inlined.now))
        → (65536 < call_count (shared_of h)) ⊎ (65536 < nodes_of (program_of inlined.now)))) }
{
    let typed = inlined.typed();
    let procs = match procedures_of(alloc, program, typed) {
        Ok(procs) => procs,
        Err(e) => return Err(NetError::NoMemory(e)),
    };
    let count = shared_nodes(program, typed, &procs.bodies);
    let copies = count_nodes(typed);
    let most = count.max(copies);
    if most > MOST_NODES {
        return Err(NetError::TooManyNodes(most));
    }
    match make(alloc, program, typed, &procs, count as u32, reset) {
        Ok(circuit) => Ok(circuit),
        Err(e) => Err(NetError::NoMemory(e)),
    }
}

/// The net of a program with procedures, in which all calls of a procedure share one body, made as `call_circuit_of`
/// makes its circuit.
pub fn translate_calls(
    alloc: Global,
    program: &Program,
    inlined: &Disjoint,
) -> Result<Net, NetError>
    requires few { length program.now.procs.items ≤ 300000 }
    requires inlined { AreInlined (tree_of program.now) (program_of inlined.now) }
    ensures net { IfOk result (λ net. (h : AreInlined (tree_of program.now) (program_of inlined.now))
        → net ≡ call_net (shared_of h) (call_names (shared_of h))) }
    ensures carries { OnOk result ((h : AreInlined (tree_of program.now) (program_of inlined.now))
        → Carries (call_net (shared_of h) (call_names (shared_of h))) (program_of inlined.now)) }
    ensures fits { OnOk result ((h : AreInlined (tree_of program.now) (program_of inlined.now))
        → call_count (shared_of h) ≤ 65536) }
    ensures copies { OnOk result (nodes_of (program_of inlined.now) ≤ 65536) }
    ensures count { IfErr result (IfTooMany (λ count. (h : AreInlined (tree_of program.now) (program_of inlined.now))
        → count ≡ max (capped (call_count (shared_of h))) (node_count (program_of inlined.now)))) }
    ensures too_many { IfErr result (IfTooMany (λ _.
        (h : AreInlined (tree_of program.now) (program_of inlined.now))
        → (65536 < call_count (shared_of h)) ⊎ (65536 < nodes_of (program_of inlined.now)))) }
{
    calls_carried();
    let circuit = call_circuit_of(alloc, program, inlined, false)?;
    match net_of(alloc, circuit) {
        Ok(net) => Ok(net),
        Err(e) => Err(NetError::NoMemory(e)),
    }
}
