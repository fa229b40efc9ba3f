//! The drivers of all nodes of a program's circuit.

ghost use Rattle.std.specs.Prelude.{◌≡◌, ◌<◌, ◌≤◌, ◌++◌, [], ◌∷◌, true, fold, length, slice_set, All, IfOk, OnOk};
ghost use Rattle.width_check.specs.Typed.{program_of};
ghost use Rattle.width_check.specs.Typing.{channel_width, kind_at, var_width};
ghost use Rattle.prs_core.specs.Pairs.{no_rules};
ghost use Rattle.handshake_expand.specs.Layout.{nodes_of, var_from, go_node};
ghost use Rattle.handshake_expand.specs.Sites.{in_body};
ghost use Rattle.cell_sequence.specs.Sequence.{q_child, q_latch, q_next};
ghost use Rattle.cell_variable.specs.Variables.{variable_rules};
ghost use Rattle.net_compose.specs.Begins.{channel_firsts, var_firsts};
ghost use Rattle.net_compose.specs.Translation.{all_rules, wire_rules, channels_rules, vars_rules, hidden_high};
ghost use Rattle.net_compose.specs.Contacts.{every_contact};
ghost use Rattle.net_compose.specs.SortedContacts.{IsDeclaredContact, HasContactLists, listed_at, wires_by, blocks_by, contact_wires, contact_blocks};

use crate::block::{block, rails, silent};
use crate::body::body;
use crate::contact::{Contact, Site};
use crate::driver::{Driver, add};
use crate::firsts::Firsts;
use crate::sorted::{Sorted, sort_contacts};
use chp_base::Kind;
use handshake_expand::{answer_node, count_nodes, statement_nodes};
use std::alloc::{AllocError, Global};
use width_check::Typed;

/// Adds the wires of a channel: its rails merge those of the sends, its acknowledge is the OR of the nodes by which
/// receives have stored the value, and the environment moves the rails of an `in` channel and the acknowledge of an
/// `out` channel.
fn channel(
    alloc: Global,
    program: &Typed,
    chan: usize,
    sorted: &Sorted,
    drivers: &mut Vec<Driver>,
) -> Result<(), AllocError>
    requires lists { HasContactLists (length program.now.channels) (length program.now.vars) sorted.now }
    requires within { chan < length program.now.channels }
    ensures { OnOk result (drivers.new.items ≡ drivers.old.items
        ++ wire_rules (listed_at sorted.now.sent.items chan) (listed_at sorted.now.taken.items chan)
        (channel_width program.now.channels chan) (kind_at program.now.channels chan)) }
{
    let channels = program.channels();
    let declared = &channels[chan];
    let sites: &[Site] = &sorted.sent[chan];
    let taken = Vec::from_slice(alloc, &sorted.taken[chan])?;
    match declared.kind {
        Kind::In => {
            silent(2 * u32::from(declared.width), drivers)?;
            add(Driver::any(taken), drivers)
        }
        Kind::Out => {
            rails(alloc, sites, declared.width, drivers)?;
            add(Driver::undriven(), drivers)
        }
        Kind::Chan => {
            rails(alloc, sites, declared.width, drivers)?;
            add(Driver::any(taken), drivers)
        }
    }
}

/// Adds the wires of all channels.
fn channels(
    alloc: Global,
    program: &Typed,
    sorted: &Sorted,
    drivers: &mut Vec<Driver>,
) -> Result<(), AllocError>
    requires { HasContactLists (length program.now.channels) (length program.now.vars) sorted.now }
    ensures { OnOk result (drivers.new.items ≡ drivers.old.items
        ++ wires_by (λ k. listed_at sorted.now.sent.items k) (λ k. listed_at sorted.now.taken.items k) 0
        program.now.channels) }
{
    for chan in 0..program.channels().len() {
        channel(alloc, program, chan, sorted, drivers)?;
    }
    Ok(())
}

/// Adds the block of a variable.
fn var(
    alloc: Global,
    program: &Typed,
    number: usize,
    firsts: &[u32],
    sorted: &Sorted,
    drivers: &mut Vec<Driver>,
) -> Result<(), AllocError>
    requires firsts { firsts.now ≡ var_firsts (program_of program.now) }
    requires lists { HasContactLists (length program.now.channels) (length program.now.vars) sorted.now }
    requires within { number < length program.now.vars }
    requires few { nodes_of (program_of program.now) ≤ 65536 }
    ensures { OnOk result (drivers.new.items ≡ drivers.old.items
        ++ variable_rules (var_width program.now.vars number) (var_from (program_of program.now) number)
        (listed_at sorted.now.written.items number)) }
{
    // the contract of `body` says what holds of a checked program
    let _kept = program.body();
    let vars = program.vars();
    let declared = &vars[number];
    let sites: &[Site] = &sorted.written[number];
    block(alloc, sites, declared.width, firsts[number], drivers)
}

/// Adds the blocks of all variables.
fn vars(
    alloc: Global,
    program: &Typed,
    firsts: &[u32],
    sorted: &Sorted,
    drivers: &mut Vec<Driver>,
) -> Result<(), AllocError>
    requires firsts { firsts.now ≡ var_firsts (program_of program.now) }
    requires lists { HasContactLists (length program.now.channels) (length program.now.vars) sorted.now }
    requires few { nodes_of (program_of program.now) ≤ 65536 }
    ensures { OnOk result (drivers.new.items ≡ drivers.old.items
        ++ blocks_by (program_of program.now) (λ x. listed_at sorted.now.written.items x) 0 program.now.vars) }
{
    for number in 0..program.vars().len() {
        var(alloc, program, number, firsts, sorted, drivers)?;
    }
    Ok(())
}

/// Adds the drivers of `go` and `done`, of the wires of channels and of the blocks of variables, where these are the
/// sites. `latch` is the root's latch, and `answer` the node that answers for the body.
pub fn declared(
    alloc: Global,
    program: &Typed,
    firsts: &[u32],
    contacts: Vec<Contact>,
    latch: u32,
    answer: u32,
    drivers: &mut Vec<Driver>,
) -> Result<(), AllocError>
    requires firsts { firsts.now ≡ var_firsts (program_of program.now) }
    requires contacts { All (IsDeclaredContact (length program.now.channels) (length program.now.vars)) contacts.items }
    requires few { nodes_of (program_of program.now) ≤ 65536 }
    ensures { OnOk result (drivers.new.items ≡ drivers.old.items ++ no_rules ∷ q_next latch answer
        ∷ (contact_wires contacts.items 0 program.now.channels
        ++ contact_blocks (program_of program.now) contacts.items 0 program.now.vars)) }
{
    add(Driver::undriven(), drivers)?;
    add(Driver::next(latch, answer), drivers)?;
    let sorted = sort_contacts(alloc, program, contacts)?;
    channels(alloc, program, &sorted, drivers)?;
    vars(alloc, program, firsts, &sorted, drivers)
}

/// The same, where these are the sites of the program's body, and the drivers of the root after them.
fn declare(
    alloc: Global,
    program: &Typed,
    firsts: &[u32],
    contacts: Vec<Contact>,
    latch: u32,
    answer: u32,
    drivers: &mut Vec<Driver>,
) -> Result<(), AllocError>
    requires firsts { firsts.now ≡ var_firsts (program_of program.now) }
    requires contacts { contacts.items ≡ in_body (program_of program.now) (every_contact (program_of program.now)) }
    requires few { nodes_of (program_of program.now) ≤ 65536 }
    ensures { OnOk result (drivers.new.items ≡ drivers.old.items ++ no_rules ∷ q_next latch answer
        ∷ (channels_rules (program_of program.now) 0 program.now.channels
        ++ (vars_rules (program_of program.now) 0 program.now.vars
        ++ q_child go_node latch ∷ q_latch go_node answer ∷ []))) }
{
    // the contract of `body` says what holds of a checked program
    let _kept = program.body();
    declared(alloc, program, firsts, contacts, latch, answer, drivers)?;
    add(Driver::child(0, latch), drivers)?;
    add(Driver::latch(0, answer), drivers)
}

/// The drivers of all nodes, in order of their numbers. The rails of hidden variables that are high at first are
/// raised.
pub(crate) fn drivers_of(
    alloc: Global,
    program: &Typed,
    firsts: &Firsts,
    first: &mut [bool],
) -> Result<Vec<Driver>, AllocError>
    requires channels { firsts.now.channels.items ≡ channel_firsts (program_of program.now) }
    requires vars { firsts.now.vars.items ≡ var_firsts (program_of program.now) }
    requires own { nodes_of (program_of program.now) ≡ length first.old }
    requires few { length first.old ≤ 65536 }
    ensures made { IfOk result (λ drivers. drivers.items ≡ all_rules (program_of program.now)) }
    ensures first { OnOk result (first.new ≡ fold (λ values node. slice_set values node true) first.old
        (in_body (program_of program.now) (hidden_high (program_of program.now)))) }
    ensures count { length first.new ≡ length first.old }
{
    let mut contacts = Vec::new(alloc);
    // What drives the declared nodes is known only after the body, and they come first.
    let mut drivers = body(alloc, program, firsts, first, &mut contacts)?;
    let own = drivers.len();
    let statement = program.body();
    let from = (count_nodes(program) - statement_nodes(program, statement)) as u32;
    let latch = from - 1;
    let answer = answer_node(program, statement, from);
    declare(
        alloc,
        program,
        &firsts.vars,
        contacts,
        latch,
        answer,
        &mut drivers,
    )?;
    drivers.rotate_left(own);
    Ok(drivers)
}
