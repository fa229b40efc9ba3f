//! The procedures of a circuit in which all calls of a procedure share one body.

ghost use Rattle.std.specs.Prelude.{◌≡◌, ℕ, ◌+◌, ◌-◌, ◌≤◌, ◌<◌, ◌++◌, true, fold, length, map, slice_set, All, IfOk, OnOk};
ghost use Rattle.prs_core.specs.Pairs.{or_of};
ghost use Rattle.width_check.specs.Typed.{program_of};
ghost use Rattle.width_check.specs.Typing.{IsProcess};
ghost use Rattle.width_check.specs.View.{process_of};
ghost use Rattle.handshake_expand.specs.Layout.{root_request};
ghost use Rattle.net_compose.specs.Begins.{channel_firsts, var_firsts};
ghost use Rattle.net_compose.specs.Contacts.{every_contact};
ghost use Rattle.net_compose.specs.SortedContacts.{listed_at};
ghost use Rattle.net_compose.specs.Translation.{hidden_high};
ghost use Rattle.call_map.specs.CallNet.{procs_size, body_sites};
ghost use Rattle.call_compose.specs.Placing.{requests_from, answers_from, unasked_rules, with_asked};
ghost use Rattle.call_compose.specs.Walking.{requests_of};

use crate::walk::Call;
use net_compose::Driver;
use net_compose::parts::{Contact, Firsts, add, add_item, no_lists, statement, statements_counted};
use std::alloc::{AllocError, Global};
use width_check::{TStmt, Typed};

/// The procedures of a circuit, in order of declaration.
#[derive(Drop)]
pub(crate) struct Placed {
    /// The request of each.
    pub requests: Vec<u32>,
    /// The node that answers for each body.
    pub answers: Vec<u32>,
    /// The first node after them.
    pub next: u32,
}

/// Adds the drivers of procedures whose nodes are numbered from `from` on: of each its request, which isn't driven yet,
/// and its body. Sites are listed in text order, and the nodes of hidden variables that are high at first are raised.
pub(crate) fn place_bodies(
    alloc: Global,
    program: &Typed,
    bodies: &[&TStmt],
    from: u32,
    firsts: &Firsts,
    first: &mut [bool],
    contacts: &mut Vec<Contact>,
    drivers: &mut Vec<Driver>,
) -> Result<Placed, AllocError>
    requires channels { firsts.now.channels.items ≡ channel_firsts (program_of program.now) }
    requires vars { firsts.now.vars.items ≡ var_firsts (program_of program.now) }
    requires typed { All (λ b. IsProcess program.now.channels program.now.vars b)
        (map (λ b. process_of b.now) bodies.now) }
    requires root { root_request (program_of program.now) ≤ from }
    requires own { from + procs_size (program_of program.now) (map (λ b. process_of b.now) bodies.now)
        ≤ length first.old }
    requires few { length first.old ≤ 65536 }
    ensures made { OnOk result (drivers.new.items ≡ drivers.old.items
        ++ unasked_rules (program_of program.now) (map (λ b. process_of b.now) bodies.now) from) }
    ensures requests { IfOk result (λ placed. placed.requests.items
        ≡ requests_from (program_of program.now) (map (λ b. process_of b.now) bodies.now) from) }
    ensures answers { IfOk result (λ placed. placed.answers.items
        ≡ answers_from (program_of program.now) (map (λ b. process_of b.now) bodies.now) from) }
    ensures next { IfOk result (λ placed. placed.next
        ≡ from + procs_size (program_of program.now) (map (λ b. process_of b.now) bodies.now)) }
    ensures contacts { OnOk result (contacts.new.items ≡ contacts.old.items
        ++ body_sites (program_of program.now) (every_contact (program_of program.now))
        (map (λ b. process_of b.now) bodies.now) from) }
    ensures first { OnOk result (first.new ≡ fold (λ values node. slice_set values node true) first.old
        (body_sites (program_of program.now) (hidden_high (program_of program.now))
        (map (λ b. process_of b.now) bodies.now) from)) }
    ensures count { length first.new ≡ length first.old }
{
    statements_counted();
    let mut requests = Vec::new(alloc);
    let mut answers = Vec::new(alloc);
    let mut next = from;
    for body in bodies {
        let begun = drivers.len();
        add(Driver::undriven(), drivers)?;
        let answer = statement(
            alloc,
            program,
            body,
            next,
            next + 1,
            firsts,
            first,
            contacts,
            drivers,
        )?;
        requests.push(next)?;
        answers.push(answer)?;
        next += (drivers.len() - begun) as u32;
    }
    Ok(Placed {
        requests,
        answers,
        next,
    })
}

/// The requests of the calls of each of so many procedures.
fn asking(alloc: Global, calls: &[Call], count: usize) -> Result<Vec<Vec<u32>>, AllocError>
    ensures lists { IfOk result (λ lists. length lists.items ≡ count) }
    ensures asking { IfOk result (λ lists. (proc : ℕ) → proc < count
        → listed_at lists.items proc ≡ requests_of proc calls.now) }
{
    let mut lists = no_lists(alloc, count)?;
    for call in calls {
        if (call.proc as usize) < count {
            add_item(&mut lists, call.proc, call.request)?;
        }
    }
    Ok(lists)
}

/// Sets the requests of procedures, whose nodes are numbered from `from` on: each is the OR of those of its calls.
pub(crate) fn ask_bodies(
    alloc: Global,
    calls: &[Call],
    from: u32,
    requests: &[u32],
    drivers: &mut [Driver],
) -> Result<(), AllocError>
    requires { All (λ request. (from ≤ request) × (request - from < length drivers.old)) requests.now }
    ensures asked { OnOk result (drivers.new
        ≡ with_asked (λ proc. or_of (requests_of proc calls.now)) from 0 requests.now drivers.old) }
    ensures count { length drivers.new ≡ length drivers.old }
{
    let lists = asking(alloc, calls, requests.len())?;
    for proc in 0..requests.len() {
        let asked = Vec::from_slice(alloc, &lists[proc])?;
        drivers[(requests[proc] - from) as usize] = Driver::any(asked);
    }
    Ok(())
}
