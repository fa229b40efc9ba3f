//! The net of a program.

ghost use Rattle.std.specs.Prelude.{◌≡◌, ◌<◌, ◌≤◌, None, IfOk, OnOk, IfErr};
ghost use Rattle.chp_base.specs.Names.{IsNodeName};
ghost use Rattle.prs_core.specs.Nets.{net_rules};
ghost use Rattle.width_check.specs.Typed.{program_of};
ghost use Rattle.handshake_expand.specs.Layout.{node_count, nodes_of};
ghost use Rattle.net_compose.specs.Carries.{Carries};
ghost use Rattle.net_compose.specs.Errors.{IfTooMany};
ghost use Rattle.net_compose.specs.Progress.{Progresses};
ghost use Rattle.net_compose.specs.Translation.{translation};

use crate::circuit::{Circuit, circuit_of};
use crate::guard::guard_of;
use crate::laws::{carries, runs_end};
use chp_base::{Name, node_name_of};
use prs_core::{Net, Rules};
use sharing_check::Disjoint;
use std::alloc::{AllocError, Global};
use thiserror::Error;

/// Why there is no net.
#[derive(Debug, Drop, Error)]
pub enum NetError {
    /// The circuit has so many nodes; 2^64 - 1 means that many or more.
    #[error("{0} nodes")]
    TooManyNodes(u64),
    #[error("no memory")]
    NoMemory(AllocError),
}

/// The node's name that these bytes are.
fn name_from(alloc: Global, text: &[u8]) -> Result<Name, AllocError>
    requires { IsNodeName text.now }
    ensures { IfOk result (λ name. name ≡ text.now) }
{
    match node_name_of(alloc, text)? {
        Some(name) => Ok(name),
        None => unreachable!(),
    }
}

/// The names of a circuit's nodes.
fn names_in(alloc: Global, circuit: &Circuit) -> Result<Vec<Name>, AllocError>
    ensures { IfOk result (λ names. names.items ≡ circuit.now.names) }
{
    let count = circuit.first().len() as u32;
    let mut names = Vec::new(alloc);
    for node in 0..count {
        names.push(name_from(alloc, circuit.name(node))?)?;
    }
    Ok(names)
}

/// The guards of a circuit's nodes.
fn rules_in(alloc: Global, circuit: &Circuit) -> Result<Rules, AllocError>
    requires { circuit.now.reset ≡ None }
    ensures { IfOk result (λ rules. rules ≡ net_rules circuit.now) }
{
    let count = circuit.first().len() as u32;
    let mut rules = Rules::new(alloc, count)?;
    for node in 0..count {
        let driver = circuit.driver(node);
        let up = guard_of(alloc, driver, true)?;
        let down = guard_of(alloc, driver, false)?;
        rules.set_up(node, up);
        rules.set_down(node, down);
    }
    Ok(rules)
}

/// The net of a circuit without a reset node.
pub fn net_of(alloc: Global, circuit: Circuit) -> Result<Net, AllocError>
    requires { circuit.reset ≡ None }
    ensures { IfOk result (λ net. net ≡ circuit) }
{
    let names = names_in(alloc, &circuit)?;
    let rules = rules_in(alloc, &circuit)?;
    Ok(Net::new(names, circuit.first, rules, circuit.channels))
}

/// The net of a program, with the layout and the rules of its circuit (Martin). One that would have more than 65,536
/// nodes is refused with their number. The net carries the program, and keeps pace with it: see the
/// laws `carries` and `runs_end`.
pub fn translate(alloc: Global, program: &Disjoint) -> Result<Net, NetError>
    ensures net { IfOk result (λ net. net ≡ translation (program_of program.now)) }
    ensures fits { OnOk result (nodes_of (program_of program.now) ≤ 65536) }
    ensures carries { OnOk result (Carries (translation (program_of program.now)) (program_of program.now)) }
    ensures progresses { OnOk result (Progresses (translation (program_of program.now)) (program_of program.now)) }
    ensures count { IfErr result (IfTooMany (λ count. count ≡ node_count (program_of program.now))) }
    ensures too_many { IfErr result (IfTooMany (λ _. 65536 < nodes_of (program_of program.now))) }
{
    carries();
    runs_end();
    let circuit = circuit_of(alloc, program, false)?;
    match net_of(alloc, circuit) {
        Ok(net) => Ok(net),
        Err(e) => Err(NetError::NoMemory(e)),
    }
}
