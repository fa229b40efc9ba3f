//! The lines of rules, one after another.

ghost use Rattle.std.specs.Prelude.{◌≡◌, ◌≢◌, ◌<◌, ◌≤◌, ◌^◌, ◌==◌, ◌++◌, ℕ, List, Bool, length, IfOk, IfErr, IfSome, IfNone, Some, None};
ghost use Rattle.chp_base.specs.declared.channel.Channel.{Channel as ChannelValue};
ghost use Rattle.prs_core.specs.Nets.{IsBelow};
ghost use Rattle.prs_file.specs.DrivenTold.{AreDriven};
ghost use Rattle.prs_file.specs.Indexes.{place_in};
ghost use Rattle.prs_file.specs.Lines.{first_line};
ghost use Rattle.prs_file.specs.Named.{guard_named};
ghost use Rattle.prs_file.specs.Reading.{Signed, IsForm, form_spelling};
ghost use Rattle.prs_file.specs.Reading.Form.{rule};
ghost use Rattle.prs_file.specs.RulesTold.{order_fault_of, rule_fault_of, literals_allowed as literal_limit};
ghost use Rattle.prs_file.specs.Tables.{place_at, known_fault_of};
ghost use Rattle.prs_file.specs.Terms.{terms_of};

use crate::fault::NetFault;
use crate::guard::guard_of;
use crate::nodes::Nodes;
use crate::rule::{RuleForm, rule_form};
use crate::spelled::cut_line;
use prs_core::Guard;
use std::alloc::{AllocError, Global};

/// The rule in the first line, and the text after the line, or None if the line is no rule's.
pub fn next_rule(alloc: Global, text: &[u8]) -> Result<Option<(RuleForm, &[u8])>, AllocError>
    ensures line { IfOk result
        (λ o. IfSome o
        (λ r. first_line text.now ≡ form_spelling (rule (terms_of r.0.leds.items) r.0.node r.0.up))) }
    ensures form { IfOk result
        (λ o. IfSome o (λ r. IsForm (rule (terms_of r.0.leds.items) r.0.node r.0.up))) }
    ensures rest { IfOk result (λ o. IfSome o (λ r. text.now ≡ first_line text.now ++ r.1.now)) }
    ensures some { IfOk result (λ o. IfSome o (λ r. length r.1.now < length text.now)) }
    ensures none { IfOk result
        (λ o. IfNone o
        ((g : List (List Signed)) (name : List ℕ) (up : Bool)
        → IsForm (rule g name up)
        → first_line text.now ≢ form_spelling (rule g name up))) }
{
    let (line, behind) = cut_line(text);
    let Some(form) = rule_form(alloc, line)? else {
        return Ok(None);
    };
    Ok(Some((form, behind)))
}

/// The position of a rule in the order of rules: by its node, up before down.
pub fn place_of(node: u32, up: bool) -> u32
    requires { node < 65537 }
    ensures { result ≡ place_at node up }
{
    if up { 2 * node } else { 2 * node + 1 }
}

/// Why a rule at this position may not follow one at the last position, or None if it may.
fn order_fault(last: Option<u32>, place: u32) -> Option<NetFault>
    ensures { result ≡ order_fault_of last place }
{
    match last {
        None => None,
        Some(before) if before == place => Some(NetFault::DoubleRule),
        Some(before) if place < before => Some(NetFault::OutOfOrder),
        Some(_) => None,
    }
}

/// The most literals of a file.
fn most_literals(version: u8) -> usize
    ensures { result ≡ literal_limit (version == 2) }
{
    if version == 2 { 8_454_144 } else { 4_194_304 }
}

/// How far the rules are read: the position of the last one, and the number of literals so far.
#[derive(Clone, Copy)]
pub struct Progress {
    pub place: Option<u32>,
    pub literals: usize,
}

/// Why a rule at this position and with so many literals is refused, given that its nodes are known, or None if it
/// isn't.
fn known_fault(
    version: u8,
    driven: bool,
    so_far: Progress,
    place: u32,
    literals: usize,
) -> Option<NetFault>
    requires few { so_far.literals < 2 ^ 32 }
    requires more { literals < 2 ^ 63 }
    ensures { result ≡ known_fault_of (version == 2) driven so_far.place so_far.literals place literals }
{
    if driven {
        return Some(NetFault::DrivenWire);
    }
    if let Some(fault) = order_fault(so_far.place, place) {
        return Some(fault);
    }
    if most_literals(version) < so_far.literals + literals {
        return Some(NetFault::TooMany);
    }
    None
}

/// A rule of a net: its node and its guard.
#[derive(Drop)]
pub struct Turn {
    pub node: u32,
    pub guard: Guard,
}

/// The rule of a line by the numbers of nodes, or why it is refused.
pub fn turn_of(
    alloc: Global,
    nodes: &Nodes,
    driven: &[bool],
    so_far: Progress,
    form: &RuleForm,
) -> Result<Result<Turn, NetFault>, AllocError>
    requires driven { length driven.now ≡ length nodes.now.index }
    requires count { length nodes.now.index ≤ 65537 }
    requires few { so_far.literals < 2 ^ 32 }
    ensures node { IfOk result (λ r. IfOk r (λ t. place_in nodes.now.index form.now.node ≡ Some t.node)) }
    ensures guard { IfOk result (λ r.
        IfOk r (λ t. guard_named nodes.now.index t.guard ≡ terms_of form.now.leds.items)) }
    ensures within { IfOk result (λ r. IfOk r (λ t. IsBelow (length nodes.now.index) t.guard)) }
    ensures sound { IfOk result
        (λ r. IfOk r
        (λ _t. (channels : List ChannelValue)
        → AreDriven (nodes.now.version == 2) channels nodes.now.index driven.now
        → rule_fault_of nodes.now.index channels (nodes.now.version == 2) so_far.place so_far.literals
        (terms_of form.now.leds.items) form.now.node form.now.up ≡ None)) }
    ensures fault { IfOk result
        (λ r. IfErr r
        (λ fault. (channels : List ChannelValue)
        → AreDriven (nodes.now.version == 2) channels nodes.now.index driven.now
        → rule_fault_of nodes.now.index channels (nodes.now.version == 2) so_far.place so_far.literals
        (terms_of form.now.leds.items) form.now.node form.now.up ≡ Some fault)) }
{
    let Some(node) = nodes.index.find(form.node.bytes()) else {
        return Ok(Err(NetFault::UnknownNode));
    };
    let Some(guard) = guard_of(alloc, &nodes.index, &form.leds)? else {
        return Ok(Err(NetFault::UnknownNode));
    };
    let is_driven = driven[node as usize];
    let place = place_of(node, form.up);
    match known_fault(nodes.version, is_driven, so_far, place, form.leds.len()) {
        Some(fault) => Ok(Err(fault)),
        None => Ok(Ok(Turn { node, guard })),
    }
}
