//! Printing a net.

ghost use Rattle.std.specs.Prelude.{◌≡◌, ◌<◌, ◌≤◌, ◌++◌, length, All, Bool, IfOk, OnOk, codes};
ghost use Rattle.std.specs.List.{flat_map, range_with_len};
ghost use Rattle.prs_core.specs.declared.wires.Wires.{Wires};
ghost use Rattle.chp_base.specs.Names.{IsNodeName};
ghost use Rattle.prs_core.specs.declared.rule.Literal.{Literal};
ghost use Rattle.prs_core.specs.Nets.{IsBelow, name_at, first_at};
ghost use Rattle.prs_file.specs.Spelling.{NetText, version_of, guard_spelling, node_spelling, channel_spelling, rule_spelling, rules_spelling, term_spelling, lead_spelling};

use crate::forms::{Lead, channel_line, head_line, literal_text, node_line, rule_end};
use prs_core::{Guard, Net, Term};
use std::alloc::{AllocError, Global};

fn node_name(net: &Net, node: u32) -> &[u8]
    requires { node < length net.now.first }
    ensures value { result.now ≡ name_at net.now node }
    ensures name { IsNodeName result.now }
{
    net.names()[node as usize].bytes()
}

/// Appends what leads to a term, and then the term.
fn term_text(net: &Net, lead: Lead, term: &Term, to: &mut Vec<u8>) -> Result<(), AllocError>
    requires { All (λ (l : Literal). l.node < length net.now.first) term.now }
    ensures { OnOk result (to.new.items ≡ to.old.items ++ (lead_spelling lead ++ term_spelling net.now term.now)) }
{
    let mut next = lead;
    for literal in term.literals() {
        literal_text(next, literal.high, node_name(net, literal.node), to)?;
        next = Lead::And;
    }
    Ok(())
}

/// Appends the word that begins a rule, and the guard.
fn guard_text(net: &Net, guard: &Guard, to: &mut Vec<u8>) -> Result<(), AllocError>
    requires some { 0 < length guard.now }
    requires within { IsBelow (length net.now.first) guard.now }
    ensures { OnOk result (to.new.items ≡ to.old.items ++ (codes "rule " ++ guard_spelling net.now guard.now)) }
{
    let mut next = Lead::Rule;
    for term in guard.terms() {
        term_text(net, next, term, to)?;
        next = Lead::Or;
    }
    Ok(())
}

/// Appends the line of a rule, or nothing if its guard has no terms.
fn rule_line(
    net: &Net,
    guard: &Guard,
    node: u32,
    up: bool,
    to: &mut Vec<u8>,
) -> Result<(), AllocError>
    requires node { node < length net.now.first }
    requires within { IsBelow (length net.now.first) guard.now }
    ensures { OnOk result (to.new.items ≡ to.old.items ++ rule_spelling net.now guard.now node up) }
{
    if guard.terms().is_empty() {
        return Ok(());
    }
    guard_text(net, guard, to)?;
    rule_end(node_name(net, node), up, to)
}

/// Appends the lines of a node's rules, the up rule first.
fn rule_lines(net: &Net, node: u32, to: &mut Vec<u8>) -> Result<(), AllocError>
    requires { node < length net.now.first }
    ensures { OnOk result (to.new.items ≡ to.old.items ++ rules_spelling net.now node) }
{
    let _net = net.first();
    rule_line(net, net.up(node), node, true, to)?;
    rule_line(net, net.down(node), node, false, to)
}

/// Appends the line of a node.
fn numbered_line(net: &Net, node: usize, to: &mut Vec<u8>) -> Result<(), AllocError>
    requires { node < length net.now.first }
    ensures { OnOk result (to.new.items ≡ to.old.items
        ++ node_spelling (name_at net.now node) (first_at net.now node)) }
{
    let first = net.first()[node];
    node_line(net.names()[node].bytes(), first, to)
}

/// Appends the lines of the nodes.
fn node_lines(net: &Net, to: &mut Vec<u8>) -> Result<(), AllocError>
    ensures { OnOk result (to.new.items
        ≡ to.old.items
        ++ flat_map (λ node. node_spelling (name_at net.now node) (first_at net.now node))
        (range_with_len 0 (length net.now.first))) }
{
    for node in 0..net.first().len() {
        numbered_line(net, node, to)?;
    }
    Ok(())
}

/// Appends the lines of the channels.
fn channel_lines(net: &Net, to: &mut Vec<u8>) -> Result<(), AllocError>
    ensures { OnOk result (to.new.items ≡ to.old.items
        ++ flat_map (λ (w : Wires). channel_spelling w.channel) net.now.channels) }
{
    for wires in net.channels() {
        channel_line(&wires.channel, to)?;
    }
    Ok(())
}

fn version(net: &Net) -> u8
    ensures value { result ≡ version_of net.now.reset }
    ensures some { 1 ≤ result }
    ensures most { result ≤ 2 }
{
    match net.reset() {
        None => 1,
        Some(_) => 2,
    }
}

/// The rule file of the net: its version, its nodes in order of their numbers, its channels, and its rules in
/// order of their nodes, up before down.
pub fn print_net(alloc: Global, net: &Net) -> Result<Vec<u8>, AllocError>
    ensures { IfOk result (λ text. NetText text.items net.now) }
{
    let mut text = Vec::new(alloc);
    head_line(version(net), &mut text)?;
    node_lines(net, &mut text)?;
    channel_lines(net, &mut text)?;
    for node in 0..net.first().len() as u32 {
        rule_lines(net, node, &mut text)?;
    }
    Ok(text)
}
