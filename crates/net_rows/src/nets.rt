//! Rule files read, and what their nets contain.

ghost use Rattle.std.specs.Prelude.{◌≡◌, ◌<◌, length};

use crate::bench::NetBench;
use crate::cells::put_guards;
use crate::parts::{put_node, put_nodes};
use case_text::Page;
use prs_core::{Fan, Net, State, Wires, enabled, fan_of, first_state};
use prs_file::{NetReadError, read_net};
use std::alloc::Global;

/// The most bytes of a rule file.
const MOST: usize = 268_435_456;

/// The net of the rule file, or None where it is refused. Functions that own one drop it by one call, since it is in a
/// box.
pub fn net_of(alloc: Global, bench: &NetBench, page: &mut Page) -> Option<Box<Net>> {
    let text = bench.net();
    if text.len() > MOST {
        return None;
    }
    match read_net(alloc, text) {
        Ok(net) => page.taken(Box::new(alloc, net)),
        Err(NetReadError::Refused { .. }) => None,
        Err(NetReadError::NoMemory(_)) => {
            page.give_up();
            None
        }
    }
}

/// A line for the node, with its name, its first value and its guards.
fn put_line(page: &mut Page, net: &Net, node: u32)
    requires { node < length net.now.first }
{
    let place = node as usize;
    page.number(u64::from(node));
    page.put(" ");
    page.bytes(net.names()[place].bytes());
    page.put(if net.first()[place] { " 1" } else { " 0" });
    put_guards(page, net.up(node), net.down(node));
}

/// A line for the channel.
fn put_wires(page: &mut Page, wires: &Wires) {
    let channel = &wires.channel;
    page.debug(&channel.kind);
    page.put(" ");
    page.bytes(channel.name.bytes());
    page.put(" ");
    page.number(u64::from(channel.width));
    page.put(" rails");
    put_nodes(page, wires.rails.nodes());
    page.put(" acknowledge");
    put_node(page, wires.ack);
    page.put("\n");
}

fn put_readers(page: &mut Page, node: u32, readers: &[u32]) {
    if !readers.is_empty() {
        page.number(u64::from(node));
        page.put(" is read by");
        put_nodes(page, readers);
        page.put("\n");
    }
}

/// What is asked of each node of a net.
enum Asked {
    Line,
    Readers,
    High,
    Enabled,
}

/// Puts what is asked of the node.
fn put_asked(page: &mut Page, net: &Net, fan: &Fan, state: &State, asked: &Asked, node: u32)
    requires node { node < length net.now.first }
    requires fan { length fan.now ≡ length net.now.first }
    requires state { length state.now ≡ length net.now.first }
{
    match asked {
        Asked::Line => put_line(page, net, node),
        Asked::Readers => put_readers(page, node, fan.readers(node)),
        Asked::High => {
            if state.is_high(node) {
                put_node(page, node);
            }
        }
        Asked::Enabled => {
            if enabled(net, state, node) {
                put_node(page, node);
            }
        }
    }
}

/// Puts what is asked of each node.
fn put_each(page: &mut Page, net: &Net, fan: &Fan, state: &State, asked: &Asked)
    requires fan { length fan.now ≡ length net.now.first }
    requires state { length state.now ≡ length net.now.first }
{
    for node in 0..net.first().len() as u32 {
        put_asked(page, net, fan, state, asked, node);
    }
}

/// What the word asks of the net, whose readers and first values these are.
fn put_net(page: &mut Page, net: &Net, fan: &Fan, state: &State, word: &str)
    requires fan { length fan.now ≡ length net.now.first }
    requires state { length state.now ≡ length net.now.first }
{
    match word {
        "show-net" => {
            put_each(page, net, fan, state, &Asked::Line);
            for wires in net.channels() {
                put_wires(page, wires);
            }
        }
        "readers" => put_each(page, net, fan, state, &Asked::Readers),
        _ => {
            page.put("high");
            put_each(page, net, fan, state, &Asked::High);
            page.put("; enabled");
            put_each(page, net, fan, state, &Asked::Enabled);
            page.put("\n");
        }
    }
}

/// The same of the net, with its readers.
fn tell_with(alloc: Global, net: &Net, fan: &Fan, word: &str, page: &mut Page)
    requires { length fan.now ≡ length net.now.first }
{
    if let Some(state) = page.taken(first_state(alloc, net)) {
        put_net(page, net, fan, &state, word);
    }
}

/// What the word asks of the net: to show it, its readers, or what is high and enabled at first.
pub fn tell_net(alloc: Global, bench: &NetBench, word: &str, page: &mut Page) {
    let Some(net) = net_of(alloc, bench, page) else {
        return page.put("no net\n");
    };
    if let Some(fan) = page.taken(fan_of(alloc, &net)) {
        tell_with(alloc, &net, &fan, word, page);
    }
}
