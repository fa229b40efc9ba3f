//! One line after another.

ghost use Rattle.std.specs.Prelude.{◌≡◌, ◌+◌, ◌*◌, ◌<◌, ◌≤◌, length, IfOk, OnErr, vec_len, vec_capacity};
ghost use Rattle.prs_core.specs.Nets.{up_of, down_of, guard_literals};
ghost use Rattle.prs_file.specs.Spelling.{version_of};
ghost use Rattle.net_stream.specs.Places.{IsMadeAt, IsPlaceOf, places_left};
ghost use Rattle.net_stream.specs.Rooms.{HasRoomForLines};
ghost use Rattle.net_stream.specs.declared.place.Place.TheVariants.{Head, Node, Channel, Up, Down};

use crate::guard::rule_line;
use crate::place::Place;
use net_compose::Circuit;
use prs_file::{channel_line, head_line, node_line};
use std::alloc::AllocError;

fn version(net: &Circuit) -> u8
    ensures value { result ≡ version_of net.now.reset }
    ensures some { 1 ≤ result }
    ensures most { result ≤ 2 }
{
    match net.reset() {
        None => 1,
        Some(_) => 2,
    }
}

/// Appends the first line, and returns the next position.
fn head_at(net: &Circuit, to: &mut Vec<u8>) -> Result<Place, AllocError>
    ensures made { IfOk result (λ next. IsMadeAt net.now Head next to.old.items to.new.items) }
    ensures room { OnErr result (vec_capacity to.old < vec_len to.old + 64) }
    ensures capacity { vec_capacity to.old ≤ vec_capacity to.new }
{
    head_line(version(net), to)?;
    Ok(Place::Node(0))
}

/// Appends the line of a node, where there is one more.
fn node_at(net: &Circuit, node: u32, to: &mut Vec<u8>) -> Result<Place, AllocError>
    requires { node ≤ length net.now.first }
    ensures made { IfOk result (λ next. IsMadeAt net.now (Node node) next to.old.items to.new.items) }
    ensures room { OnErr result (vec_capacity to.old < vec_len to.old + 64) }
    ensures capacity { vec_capacity to.old ≤ vec_capacity to.new }
{
    let first = net.first();
    if node as usize == first.len() {
        return Ok(Place::Channel(0));
    }
    node_line(net.name(node), first[node as usize], to)?;
    Ok(Place::Node(node + 1))
}

/// Appends the line of a channel, where there is one more.
fn channel_at(net: &Circuit, number: usize, to: &mut Vec<u8>) -> Result<Place, AllocError>
    requires { number ≤ length net.now.channels }
    ensures made { IfOk result (λ next. IsMadeAt net.now (Channel number) next to.old.items to.new.items) }
    ensures room { OnErr result (vec_capacity to.old < vec_len to.old + 64) }
    ensures capacity { vec_capacity to.old ≤ vec_capacity to.new }
{
    let channels = net.channels();
    if number == channels.len() {
        return Ok(Place::Up(0));
    }
    let wires = &channels[number];
    channel_line(&wires.channel, to)?;
    Ok(Place::Channel(number + 1))
}

/// Appends the line of a node's up rule, where it has one.
fn up_at(net: &Circuit, node: u32, to: &mut Vec<u8>) -> Result<Place, AllocError>
    requires { node < length net.now.first }
    ensures made { IfOk result (λ next. IsMadeAt net.now (Up node) next to.old.items to.new.items) }
    ensures room { OnErr result
        (vec_capacity to.old < vec_len to.old + 64 * (guard_literals (up_of net.now node) + 1)) }
    ensures capacity { vec_capacity to.old ≤ vec_capacity to.new }
{
    let _net = net.first();
    rule_line(net, node, true, to)?;
    Ok(Place::Down(node))
}

/// Appends the line of a node's down rule, where it has one.
fn down_at(net: &Circuit, node: u32, to: &mut Vec<u8>) -> Result<Place, AllocError>
    requires { node < length net.now.first }
    ensures made { IfOk result (λ next. IsMadeAt net.now (Down node) next to.old.items to.new.items) }
    ensures room { OnErr result
        (vec_capacity to.old < vec_len to.old + 64 * (guard_literals (down_of net.now node) + 1)) }
    ensures capacity { vec_capacity to.old ≤ vec_capacity to.new }
{
    let _net = net.first();
    rule_line(net, node, false, to)?;
    Ok(Place::Up(node + 1))
}

/// Appends the line at the position, if it has one, to an empty buffer.
fn line_at(net: &Circuit, place: Place, to: &mut Vec<u8>) -> Result<Place, AllocError>
    requires place { IsPlaceOf net.now place }
    requires goes_on { 0 < places_left net.now place }
    requires empty { vec_len to.old ≡ 0 }
    ensures made { IfOk result (λ next. IsMadeAt net.now place next to.old.items to.new.items) }
    ensures room { OnErr result (¬ HasRoomForLines net.now (vec_capacity to.old)) }
    ensures capacity { vec_capacity to.old ≤ vec_capacity to.new }
{
    let _net = net.first();
    match place {
        Place::Head => head_at(net, to),
        Place::Node(node) => node_at(net, node, to),
        Place::Channel(number) => channel_at(net, number, to),
        Place::Up(node) => up_at(net, node, to),
        Place::Down(node) => down_at(net, node, to),
    }
}

/// Writes the line at the position, if it has one, into an empty buffer with room for each line of the file, and
/// returns the next position.
pub(crate) fn make_line(net: &Circuit, place: Place, to: &mut Vec<u8>) -> Place
    requires place { IsPlaceOf net.now place }
    requires goes_on { 0 < places_left net.now place }
    requires empty { vec_len to.old ≡ 0 }
    requires room { HasRoomForLines net.now (vec_capacity to.old) }
    ensures made { IsMadeAt net.now place result to.old.items to.new.items }
    ensures capacity { vec_capacity to.old ≤ vec_capacity to.new }
{
    match line_at(net, place, to) {
        Ok(next) => next,
        Err(AllocError) => unreachable!(),
    }
}
