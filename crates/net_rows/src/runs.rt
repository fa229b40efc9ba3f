//! Runs of small nets, move by move, where the least node moves first.

ghost use Rattle.std.specs.Prelude.{◌≡◌, ◌<◌, ◌≤◌, length, IfOk, IfSome, IsTrue};
ghost use Rattle.env_script.specs.Environment.{net_channels};
ghost use Rattle.env_script.specs.Scripts.{IsScript};

use crate::bench::NetBench;
use crate::nets::net_of;
use crate::parts::put_node;
use case_text::Page;
use chp_base::Channel;
use env_script::{Script, ScriptError, read_script};
use plain_runs::Run;
use prs_core::Net;
use std::alloc::{AllocError, Global};

/// The most bytes of a script.
pub const MOST_OF_SCRIPT: usize = 2_097_152;

/// The channels of the net.
fn channels_of(alloc: Global, net: &Net) -> Result<Vec<Channel>, AllocError>
    ensures { IfOk result (λ v. v.items ≡ net_channels net.now) }
{
    let mut channels = Vec::new(alloc);
    for wires in net.channels() {
        channels.push(Channel {
            name: wires.channel.name.copy()?,
            kind: wires.channel.kind,
            width: wires.channel.width,
        })?;
    }
    Ok(channels)
}

/// The script that the text is, for the channels of the net.
pub fn script_of(alloc: Global, net: &Net, text: &[u8]) -> Result<Script, ScriptError>
    requires { length text.now ≤ 2097152 }
    ensures { IfOk result (λ script. IsScript (net_channels net.now) script) }
{
    let _net = net.first();
    let channels = channels_of(alloc, net)?;
    read_script(alloc, text, &channels)
}

/// A net, and a script of its channels.
#[derive(Drop)]
pub struct Given {
    pub net: Net,
    pub script: Script,
}

/// The net and the script of the case, or None where a text is refused, or memory runs out. Functions that own them
/// drop them by one call, since they are in a box.
pub fn read(alloc: Global, bench: &NetBench, page: &mut Page) -> Option<Box<Given>>
    ensures { IfSome result (λ r. IsScript (net_channels r.value.net) r.value.script) }
{
    let text = bench.script();
    if text.len() > MOST_OF_SCRIPT {
        return None;
    }
    let net = net_of(alloc, bench, page)?;
    match script_of(alloc, &net, text) {
        Ok(script) => {
            let net = Box::into_inner(net);
            page.taken(Box::new(alloc, Given { net, script }))
        }
        Err(ScriptError::Refused { .. }) => None,
        Err(ScriptError::NoMemory(_)) => {
            page.give_up();
            None
        }
    }
}

/// The run of the net under the script.
pub fn begun(alloc: Global, given: Box<Given>, page: &mut Page) -> Option<Box<Run>>
    requires { IsScript (net_channels given.value.net) given.value.script }
{
    let Given { net, script } = Box::into_inner(given);
    let run = page.taken(Run::new(alloc, net, script))?;
    page.taken(Box::new(alloc, run))
}

fn first_true(tests: &[bool]) -> Option<usize>
    ensures { IfSome result (λ place. place < length tests.now) }
{
    for (place, test) in tests.iter().enumerate() {
        if *test {
            return Some(place);
        }
    }
    None
}

/// The least node with an enabled move.
#[tactic(auto, using(crate::proofs::ScriptChannels::counted))]
fn least(alloc: Global, run: &Run, page: &mut Page) -> Option<u32>
    ensures { IfSome result (λ node. node < length run.now.net.first) }
{
    let Some(moves) = page.taken(run.enabled_nodes(alloc)) else {
        return None;
    };
    match u32::try_from(first_true(&moves)?) {
        Ok(node) => Some(node),
        Err(_) => None,
    }
}

/// Moves the least node with an enabled move, until there is none, a hazard comes or so many moves are made. It prints
/// which nodes moved, and the hazard, and says whether memory has sufficed.
fn put_moves(alloc: Global, run: &mut Run, most: u32, page: &mut Page) -> bool
    ensures { IsTrue result → run.new.net ≡ run.old.net }
{
    page.put("moved");
    for _move in 0..most {
        let Some(node) = least(alloc, run, page) else {
            break;
        };
        put_node(page, node);
        match run.make(alloc, node) {
            Ok(None) => {}
            Ok(Some(hazard)) => {
                page.put("; ");
                page.debug(&hazard);
                break;
            }
            Err(_) => {
                page.give_up();
                return false;
            }
        }
    }
    page.put("\n");
    true
}

fn put_history(page: &mut Page, chan: u32, values: &[u64]) {
    page.put("channel ");
    page.number(u64::from(chan));
    page.put(":");
    page.numbers(values);
    page.put("\n");
}

/// What has passed on each of so many channels.
fn put_passed(page: &mut Page, run: &Run, channels: usize)
    requires { channels ≤ length run.now.now.histories }
{
    let Ok(channels) = u32::try_from(channels) else {
        return page.put("too many channels\n");
    };
    for chan in 0..channels {
        put_history(page, chan, run.history(chan));
    }
}

/// Makes so many moves at most in a run of the net under the script: which nodes moved, the hazard at which the run
/// ended, if it did, whether `done` is high, and what has passed on each channel.
fn put_run(alloc: Global, given: Box<Given>, most: u32, page: &mut Page)
    requires { IsScript (net_channels given.value.net) given.value.script }
{
    let Given { net, script } = Box::into_inner(given);
    let channels = net.channels().len();
    let Some(mut run) = page.taken(Run::new(alloc, net, script)) else {
        return;
    };
    if put_moves(alloc, &mut run, most, page) {
        page.put(if run.is_high(1) {
            "done high\n"
        } else {
            "done low\n"
        });
        put_passed(page, &run, channels);
    }
}

/// The run of so many moves at most, which the line gives, where it gives a number.
pub fn moved(alloc: Global, bench: &NetBench, line: &str, page: &mut Page) -> bool {
    let Ok(most) = line.parse::<u32>() else {
        return false;
    };
    match read(alloc, bench, page) {
        Some(given) => put_run(alloc, given, most, page),
        None => page.put("no run\n"),
    }
    true
}
