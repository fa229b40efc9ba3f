//! How often the devices of a bench are dropped.

use crate::bench::Bench;
use crate::peers::Dropped;
use crate::run::{Ran, unrun};
use case_text::{Page, words_of};
use chp_cli::{Players, chp_main};
use event_sim::{Lowest, Picker};
use peer_bench::{Bench as PeerBench, Peer};
use prs_file::{NetReadError, read_net};
use std::alloc::Global;
use std::cell::Cell;
use std::rc::Rc;

/// The most bytes of a rule file.
const MOST_OF_NET: usize = 268_435_456;

/// Drops a bench of these devices and the text's net without a run. Whether the text is a rule file.
fn give_up(alloc: Global, text: &[u8], peers: Vec<Box<dyn Peer>>, page: &mut Page) -> bool {
    // a bench has a device at least
    if peers.is_empty() || text.len() > MOST_OF_NET {
        return false;
    }
    match read_net(alloc, text) {
        Ok(net) => {
            if PeerBench::new(alloc, net, peers, 0, 0).is_err() {
                page.give_up();
            }
            true
        }
        Err(error) => {
            if matches!(error, NetReadError::NoMemory(_)) {
                page.give_up();
            }
            false
        }
    }
}

/// Runs the words with these orders and devices, and tells the status, and how often a device was dropped when the call
/// gave them back.
fn put_played(
    alloc: Global,
    bench: &Bench,
    line: &str,
    players: Players,
    drops: &Cell<u32>,
    page: &mut Page,
) {
    let mut players = players;
    let Some(mut ran) = unrun(alloc, bench, page) else {
        return;
    };
    let mut shelf = bench.shelf(alloc, page);
    let words = words_of(alloc, line, page);
    let left: &mut Ran = &mut ran;
    drops.set(0);
    left.status = chp_main(
        alloc,
        &words,
        &mut shelf,
        &mut left.out,
        &mut left.say,
        &mut players,
    );
    left.note(page);
    page.put("status ");
    page.number(u64::from(left.status.number()));
    page.put(", given back: ");
    page.number(u64::from(drops.get()));
    page.put("\n");
}

/// A device that counts its drops here.
fn dropped(alloc: Global, drops: &Rc<Cell<u32>>, page: &mut Page) -> Option<Box<Dropped>> {
    let drops = page.taken(drops.clone())?;
    page.taken(Box::new(alloc, Dropped::new(alloc, drops)))
}

/// How often a device is dropped by a call that runs it and gives it back.
fn put_given_back(
    alloc: Global,
    bench: &Bench,
    line: &str,
    drops: &Rc<Cell<u32>>,
    page: &mut Page,
) {
    let mut orders: Vec<Box<dyn Picker>> = Vec::new(alloc);
    if let Some(order) = page.taken(Box::new(alloc, Lowest::new(alloc))) {
        page.note(orders.push(order));
    }
    let mut peers: Vec<Box<dyn Peer>> = Vec::new(alloc);
    if let Some(peer) = dropped(alloc, drops, page) {
        page.note(peers.push(peer));
    }
    put_played(alloc, bench, line, Players { orders, peers }, drops, page);
}

/// How often a device is dropped with a bench that is given up.
fn put_given_up(alloc: Global, text: &[u8], drops: &Rc<Cell<u32>>, page: &mut Page) {
    let mut peers: Vec<Box<dyn Peer>> = Vec::new(alloc);
    if let Some(peer) = dropped(alloc, drops, page) {
        page.note(peers.push(peer));
    }
    if !give_up(alloc, text, peers, page) {
        return page.put("? no rule file\n");
    }
    page.put("given up: ");
    page.number(u64::from(drops.get()));
    page.put("\n");
}

/// How often a device is dropped with a bench that is given up, and how often by a call that runs it and gives it back.
pub fn count_drops(alloc: Global, bench: &Bench, line: &str, page: &mut Page) {
    if let Some(drops) = page.taken(Rc::new(alloc, Cell::new(0))) {
        put_given_up(alloc, bench.files.last(), &drops, page);
        put_given_back(alloc, bench, line, &drops, page);
    }
}
