//! A command, and what it left.

ghost use Rattle.std.specs.Prelude.{◌<◌, length, IfOk};

use crate::bench::Bench;
use crate::peers::{Mood, Moody};
use crate::pickers::{Adversary, Way};
use case_text::{Page, bytes_of, words_of};
use chp_cli::{Players, Status, chp_main};
use chp_edge::{MemSink, Shelf, SureShelf};
use event_sim::{Lowest, Newest, Oldest, Picker, Random};
use peer_bench::{Echo, Peer, Ramp};
use square_device::Square;
use std::alloc::{AllocError, Global};

/// What a command left.
#[derive(Drop)]
pub struct Ran {
    pub status: Status,
    pub out: MemSink,
    pub say: MemSink,
    /// What all orders have chosen, concatenated.
    picks: Vec<usize>,
}

impl Ran {
    /// Notes it where memory ran out in the command.
    pub fn note(&self, page: &mut Page) {
        if self.status == Status::NoMemory {
            page.give_up();
        }
    }

    /// Appends what all orders have chosen.
    fn note_picks(&mut self, orders: &[Box<dyn Picker>], page: &mut Page) {
        for order in orders {
            page.note(self.picks.extend_from_slice(order.log()));
        }
    }
}

/// What a command leaves that hasn't run yet, in sinks as the case wants them. Functions that own one drop it by one
/// call, since it is in a box.
pub fn unrun(alloc: Global, bench: &Bench, page: &mut Page) -> Option<Box<Ran>> {
    let out = bench.out.sink(alloc, page)?;
    let say = bench.say.sink(alloc, page)?;
    let ran = Ran {
        status: Status::Done,
        out,
        say,
        picks: Vec::new(alloc),
    };
    page.taken(Box::new(alloc, ran))
}

/// The text by which an order chooses: the last file, or some byte where it has none.
fn text_to_go_by(alloc: Global, bench: &Bench) -> Result<Vec<u8>, AllocError>
    ensures { IfOk result (λ text. 0 < length text.items) }
{
    let last = bench.files.last();
    if last.is_empty() {
        Vec::from_slice(alloc, b"-")
    } else {
        Vec::from_slice(alloc, last)
    }
}

/// An order that means ill.
fn adversary(alloc: Global, bench: &Bench, way: Way, page: &mut Page) -> Option<Box<Adversary>> {
    let text = page.taken(text_to_go_by(alloc, bench))?;
    page.taken(Box::new(alloc, Adversary::new(alloc, way, text)))
}

/// What the words of the line leave, run with these orders and devices.
fn play<S: Shelf>(
    alloc: Global,
    bench: &Bench,
    line: &str,
    shelf: &mut S,
    players: Players,
    page: &mut Page,
) -> Option<Box<Ran>> {
    let mut players = players;
    let mut ran = unrun(alloc, bench, page)?;
    let words = words_of(alloc, line, page);
    let left: &mut Ran = &mut ran;
    left.status = chp_main(
        alloc,
        &words,
        shelf,
        &mut left.out,
        &mut left.say,
        &mut players,
    );
    left.note(page);
    left.note_picks(&players.orders, page);
    Some(ran)
}

/// Runs the words of the line with these orders, and the devices that a case may name.
fn play_with<S: Shelf>(
    alloc: Global,
    bench: &Bench,
    line: &str,
    shelf: &mut S,
    orders: Vec<Box<dyn Picker>>,
    page: &mut Page,
) -> Option<Box<Ran>> {
    let mut peers: Vec<Box<dyn Peer>> = Vec::new(alloc);
    if let Some(ramp) = page.taken(Box::new(alloc, Ramp::new(alloc))) {
        page.note(peers.push(ramp));
    }
    if let Some(echo) = page.taken(Box::new(alloc, Echo::new(alloc))) {
        page.note(peers.push(echo));
    }
    if let Some(square) = page.taken(Box::new(alloc, Square::new(alloc))) {
        page.note(peers.push(square));
    }
    for mood in [Mood::Mute, Mood::Deaf, Mood::Greedy, Mood::Fickle] {
        if let Some(moody) = page.taken(Box::new(alloc, Moody::new(alloc, mood))) {
            page.note(peers.push(moody));
        }
    }
    play(alloc, bench, line, shelf, Players { orders, peers }, page)
}

/// What the words of the line leave over this shelf, run with the orders and devices that a case may name. None where
/// memory runs out.
fn over<S: Shelf>(
    alloc: Global,
    bench: &Bench,
    line: &str,
    shelf: &mut S,
    page: &mut Page,
) -> Option<Box<Ran>> {
    let mut orders: Vec<Box<dyn Picker>> = Vec::new(alloc);
    if let Some(lowest) = page.taken(Box::new(alloc, Lowest::new(alloc))) {
        page.note(orders.push(lowest));
    }
    if let Some(oldest) = page.taken(Box::new(alloc, Oldest::new(alloc))) {
        page.note(orders.push(oldest));
    }
    if let Some(newest) = page.taken(Box::new(alloc, Newest::new(alloc))) {
        page.note(orders.push(newest));
    }
    if let Some(random) = page.taken(Box::new(alloc, Random::new(alloc))) {
        page.note(orders.push(random));
    }
    for way in [Way::Swing, Way::Starve, Way::ByText] {
        if let Some(order) = adversary(alloc, bench, way, page) {
            page.note(orders.push(order));
        }
    }
    play_with(alloc, bench, line, shelf, orders, page)
}

/// What the command leaves over the files of the case.
fn over_files(alloc: Global, bench: &Bench, line: &str, page: &mut Page) -> Option<Box<Ran>> {
    let mut shelf = bench.shelf(alloc, page);
    over(alloc, bench, line, &mut shelf, page)
}

/// The words of a command.
fn put_command(page: &mut Page, line: &str) {
    page.put("> ");
    page.put(line);
    page.put("\n");
}

/// The status, and what was said.
fn put_end(page: &mut Page, ran: &Ran) {
    page.number(u64::from(ran.status.number()));
    if !ran.say.written().is_empty() {
        page.put(" ");
        page.bytes(ran.say.written());
    }
    page.put("\n");
}

fn put_all(page: &mut Page, line: &str, ran: &Ran) {
    put_command(page, line);
    put_end(page, ran);
    page.lines(ran.out.written());
}

/// Runs the words over the files of the case.
pub fn run(alloc: Global, bench: &Bench, line: &str, page: &mut Page) {
    if let Some(ran) = over_files(alloc, bench, line, page) {
        put_all(page, line, &ran);
    }
}

/// How many of the lines begin with the prefix.
fn count_of(lines: &[u8], begins: &[u8]) -> u64 {
    let lines = lines.split(|byte| *byte == b'\n');
    lines.filter(|line| line.starts_with(begins)).count() as u64
}

/// Runs the words, and reports how many of the written lines begin with the prefix.
pub fn run_count(alloc: Global, bench: &Bench, front: &str, line: &str, page: &mut Page) {
    put_command(page, line);
    let Some(ran) = over_files(alloc, bench, line, page) else {
        return;
    };
    put_end(page, &ran);
    let begins = bytes_of(alloc, front, page);
    page.put(front);
    page.put(": ");
    page.number(count_of(ran.out.written(), &begins));
    page.put("\n");
}

/// The written lines with a colon, which say what has passed on each channel.
fn put_passed(page: &mut Page, ran: &Ran) {
    for line in ran.out.written().split(|byte| *byte == b'\n') {
        if line.contains(&b':') {
            page.bytes(line);
            page.put("\n");
        }
    }
}

/// Runs the words, and prints of what is written the lines with a colon.
pub fn run_passed(alloc: Global, bench: &Bench, line: &str, page: &mut Page) {
    if let Some(ran) = over_files(alloc, bench, line, page) {
        put_passed(page, &ran);
    }
}

/// Runs the words over a shelf that has the last file under every name, and never fails.
pub fn run_surely(alloc: Global, bench: &Bench, line: &str, page: &mut Page) {
    let text = page.copied(alloc, bench.files.last());
    if let Some(ran) = over(alloc, bench, line, &mut SureShelf::new(text), page) {
        put_all(page, line, &ran);
    }
}

/// Runs the words, and what they write becomes a file after the others. Nothing is printed where all was written.
pub fn keep(alloc: Global, bench: &mut Bench, name: &str, line: &str, page: &mut Page) {
    let Some(ran) = over_files(alloc, bench, line, page) else {
        return;
    };
    if ran.status != Status::Done {
        put_all(page, line, &ran);
    }
    let text = page.copied(alloc, ran.out.written());
    bench.files.add(alloc, name, text, page);
}

/// Whether none of these chose as this one.
fn is_new(earlier: &[Box<Ran>], ran: &Ran) -> bool {
    for other in earlier {
        if other.picks == ran.picks {
            return false;
        }
    }
    true
}

/// Whether a further order has the report of the first one, and whether it chose as one before it did.
fn put_order(page: &mut Page, order: &str, ran: &Ran, first: &Ran, is_new: bool) {
    page.put(order);
    page.put(if first.out.written() == ran.out.written() {
        ": the same report"
    } else {
        ": another report"
    });
    page.put(if is_new {
        ", other picks\n"
    } else {
        ", the same picks\n"
    });
}

/// Runs the words by this order, with the seed 7. The report of the first order is printed whole.
fn run_order(
    alloc: Global,
    bench: &Bench,
    line: &str,
    order: &str,
    earlier: &mut Vec<Box<Ran>>,
    page: &mut Page,
) {
    let Some(words) = page.taken(format!(in alloc; "{line} --order {order} --seed 7")) else {
        return;
    };
    let Some(ran) = over_files(alloc, bench, &words, page) else {
        return;
    };
    match earlier.first() {
        None => put_all(page, &words, &ran),
        Some(first) => put_order(page, order, &ran, first, is_new(earlier, &ran)),
    }
    page.note(earlier.push(ran));
}

/// Runs the words by each of the four orders, with the seed 7: the report by the first one, and then of each further
/// one whether its report is the same, and whether it chose as one before it did.
pub fn run_orders(alloc: Global, bench: &Bench, line: &str, page: &mut Page) {
    let mut earlier = Vec::new(alloc);
    for order in ["lowest", "oldest", "newest", "random"] {
        run_order(alloc, bench, line, order, &mut earlier, page);
    }
}

/// Runs the words under the planned fault of this call, prints how they ended and what was written, on one line, and
/// says whether they ended well.
fn ends_well(alloc: Global, bench: &Bench, line: &str, call: u64, page: &mut Page) -> bool {
    let Some(ran) = over_files(alloc, bench, line, page) else {
        return true;
    };
    page.number(call);
    page.put(": ");
    page.number(u64::from(ran.status.number()));
    page.put(" ");
    page.bytes(ran.say.written());
    page.put(" ");
    page.bytes(ran.out.written());
    page.put("\n");
    ran.status == Status::Done
}

/// The most calls of a device that are made to fail in turn.
const MOST_OF_CALLS: u64 = 100;

/// Runs the words, and each call of the shelf fails in turn, up to the first run without a fault.
pub fn run_shelf_faults(alloc: Global, bench: &mut Bench, line: &str, page: &mut Page) {
    put_command(page, line);
    for call in 1..=MOST_OF_CALLS {
        bench.fail_at(alloc, call, page);
        if ends_well(alloc, bench, line, call, page) {
            break;
        }
    }
}

/// Runs the words, and each call of a sink that takes one byte a call fails in turn, up to the first run without a
/// fault.
pub fn run_sink_faults(alloc: Global, bench: &mut Bench, line: &str, page: &mut Page) {
    put_command(page, line);
    for call in 1..=MOST_OF_CALLS {
        if !bench.out.set(alloc, &[1, 4096, call], page)
            || ends_well(alloc, bench, line, call, page)
        {
            break;
        }
    }
}
