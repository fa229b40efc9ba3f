//! The program: the top call over the files and the standard streams of the system.
#![tactic(auto)]

ghost use Rattle.std.specs.Prelude.{◌≡◌, ◌∷◌, [], codes, map};

use chp_cli::{Players, Status, chp_main};
use chp_edge::{ErrSink, FileShelf, OutSink, Shelf, Sink, write_all};
use event_sim::{Lowest, Newest, Oldest, Picker, Random};
use peer_bench::{Echo, Peer, Ramp};
use std::alloc::{AllocError, Global};
use std::env;
use std::io::{BufWriter, ErrorKind, Write};
use std::process::ExitCode;
use std::rt::{Env, Files};

/// The words after the program's name. No words where one of them isn't UTF-8, since a call without words is refused.
fn words<R: Env + AllocGlobal>(rt: &R) -> Result<Vec<String>, AllocError> {
    let mut words = match env::args(rt) {
        Ok(args) => args,
        Err(e) if e.kind() == ErrorKind::OutOfMemory => return Err(AllocError),
        Err(_) => return Ok(Vec::new(rt.alloc())),
    };
    let _program = words.next();
    words.collect(rt.alloc())
}

/// The top call with what every call is handed in: the four orders and the two devices, in this order.
fn call_with<S: Shelf, K: Sink, W: Sink>(
    alloc: Global,
    words: &[String],
    shelf: &mut S,
    out: &mut K,
    say: &mut W,
    players: Players,
) -> Status
    requires orders { map (λ order. (⟦<dyn Picker as Picker>⟧ order.vtable).name order.value) players.orders.items ≡
        codes "lowest" ∷ codes "oldest" ∷ codes "newest" ∷ codes "random" ∷ [] }
    requires peers { map (λ peer. (⟦<dyn Peer as Peer>⟧ peer.vtable).name peer.value) players.peers.items ≡
        codes "ramp" ∷ codes "echo" ∷ [] }
{
    let mut players = players;
    chp_main(alloc, words, shelf, out, say, &mut players)
}

/// Runs the words over real files and these sinks, with the four orders and the two devices.
fn run_words<R: AllocGlobal + Files, K: Sink, W: Sink>(
    rt: &R,
    words: &[String],
    out: &mut K,
    say: &mut W,
) -> Result<Status, AllocError> {
    let alloc = rt.alloc();
    let mut orders: Vec<Box<dyn Picker>> = Vec::new(alloc);
    orders.push(Box::new(alloc, Lowest::new(alloc))?)?;
    orders.push(Box::new(alloc, Oldest::new(alloc))?)?;
    orders.push(Box::new(alloc, Newest::new(alloc))?)?;
    orders.push(Box::new(alloc, Random::new(alloc))?)?;
    let mut peers: Vec<Box<dyn Peer>> = Vec::new(alloc);
    peers.push(Box::new(alloc, Ramp::new(alloc))?)?;
    peers.push(Box::new(alloc, Echo::new(alloc))?)?;
    let players = Players { orders, peers };
    let mut shelf = FileShelf::new(rt);
    Ok(call_with(alloc, words, &mut shelf, out, say, players))
}

/// Runs the words, or says out of memory where there is none for the arguments of a call.
fn run<R: Env + AllocGlobal + Files, O: Write + Drop, E: Write + Drop>(
    rt: &R,
    out: O,
    say: E,
) -> Status {
    let mut out = OutSink::new(out);
    let mut say = ErrSink::new(say);
    let ended = match words(rt) {
        Ok(words) => run_words(rt, &words, &mut out, &mut say),
        Err(AllocError) => Err(AllocError),
    };
    match ended {
        Ok(status) => status,
        Err(AllocError) => {
            let _ = write_all(&mut say, b"chp: 6 no memory\n");
            Status::NoMemory
        }
    }
}

/// The line on standard error is written at once, so that programs which share it don't mix their lines. Only a line
/// of more than 8,192 bytes, or without memory for the buffer, goes out in pieces.
fn main(rt: HostRuntime) -> ExitCode {
    let status = match BufWriter::new(rt.alloc(), rt.stderr()) {
        Ok(say) => run(&rt, rt.stdout(), say),
        Err(_) => run(&rt, rt.stdout(), rt.stderr()),
    };
    ExitCode::from(status.number())
}
