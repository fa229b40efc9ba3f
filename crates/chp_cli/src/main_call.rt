//! The top call.

ghost use Rattle.std.specs.Prelude.{◌≡◌, ℕ, List, Some, true, IfOk, IfErr};
ghost use Rattle.command_answers.specs.Replies.{Stops, end_line, end_status, stop_status};
ghost use Rattle.command_answers.specs.Statuses.{has_output};
ghost use Rattle.command_words.specs.CommandWords.{Asked, IsWithinBounds, asked, asked_by, compiles};
ghost use Rattle.command_words.specs.CompileWords.{AskedCompilation};
ghost use Rattle.program_commands.specs.Compiling.{IsFaithfulFile};
ghost use Rattle.program_commands.specs.RepliesTold.{reply_bytes, told_reply};
ghost use Rattle.simulation_commands.specs.Simulating.{StaysUnasked};
ghost use Rattle.chp_cli.specs.Commands.{IsAnswer, files_of};
ghost use Rattle.chp_cli.specs.Ends.{Ends};
ghost use Rattle.chp_cli.specs.Handed.{
  IsAppended,
  KeepsShelf,
  KeepsSink,
  StaysBut,
  faults_put,
  faults_read,
  given_of,
  handed_of,
  objects,
  shelf_use,
  sink_use,
};
ghost use Rattle.chp_cli.specs.Promises.{Promises};
ghost use Rattle.chp_cli.specs.Shown.{ShowsEnabled};

use crate::laws::{
    benched_right, benched_runs_are_safe, benched_runs_follow, carried_runs_agree,
    carried_runs_are_safe, carried_runs_have_one_length, compiled_files_are_simulated,
    compiled_files_carry, compiled_runs_follow, compiled_runs_rest, one_answer, serves_all,
    simulated_right, timed_right, timed_runs_agree, timed_runs_are_safe, traced_right,
    traced_runs_are_safe,
};
use crate::players::Players;
use bench_commands::bench::bench;
use chp_edge::{Failed, Shelf, Sink};
use command_answers::{End, Status, Stop, tell};
use command_words::{Command, command_in};
use event_sim::Picker;
use grown_commands::grow::grow;
use peer_bench::Peer;
use program_commands::Reply;
use program_commands::check::check;
use program_commands::compile::compile;
use program_commands::expand::expand;
use program_commands::migrate::migrate;
use round_commands::rounds::rounds;
use simulation_commands::simulate::simulate;
use simulation_commands::time;
use simulation_commands::unwave::unwave;
use simulation_commands::waves::waves;
use std::alloc::{AllocError, Global};

/// What the command answers.
fn answer<'a, S: Shelf>(
    alloc: Global,
    shelf: &mut S,
    players: &mut Players,
    command: &Command<'a>,
) -> Result<Reply, Stop<'a>>
    requires { IsWithinBounds command.now }
    ensures answered { IfOk result (λ reply. IsAnswer (asked command.now) (given_of (shelf_use S.Shelf shelf.old
        shelf.new)) (handed_of (objects Picker-box Peer-box players.old players.new)) (told_reply reply)) }
    ensures carried { IfOk result (λ reply. (c : AskedCompilation) → asked command.now ≡ compiles c →
        IsFaithfulFile c (given_of (shelf_use S.Shelf shelf.old shelf.new)) (reply_bytes reply)) }
    ensures shown { IfOk result (λ reply. ShowsEnabled (asked command.now) (given_of (shelf_use S.Shelf shelf.old
        shelf.new)) (objects Picker-box Peer-box players.old players.new)) }
    ensures stopped { IfErr result (Stops (IsAnswer (asked command.now) (given_of (shelf_use S.Shelf shelf.old
        shelf.new)) (handed_of (objects Picker-box Peer-box players.old players.new))) (files_of (asked command.now))
        (given_of (shelf_use S.Shelf shelf.old shelf.new)) (S.faults shelf.old) (S.faults shelf.new)) }
    ensures stay { StaysBut (Some (asked command.now)) (objects Picker-box Peer-box players.old players.new) }
    ensures unasked { IfErr result (λ stop. StaysUnasked (stop_status stop) players.old players.new) }
    ensures shelf { KeepsShelf (shelf_use S.Shelf shelf.old shelf.new) }
{
    match command {
        Command::Compile(asked) => compile(alloc, shelf, asked),
        Command::Migrate { net } => Ok(Reply::Held(migrate(alloc, shelf, net)?)),
        Command::Check { file } => Ok(Reply::Held(check(alloc, shelf, file)?)),
        Command::Expand { file } => Ok(Reply::Held(expand(alloc, shelf, file)?)),
        Command::Simulate(run) => Ok(Reply::Held(simulate(
            alloc,
            shelf,
            &mut players.orders,
            run,
        )?)),
        Command::Time(timing) => Ok(Reply::Held(time(alloc, shelf, timing)?)),
        Command::Bench(asked) => Ok(Reply::Held(bench(
            alloc,
            shelf,
            &mut players.orders,
            &mut players.peers,
            asked,
        )?)),
        Command::Waves(asked) => Ok(Reply::Held(waves(alloc, shelf, asked)?)),
        Command::Unwave { file } => Ok(Reply::Held(unwave(alloc, shelf, file)?)),
        Command::Run(asked) => Ok(Reply::Held(rounds(alloc, shelf, asked)?)),
        Command::Grow(growth) => Ok(Reply::Held(grow(alloc, &mut players.orders, growth)?)),
    }
}

/// Finds the command that the words ask for and its answer, and writes what it is to write.
fn run<'a, S: Shelf, K: Sink>(
    alloc: Global,
    words: &'a [String],
    shelf: &mut S,
    out: &mut K,
    players: &mut Players,
) -> End<'a>
    ensures ended { (appended : List ℕ) × Ends (record {
      asked = asked_by words.now;
      given = given_of (shelf_use S.Shelf shelf.old shelf.new);
      handed = handed_of (objects Picker-box Peer-box players.old players.new);
      read = faults_read (shelf_use S.Shelf shelf.old shelf.new);
      put = faults_put (sink_use K.Sink out.old out.new);
    }) (end_status result) appended (end_line result) × IsAppended (sink_use K.Sink out.old out.new) appended }
    ensures carried { (c : AskedCompilation) → asked_by words.now ≡ Some (compiles c) →
        end_status result ≡ Status.Done → (file : List ℕ) × IsAppended (sink_use K.Sink out.old out.new) file
        × IsFaithfulFile c (given_of (shelf_use S.Shelf shelf.old shelf.new)) file }
    ensures shown { (command : Asked) → asked_by words.now ≡ Some command → has_output (end_status result) ≡ true →
        ShowsEnabled command (given_of (shelf_use S.Shelf shelf.old shelf.new))
        (objects Picker-box Peer-box players.old players.new) }
    ensures stay { StaysBut (asked_by words.now) (objects Picker-box Peer-box players.old players.new) }
    ensures unasked { StaysUnasked (end_status result) players.old players.new }
    ensures shelf { KeepsShelf (shelf_use S.Shelf shelf.old shelf.new) }
    ensures out { KeepsSink (sink_use K.Sink out.old out.new) }
{
    let command = match command_in(alloc, words) {
        Ok(Some(command)) => command,
        Ok(None) => return End::Usage,
        Err(AllocError) => return End::Stopped(Stop::NoMemory),
    };
    let mut reply = match answer(alloc, shelf, players, &command) {
        Ok(reply) => reply,
        Err(stop) => return End::Stopped(stop),
    };
    let end = reply.end();
    match reply.write(out) {
        Ok(()) => End::Whole(end),
        Err(Failed) => End::CutOff,
    }
}

/// Runs the command that the words ask for: reads its files from the shelf, writes its output, and says one line where
/// it doesn't end well, with names as the words have them. The output is written whole, or where it fails less than the
/// whole, a prefix of it; and of the line a prefix is said, all of it where no fault comes. What a sink took is said
/// where its bytes are observable. (Each field of `Promises` is one of these promises.)
///
/// What is answered, written and said is the command's answer to its files, of which there is at most one where the
/// shelf is observable, for the same orders and devices before and after. Three things may come between: the shelf
/// fails, which is told of a file of the command (`Read`), the output fails before its end (`Write`), or it is out of
/// memory (`NoMemory`), which may come at any point and has a status of its own, for which no cause is asked. Where the
/// files hold what the command is served with, and the order and the device that it asks for are there, the answer is
/// to write. All that is said of files here and below is so where the shelf is observable, but for what comes next.
///
/// The rule file that `compile` writes, with status 0, is the one text of a net that carries the program of a text
/// within the limit, with `--buffer` the program with the buffer, and keeps pace with it; the program with the buffer
/// keeps what passes without. This text is the file's where the shelf is observable; and that it is this rule file
/// which was written is said where the output is. What `run` answers with `--buffer` is so of such a program too.
///
/// A run of a rule file that `compile` wrote, by an order, by delays or written as a wave, finds no hazard under any
/// script, and compared with its own program it agrees. Compared with that or with none it ends well, but for a fault
/// of the shelf or of the output or where memory runs out, if the other files that it wants hold a script of the
/// program's channels and delays of the net's nodes within their limits, if its order is there, and the net has a reset
/// node where a power is asked for: such a rule file is never too long. So does one on a bench, if its order and its
/// device are there. What follows is so where the report was written whole. On each channel the run passes a prefix of
/// what as many rounds of the program as it has moves pass under the script, and where it reports rest all that the
/// program passes. Where it reports rest, no order makes more moves. Where its program comes to rest under the script,
/// so does the run, if the limit is high enough. With delays of at most some time it does so no later than the most
/// moves at that time each. And where it rests, or its last move comes later than as many of these times as are enough
/// for n rounds of the program, it has passed what these rounds pass. Enough for a round are as many as `longest`,
/// which no way of moves through the circuit from the steps of one round to those of the next exceeds, or, where an
/// assignment reads its own target, twice as many as `longest` of the program in halves; where calls share bodies twice
/// as many, by the program in which each call has a copy; and with a reset node two more in all.
///
/// A run of a rule file that `compile` wrote on a bench finds no hazard against whatever device. Where its report was
/// written whole, what has passed is a prefix of what its program passes under the script of the device's notes, of all
/// that it offered and as many acceptances as it was ready for, and all of it where the report says rest; then no order
/// makes more moves under that script. Where its program comes to rest under that script, so does the run, if the limit
/// is high enough.
///
/// Where `simulate`, `bench` or `grow --sum` writes its report, all of it or a part, the order that it asks for got its
/// seed, and was then asked before each move of the run with the list of all moves that are enabled; its picks are the
/// new entries of its log.
///
/// All handed-in orders and devices are still there, each in its place: each is of the kind that it was, with its name,
/// and its log has at most grown. Only the one order and the one device that the command asks for are used, if it asks
/// for such, and none where it refuses: the others are as they were.
pub fn chp_main<S: Shelf, K: Sink, W: Sink>(
    alloc: Global,
    words: &[String],
    shelf: &mut S,
    out: &mut K,
    say: &mut W,
    players: &mut Players,
) -> Status
    ensures promised { Promises (record {
      asked = asked_by words.now;
      shelf = shelf_use S.Shelf shelf.old shelf.new;
      out = sink_use K.Sink out.old out.new;
      say = sink_use W.Sink say.old say.new;
      objects = objects Picker-box Peer-box players.old players.new;
      status = result;
    }) }
{
    one_answer();
    serves_all();
    simulated_right();
    compiled_files_carry();
    compiled_files_are_simulated();
    carried_runs_are_safe();
    carried_runs_agree();
    timed_right();
    timed_runs_are_safe();
    timed_runs_agree();
    carried_runs_have_one_length();
    traced_right();
    traced_runs_are_safe();
    compiled_runs_rest();
    compiled_runs_follow();
    benched_right();
    benched_runs_are_safe();
    benched_runs_follow();
    let end = run(alloc, words, shelf, out, players);
    tell(say, &end);
    end.status()
}
