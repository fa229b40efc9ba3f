//! Timed runs, with the cause of each move.

ghost use Rattle.std.specs.Prelude.{◌≡◌, ℕ, ◌+◌, ◌≤◌, ◌<◌, ◌^◌, ◌++◌, List, [], ◌∷◌, length, replicate, true, false, vec_len, vec_capacity, option_to_list, IsSome, Some, None, IfOk, IfErr};
ghost use Rattle.prs_core.specs.Nets.{IsNet};
ghost use Rattle.prs_core.specs.Moves.{high};
ghost use Rattle.env_script.specs.Scripts.{IsScript};
ghost use Rattle.env_script.specs.Environment.{net_channels};
ghost use Rattle.env_script.specs.Runs.{IsRun, move_enabled, after, moved};
ghost use Rattle.env_script.specs.Hazards.{hazard_of};
ghost use Rattle.event_sim.specs.Passing.{completion, passed_in};
ghost use Rattle.event_sim.specs.Ends.{end_from, end_with, EndsSo};
ghost use Rattle.event_sim.specs.Simulating.{IsEndIn};
ghost use Rattle.event_sim.specs.Following.{power_of};
ghost use Rattle.event_sim.specs.Stages.{now_of, moves_now, stage_with, AreConcerned};
ghost use Rattle.delay_script.specs.DelayTables.{IsDelayTable};
ghost use Rattle.delay_script.specs.Dues.{AreFilled, list_of_next};
ghost use Rattle.delay_script.specs.TimedRuns.{time_behind};

use crate::delays::Delays;
use crate::due::{Due, Next, fill, refill};
use crate::queue::Queue;
use env_script::{Hazard, Script};
use event_sim::{End, Ran, Stage, end_from, power_state};
use prs_core::{Net, State};
use std::alloc::{AllocError, Global};
use std::marker::Model;

/// A timed run that has ended.
#[derive(Drop)]
pub struct TimedRan {
    pub ran: Ran,
    /// The time of the last move, 0 where none was made.
    pub time: u64,
}

/// A move of a timed run: when it came, its node, and the number of the move, counted from 1, after which the node's
/// move became enabled and stayed so, 0 where that is the start. Its time is that of its cause, or 0, plus its delay.
#[derive(Clone, Copy)]
pub struct NotedMove {
    pub time: u64,
    pub node: u32,
    pub cause: u32,
}

/// A timed run that has ended, with its moves.
#[derive(Drop)]
pub struct NotedRan {
    pub timed: TimedRan,
    pub moves: Vec<NotedMove>,
}

/// How far a timed run has come.
#[derive(Drop)]
struct Course {
    stage: Stage,
    delays: Delays,
    queue: Queue,
    moves: Vec<NotedMove>,
}

/// What follows where fewer moves were made than are allowed: the next move, or the end.
fn onward(hazard: Option<Hazard>, next: Option<Next>) -> Result<Next, End>
    ensures end { IfErr result (λ end. end_with hazard (list_of_next next) false ≡ Some end) }
    ensures calm { IfOk result (λ m. hazard ≡ None) }
    ensures next { IfOk result (λ m. next ≡ Some m) }
{
    match (hazard, next) {
        (Some(hazard), _) => Err(end_from(hazard)),
        (None, None) => Err(End::AtRest),
        (None, Some(next)) => Ok(next),
    }
}

/// How the run has ended where as many moves were made as are allowed.
fn last_end(hazard: Option<Hazard>, next: Option<Next>) -> End
    ensures { end_with hazard (list_of_next next) true ≡ Some result }
{
    match (hazard, next) {
        (Some(hazard), _) => end_from(hazard),
        (None, None) => End::AtRest,
        (None, Some(_)) => End::Spent,
    }
}

/// What a run on the net begins with: the values at power-up, and room for its moves and for those that are due.
fn room_for(
    alloc: Global,
    net: &Net,
    steps: u32,
    high: bool,
) -> Result<(State, Vec<NotedMove>, Queue), AllocError>
    ensures state { IfOk result (λ r. r.0 ≡ power_of net.now high) }
    ensures count { IfOk result (λ r. length r.0 ≡ length net.now.first) }
    ensures moves { IfOk result (λ r. r.1.items ≡ []) }
    ensures slots { IfOk result (λ r. steps ≤ vec_capacity r.1) }
    ensures queue { IfOk result (λ r. r.2 ≡ replicate (length net.now.first) None) }
{
    let state = power_state(alloc, net, high)?;
    let moves = Vec::with_capacity(alloc, steps as usize)?;
    let queue = Queue::new(alloc, net.first().len())?;
    Ok((state, moves, queue))
}

impl Course {
    /// The course of a run that has made no move, which takes the room that was made for it.
    fn begin(stage: Stage, delays: Delays, moves: Vec<NotedMove>, queue: Queue) -> Course
        requires delays { IsDelayTable (length stage.net.first) delays }
        requires queue { length queue ≡ length stage.net.first }
        ensures stage { result.stage ≡ stage }
        ensures delays { result.delays ≡ delays }
        ensures queue { AreFilled stage delays (record { cause = 0; time = 0 }) (moves_now stage) queue result.queue }
        ensures moves { result.moves.items ≡ moves.items }
        ensures slots { vec_capacity result.moves ≡ vec_capacity moves }
    {
        let mut queue = queue;
        let start = Due { cause: 0, time: 0 };
        fill(&stage, &delays, &mut queue, stage.moves(), start);
        Course {
            stage,
            delays,
            queue,
            moves,
        }
    }

    /// Makes the move, which was removed from the queue, and returns the hazard that this brings.
    fn make(&mut self, next: Next) -> Option<Hazard>
        requires node { next.node < length self.old.stage.net.first }
        requires enabled { move_enabled self.old.stage.net self.old.stage.script (now_of self.old.stage) next.node ≡
            true }
        requires queue { length self.old.queue ≡ length self.old.stage.net.first }
        requires delays { IsDelayTable (length self.old.stage.net.first) self.old.delays }
        requires time { next.due.time < 2 ^ 62 }
        requires few { vec_len self.old.moves < 2 ^ 31 }
        requires slot { vec_len self.old.moves < vec_capacity self.old.moves }
        requires room { 1 ≤ self.old.stage.room }
        ensures net { self.new.stage.net ≡ self.old.stage.net }
        ensures script { self.new.stage.script ≡ self.old.stage.script }
        ensures delays { self.new.delays ≡ self.old.delays }
        ensures moved { now_of self.new.stage ≡ moved self.old.stage.net (now_of self.old.stage) next.node }
        ensures passed { self.new.stage.passed ≡ self.old.stage.passed
            ++ option_to_list (completion self.old.stage.net (high self.old.stage.values) next.node) }
        ensures room { self.old.stage.room ≤ self.new.stage.room + 1 }
        ensures moves { self.new.moves.items ≡ self.old.moves.items
            ++ record { time = next.due.time; node = next.node; cause = next.due.cause } ∷ [] }
        ensures slots { vec_capacity self.new.moves ≡ vec_capacity self.old.moves }
        ensures queue { (nodes : List ℕ) × AreConcerned self.new.stage next.node nodes × AreFilled self.new.stage
            self.old.delays (record { cause = vec_len self.old.moves + 1; time = next.due.time }) nodes self.old.queue
            self.new.queue }
        ensures hazard { result ≡ hazard_of self.old.stage.net self.old.stage.script (now_of self.old.stage)
            next.node }
    {
        let Next { node, due } = next;
        let hazard = self.stage.make(node);
        self.moves.push_reserved(NotedMove {
            time: due.time,
            node,
            cause: due.cause,
        });
        let made = Due {
            cause: self.moves.len() as u32,
            time: due.time,
        };
        refill(&self.stage, &self.delays, &mut self.queue, node, made);
        hazard
    }

    /// The time of the last move, 0 where none was made.
    fn time(&self) -> u64
        ensures { result ≡ time_behind self.now.moves.items (vec_len self.now.moves) }
    {
        match self.moves.last() {
            None => 0,
            Some(last) => last.time,
        }
    }

    /// The run, which has ended so.
    fn ran(self, end: End) -> NotedRan
        requires end { IsEndIn self.stage.net end }
        requires few { vec_len self.moves < 2 ^ 32 }
        ensures ran { result.timed.ran ≡ record {
          net = self.stage.net;
          end = end;
          moves = vec_len self.moves;
          done_high = high self.stage.values 1;
          passed = self.stage.passed;
        } }
        ensures time { result.timed.time ≡ time_behind self.moves.items (vec_len self.moves) }
        ensures moves { result.moves.items ≡ self.moves.items }
    {
        let time = self.time();
        let ran = self.stage.ran(end, self.moves.len() as u32);
        let timed = TimedRan { ran, time };
        NotedRan {
            timed,
            moves: self.moves,
        }
    }
}

/// A timed run that hasn't begun, whose moves are recorded with their times and causes. All memory of the run is
/// allocated.
#[derive(Drop)]
pub struct Noted {
    course: Course,
    steps: u32,
    high: bool,
}

impl Model for Noted {
    ghost use Rattle.std.specs.Prelude.{vec_capacity};
    ghost use Rattle.delay_script.specs.TimedRuns.{TimedValue, timed_value};
    ghost use Rattle.delay_script.specs.Dues.{IsTimedReady};

    ghost Value = { TimedValue };

    ghost view = { λ n. timed_value n.course.stage.net n.course.stage.script n.steps n.course.delays n.high };

    ghost invariant = { λ n. IsTimedReady n.course.stage n.course.delays n.course.queue n.course.moves.items
        (vec_capacity n.course.moves) n.steps n.high };
}

impl Noted {
    ghost use Rattle.delay_script.specs.TimedRuns.{TimedValue, timed_value, timed_start, moved_nodes, IsTimedRun, IsTimedRan};

    pub(crate) fn begin(
        alloc: Global,
        net: Net,
        script: Script,
        steps: u32,
        delays: Delays,
        high: bool,
    ) -> Result<Noted, AllocError>
        requires script { IsScript (net_channels net) script }
        requires delays { IsDelayTable (length net.first) delays }
        requires steps { steps ≤ 1000000 }
        ensures { IfOk result (λ n. n ≡ timed_value net script steps delays high) }
    {
        let (state, moves, queue) = room_for(alloc, &net, steps, high)?;
        let stage = Stage::new(alloc, net, script, state, steps)?;
        let course = Course::begin(stage, delays, moves, queue);
        Ok(Noted {
            course,
            steps,
            high,
        })
    }

    /// The timed run of the net under the script by these delays, for at most `steps` moves (up to 1,000,000). Where
    /// the net has a reset node, the nodes that have rules are low at power-up.
    pub fn new(
        alloc: Global,
        net: Net,
        script: Script,
        steps: u32,
        delays: Delays,
    ) -> Result<Noted, AllocError>
        requires script { IsScript (net_channels net) script }
        requires delays { IsDelayTable (length net.first) delays }
        requires steps { steps ≤ 1000000 }
        ensures { IfOk result (λ n. n ≡ timed_value net script steps delays false) }
    {
        Noted::begin(alloc, net, script, steps, delays, false)
    }

    /// Runs the net. It allocates no memory. A node's move comes its delay later than the move since which it is
    /// enabled, or that long after the start; of the enabled moves the one that is due first is made, and of several
    /// due at the same time that of the least node. The run ends as a simulation does. (That a net's gates have these
    /// delays is not claimed.)
    pub fn run(self) -> NotedRan
        ensures timed { IsTimedRun self.delays self.net self.script (timed_start self) result.moves.items }
        ensures run { IsRun self.net self.script (timed_start self) (moved_nodes result.moves.items) }
        ensures ends { EndsSo self.net self.script self.steps (timed_start self) (moved_nodes result.moves.items)
            result.timed.ran.end }
        ensures time { result.timed.time ≡ time_behind result.moves.items (length result.moves.items) }
        ensures ran { IsTimedRan self result.moves.items result.timed.ran result.timed.time }
    {
        let steps = self.steps;
        let mut course = self.course;
        let mut hazard = course.stage.first_hazard();
        for _made in 0..steps {
            match onward(hazard, course.queue.take()) {
                Err(end) => return course.ran(end),
                Ok(next) => hazard = course.make(next),
            }
        }
        let end = last_end(hazard, course.queue.take());
        course.ran(end)
    }
}
