//! The result of a simulation.

ghost use Rattle.std.specs.Prelude.{◌≡◌};

use prs_core::Net;
use std::marker::Model;

/// How a run ended.
#[derive(Clone, Copy, PartialEq, Eq)]
pub enum End {
    /// No move is enabled.
    AtRest,
    /// As many moves were made as were allowed, and one more is enabled.
    Spent,
    /// The last move disabled that of this node, the least such one.
    Unstable { node: u32 },
    /// Both guards of this node hold; it is the least such one.
    BothWays { node: u32 },
    /// The last move broke the phases of this channel.
    Protocol { chan: u32 },
}

/// A run that has ended: its net, how it ended, how many moves it had, whether `done` is high then, and the values that
/// passed, each with the number of its channel, in the order of completion.
#[derive(Drop)]
pub struct Ran {
    net: Net,
    end: End,
    moves: u32,
    done_high: bool,
    passed: Vec<(u32, u64)>,
}

impl Model for Ran {
    ghost use Rattle.event_sim.specs.Simulating.{RanValue, IsRan};

    ghost Value = { RanValue };

    ghost view = { λ r. record {
      net = r.net;
      end = r.end;
      moves = r.moves;
      done_high = r.done_high;
      passed =
          r.passed.items;
    } };

    ghost invariant = { λ r. IsRan (record {
      net = r.net;
      end = r.end;
      moves = r.moves;
      done_high = r.done_high;
      passed = r.passed.items;
    }) };
}

impl Ran {
    ghost use Rattle.event_sim.specs.Simulating.{RanValue, IsRan};

    /// The run with these parts. The node or the channel of its end and the channels of the values are the net's.
    pub fn new(net: Net, end: End, moves: u32, done_high: bool, passed: Vec<(u32, u64)>) -> Ran
        requires { IsRan (record {
          net = net;
          end = end;
          moves = moves;
          done_high = done_high;
          passed =
              passed.items;
        }) }
        ensures { result ≡ record {
          net = net;
          end = end;
          moves = moves;
          done_high = done_high;
          passed =
              passed.items;
        } }
    {
        Ran {
            net,
            end,
            moves,
            done_high,
            passed,
        }
    }

    /// The net that ran.
    pub fn net(&self) -> &Net
        ensures net { result.now ≡ self.now.net }
        ensures ran { IsRan self.now }
    {
        &self.net
    }

    /// How the run ended.
    pub fn end(&self) -> End
        ensures end { result ≡ self.now.end }
        ensures ran { IsRan self.now }
    {
        self.end
    }

    /// How many moves were made.
    pub fn moves(&self) -> u32
        ensures { result ≡ self.now.moves }
    {
        self.moves
    }

    /// Whether the node `done` is high after the last move.
    pub fn done_high(&self) -> bool
        ensures { result ≡ self.now.done_high }
    {
        self.done_high
    }

    /// The values that passed, each with the number of its channel, the first one first.
    pub fn passed(&self) -> &[(u32, u64)]
        ensures passed { result.now ≡ self.now.passed }
        ensures ran { IsRan self.now }
    {
        &self.passed
    }
}
