//! Nets in which all calls of a procedure share one body, beside nets in which each call has a copy of its own.
#![tactic(auto)]

ghost use Rattle.call_map.specs.Carrying.{SharedRuns, SharedCarries};
ghost use Rattle.call_map.specs.CallNet.{SharedBodiesCarry, SharedBodiesCounted, SharedBodiesWithin, SharedBodiesHold};
ghost use Rattle.call_map.specs.CallNet.{SharedBodiesCarryReset};
ghost use Rattle.call_map.specs.CallPace.{SharedBodiesProgress, SharedBodiesProgressReset, SharedBodiesLayers};

use chp_meaning::laws::{rounds_hold, steps_taken};
use net_compose::laws::{carries, carries_reset, parts_in_turns, runs_end, runs_end_reset};

/// Law: let one net be another one with one body for all calls of a procedure in place of a copy for each call, and let
/// that other net be free of hazards, and each copy keep its handshake there. Then each run of the one is a run of the
/// other, of no more moves, that passes the same; it is free of hazards, and where the one is at rest the other is. It
/// has at most twice as many moves as that run. This holds for any numbering of the nodes and mentions no particular
/// program; to read it, `CallNet.antt` isn't needed.
pub fn shared_runs()
    ensures { SharedRuns }
{}

/// Law: where the net with copies carries a program, so does the net with shared bodies. `CallNet.antt` isn't needed to
/// read this either. This law and the one above are steps of the proof of those below, which don't mention them.
pub fn shared_carries()
    ensures { SharedCarries }
{
    steps_taken();
    rounds_hold();
}

/// Law: a program with procedures is carried by the net in which all calls of a procedure share one body: that net
/// carries the program in which each call is a copy of the body. This is so where that program is typed and meets the
/// sharing rule, bodies call nothing, each procedure is called, no two parallel branches call the same one, and no
/// assignment in a body reads its own target (`IsCallProgram`).
pub fn shared_bodies_carry()
    ensures { SharedBodiesCarry }
{
    steps_taken();
    rounds_hold();
    carries();
    parts_in_turns();
}

/// Law: that net has a name, a first value and two guards for each node that is counted. `Shared.antt` and
/// `Carrying.antt` aren't needed to read this, nor what any node's rules are.
pub fn shared_bodies_counted()
    ensures { SharedBodiesCounted }
{}

/// Law: the guards of that net, if it has at most 65,536 nodes, are over its own nodes only. `Shared.antt` and
/// `Carrying.antt` aren't needed to read this, nor is what a run is.
pub fn shared_bodies_within()
    ensures { SharedBodiesWithin }
{}

/// Law: that net, of at most 65,536 nodes, is a net that a rule file can hold: its wires and variables are named as
/// those of a program are, and its other nodes by their numbers. `Shared.antt` and `Carrying.antt` aren't needed to
/// read this, nor is what a run is.
pub fn shared_bodies_hold()
    ensures { SharedBodiesHold }
{}

/// Law: that net carries the program with a reset node too, from every power-up state. `Shared.antt` and
/// `Carrying.antt` aren't needed to read this.
pub fn shared_bodies_carry_reset()
    ensures { SharedBodiesCarryReset }
{
    carries_reset();
    shared_bodies_carry();
    shared_bodies_hold();
}

/// Law: that net keeps pace with the program in which each call is a copy. What a run of it has passed, some run of the
/// program has passed, of m steps, and it has at most twice as many moves as the net with copies may have by then, also
/// where no assignment reads its own target and that net may have fewer. Where the program comes to rest, each run of
/// the net goes on to one at rest, which has passed all that the program has. `Shared.antt` and `Carrying.antt` aren't
/// needed to read this.
pub fn shared_bodies_progress()
    ensures { SharedBodiesProgress }
{
    carries();
    parts_in_turns();
    runs_end();
}

/// Law: it does with a reset node too, from every power-up state. `Shared.antt` and `Carrying.antt` aren't needed to
/// read this.
pub fn shared_bodies_progress_reset()
    ensures { SharedBodiesProgressReset }
{
    shared_bodies_progress();
    shared_bodies_hold();
    runs_end_reset();
}

/// Law: where the net with copies has a run of so many layers that has passed what n rounds pass under a script, the
/// net with shared bodies has one of twice as many. A layer makes moves that are enabled where it begins, and none
/// twice; the layer more is that of the bodies' requests and of the calls' answers. `Shared.antt` and `Carrying.antt`
/// aren't needed to read this.
pub fn shared_bodies_layers()
    ensures { SharedBodiesLayers }
{
    carries();
    parts_in_turns();
}
