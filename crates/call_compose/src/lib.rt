//! From a program with procedures to the net in which all calls of a procedure share one body.
#![tactic(auto)]

ghost use Rattle.call_compose.specs.CalledForm.{CallsTyped};
ghost use Rattle.call_compose.specs.CallsCounted.{CallsCounted};
ghost use Rattle.call_compose.specs.CallsMeant.{CallsMeant};
ghost use Rattle.call_compose.specs.CallsCarried.{CallsAsked, CallsCarried, CallsHold, CallsCarriedReset, CallsProgress, CallsProgressReset};

mod bodies;
mod circuit;
mod inner;
mod insides;
mod nodes;
mod procs;
mod walk;

use call_map::{
    shared_bodies_carry, shared_bodies_carry_reset, shared_bodies_hold, shared_bodies_progress,
    shared_bodies_progress_reset,
};
pub use circuit::{call_circuit_of, translate_calls};
pub use nodes::count_calls;
use width_check::laws::form_is_typed;

/// Law: with a copy of its body in place of each call, the typed form of a program with procedures is the typed form of
/// the program without its procedures. So what the checks say of that program is what the laws of `call_map` ask of the
/// program with copies.
pub fn calls_typed()
    ensures { CallsTyped }
{}

/// Law: in the net with shared bodies a call has as many nodes as a skip has, and a procedure its body's and one more.
pub fn calls_counted()
    ensures { CallsCounted }
{}

/// Law: where nothing of procedures and calls is refused, all that a program calls are its own procedures, each is
/// called, and no two parallel branches call the same one.
pub fn calls_meant()
    ensures { CallsMeant }
{}

/// Law: where moreover the program without its procedures is accepted, no assignment in a body reads its own target. So
/// the typed form of the program with procedures is as the laws of `call_map` ask.
pub fn calls_asked()
    ensures { CallsAsked }
{
    form_is_typed();
}

/// Law: so the net in which all calls of a procedure share one body carries the program in which each call is a copy of
/// the body, whatever the names of its nodes are.
pub fn calls_carried()
    ensures { CallsCarried }
{
    form_is_typed();
    shared_bodies_carry();
}

/// Law: that net, of at most 65,536 nodes, is a net that a rule file can hold.
pub fn calls_hold()
    ensures { CallsHold }
{
    form_is_typed();
    shared_bodies_hold();
}

/// Law: it carries that program with a reset node too, from every power-up state.
pub fn calls_carried_reset()
    ensures { CallsCarriedReset }
{
    form_is_typed();
    shared_bodies_carry_reset();
}

/// Law: it keeps pace with that program: what a run of it has passed, some run of the program has passed; and where the
/// program comes to rest, each run goes on to one at rest.
pub fn calls_progress()
    ensures { CallsProgress }
{
    form_is_typed();
    shared_bodies_progress();
}

/// Law: and so it does with a reset node, from every power-up state.
pub fn calls_progress_reset()
    ensures { CallsProgressReset }
{
    form_is_typed();
    shared_bodies_progress_reset();
}
