//! Laws of the nets that are written.

ghost use Rattle.program_commands.specs.Bodies.{SharedNetsAreFaithful};

use call_compose::{
    calls_carried, calls_carried_reset, calls_hold, calls_progress, calls_progress_reset,
};

/// Law: the net in which all calls of a procedure share one body, if it has at most 65,536 nodes, is one that a rule
/// file can hold; it carries the program in which each call is a copy of the body, and keeps pace with it. So it does
/// with a reset node, from every power-up state.
pub fn shared_nets_are_faithful()
    ensures { SharedNetsAreFaithful }
{
    calls_hold();
    calls_carried();
    calls_carried_reset();
    calls_progress();
    calls_progress_reset();
}
