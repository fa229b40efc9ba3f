//! How long a round takes at most.

ghost use Rattle.std.specs.Prelude.{◌≡◌, IfOk};
ghost use Rattle.width_check.specs.Typed.{program_of};
ghost use Rattle.width_check.specs.Typing.{IsTyped};
ghost use Rattle.width_check.specs.View.{process_of};
ghost use Rattle.chp_meaning.specs.Halves.{halved_program};
ghost use Rattle.handshake_expand.specs.Layout.{capped};
ghost use Rattle.round_time.specs.Longest.{longest};
ghost use Rattle.pace_bound.specs.Clearing.{AreFalls};
ghost use Rattle.pace_bound.specs.Halving.{longest_by};

use crate::first::first;
use crate::low::{Falls, low};
use crate::table::falls;
use crate::within::within;
use std::alloc::{AllocError, Global};
use width_check::Typed;

/// How long a round takes at most, where the falls of lines are known, of the program as it is or in halves.
fn longest_by(
    alloc: Global,
    program: &Typed,
    falls: &Falls,
    halved: bool,
) -> Result<u64, AllocError>
    requires { AreFalls (program_of program.now) falls.now.channels.items falls.now.writes.items }
    ensures bound { IfOk result (λ n. n ≡ capped (longest_by halved (program_of program.now))) }
    ensures typed { IsTyped program.now.channels program.now.vars (process_of program.now.body) }
{
    let body = program.body();
    let begins = first(program, halved, body).saturating_add(2);
    let ends = low(program, falls, body, 2).saturating_add(2);
    let mut loops = Vec::new(alloc);
    let inner = within(program, falls, halved, body, &mut loops)?;
    Ok(inner.max(begins.max(ends)))
}

/// How many moves, one behind the other, the circuit of the program makes at most from the steps of one round to those
/// of the next, by the definition `longest`, which reads it off the program; saturates at 2^64 - 1. That circuits keep
/// to it where no assignment reads its own target, and else to twice that of the program in halves, is the law
/// `keeps_time` of `net_pace`. It fails if memory runs out: it takes a number for each channel and each variable, and
/// an entry for each loop. So its time grows with the program alone, and not with how many sites a channel has.
pub fn longest_of(alloc: Global, program: &Typed) -> Result<u64, AllocError>
    ensures { IfOk result (λ n. n ≡ capped (longest (program_of program.now))) }
{
    let falls = falls(alloc, program)?;
    longest_by(alloc, program, &falls, false)
}

/// The same of the program in halves: each assignment that reads its own target is two, to a variable that nothing else
/// has, and from that. No such program is made, and memory is taken as by `longest_of`.
pub fn longest_in_halves(alloc: Global, program: &Typed) -> Result<u64, AllocError>
    ensures { IfOk result (λ n. n ≡ capped (longest (halved_program (program_of program.now)))) }
{
    let falls = falls(alloc, program)?;
    longest_by(alloc, program, &falls, true)
}
