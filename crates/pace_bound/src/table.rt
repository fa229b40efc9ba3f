//! The falls of all lines.

ghost use Rattle.std.specs.Prelude.{◌≡◌, ℕ, length, replicate, IfOk};
ghost use Rattle.width_check.specs.Typed.{program_of};
ghost use Rattle.width_check.specs.Typing.{kind_at};
ghost use Rattle.width_check.specs.View.{process_of};
ghost use Rattle.width_check.specs.Processes.{TypedProgram};
ghost use Rattle.handshake_expand.specs.Layout.{capped};
ghost use Rattle.round_time.specs.Longest.{over_sites, send_holds, rails_fall, writes_fall, receive_clears, channel_low};
ghost use Rattle.round_time.specs.Phases.{over_program};
ghost use Rattle.pace_bound.specs.Clearing.{IsTableOf, AreFalls};
ghost use Rattle.pace_bound.specs.Noting.{of_step, noted_count, IsGiven};

use crate::low::Falls;
use crate::mark::Noted;
use crate::site::note_all;
use crate::width::kind_of;
use chp_base::Kind;
use std::alloc::{AllocError, Global};
use width_check::Typed;

/// So many zeros.
fn zeros(alloc: Global, count: usize) -> Result<Vec<u64>, AllocError>
    ensures { IfOk result (λ v. v.items ≡ replicate count 0) }
{
    let mut table = Vec::new(alloc);
    for _place in 0..count {
        table.push(0)?;
    }
    Ok(table)
}

/// What is noted of all statements of a program, for so many channels or variables.
pub(crate) fn noted_table(
    alloc: Global,
    program: &Typed,
    count: usize,
    noted: Noted,
) -> Result<Vec<u64>, AllocError>
    requires all { count ≡ noted_count (program_of program.now) noted }
    requires given { IsGiven (program_of program.now) noted }
    ensures { IfOk result (λ v. IsTableOf count (λ k. over_program (program_of program.now)
        (of_step (program_of program.now) noted.entry k)) v.items) }
{
    let mut table = zeros(alloc, count)?;
    note_all(program, noted, &mut table);
    Ok(table)
}

/// From a step on a channel of this kind to the fall of its rails, where sends on it hold them so long.
fn rails_of(kind: Kind, sent: u64) -> u64
    ensures { (P : TypedProgram) (c : ℕ) → sent ≡ capped (over_sites (send_holds c) 2 P.body)
        → result ≡ capped (rails_fall P kind c) }
{
    match kind {
        Kind::In => 1,
        Kind::Out | Kind::Chan => sent,
    }
}

/// The falls of the rails of all channels, where what sends hold is noted.
fn settle_rails(program: &Typed, table: &mut [u64])
    requires { IsTableOf (length program.now.channels)
        (λ c. over_sites (send_holds c) 2 (process_of program.now.body)) table.old }
    ensures { IsTableOf (length program.now.channels)
        (λ c. rails_fall (program_of program.now) (kind_at program.now.channels c) c) table.new }
{
    for place in 0..table.len() {
        table[place] = rails_of(kind_of(program, place), table[place]);
    }
}

/// From a step on each channel to the fall of its rails.
fn rails_fall(alloc: Global, program: &Typed) -> Result<Vec<u64>, AllocError>
    ensures { IfOk result (λ v. IsTableOf (length program.now.channels)
        (λ c. rails_fall (program_of program.now) (kind_at program.now.channels c) c) v.items) }
{
    let mut table = noted_table(alloc, program, program.channels().len(), Noted::Sends)?;
    settle_rails(program, &mut table);
    Ok(table)
}

/// From a write to each variable to the fall of the rails by which it is written.
fn writes_fall(alloc: Global, program: &Typed, rails: &[u64]) -> Result<Vec<u64>, AllocError>
    requires { IsTableOf (length program.now.channels)
        (λ c. rails_fall (program_of program.now) (kind_at program.now.channels c) c) rails.now }
    ensures { IfOk result (λ v. IsTableOf (length program.now.vars) (writes_fall (program_of program.now)) v.items) }
{
    noted_table(
        alloc,
        program,
        program.vars().len(),
        Noted::Writes { rails },
    )
}

/// From a step on a channel to the fall of the answers of both ends, by when its rails fall, and when receives on it
/// have taken back their acknowledge.
fn ends_of(rails: u64, received: u64) -> u64
    ensures { (P : TypedProgram) (kind : Kind) (c : ℕ) → rails ≡ capped (rails_fall P kind c)
        → received ≡ capped (over_sites (receive_clears P c) 2 P.body) → result ≡ capped (channel_low P kind c) }
{
    rails.saturating_add(2).max(received)
}

/// The falls of the answers of all channels, where those of receives are noted.
fn settle_ends(program: &Typed, rails: &[u64], table: &mut [u64])
    requires rails { IsTableOf (length program.now.channels)
        (λ c. rails_fall (program_of program.now) (kind_at program.now.channels c) c) rails.now }
    requires noted { IsTableOf (length program.now.channels)
        (λ c. over_sites (receive_clears (program_of program.now) c) 2 (process_of program.now.body)) table.old }
    ensures { IsTableOf (length program.now.channels)
        (λ c. channel_low (program_of program.now) (kind_at program.now.channels c) c) table.new }
{
    for place in 0..table.len() {
        table[place] = ends_of(rails[place], table[place]);
    }
}

/// From a step on each channel to the fall of the answers of both ends.
fn channels_fall(
    alloc: Global,
    program: &Typed,
    rails: &[u64],
    writes: &[u64],
) -> Result<Vec<u64>, AllocError>
    requires rails { IsTableOf (length program.now.channels)
        (λ c. rails_fall (program_of program.now) (kind_at program.now.channels c) c) rails.now }
    requires writes { IsTableOf (length program.now.vars) (writes_fall (program_of program.now)) writes.now }
    ensures { IfOk result (λ v. IsTableOf (length program.now.channels)
        (λ c. channel_low (program_of program.now) (kind_at program.now.channels c) c) v.items) }
{
    let count = program.channels().len();
    let mut table = noted_table(alloc, program, count, Noted::Receives { writes })?;
    settle_ends(program, rails, &mut table);
    Ok(table)
}

/// The falls of all lines of a program.
pub(crate) fn falls(alloc: Global, program: &Typed) -> Result<Falls, AllocError>
    ensures { IfOk result (λ f. AreFalls (program_of program.now) f.channels.items f.writes.items) }
{
    let rails = rails_fall(alloc, program)?;
    let writes = writes_fall(alloc, program, &rails)?;
    let channels = channels_fall(alloc, program, &rails, &writes)?;
    Ok(Falls { channels, writes })
}
