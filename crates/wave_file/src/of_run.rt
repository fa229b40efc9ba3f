//! The wave of a timed run.

ghost use Rattle.std.specs.Prelude.{◌≡◌, ◌<◌, ◌^◌, ℕ, List, map, All, IfOk};
ghost use Rattle.wave_file.specs.RunWaves.{timed_changes, wave_of_run};
ghost use Rattle.wave_file.specs.WaveTold.{kept_wave};
ghost use Rattle.wave_file.specs.Waves.{IsKeptWave};

use crate::start::start_values;
use crate::wave::Wave;
use chp_base::Name;
use delay_script::{NotedMove, NotedRan};
use std::alloc::{AllocError, Global};

/// Copies of these names.
fn copied_names(alloc: Global, names: &[Name]) -> Result<Vec<Name>, AllocError>
    ensures { IfOk result (λ v. v.items ≡ names.now) }
{
    let mut copies = Vec::with_capacity(alloc, names.len())?;
    for name in names {
        copies.push(name.copy()?)?;
    }
    Ok(copies)
}

/// A change of the node at the time.
fn change_at(time: u64, node: u32) -> (u64, u32)
    ensures change { result ≡ (time, node) }
    ensures small { result.0 < 2 ^ 64 }
{
    (time, node)
}

/// The changes that these moves bring.
fn changes_of_moves(alloc: Global, moves: &[NotedMove]) -> Result<Vec<(u64, u32)>, AllocError>
    ensures changes { IfOk result (λ v. v.items ≡ timed_changes moves.now) }
    ensures small { IfOk result (λ v. All (λ (c : ℕ × ℕ). c.0 < 2 ^ 64) v.items) }
{
    let mut changes = Vec::with_capacity(alloc, moves.len())?;
    for made in moves {
        changes.push(change_at(made.time, made.node))?;
    }
    Ok(changes)
}

/// The wave of a timed run: the nodes of its net, their values at power-up, and a change for each move. The law
/// `timed_runs_are_waves` says that it can be written; and what was written is read as this wave. `high` is the value
/// at power-up with which the run began.
pub fn run_wave(alloc: Global, ran: &NotedRan, high: bool) -> Result<Wave, AllocError>
    ensures wave { IfOk result (λ w. kept_wave w ≡ wave_of_run ran.now.timed.ran.net high ran.now.moves.items) }
    ensures kept { IfOk result (λ w. IsKeptWave (kept_wave w)) }
{
    let net = ran.timed.ran.net();
    let names = copied_names(alloc, net.names())?;
    let first = start_values(alloc, net, high)?;
    let changes = changes_of_moves(alloc, &ran.moves)?;
    Ok(Wave {
        names,
        first,
        changes,
    })
}
