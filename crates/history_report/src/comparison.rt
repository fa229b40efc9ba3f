//! How the histories of a run compare with those of a program's rounds.

ghost use Rattle.std.specs.Prelude.{◌≡◌, ◌↔◌, ◌⊎◌, ◌++◌, ◌-◌, ◌<◌, ◌≤◌, ℕ, length, map, true, List, Some, IfOk, IfSome, IfNone, OnOk};
ghost use Rattle.prs_core.specs.declared.wires.Wires.{Wires as WiresValue};
ghost use Rattle.env_script.specs.Environment.{net_channels};
ghost use Rattle.env_script.specs.Runs.{history_at};
ghost use Rattle.env_script.specs.Scripts.{OfferValue, IsScript};
ghost use Rattle.event_sim.specs.Passing.{values_through};
ghost use Rattle.width_check.specs.Sharing.{MeetsSharing};
ghost use Rattle.width_check.specs.Typed.{program_of};
ghost use Rattle.width_check.specs.View.{process_of};
ghost use Rattle.chp_meaning.specs.Steps.{start_of};
ghost use Rattle.chp_meaning.specs.Rounds.{rounds_from};
ghost use Rattle.chp_meaning.specs.Ends.{seen, IsOf};
ghost use Rattle.chp_meaning.specs.Prefixes.{IsPrefixOf};
ghost use Rattle.history_report.specs.Comparing.{IsFirstDifference, run_history, IsAgainst, IsAgainstIn, against_line};

use crate::report::{append, channel_name, hazard_line};
use chp_base::Channel;
use chp_meaning::{Config, round, start};
use env_script::Script;
use event_sim::Ran;
use prs_core::{Net, Wires};
use std::alloc::{AllocError, Global};
use width_check::Typed;

/// How the histories of a run compare with those of as many rounds of a program as the run has moves.
#[derive(Clone, Copy)]
pub enum Against {
    /// The net has the program's channels, and on each the run's history is a prefix of that of the rounds.
    Agrees,
    /// The net's channels aren't the program's.
    Channels,
    /// The run's history of channel `chan`, the first such one, is not a prefix of that of the rounds. `place` is the
    /// first index, counted from 0, at which the run's value isn't that of the rounds, or they have none.
    Differs { chan: u32, place: u32 },
}

/// Whether the two channels have one name, one kind and one width.
fn is_same_channel(one: &Channel, other: &Channel) -> bool
    ensures { (result ≡ true) ↔ (one.now ≡ other.now) }
{
    one.name.bytes() == other.name.bytes() && one.kind == other.kind && one.width == other.width
}

/// Whether the channels with these wires are these channels, in order.
fn are_channels(wires: &[Wires], channels: &[Channel]) -> bool
    ensures { (result ≡ true) ↔ (map (λ (w : WiresValue). w.channel) wires.now ≡ channels.now) }
{
    if wires.len() != channels.len() {
        return false;
    }
    for (chan, wire) in wires.iter().enumerate() {
        if !is_same_channel(&wire.channel, &channels[chan]) {
            return false;
        }
    }
    true
}

/// The values that passed on the channel of this number.
fn values_on(alloc: Global, passed: &[(u32, u64)], chan: u32) -> Result<Vec<u64>, AllocError>
    ensures { IfOk result (λ values. values.items ≡ values_through chan passed.now) }
{
    let mut values = Vec::new(alloc);
    for (on, value) in passed {
        if *on == chan {
            values.push(*value)?;
        }
    }
    Ok(values)
}

/// The index that was found, as a 32-bit number. A run with a larger index has more values than memory holds, and
/// counts as out of memory.
fn place_number(place: usize) -> Result<Option<u32>, AllocError>
    ensures { IfOk result (λ number. number ≡ Some place) }
{
    match u32::try_from(place) {
        Ok(number) => Ok(Some(number)),
        Err(_) => Err(AllocError),
    }
}

/// The first index at which the value isn't the history's, or it has none; None where the values are a prefix of it.
fn first_difference(values: &[u64], history: &[u64]) -> Result<Option<u32>, AllocError>
    ensures some { IfOk result (λ found. IfSome found (λ place. IsFirstDifference values.now history.now place)) }
    ensures none { IfOk result (λ found. IfNone found (IsPrefixOf values.now history.now)) }
{
    for (place, value) in values.iter().enumerate() {
        if place >= history.len() || history[place] != *value {
            return place_number(place);
        }
    }
    Ok(None)
}

/// Makes rounds until so many values have passed on the channel. At most `left` more rounds may be made, and each is
/// counted off; where no step is left, `left` becomes 0.
fn reach(
    alloc: Global,
    config: &mut Config,
    program: &Typed,
    left: &mut u32,
    chan: u32,
    wanted: usize,
) -> Result<(), AllocError>
    requires sharing { MeetsSharing (process_of program.now.body) }
    requires of { IsOf program.now config.old }
    requires within { chan < length program.now.channels }
    ensures of { IsOf program.now config.new }
    ensures fewer { OnOk result (left.new ≤ left.old) }
    ensures made { OnOk result (seen program.now config.new
        ≡ rounds_from (seen program.now config.old) (left.old - left.new)) }
    ensures enough { OnOk result ((left.new ≡ 0)
        ⊎ (wanted ≤ length (history_at (seen program.now config.new).histories chan))) }
{
    while *left > 0 && config.history(chan).len() < wanted {
        if round(alloc, config, program)? {
            *left -= 1;
        } else {
            *left = 0;
        }
    }
    Ok(())
}

/// The first index at which the run's value on the channel isn't that of the rounds, or they have none; None where no
/// such index exists. Rounds are made only until they have passed as many values there: more of them only append.
fn difference_on(
    alloc: Global,
    ran: &Ran,
    config: &mut Config,
    program: &Typed,
    left: &mut u32,
    chan: u32,
) -> Result<Option<u32>, AllocError>
    requires sharing { MeetsSharing (process_of program.now.body) }
    requires of { IsOf program.now config.old }
    requires within { chan < length program.now.channels }
    ensures of { IsOf program.now config.new }
    ensures fewer { OnOk result (left.new ≤ left.old) }
    ensures made { OnOk result (seen program.now config.new
        ≡ rounds_from (seen program.now config.old) (left.old - left.new)) }
    ensures some { IfOk result (λ found. IfSome found (λ place. IsFirstDifference (run_history ran.now chan)
        (history_at (rounds_from (seen program.now config.new) left.new).histories chan) place)) }
    ensures none { IfOk result (λ found. IfNone found (IsPrefixOf (run_history ran.now chan)
        (history_at (rounds_from (seen program.now config.new) left.new).histories chan))) }
{
    let values = values_on(alloc, ran.passed(), chan)?;
    reach(alloc, config, program, left, chan, values.len()).and(first_difference(
        &values,
        config.history(chan),
    ))
}

/// Compares what the run has passed with what as many rounds of the program as it has moves pass, under this script of
/// the net's channels.
pub fn compare(
    alloc: Global,
    ran: &Ran,
    program: &Typed,
    script: &Script,
) -> Result<Against, AllocError>
    requires script { IsScript (net_channels ran.now.net) script.now }
    requires sharing { MeetsSharing (process_of program.now.body) }
    ensures against { IfOk result (λ against. IsAgainst ran.now (program_of program.now) script.now against) }
    ensures within { IfOk result (λ against. IsAgainstIn ran.now.net against) }
{
    if are_channels(ran.net().channels(), program.channels()) {
        let mut config = start(alloc, program, script)?;
        let against = compare_from(alloc, ran, program, &mut config);
        drop(config);
        against
    } else {
        Ok(Against::Channels)
    }
}

/// The same where the net has the program's channels, from the configuration in which the program starts under some
/// script. It is lent that, since what a function owns is let go at each of its ways out, and each is proved.
fn compare_from(
    alloc: Global,
    ran: &Ran,
    program: &Typed,
    config: &mut Config,
) -> Result<Against, AllocError>
    requires sharing { MeetsSharing (process_of program.now.body) }
    requires of { IsOf program.now config.old }
    requires alike { net_channels ran.now.net ≡ program.now.channels }
    ensures against { (script : List OfferValue) →
        seen program.now config.old ≡ start_of (program_of program.now) script →
        IfOk result (λ against. IsAgainst ran.now (program_of program.now) script against) }
    ensures within { IfOk result (λ against. IsAgainstIn ran.now.net against) }
{
    let mut left = ran.moves();
    let channels = ran.net().channels();
    for chan in 0..channels.len() as u32 {
        if let Some(place) = difference_on(alloc, ran, config, program, &mut left, chan)? {
            return Ok(Against::Differs { chan, place });
        }
    }
    Ok(Against::Agrees)
}

/// The line that a report has last where its run was compared. (The format is our profile.)
pub fn against_text(alloc: Global, ran: &Ran, against: Against) -> Result<Vec<u8>, AllocError>
    requires { IsAgainstIn ran.now.net against }
    ensures { IfOk result (λ v. v.items ≡ against_line ran.now.net against) }
{
    let mut text = Vec::new(alloc);
    against_line(ran.net(), against, &mut text).and(Ok(text))
}

/// Appends that line.
fn against_line(net: &Net, against: Against, to: &mut Vec<u8>) -> Result<(), AllocError>
    requires { IsAgainstIn net.now against }
    ensures { OnOk result (to.new.items ≡ to.old.items ++ against_line net.now against) }
{
    match against {
        Against::Agrees => append(to, &[b"against agrees\n"]),
        Against::Channels => append(to, &[b"against channels\n"]),
        Against::Differs { chan, place } => hazard_line(
            b"against differs ",
            channel_name(net, chan),
            place,
            to,
        ),
    }
}
