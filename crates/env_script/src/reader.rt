//! The reader of scripts.

ghost use Rattle.std.specs.Prelude.{◌≡◌, ◌≢◌, ◌≤◌, All, AllPairs, ◌<◌, true, None, [], length, map, slice_set, IfOk, IfErr, OnOk};
ghost use Rattle.chp_base.specs.declared.channel.Channel.{Channel};
ghost use Rattle.env_script.specs.Scripts.{IsScript};
ghost use Rattle.env_script.specs.Offers.{offered};
ghost use Rattle.env_script.specs.LineSteps.{AreTold, IsRefusedLine};
ghost use Rattle.env_script.specs.ScriptText.{offer_of, script_of, is_told, IsScriptText, IsOnlyScript, IsNoScript, IsScriptRefused, IsOnlyRefusal, OfScriptRefusal};

use crate::channel_index::ChannelIndex;
use crate::fault::ScriptError;
use crate::script::{Count, Offer, Script};
use crate::step::{Step, Taken, step_of};
use crate::words::lines_of;
use chp_base::{Channel, Kind};
use std::alloc::{AllocError, Global};

/// What the environment does on a channel of the kind that no line names.
fn first_offer(alloc: Global, kind: Kind) -> Offer
    ensures { offered result ≡ offer_of kind None }
{
    match kind {
        Kind::In => Offer::Values(Vec::new(alloc)),
        Kind::Out => Offer::Accept(Count::All),
        Kind::Chan => Offer::Nothing,
    }
}

/// What the environment does where there are no lines.
fn first_offers(alloc: Global, channels: &[Channel]) -> Result<Vec<Offer>, AllocError>
    ensures { IfOk result (λ offers. map offered offers.items ≡ script_of channels.now []) }
{
    let mut offers = Vec::new(alloc);
    for channel in channels {
        offers.push(first_offer(alloc, channel.kind))?;
    }
    Ok(offers)
}

/// A mark for each channel, all false: none has had a line yet.
fn none_told(alloc: Global, channels: &[Channel]) -> Result<Vec<bool>, AllocError>
    ensures { IfOk result
        (λ told. told.items ≡ map (λ (c : Channel). is_told [] c.name) channels.now) }
{
    channels.iter().map(|_channel| false).collect(alloc)
}

/// Records what a line changes.
fn note(offers: &mut [Offer], told: &mut [bool], taken: Taken)
    requires offers { taken.place < length offers.old }
    requires told { taken.place < length told.old }
    ensures offers { map offered offers.new ≡ slice_set (map offered offers.old) taken.place (offered taken.offer) }
    ensures told { told.new ≡ slice_set told.old taken.place true }
{
    let Taken { place, offer, .. } = taken;
    offers[place] = offer;
    told[place] = true;
}

/// Takes up what the lines say, one after the other, where no line has been told yet.
fn read_lines(
    alloc: Global,
    channels: &ChannelIndex,
    lines: &[&[u8]],
    offers: &mut [Offer],
    told: &mut [bool],
) -> Result<(), ScriptError>
    requires few { length lines.now ≤ 2097153 }
    requires distinct { AllPairs (λ (a b : Channel). a.name ≢ b.name) channels.now }
    requires widths { All (λ (c : Channel). (1 ≤ c.width) × (c.width ≤ 64)) channels.now }
    requires offers { map offered offers.old ≡ script_of channels.now [] }
    requires told { told.old ≡ map (λ (c : Channel). is_told [] c.name) channels.now }
    ensures read { OnOk result (AreTold channels.now (map (λ line. line.now) lines.now) (map offered offers.new)) }
    ensures refused { IfErr result
        (OfScriptRefusal (IsRefusedLine channels.now (map (λ line. line.now) lines.now))) }
{
    let mut values = 0;
    for (at, line) in lines.iter().enumerate() {
        match step_of(alloc, channels, told, values, line)? {
            Step::Skip => {}
            Step::Refused(fault) => {
                let line = at as u32 + 1;
                return Err(ScriptError::Refused { fault, line });
            }
            Step::Take(taken) => {
                values += taken.values;
                note(offers, told, taken);
            }
        }
    }
    Ok(())
}

/// Changes the offers of a script without lines to what the lines say.
fn read_offers(
    alloc: Global,
    channels: &[Channel],
    lines: &[&[u8]],
    offers: &mut [Offer],
) -> Result<(), ScriptError>
    requires few { length lines.now ≤ 2097153 }
    requires distinct { AllPairs (λ (a b : Channel). a.name ≢ b.name) channels.now }
    requires widths { All (λ (c : Channel). (1 ≤ c.width) × (c.width ≤ 64)) channels.now }
    requires offers { map offered offers.old ≡ script_of channels.now [] }
    ensures read { OnOk result (AreTold channels.now (map (λ line. line.now) lines.now) (map offered offers.new)) }
    ensures refused { IfErr result
        (OfScriptRefusal (IsRefusedLine channels.now (map (λ line. line.now) lines.now))) }
{
    let index = ChannelIndex::from_channels(alloc, channels)?;
    let mut told = none_told(alloc, channels)?;
    read_lines(alloc, &index, lines, offers, &mut told)
}

/// The script of these channels that the text says. A line is the name of a channel, a colon right after it, and
/// words that are separated by spaces or tabs: the values of an `in` channel, or for an `out` channel how many values
/// are received, a number or `all`. A comment runs from `//` to the end of its line. An `in` channel without a line
/// has no values, an `out` channel without a line has `all`. It is refused at the first line with a fault, for the
/// first of these causes: the line isn't a name with its colon followed by numbers or `all`; no external channel has
/// the name; an earlier line has it; the words don't suit the direction; a value isn't below 2 to the width; there are
/// more than 65,536 values so far. (The format is our own.)
pub fn read_script(alloc: Global, text: &[u8], channels: &[Channel]) -> Result<Script, ScriptError>
    requires size { length text.now ≤ 2097152 }
    requires distinct { AllPairs (λ (a b : Channel). a.name ≢ b.name) channels.now }
    requires widths { All (λ (c : Channel). (1 ≤ c.width) × (c.width ≤ 64)) channels.now }
    ensures read { IfOk result (IsScriptText channels.now text.now) }
    ensures only { IfOk result (IsOnlyScript channels.now text.now) }
    ensures script { IfOk result (IsScript channels.now) }
    ensures refused { IfErr result (OfScriptRefusal (IsScriptRefused channels.now text.now)) }
    ensures first { IfErr result (OfScriptRefusal (IsOnlyRefusal channels.now text.now)) }
    ensures none { IfErr result (OfScriptRefusal (λ fault line. IsNoScript channels.now text.now)) }
{
    let lines = lines_of(alloc, text)?;
    let mut offers = first_offers(alloc, channels)?;
    read_offers(alloc, channels, &lines, &mut offers)?;
    Ok(Script::new(offers))
}
