//! Steps of commands that make runs, from the names of files to nets and scripts.

ghost use Rattle.std.specs.Prelude.{◌≡◌, ◌≢◌, ◌≤◌, ◌∷◌, [], All, AllPairs, length, IfOk, IfErr};
ghost use Rattle.chp_base.specs.declared.channel.Channel.{Channel as ChannelValue};
ghost use Rattle.env_script.specs.Environment.{net_channels};
ghost use Rattle.command_answers.specs.Answers.{given_by};
ghost use Rattle.command_steps.specs.Held.{HoldsNet, HoldsScript};
ghost use Rattle.command_answers.specs.Replies.{Halts, Stops};
ghost use Rattle.command_steps.specs.RunSteps.{FromScript, IsScriptOf, most_of_script};
ghost use Rattle.command_steps.specs.Steps.{FromFile, FromNet, Never, most_of_net};

use crate::files::{MOST_OF_NET, net_of_text, text_of_file};
use chp_base::Channel;
use chp_edge::Shelf;
use command_answers::{Stop, bad_script};
use env_script::{Script, ScriptError, read_script};
use prs_core::Net;
use std::alloc::{AllocError, Global};

/// The most bytes of a script.
const MOST_OF_SCRIPT: usize = 2_097_152;

/// The net whose rule file has this name.
pub fn net_in<'a, S: Shelf>(alloc: Global, shelf: &mut S, file: &'a str) -> Result<Net, Stop<'a>>
    ensures read { IfOk result (λ net. HoldsNet (given_by (S.tells shelf.old) (S.holds shelf.old)) file.entry.now net) }
    ensures stopped { IfErr result (Stops
        (FromFile (given_by (S.tells shelf.old) (S.holds shelf.old)) file.entry.now most_of_net
        (λ text. FromNet text Never))
        (file.entry.now ∷ []) (given_by (S.tells shelf.old) (S.holds shelf.old)) (S.faults shelf.old)
        (S.faults shelf.new)) }
    ensures same { S.tells shelf.new ≡ S.tells shelf.old }
    ensures kept { S.holds shelf.new ≡ S.holds shelf.old }
    ensures faults { S.faults shelf.old ≤ S.faults shelf.new }
{
    let text = text_of_file(alloc, shelf, file, MOST_OF_NET)?;
    net_of_text(alloc, &text)
}

fn copied_channels(alloc: Global, net: &Net) -> Result<Vec<Channel>, AllocError>
    ensures { IfOk result (λ channels. channels.items ≡ net_channels net.now) }
{
    let mut channels = Vec::new(alloc);
    for wires in net.channels() {
        channels.push(Channel {
            name: wires.channel.name.copy()?,
            kind: wires.channel.kind,
            width: wires.channel.width,
        })?;
    }
    Ok(channels)
}

/// The channels of the net.
fn channels_of(alloc: Global, net: &Net) -> Result<Vec<Channel>, AllocError>
    ensures channels { IfOk result (λ channels. channels.items ≡ net_channels net.now) }
    ensures distinct { IfOk result (λ channels.
        AllPairs (λ (a b : ChannelValue). a.name ≢ b.name) channels.items) }
    ensures widths { IfOk result (λ channels.
        All (λ (c : ChannelValue). (1 ≤ c.width) × (c.width ≤ 64)) channels.items) }
{
    // brings the invariant of the net's type into scope, for its channels
    let _kept = net.first();
    copied_channels(alloc, net)
}

/// The script of these channels that the text is.
fn script_of_text<'a>(alloc: Global, text: &[u8], channels: &[Channel]) -> Result<Script, Stop<'a>>
    requires short { length text.now ≤ most_of_script }
    requires distinct { AllPairs (λ (a b : ChannelValue). a.name ≢ b.name) channels.now }
    requires widths { All (λ (c : ChannelValue). (1 ≤ c.width) × (c.width ≤ 64)) channels.now }
    ensures read { IfOk result (λ script. IsScriptOf channels.now text.now script) }
    ensures stopped { IfErr result (Halts (FromScript channels.now text.now Never)) }
{
    match read_script(alloc, text, channels) {
        Ok(script) => Ok(script),
        Err(ScriptError::Refused { fault, line }) => Err(Stop::Refused(bad_script(fault, line))),
        Err(ScriptError::NoMemory(_)) => Err(Stop::NoMemory),
    }
}

/// The script of these channels whose file has this name.
pub fn script_in<'a, S: Shelf>(
    alloc: Global,
    shelf: &mut S,
    file: &'a str,
    channels: &[Channel],
) -> Result<Script, Stop<'a>>
    requires distinct { AllPairs (λ (a b : ChannelValue). a.name ≢ b.name) channels.now }
    requires widths { All (λ (c : ChannelValue). (1 ≤ c.width) × (c.width ≤ 64)) channels.now }
    ensures read { IfOk result (λ script.
        HoldsScript (given_by (S.tells shelf.old) (S.holds shelf.old)) file.entry.now channels.now script) }
    ensures stopped { IfErr result (Stops
        (FromFile (given_by (S.tells shelf.old) (S.holds shelf.old)) file.entry.now most_of_script
        (λ text. FromScript channels.now text Never))
        (file.entry.now ∷ []) (given_by (S.tells shelf.old) (S.holds shelf.old)) (S.faults shelf.old)
        (S.faults shelf.new)) }
    ensures same { S.tells shelf.new ≡ S.tells shelf.old }
    ensures kept { S.holds shelf.new ≡ S.holds shelf.old }
    ensures faults { S.faults shelf.old ≤ S.faults shelf.new }
{
    let text = text_of_file(alloc, shelf, file, MOST_OF_SCRIPT)?;
    script_of_text(alloc, &text, channels)
}

/// The script of the net's channels whose file has this name.
pub fn net_script_in<'a, S: Shelf>(
    alloc: Global,
    shelf: &mut S,
    file: &'a str,
    net: &Net,
) -> Result<Script, Stop<'a>>
    ensures read { IfOk result (λ script. HoldsScript (given_by (S.tells shelf.old) (S.holds shelf.old))
        file.entry.now (net_channels net.now) script) }
    ensures stopped { IfErr result (Stops
        (FromFile (given_by (S.tells shelf.old) (S.holds shelf.old)) file.entry.now most_of_script
        (λ text. FromScript (net_channels net.now) text Never))
        (file.entry.now ∷ []) (given_by (S.tells shelf.old) (S.holds shelf.old)) (S.faults shelf.old)
        (S.faults shelf.new)) }
    ensures same { S.tells shelf.new ≡ S.tells shelf.old }
    ensures kept { S.holds shelf.new ≡ S.holds shelf.old }
    ensures faults { S.faults shelf.old ≤ S.faults shelf.new }
{
    match channels_of(alloc, net) {
        Ok(channels) => script_in(alloc, shelf, file, &channels),
        Err(_) => Err(Stop::NoMemory),
    }
}
