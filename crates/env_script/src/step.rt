//! What a line of a script does.

ghost use Rattle.std.specs.Prelude.{◌≡◌, ◌<◌, ◌≤◌, ◌^◌, nat_lt, ℕ, List, All, length, map, Some, None, IfOk, IfSome, IfNone};
ghost use Rattle.std.specs.List.{list_all};
ghost use Rattle.chp_base.specs.declared.channel.Channel.{Channel};
ghost use Rattle.env_script.specs.Cutting.{words_of};
ghost use Rattle.env_script.specs.Scripts.{takes};
ghost use Rattle.env_script.specs.Offers.{offered};
ghost use Rattle.env_script.specs.ScriptText.{LineSays, is_inside, suits, fits, values_in, fault_on, offer_of, channel_named};
ghost use Rattle.env_script.specs.LineSteps.{IsPlace, IsStepOf, IsStepOn, told_at};

use crate::channel_index::ChannelIndex;
use crate::fault::ScriptFault;
use crate::line::{Line, Said, line_in};
use crate::script::{Count, Offer};
use crate::words::words_of;
use chp_base::{Channel, Kind};
use std::alloc::{AllocError, Global};

const MOST_VALUES: usize = 65536;

/// What a line changes.
#[derive(Drop)]
pub struct Taken {
    /// The number of the channel.
    pub place: usize,
    /// What the environment does on it.
    pub offer: Offer,
    /// How many values the line has.
    pub values: usize,
}

/// What a line does.
#[derive(Drop)]
pub enum Step {
    /// It has no words.
    Skip,
    Refused(ScriptFault),
    Take(Taken),
}

fn is_inside(kind: Kind) -> bool
    ensures { result ≡ is_inside kind }
{
    matches!(kind, Kind::Chan)
}

/// Whether this can be said of a channel of the kind: values of an `in` channel, one number or `all` of an `out`
/// channel.
fn suits(kind: Kind, said: &Said) -> bool
    ensures { result ≡ suits kind said.now }
{
    match (kind, said) {
        (Kind::In, Said::Numbers(_)) => true,
        (Kind::Out, Said::Every) => true,
        (Kind::Out, Said::Numbers(numbers)) => numbers.items().len() == 1,
        _ => false,
    }
}

fn is_below(value: u64, width: u8) -> bool
    requires { width ≤ 64 }
    ensures { result ≡ nat_lt value (2 ^ width) }
{
    width == 64 || value < 1 << width
}

fn are_below(values: &[u64], width: u8) -> bool
    requires { width ≤ 64 }
    ensures { result ≡ list_all (λ n. nat_lt n (2 ^ width)) values.now }
{
    values.iter().all(|value| is_below(*value, width))
}

/// Whether each value is below 2 to the width.
fn fits(kind: Kind, width: u8, said: &Said) -> bool
    requires { width ≤ 64 }
    ensures { result ≡ fits kind width said.now }
{
    match (kind, said) {
        (Kind::In, Said::Numbers(numbers)) => are_below(numbers.items(), width),
        _ => true,
    }
}

/// How many values are sent.
fn values_in(kind: Kind, said: &Said) -> usize
    ensures count { result ≡ values_in kind said.now }
    ensures small { result < 2 ^ 62 }
{
    match (kind, said) {
        (Kind::In, Said::Numbers(numbers)) => numbers.items().len(),
        _ => 0,
    }
}

/// Why a line of the channel is refused, or None where it is not: `again` says whether an earlier line was for the same
/// channel, and `values` how many values the earlier lines have.
fn fault_on(channel: &Channel, again: bool, values: usize, said: &Said) -> Option<ScriptFault>
    requires width { channel.now.width ≤ 64 }
    requires values { values ≤ 65536 }
    ensures { result ≡ fault_on channel.now again values said.now }
{
    let kind = channel.kind;
    if is_inside(kind) {
        return Some(ScriptFault::NoSuchChannel);
    }
    if again {
        return Some(ScriptFault::DoubleChannel);
    }
    if !suits(kind, said) {
        return Some(ScriptFault::BadLine);
    }
    if !fits(kind, channel.width, said) {
        return Some(ScriptFault::TooWide);
    }
    if values + values_in(kind, said) > MOST_VALUES {
        return Some(ScriptFault::TooManyValues);
    }
    None
}

/// How many values the environment receives, where these are the numbers of a line.
fn count_of(numbers: &[u64]) -> Count
    ensures { takes result ≡ offer_of Kind.Out (Some (Said.Numbers numbers.now)) }
{
    match numbers {
        [only] => Count::Times(*only),
        _ => Count::All,
    }
}

/// What the environment does on a channel of the kind, where a line says this.
fn offer_of(alloc: Global, kind: Kind, said: Said) -> Offer
    ensures { offered result ≡ offer_of kind (Some said) }
{
    match (kind, said) {
        (Kind::In, Said::Numbers(numbers)) => Offer::Values(numbers.into_items()),
        (Kind::In, Said::Every) => Offer::Values(Vec::new(alloc)),
        (Kind::Out, Said::Numbers(numbers)) => Offer::Accept(count_of(numbers.items())),
        (Kind::Out, Said::Every) => Offer::Accept(Count::All),
        (Kind::Chan, _) => Offer::Nothing,
    }
}

/// What a line that says this does on the channel of this number: `again` and `values` are as for `fault_on`.
fn step_on(
    alloc: Global,
    channel: &Channel,
    again: bool,
    values: usize,
    place: usize,
    said: Said,
) -> Step
    requires width { channel.now.width ≤ 64 }
    requires values { values ≤ 65536 }
    ensures { IsStepOn channel.now again values place said result }
{
    if let Some(fault) = fault_on(channel, again, values, &said) {
        return Step::Refused(fault);
    }
    let values = values_in(channel.kind, &said);
    let offer = offer_of(alloc, channel.kind, said);
    Step::Take(Taken {
        place,
        offer,
        values,
    })
}

/// What the line does, where the marked channels already had a line and so many values came before.
fn step_of_line(
    alloc: Global,
    channels: &ChannelIndex,
    told: &[bool],
    values: usize,
    line: Line,
) -> Step
    requires widths { All (λ (c : Channel). c.width ≤ 64) channels.now }
    requires told { length told.now ≡ length channels.now }
    requires values { values ≤ 65536 }
    ensures { (words : List (List ℕ)) → LineSays words line → IsStepOf channels.now told.now values words result }
{
    match channels.find(line.name.bytes()) {
        Some(place) => {
            let channel = &channels.channels()[place];
            step_on(alloc, channel, told[place], values, place, line.said)
        }
        None => Step::Refused(ScriptFault::NoSuchChannel),
    }
}

/// What a line of these words does, as `step_of` of the whole line.
fn step_of_words(
    alloc: Global,
    channels: &ChannelIndex,
    told: &[bool],
    values: usize,
    words: &[&[u8]],
) -> Result<Step, AllocError>
    requires widths { All (λ (c : Channel). c.width ≤ 64) channels.now }
    requires told { length told.now ≡ length channels.now }
    requires values { values ≤ 65536 }
    ensures { IfOk result (IsStepOf channels.now told.now values (map (λ word. word.now) words.now)) }
{
    if words.is_empty() {
        return Ok(Step::Skip);
    }
    match line_in(alloc, words)? {
        Some(line) => Ok(step_of_line(alloc, channels, told, values, line)),
        None => Ok(Step::Refused(ScriptFault::BadLine)),
    }
}

/// What the line does, where the marked channels already had a line and so many values came before.
pub fn step_of(
    alloc: Global,
    channels: &ChannelIndex,
    told: &[bool],
    values: usize,
    line: &[u8],
) -> Result<Step, AllocError>
    requires widths { All (λ (c : Channel). c.width ≤ 64) channels.now }
    requires told { length told.now ≡ length channels.now }
    requires values { values ≤ 65536 }
    ensures { IfOk result (IsStepOf channels.now told.now values (words_of line.now)) }
{
    let words = words_of(alloc, line)?;
    step_of_words(alloc, channels, told, values, &words)
}
