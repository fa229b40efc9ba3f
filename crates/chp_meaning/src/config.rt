//! Configurations: the state of a program under a script.

ghost use Rattle.std.specs.Prelude.{◌≡◌, ◌<◌, map, length, replicate, [], false, None, IfOk};
ghost use Rattle.env_script.specs.Offers.{offered};
ghost use Rattle.env_script.specs.Scripts.{IsScript};
ghost use Rattle.env_script.specs.Runs.{history_at};
ghost use Rattle.width_check.specs.Typed.{program_of};
ghost use Rattle.width_check.specs.View.{process_of};
ghost use Rattle.chp_meaning.specs.Terms.{opened, is_finished};
ghost use Rattle.chp_meaning.specs.Steps.{start_of};
ghost use Rattle.chp_meaning.specs.Remaining.{IsRunnable};
ghost use Rattle.chp_meaning.specs.Standing.{offer_of_rest, items_of, histories_of, configuration_of, IsStanding};
ghost use Rattle.chp_meaning.specs.Ends.{seen, IsOf};

use crate::left::{Left, is_done, opened};
use env_script::{Count, Offer, Script};
use std::alloc::{AllocError, Global};
use width_check::{TStmt, Typed, Var};

/// What the environment still does on a channel.
#[derive(Drop)]
pub(crate) enum Rest {
    /// It sends these values, from the one of this number on.
    Gives { values: Vec<u64>, sent: usize },
    /// It receives.
    Takes { count: Count },
    /// It has no part in the channel.
    Nothing,
}

/// The state of a program under a script between two rounds: what is left of it, the value of each variable, what is
/// left of the script, and the values that have passed on each channel.
#[derive(Drop)]
pub struct Config {
    pub(crate) left: Left,
    pub(crate) store: Vec<u64>,
    pub(crate) rests: Vec<Rest>,
    pub(crate) histories: Vec<Vec<u64>>,
    // Within a round: where a send waits, and into which variable a receive that waits takes its value.
    pub(crate) sends: Vec<bool>,
    pub(crate) receives: Vec<Option<u32>>,
}

fn first_values(alloc: Global, vars: &[Var]) -> Result<Vec<u64>, AllocError>
    ensures { IfOk result (λ store. store.items ≡ map (λ var. var.first) vars.now) }
{
    vars.iter().map(|var| var.first).collect(alloc)
}

fn whole_offer(alloc: Global, offer: &Offer) -> Result<Rest, AllocError>
    ensures { IfOk result (λ rest. offer_of_rest rest ≡ offered offer.now) }
{
    match offer {
        Offer::Values(values) => {
            let values = Vec::from_slice(alloc, values)?;
            Ok(Rest::Gives { values, sent: 0 })
        }
        Offer::Accept(count) => Ok(Rest::Takes { count: *count }),
        Offer::Nothing => Ok(Rest::Nothing),
    }
}

/// All of a script.
fn whole_script(alloc: Global, script: &Script) -> Result<Vec<Rest>, AllocError>
    ensures { IfOk result (λ rests. map offer_of_rest rests.items ≡ script.now) }
{
    let mut rests = Vec::new(alloc);
    for offer in script.offers() {
        rests.push(whole_offer(alloc, offer)?)?;
    }
    Ok(rests)
}

/// So many empty histories.
fn no_values(alloc: Global, channels: usize) -> Result<Vec<Vec<u64>>, AllocError>
    ensures { IfOk result (λ histories. items_of histories.items ≡ replicate channels []) }
{
    let mut histories = Vec::new(alloc);
    for _made in 0..channels {
        histories.push(Vec::new(alloc))?;
    }
    Ok(histories)
}

fn no_sends(alloc: Global, channels: usize) -> Result<Vec<bool>, AllocError>
    ensures { IfOk result (λ sends. sends.items ≡ replicate channels false) }
{
    vec![in alloc; false; channels]
}

fn no_receives(alloc: Global, channels: usize) -> Result<Vec<Option<u32>>, AllocError>
    ensures { IfOk result (λ receives. receives.items ≡ replicate channels None) }
{
    vec![in alloc; None; channels]
}

/// A program of so many channels before its first step.
pub(crate) fn begun(
    alloc: Global,
    channels: usize,
    store: Vec<u64>,
    body: &TStmt,
    script: &Script,
) -> Result<Config, AllocError>
    requires numbers { IsRunnable channels (length store.items) (process_of body.now) }
    requires script { length script.now ≡ channels }
    ensures standing { IfOk result (λ config. IsStanding (process_of body.now) config) }
    ensures start { IfOk result (λ config. configuration_of (process_of body.now) config ≡ record {
      term =
          opened (process_of body.now);
      store = store.items;
      rests = script.now;
      histories = replicate channels [];
    }) }
{
    let rests = whole_script(alloc, script)?;
    let histories = no_values(alloc, channels)?;
    let sends = no_sends(alloc, channels)?;
    let receives = no_receives(alloc, channels)?;
    Ok(Config {
        // Last: it isn't a list, so a way out that owns it is long.
        left: opened(alloc, body)?,
        store,
        rests,
        histories,
        sends,
        receives,
    })
}

/// The program before its first step, with its first values and the whole script.
pub fn start(alloc: Global, program: &Typed, script: &Script) -> Result<Config, AllocError>
    requires { IsScript program.now.channels script.now }
    ensures of { IfOk result (λ config. IsOf program.now config) }
    ensures start { IfOk result (λ config. seen program.now config ≡ start_of (program_of program.now) script.now) }
{
    begun(
        alloc,
        program.channels().len(),
        first_values(alloc, program.vars())?,
        program.body(),
        script,
    )
}

impl Config {
    /// Nothing of the program is left.
    pub fn is_done(&self) -> bool
        ensures { (program : _) → IsOf program self.now → result ≡ is_finished (seen program self.now).term }
    {
        is_done(&self.left)
    }

    /// The values that have passed on the channel of this number, the first one first.
    pub fn history(&self, chan: u32) -> &[u64]
        requires { chan < length (histories_of self.now) }
        ensures { result.now ≡ history_at (histories_of self.now) chan }
    {
        &self.histories[chan as usize]
    }

    /// The values that have passed on each channel, in the order in which the program declares them.
    pub fn histories(&self) -> &[Vec<u64>]
        ensures { items_of result.now ≡ histories_of self.now }
    {
        &self.histories
    }
}
