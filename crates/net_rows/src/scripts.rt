//! What a script says.

ghost use Rattle.env_script.specs.Environment.{net_channels};
ghost use Rattle.env_script.specs.Scripts.{IsScript};

use crate::bench::NetBench;
use crate::nets::net_of;
use crate::parts::put_cause;
use crate::runs::{MOST_OF_SCRIPT, script_of};
use case_text::Page;
use env_script::{Count, Offer, Script, ScriptError};
use prs_core::Net;
use std::alloc::Global;

/// Values of a channel that are printed.
const SHOWN: usize = 16;

fn put_offer(page: &mut Page, offer: &Offer) {
    match offer {
        Offer::Values(values) => {
            page.put("sends");
            if values.len() > SHOWN {
                page.numbers(&[values.len() as u64]);
                page.put(" values");
            } else {
                page.numbers(values);
            }
        }
        Offer::Accept(Count::All) => page.put("receives all"),
        Offer::Accept(Count::Times(times)) => {
            page.put("receives ");
            page.number(*times);
        }
        Offer::Nothing => page.put("nothing"),
    }
    page.put("\n");
}

/// What the script says of each channel of the net.
#[tactic(auto, using(crate::proofs::ScriptChannels::offered))]
fn put_offers(page: &mut Page, net: &Net, script: &Script)
    requires { IsScript (net_channels net.now) script.now }
{
    let Ok(channels) = u32::try_from(net.channels().len()) else {
        return page.put("too many channels\n");
    };
    for chan in 0..channels {
        put_offer(page, script.offer(chan));
    }
}

/// What the script says of each channel of the net, or the number and the line of the cause for which it is refused.
pub fn offers(alloc: Global, bench: &NetBench, page: &mut Page) {
    let Some(net) = net_of(alloc, bench, page) else {
        return page.put("no net\n");
    };
    let text = bench.script();
    if text.len() > MOST_OF_SCRIPT {
        return page.put("too long\n");
    }
    match script_of(alloc, &net, text) {
        Ok(script) => put_offers(page, &net, &script),
        Err(ScriptError::Refused { fault, line }) => put_cause(page, fault.number(), line),
        Err(ScriptError::NoMemory(_)) => page.give_up(),
    }
}
