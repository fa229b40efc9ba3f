//! What the environment does: what a script lists, and what is offered in its place.

ghost use Rattle.std.specs.Prelude.{◌≡◌, ◌+◌, ◌<◌, ◌^◌, length, map, slice_index, IfOk, IsSome, IfSome, Some, None};
ghost use Rattle.prs_core.specs.Moves.{high};
ghost use Rattle.env_script.specs.Scripts.{offer_at};
ghost use Rattle.env_script.specs.Offers.{offered};
ghost use Rattle.env_script.specs.Environment.{offer_moves};
ghost use Rattle.env_script.specs.Wired.{IsWired};
ghost use Rattle.event_sim.specs.Locality.{has_no_part};
ghost use Rattle.event_sim.specs.Standings.{standing_of, one_like, offered_count, is_done, script_and};

use crate::standing::Standing;
use env_script::{Offer, Script};
use prs_core::{State, Wires};
use std::alloc::{AllocError, Global};
use std::marker::Model;

/// A script, seen as its offers, with what is offered in their place.
#[derive(Drop)]
pub(crate) struct Offers {
    script: Script,
    standing: Vec<Standing>,
}

impl Model for Offers {
    ghost use Rattle.std.specs.Prelude.{◌≡◌, true, List};
    ghost use Rattle.env_script.specs.Scripts.{OfferValue};
    ghost use Rattle.event_sim.specs.Standings.{script_with, are_alike};

    ghost Value = { List OfferValue };

    ghost view = { λ o. script_with o.standing.items o.script };

    ghost invariant = { λ o. are_alike o.standing.items o.script ≡ true };
}

fn none_standing(alloc: Global, offers: &[Offer]) -> Result<Vec<Standing>, AllocError>
    ensures { IfOk result (λ v. v.items ≡ map (λ o. standing_of (one_like (offered o)) None) offers.now) }
{
    let mut standing = Vec::with_capacity(alloc, offers.len())?;
    for offer in offers {
        standing.push(Standing::new(alloc, offer)?)?;
    }
    Ok(standing)
}

impl Offers {
    /// The script's own offers.
    pub(crate) fn new(alloc: Global, script: Script) -> Result<Offers, AllocError>
        ensures { IfOk result (λ o. o ≡ script) }
    {
        let standing = none_standing(alloc, script.offers())?;
        Ok(Offers { script, standing })
    }

    /// Whether the environment has no part in the channel.
    pub(crate) fn is_nothing(&self, chan: u32) -> bool
        requires { chan < length self.now }
        ensures { result ≡ has_no_part (offer_at self.now chan) }
    {
        self.standing[chan as usize].is_nothing(self.script.offer(chan))
    }

    /// Whether the environment may move the node as a wire of the channel, on which so many values are completed.
    pub(crate) fn moves(
        &self,
        chan: u32,
        wires: &Wires,
        state: &State,
        done: u64,
        node: u32,
    ) -> bool
        requires chan { chan < length self.now }
        requires wired { IsWired (length state.now) wires.now }
        requires node { node < length state.now }
        ensures { result ≡ offer_moves (high state.now) wires.now (offer_at self.now chan) done node }
    {
        self.standing[chan as usize].moves(self.script.offer(chan), wires, state, done, node)
    }

    /// How many values or acceptances are offered on the channel, where that is a number.
    pub(crate) fn number(&self, chan: u32) -> Option<u64>
        requires { chan < length self.now }
        ensures { result ≡ offered_count (offer_at self.now chan) }
    {
        self.standing[chan as usize].number(self.script.offer(chan))
    }

    /// Offers one more value on the channel, in place of all values before it too, or makes one more acceptance.
    pub(crate) fn add(&mut self, chan: u32, value: u64)
        requires chan { chan < length self.old }
        requires number { IsSome (offered_count (offer_at self.old chan)) }
        requires few { IfSome (offered_count (offer_at self.old chan)) (λ n. n < 2 ^ 63) }
        ensures { self.new ≡ script_and chan value self.old }
    {
        let number = self.number(chan).unwrap();
        self.standing[chan as usize].set(number + 1, value);
    }
}
