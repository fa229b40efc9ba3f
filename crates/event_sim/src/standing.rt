//! What is offered on a channel in place of what a script lists.

ghost use Rattle.std.specs.Prelude.{◌≡◌, ◌<◌, length, Some, None, IfOk};
ghost use Rattle.prs_core.specs.Moves.{high};
ghost use Rattle.env_script.specs.Offers.{offered};
ghost use Rattle.env_script.specs.Environment.{offer_moves};
ghost use Rattle.env_script.specs.Wired.{IsWired};
ghost use Rattle.event_sim.specs.Locality.{has_no_part};
ghost use Rattle.event_sim.specs.Standings.{one_like, offered_count};

use env_script::{Count, Offer, offer_moves};
use prs_core::{State, Wires};
use std::alloc::{AllocError, Global};
use std::marker::Model;

/// One value or one acceptance, and how many times it is offered in place of what a script lists, where it is.
#[derive(Drop)]
pub(crate) struct Standing {
    one: Offer,
    times: Option<u64>,
}

impl Model for Standing {
    ghost use Rattle.std.specs.Prelude.{◌≡◌, true};
    ghost use Rattle.env_script.specs.Offers.{offered};
    ghost use Rattle.event_sim.specs.Standings.{StandingValue, standing_of, is_one};

    ghost Value = { StandingValue };

    ghost view = { λ s. standing_of (offered s.one) s.times };

    ghost invariant = { λ s. is_one (offered s.one) ≡ true };
}

fn one_like(alloc: Global, listed: &Offer) -> Result<Offer, AllocError>
    ensures { IfOk result (λ o. offered o ≡ one_like (offered listed.now)) }
{
    match listed {
        Offer::Values(_) => {
            let mut values = Vec::new(alloc);
            values.push(0)?;
            Ok(Offer::Values(values))
        }
        Offer::Accept(_) => Ok(Offer::Accept(Count::Times(1))),
        Offer::Nothing => Ok(Offer::Nothing),
    }
}

/// How many values or acceptances a script lists, where that is a number.
fn number_listed(listed: &Offer) -> Option<u64>
    ensures { result ≡ offered_count (offered listed.now) }
{
    match listed {
        Offer::Values(values) => Some(values.len() as u64),
        Offer::Accept(Count::Times(most)) => Some(*most),
        Offer::Accept(Count::All) | Offer::Nothing => None,
    }
}

/// Whether the environment has no part in the channel of this offer.
fn is_nothing(offer: &Offer) -> bool
    ensures { result ≡ has_no_part (offered offer.now) }
{
    match offer {
        Offer::Nothing => true,
        Offer::Values(_) | Offer::Accept(_) => false,
    }
}

impl Standing {
    ghost use Rattle.event_sim.specs.Standings.{StandingValue, standing_of, stands, one_now};

    /// One that is not in use, for a channel on which a script lists this.
    pub(crate) fn new(alloc: Global, listed: &Offer) -> Result<Standing, AllocError>
        ensures { IfOk result (λ s. s ≡ standing_of (one_like (offered listed.now)) None) }
    {
        let one = one_like(alloc, listed)?;
        Ok(Standing { one, times: None })
    }

    /// Whether the environment has no part in the channel.
    pub(crate) fn is_nothing(&self, listed: &Offer) -> bool
        ensures { result ≡ has_no_part (stands self.now.times self.now.one (offered listed.now)) }
    {
        match self.times {
            None => is_nothing(listed),
            Some(_) => is_nothing(&self.one),
        }
    }

    /// Whether the environment may move the node as a wire of the channel, on which so many values are completed.
    pub(crate) fn moves(
        &self,
        listed: &Offer,
        wires: &Wires,
        state: &State,
        done: u64,
        node: u32,
    ) -> bool
        requires wired { IsWired (length state.now) wires.now }
        requires node { node < length state.now }
        ensures { result ≡ offer_moves (high state.now) wires.now
            (stands self.now.times self.now.one (offered listed.now)) done node }
    {
        match self.times {
            None => offer_moves(state, wires, listed, done, node),
            Some(times) => {
                let place = if done < times { 0 } else { 1 };
                offer_moves(state, wires, &self.one, place, node)
            }
        }
    }

    /// How many values or acceptances are offered, where that is a number.
    pub(crate) fn number(&self, listed: &Offer) -> Option<u64>
        ensures { result ≡ offered_count (stands self.now.times self.now.one (offered listed.now)) }
    {
        match self.times {
            None => number_listed(listed),
            Some(_) if is_nothing(&self.one) => None,
            Some(times) => Some(times),
        }
    }

    /// It is in use so many times from now on, with this value where it is one of values.
    pub(crate) fn set(&mut self, times: u64, value: u64)
        ensures { self.new ≡ standing_of (one_now value self.old.one) (Some times) }
    {
        self.times = Some(times);
        if let Offer::Values(values) = &mut self.one {
            values[0] = value;
        }
    }
}
