//! Scripts.

ghost use Rattle.std.specs.Prelude.{◌≡◌, ◌<◌, length, map};

use std::marker::Model;

/// How many values the environment receives on a channel.
#[derive(Clone, Copy)]
pub enum Count {
    /// Each value that comes.
    All,
    /// This many values.
    Times(u64),
}

/// What the environment does on a channel.
#[derive(Drop)]
pub enum Offer {
    /// It sends these values, in this order.
    Values(Vec<u64>),
    /// It receives.
    Accept(Count),
    /// It has no part in the channel, which is inside of the program.
    Nothing,
}

/// What the environment does, seen as one offer for each channel.
#[derive(Drop)]
pub struct Script {
    offers: Vec<Offer>,
}

impl Model for Script {
    ghost use Rattle.std.specs.Prelude.{List, map};
    ghost use Rattle.env_script.specs.Scripts.{OfferValue};
    ghost use Rattle.env_script.specs.Offers.{offered};

    ghost Value = { List OfferValue };

    ghost view = { λ s. map offered s.offers.items };
}

impl Script {
    ghost use Rattle.env_script.specs.Scripts.{offer_at};
    ghost use Rattle.env_script.specs.Offers.{offered};

    /// The script of these offers, one for each channel in order.
    pub fn new(offers: Vec<Offer>) -> Script
        ensures { result ≡ map offered offers.items }
    {
        Script { offers }
    }

    /// The offers, one for each channel in order.
    pub fn offers(&self) -> &[Offer]
        ensures { map offered result.now ≡ self.now }
    {
        &self.offers
    }

    /// What the environment does on the channel of this number.
    pub fn offer(&self, chan: u32) -> &Offer
        requires { chan < length self.now }
        ensures { offered result.now ≡ offer_at self.now chan }
    {
        &self.offers[chan as usize]
    }
}
