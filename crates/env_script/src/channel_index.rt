//! Channels, of which the first one of a name is found by a table.

ghost use Rattle.std.specs.Prelude.{◌≡◌, IfOk, position, bytes_eq};
ghost use Rattle.chp_base.specs.declared.channel.Channel.{Channel};

use chp_base::Channel;
use std::alloc::{AllocError, Global};
use std::collections::BTreeMap;
use std::marker::Model;

/// Channels, with the place of the first one of each name. They are seen as the list of the channels. Whoever writes a
/// program chooses the names, so the table is in order: no choice of names makes it slow.
#[derive(Drop)]
pub struct ChannelIndex<'a> {
    channels: &'a [Channel],
    places: BTreeMap<&'a [u8], usize>,
}

impl<'a> Model for ChannelIndex<'a> {
    ghost use Rattle.std.specs.Prelude.{List};
    ghost use Rattle.chp_base.specs.declared.channel.Channel.{Channel};
    ghost use Rattle.env_script.specs.NamePlaces.{IsPlaceTable};

    ghost Value = { List Channel };

    ghost view = { λ i. i.channels.now };

    ghost invariant = { λ i. IsPlaceTable i.channels.now i.places };
}

impl<'a> ChannelIndex<'a> {
    /// The channels with a table of their names.
    pub fn from_channels(
        alloc: Global,
        channels: &'a [Channel],
    ) -> Result<ChannelIndex<'a>, AllocError>
        ensures { IfOk result (λ index. index ≡ channels.now) }
    {
        let mut places = BTreeMap::new(alloc);
        for (place, channel) in channels.iter().enumerate() {
            let name = channel.name.bytes();
            if !places.contains_key(name) {
                places.insert(name, place)?;
            }
        }
        Ok(ChannelIndex { channels, places })
    }

    /// The channels, in order.
    pub fn channels(&self) -> &[Channel]
        ensures { result.now ≡ self.now }
    {
        self.channels
    }

    /// The number of the first channel with the name, or None where there is none.
    pub fn find(&self, name: &[u8]) -> Option<usize>
        ensures { result ≡ position (λ (c : Channel). bytes_eq c.name name.now) self.now }
    {
        self.places.get(name).copied()
    }
}
