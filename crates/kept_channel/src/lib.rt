// A channel that a host keeps from call to call, with what its configuration comes to.
//
// Promises: a clause that names a `KeptChannel` speaks of its channel; `is_sound` says whether that is sound. Leaves to others: the
// calls on it (`tick`, `reception`, `dispatch_in_place`).
#![tactic(auto)]

ghost use Rattle.std.specs.Prelude.{◌≡◌};
ghost use Rattle.channel.specs.Channel.{sound};

use channel::state::Channel;
use soundness::Prepared;
use std::marker::Model;

#[derive(Drop)]
pub struct KeptChannel {
    pub channel: Channel,
    prepared: Prepared,
}

// No call changes a configuration or its ticks, so that this holds after each.
impl Model for KeptChannel {
    ghost use Rattle.std.specs.Prelude.{◌≡◌};
    ghost use Rattle.channel.specs.declared.state.Channel.{Channel};
    ghost use Rattle.soundness.specs.Kept.{prepared_of};

    ghost Value = { Channel };

    ghost view = { λ k. k.channel };

    ghost invariant = { λ k. k.prepared ≡ prepared_of k.channel.own.config k.channel.own.ticks };
}

impl KeptChannel {
    pub fn new(ch: Channel) -> KeptChannel
        ensures { result ≡ ch }
    {
        KeptChannel {
            channel: ch,
            prepared: Prepared::new(ch.own.config, ch.own.ticks),
        }
    }

    // Is its state sound?
    #[tactic(auto, using(soundness::proofs::Alike::prepared_alike), unfolding(channel::specs::Channel::sound))]
    pub fn is_sound(&self) -> bool
        ensures { result ≡ sound self.now }
    {
        let own = &self.channel.own;
        self.prepared
            .is_sound(own.mode, own.traffic, &own.era, &self.channel.eira)
    }
}
