// Channels: a join has those of either route, a chain those that both have.
ghost use Rattle.std.specs.Prelude.{◌≡◌};
ghost use Rattle.kinds.specs.ChannelSets.{channel_sets};
ghost use Rattle.kinds.specs.ChannelSetsLemmas.{channel_sets_lawful};

use crate::cells::Channels;
use crate::kind::Kind;

impl Channels {
    /// The channels whose bits are set.
    #[tactic(auto, using(crate::specs::Equal::channels_equal))]
    pub fn new(set: u64) -> Channels
        ensures set { result.set ≡ set }
        ensures only { (x : Channels) → x.set ≡ set → result ≡ x }
    {
        Channels { set }
    }
}

impl Kind for Channels {
    ghost ops = { channel_sets };

    ghost lawful = { channel_sets_lawful };

    fn join(self, other: Channels) -> Channels {
        Channels::new(self.set | other.set)
    }

    fn chain(self, other: Channels) -> Channels {
        Channels::new(self.set & other.set)
    }

    fn none() -> Channels {
        Channels::new(0)
    }

    fn here() -> Channels {
        Channels::new(u64::MAX)
    }

    fn equals(self, other: Channels) -> bool {
        self == other
    }
}
