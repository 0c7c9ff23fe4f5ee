// What a board answers where it exchanges nothing.
ghost use Rattle.std.specs.Prelude.{◌≡◌};
ghost use Rattle.refusal.specs.declared.Refusal.TheVariants.{Shut as ShutRefusal};

use refusal::Refusal;

// The board is shut with this channel.
#[derive(Clone, Copy, PartialEq, Eq, Debug)]
pub struct Shut {
    pub channel: u8,
}

impl From<Shut> for Refusal {
    ghost from_gives = { λ shut refusal. refusal ≡ ShutRefusal shut.channel };

    fn from(shut: Shut) -> Refusal {
        Refusal::Shut {
            channel: shut.channel,
        }
    }
}
