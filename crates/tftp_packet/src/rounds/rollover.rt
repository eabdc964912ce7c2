ghost use Rattle.std.specs.Prelude.{◌≡◌, ◌<◌, ◌^◌};
ghost use Rattle.tftp_packet.specs.Rounds.Reading.{position_of};

/// Half a round: how many blocks late a block or an ACK may pass.
const HALF_ROUND: u32 = 32_767;

/// What comes after block 65535.
#[derive(Clone, Copy, Debug, PartialEq, Eq)]
pub enum Rollover {
    /// The number 0, as nearly all software has it.
    Zero,
    /// The number 1.
    One,
}

impl Rollover {
    /// The one block near that has this number, where no block above `highest` has passed. It takes no memory.
    #[inline]
    pub fn position(self, highest: u32, number: u16) -> u32
        requires { highest < 2 ^ 31 }
        ensures { result ≡ position_of self highest number }
    {
        let oldest = highest.saturating_sub(HALF_ROUND);
        match self {
            Rollover::Zero => oldest + (65_536 + u32::from(number) - oldest % 65_536) % 65_536,
            Rollover::One => {
                if number == 0 {
                    return 0;
                }
                let below = oldest.saturating_sub(1);
                1 + below + (65_534 + u32::from(number) - below % 65_535) % 65_535
            }
        }
    }
}
