//! Where a recording's transfers are judged.

ghost use Rattle.std.specs.Prelude.{◌≡◌};
ghost use Rattle.audit_recording.specs.Judges.Points.{points_of, rollover_of};

use crate::judges::loopback::is_loopback;
use audit_flows::lines::Transfer;
use tftp_packet::rounds::Rollover;

/// Where the transfers of a recording are judged.
#[derive(Clone, Copy, Debug, PartialEq, Eq)]
pub enum Judging {
    /// At no point: they are told apart, and that is all.
    Nowhere,
    /// At the client.
    Client,
    /// At the server.
    Server,
    /// At the client, where this comes after block 65535 (RFC 1350, section 5, gives numbers two bytes and says no more).
    ClientBy(Rollover),
    /// At the server, where this comes after block 65535.
    ServerBy(Rollover),
    /// Between the two ends.
    Between,
    /// Between the two ends, where this comes after block 65535.
    BetweenBy(Rollover),
    /// At both ends where the client asks at its own address, since both were recorded then if the recording was made at that
    /// host. And between the ends, unless what passed never left the host.
    WhereRecorded,
}

/// The points at which a transfer is judged.
#[derive(Clone, Copy, Debug, PartialEq, Eq)]
pub struct Points {
    /// At its client.
    pub client: bool,
    /// At its server.
    pub server: bool,
    /// Between the two.
    pub between: bool,
}

/// No point.
const NOWHERE: Points = Points {
    client: false,
    server: false,
    between: false,
};

impl Judging {
    /// The points at which a transfer is judged.
    pub fn points(self, transfer: &Transfer) -> Points
        ensures { result ≡ points_of self transfer.now }
    {
        match self {
            Judging::Nowhere => NOWHERE,
            Judging::Client | Judging::ClientBy(_) => Points {
                client: true,
                ..NOWHERE
            },
            Judging::Server | Judging::ServerBy(_) => Points {
                server: true,
                ..NOWHERE
            },
            Judging::Between | Judging::BetweenBy(_) => Points {
                between: true,
                ..NOWHERE
            },
            Judging::WhereRecorded => {
                let is_own_host = transfer.client.address == transfer.asked.address;
                let is_inside = is_own_host && is_loopback(&transfer.client.address);
                Points {
                    client: is_own_host,
                    server: is_own_host,
                    between: !is_inside,
                }
            }
        }
    }

    /// What comes after block 65535, where anything does.
    pub fn rollover(self) -> Option<Rollover>
        ensures { result ≡ rollover_of self }
    {
        match self {
            Judging::ClientBy(rollover)
            | Judging::ServerBy(rollover)
            | Judging::BetweenBy(rollover) => Some(rollover),
            _ => None,
        }
    }
}
