ghost use Rattle.std.specs.Prelude.{◌≡◌, IsTrue};
ghost use Rattle.tftp_packet.specs.{Message, Spells};

use std::alloc::Global;
use std::marker::Model;
use tftp_nego::Agreed;
use tftp_packet::Bytes;

/// The OACK that answered the request: what it agrees to, and the bytes that it came in (RFC 2347).
#[derive(Drop)]
pub struct FirstOack {
    agreed: Agreed,
    // empty until they are kept, and where there is no memory for them
    bytes: Bytes,
}

impl Model for FirstOack {
    ghost use Rattle.tftp_packet.specs.OptionMaps.{OptionMap};
    ghost use Rattle.tftp_packet.specs.Owned.{options_code};
    ghost use Rattle.tftp_judge.specs.Kept.{AreOackBytes};

    ghost Value = { OptionMap };

    ghost coded = { options_code };

    ghost view = { λ o. o.agreed };

    ghost invariant = { λ o. AreOackBytes o.bytes o.agreed };
}

impl FirstOack {
    /// An OACK that agrees to this, whose bytes are not kept yet. Takes no memory.
    pub fn of(alloc: Global, agreed: Agreed) -> Self
        ensures { result ≡ agreed }
    {
        FirstOack {
            agreed,
            bytes: Bytes::of(Vec::new(alloc)),
        }
    }

    /// What it agrees to, borrowed.
    #[inline]
    pub fn agreed(&self) -> &Agreed
        ensures { result.now ≡ self.now }
    {
        &self.agreed
    }

    /// What it agrees to.
    pub fn into_agreed(self) -> Agreed
        ensures { result ≡ self }
    {
        self.agreed
    }

    /// Keeps the bytes of the OACK, so that it is known by them when it comes again. Where there is no memory for them none
    /// are kept, and it is read again.
    pub fn keep(&mut self, alloc: Global, payload: &[u8])
        requires { Spells payload.now (Message.Oack self.old) }
        ensures { self.new ≡ self.old }
    {
        if let Ok(bytes) = Vec::from_slice(alloc, payload) {
            self.bytes = Bytes::of(bytes);
        }
    }

    /// Whether bytes are kept.
    #[inline]
    pub fn has_kept(&self) -> bool {
        !self.bytes.as_slice().is_empty()
    }

    /// Whether the bytes that are kept are these, which spell the OACK then.
    #[inline]
    pub fn has_bytes(&self, payload: &[u8]) -> bool
        ensures { IsTrue result → Spells payload.now (Message.Oack self.now) }
    {
        !payload.is_empty() && payload == self.bytes.as_slice()
    }
}
