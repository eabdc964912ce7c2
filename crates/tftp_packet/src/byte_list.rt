ghost use Rattle.std.specs.Prelude.{◌≡◌, []};

use std::marker::Model;
use std::mem;

/// Bytes on the heap, seen as their list.
#[derive(Debug, Drop)]
pub struct Bytes {
    bytes: Vec<u8>,
}

impl Model for Bytes {
    ghost use Rattle.std.specs.Prelude.{ℕ, List};

    ghost Value = { List ℕ };

    ghost view = { λ b. b.bytes.items };
}

impl Bytes {
    ghost use Rattle.std.specs.Borrow.{Lends, sem};
    ghost use Rattle.tftp_packet.specs.contracts.byte_list.Bytes.{the_row};
    ghost use Rattle.tftp_packet.specs.Rows.{vector_row};

    /// Takes a vector over, and no memory.
    pub fn of(bytes: Vec<u8>) -> Self
        ensures { result ≡ bytes.items }
    {
        Bytes { bytes }
    }

    /// The bytes, borrowed.
    #[inline]
    pub fn as_slice(&self) -> &[u8]
        ensures { result.now ≡ self.now }
    {
        self.bytes.as_slice()
    }

    /// Gives the vector back, and takes no memory.
    pub fn into_vec(self) -> Vec<u8>
        ensures { result.items ≡ self }
    {
        let Bytes { bytes } = self;
        bytes
    }

    /// The vector, to be filled where it is: the bytes are then what is left in it.
    #[inline]
    pub fn as_mut_vec(&mut self) -> &mut Vec<u8>
        ensures* writes_back { sem 𝓛 (Lends the_row vector_row self.entry result (λ vector. vector.items)) }
        ensures value { result.now.items ≡ self.old }
    {
        &mut self.bytes
    }

    /// Hands the vector out, to be filled anew, and keeps an empty one; it takes no memory.
    pub fn take(&mut self) -> Vec<u8>
        ensures value { result.items ≡ self.old }
        ensures empty { self.new ≡ [] }
    {
        let empty = Vec::new(*self.bytes.allocator());
        mem::replace(&mut self.bytes, empty)
    }
}
