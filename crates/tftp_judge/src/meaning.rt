use crate::file::{CarriedFile, FileBytes};
use std::marker::Model;
use tftp_packet::{Options, Request};

/// What a whole transfer means (RFC 1350, sections 1 and 2; RFC 2347). Only a judge makes one. The file is read once it is
/// asked for, and until then kept as the wire that came.
#[derive(Debug, Drop)]
pub struct Meaning {
    request: Request,
    agreed: Options,
    file: CarriedFile,
    blocks: u32,
}

/// A meaning taken apart.
#[derive(Debug, Drop)]
pub struct MeaningParts {
    /// What the client asked for.
    pub request: Request,
    /// The options that the server agreed to, perhaps none.
    pub agreed: Options,
    /// The bytes of the file, or of its canonical wire where that is the one which came.
    pub file: FileBytes,
    /// How many blocks the canonical wire of the file has, the last one too.
    pub blocks: u32,
}

impl Model for Meaning {
    ghost use Rattle.std.specs.Prelude.{◌≡◌};
    ghost use Rattle.law_model.specs.Model.Meanings.{Meaning as Parts};
    ghost use Rattle.law_end.specs.Writable.{blocks_of, CanBeNumbered};
    ghost use Rattle.law_end.specs.Owned.{meaning_code, meaning_from};

    ghost Value = { Parts };

    ghost coded = { meaning_code };

    ghost view = { λ m. meaning_from (m.request, (m.agreed, m.file.1)) };

    ghost invariant = { λ m. CanBeNumbered (meaning_from (m.request, (m.agreed, m.file.1))) × (m.blocks ≡ blocks_of (meaning_from (m.request, (m.agreed, m.file.1)))) × (m.file.0 ≡ m.request.mode) };
}

impl Meaning {
    ghost use Rattle.std.specs.Prelude.{◌≡◌, length};
    ghost use Rattle.law_model.specs.Model.Meanings.{request_of};
    ghost use Rattle.law_end.specs.Writable.{blocks_of, CanBeNumbered};
    ghost use Rattle.law_end.specs.Owned.{meaning_from};
    ghost use Rattle.tftp_judge.specs.Contents.{file_in, IsCanonical};

    /// Takes the parts over, and no memory. The number of the blocks is that of the canonical wire.
    pub(crate) fn of(request: Request, agreed: Options, file: CarriedFile, blocks: u32) -> Self
        requires can { CanBeNumbered (meaning_from (request, (agreed, file.1))) }
        requires counted { blocks ≡ blocks_of (meaning_from (request, (agreed, file.1))) }
        requires mode { file.0 ≡ request.mode }
        ensures { result ≡ meaning_from (request, (agreed, file.1)) }
    {
        Meaning {
            request,
            agreed,
            file,
            blocks,
        }
    }

    /// What the client asked for: the side, the file's name, the mode and the options (RFC 1350, section 5).
    #[inline]
    pub fn request(&self) -> &Request
        ensures { result.now ≡ request_of self.now }
    {
        &self.request
    }

    /// The options that the server agreed to (RFC 2347), perhaps none.
    #[inline]
    pub fn agreed(&self) -> &Options
        ensures { result.now ≡ self.now.agreed }
    {
        &self.agreed
    }

    /// How many bytes the file has.
    #[inline]
    pub fn file_len(&self) -> u64
        ensures { result ≡ length self.now.file }
    {
        self.file.len()
    }

    /// The bytes of the file (RFC 1350, section 1). In netascii they are read now, where those of the wire stand, so that no
    /// memory is taken.
    pub fn into_file(self) -> Vec<u8>
        ensures { result.items ≡ self.file }
    {
        let Meaning { file, .. } = self;
        file.into_bytes()
    }

    /// All parts; the file is read as `into_file` reads it only where the wire that came is not the canonical one. Whatever
    /// is meant can be written.
    pub fn into_parts(self) -> MeaningParts
        ensures parts { meaning_from (result.request, (result.agreed, file_in result.request.mode result.file)) ≡ self }
        ensures canonical { IsCanonical result.request.mode result.file }
        ensures count { result.blocks ≡ blocks_of self }
        ensures can { CanBeNumbered self }
    {
        let Meaning {
            request,
            agreed,
            file,
            blocks,
        } = self;
        MeaningParts {
            request,
            agreed,
            file: file.into_file_bytes(),
            blocks,
        }
    }

    /// How many blocks the canonical wire of the file has, the last one too (RFC 1350, section 2), which may be other than
    /// those that came: in netascii a file has several wires. Whatever is meant can be written: the file fits on that wire,
    /// and each of its packets goes into a datagram.
    #[inline]
    pub fn blocks(&self) -> u32
        ensures count { result ≡ blocks_of self.now }
        ensures can { CanBeNumbered self.now }
    {
        self.blocks
    }
}
