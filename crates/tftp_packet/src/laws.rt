ghost use Rattle.std.specs.Prelude.{◌≡◌, ◌∷◌, ◌++◌, [], ◌<◌, ◌≤◌, ℕ, List, codes, length, option_map};
ghost use Rattle.tftp_packet.specs.Messages.{Message};
ghost use Rattle.tftp_packet.specs.OptionMaps.{OptionValue, value_of};
ghost use Rattle.std.specs.FinMap as map;
ghost use Rattle.std.specs.List.{AllByRecursion};
ghost use Rattle.tftp_packet.specs.Written.{terminated, strings, Pair, AreApart, map_of, text_of, WrittenRequest};
ghost use Rattle.tftp_packet.specs.AsWritten.{IsWrittenRequest, IsWrittenOack};
ghost use Rattle.tftp_packet.specs.Worked.{capitals_oack, capitals_request, capital_window, capital_size, capital_request, long_name};
ghost use Rattle.tftp_packet.specs.Spelling.{Spells, octet_read};
ghost use Rattle.tftp_packet.specs.Canonical.{canonical};
ghost use Rattle.tftp_packet.specs.Faults.{FirstFault};
ghost use Rattle.tftp_packet.specs.declared.fault.PacketFault.{PacketFault};

/// A payload spells at most one message.
#[tactic(auto, using(crate::proofs::Unique::one_message))]
pub fn spells_one_message()
    ensures { (payload : List ℕ) (m n : Message) → Spells payload m → Spells payload n → m ≡ n }
{}

/// A payload has at most one first fault.
#[tactic(auto, using(crate::proofs::FaultOrder::first_fault_unique))]
pub fn first_fault_is_one()
    ensures { (payload : List ℕ) (f g : PacketFault) → FirstFault payload f → FirstFault payload g → f ≡ g }
{}

/// A payload that spells a message has none of the faults.
#[tactic(auto, using(crate::proofs::NoFault::no_fault))]
pub fn spelled_has_no_fault()
    ensures { (payload : List ℕ) (m : Message) (f : PacketFault) → Spells payload m → FirstFault payload f → ⊥ }
{}

/// Where a payload is bytes, the block that it spells has a number of two bytes (RFC 1350, section 5).
pub fn bytes_spell_blocks_of_two_bytes()
    ensures data { (payload bytes : List ℕ) (k : ℕ) → AllByRecursion (λ b. b < 256) payload → Spells payload (Message.Data k bytes) → k ≤ 65535 }
    ensures ack { (payload : List ℕ) (k : ℕ) → AllByRecursion (λ b. b < 256) payload → Spells payload (Message.Ack k) → k ≤ 65535 }
{}

/// Worked examples (RFC 1350, section 5): a request to read `a` in octet mode, the block 1 of `hi`, and its
/// acknowledgement; and a block and an acknowledgement above 65535, which no bytes spell.
pub fn worked_spellings()
    ensures request { Spells (0 ∷ 1 ∷ 97 ∷ 0 ∷ 111 ∷ 99 ∷ 116 ∷ 101 ∷ 116 ∷ 0 ∷ []) (Message.Request (octet_read (97 ∷ []))) }
    ensures data { Spells (0 ∷ 3 ∷ 0 ∷ 1 ∷ 104 ∷ 105 ∷ []) (Message.Data 1 (104 ∷ 105 ∷ [])) }
    ensures ack { Spells (0 ∷ 4 ∷ 1 ∷ 2 ∷ []) (Message.Ack 258) }
    ensures high_data { Spells (0 ∷ 3 ∷ 256 ∷ 1 ∷ 104 ∷ 105 ∷ []) (Message.Data 65537 (104 ∷ 105 ∷ [])) }
    ensures high_ack { Spells (0 ∷ 4 ∷ 256 ∷ 0 ∷ []) (Message.Ack 65536) }
{}

/// What is written for a message that some payload spells, spells it too.
#[tactic(auto, using(crate::proofs::CanonicalLaws::spells_again))]
pub fn canonical_spells()
    ensures { (payload : List ℕ) (m : Message) → Spells payload m → Spells (canonical m) m }
{}

/// No spelling of a message is shorter than what is written for it.
#[tactic(auto, using(crate::proofs::CanonicalLaws::shortest))]
pub fn canonical_is_shortest()
    ensures { (payload : List ℕ) (m : Message) → Spells payload m → length (canonical m) ≤ length payload }
{}

/// Worked examples: what the values of options stand for (RFC 2348), and that leading zeros count for nothing.
pub fn worked_values()
    ensures number { value_of (codes "blksize") (codes "008") ≡ OptionValue.Num 8 }
    ensures below { value_of (codes "blksize") (codes "7") ≡ OptionValue.Text (codes "7") }
    ensures unknown { value_of (codes "blocks") (codes "8") ≡ OptionValue.Text (codes "8") }
    ensures empty { value_of (codes "tsize") [] ≡ OptionValue.Text [] }
{}

/// Worked examples: what is written for an acknowledgement and a block.
pub fn worked_canonicals()
    ensures ack { canonical (Message.Ack 258) ≡ 0 ∷ 4 ∷ 1 ∷ 2 ∷ [] }
    ensures data { canonical (Message.Data 1 (104 ∷ 105 ∷ [])) ≡ 0 ∷ 3 ∷ 0 ∷ 1 ∷ 104 ∷ 105 ∷ [] }
{}

/// A payload is one request, written, at most, and an OACK of one list of options.
pub fn written_is_one()
    ensures request { (payload : List ℕ) (r s : WrittenRequest) → IsWrittenRequest payload r → IsWrittenRequest payload s → r ≡ s }
    ensures oack { (payload : List ℕ) (ps qs : List Pair) → IsWrittenOack payload ps → IsWrittenOack payload qs → ps ≡ qs }
{}

/// Worked examples: a request in the mode `OctEt` with the option `BLKSIZE` 08, written; and an OACK of `WindowSize` 4
/// and `BLKSIZE` 08, written. It is no OACK of other bytes that mean the same: other letter case, another order, or no
/// leading zero.
pub fn worked_written()
    ensures request { IsWrittenRequest capitals_request capital_request }
    ensures oack { IsWrittenOack capitals_oack (capital_window ∷ capital_size ∷ []) }
    ensures letters { IsWrittenOack capitals_oack (capital_window ∷ (codes "blksize", codes "08") ∷ []) → ⊥ }
    ensures order { IsWrittenOack capitals_oack (capital_size ∷ capital_window ∷ []) → ⊥ }
    ensures zeros { IsWrittenOack capitals_oack (capital_window ∷ (codes "BLKSIZE", codes "8") ∷ []) → ⊥ }
{}

/// Worked examples: the first fault of payloads of a wrong length, of a wrong opcode, and of those in which a string
/// has no end: a request of one string, an OACK, and an ERROR with a byte after its end (RFC 1350, section 5).
pub fn worked_faults()
    ensures short { FirstFault (0 ∷ 3 ∷ []) PacketFault.Short }
    ensures opcode { FirstFault (0 ∷ 7 ∷ []) PacketFault.Opcode }
    ensures ack_length { FirstFault (0 ∷ 4 ∷ 0 ∷ 1 ∷ 0 ∷ []) PacketFault.AckLength }
    ensures request { FirstFault (0 ∷ 1 ∷ strings (codes "a" ∷ [])) PacketFault.NoTerminator }
    ensures oack { FirstFault (0 ∷ 6 ∷ codes "blksize") PacketFault.NoTerminator }
    ensures error { FirstFault (0 ∷ 5 ∷ 0 ∷ 1 ∷ terminated (codes "no") ++ 0 ∷ []) PacketFault.NoTerminator }
{}

/// Worked examples: the first fault of requests and OACKs whose options are wrong (RFC 2347). A later fault of the
/// mode counts for nothing, nor does the letter case of names.
pub fn worked_option_faults()
    ensures odd { FirstFault (0 ∷ 1 ∷ strings (codes "a" ∷ codes "mail" ∷ codes "blksize" ∷ [])) PacketFault.OddOptions }
    ensures unnamed { FirstFault (0 ∷ 6 ∷ strings ([] ∷ codes "8" ∷ [])) PacketFault.EmptyOptionName }
    ensures twice { FirstFault (0 ∷ 2 ∷ strings (codes "a" ∷ codes "octet" ∷ codes "blksize" ∷ codes "8" ∷ codes "BLKSIZE" ∷ codes "9" ∷ [])) PacketFault.DuplicateOption }
{}

/// Worked examples: the first fault of requests with another mode (RFC 1350, section 5), and of one whose 513 bytes
/// are one too many for a request with options (RFC 2347).
pub fn worked_mode_faults()
    ensures unknown { FirstFault (0 ∷ 1 ∷ strings (codes "a" ∷ codes "oct" ∷ [])) PacketFault.UnknownMode }
    ensures mail { FirstFault (0 ∷ 2 ∷ strings (codes "a" ∷ codes "Mail" ∷ [])) PacketFault.MailMode }
    ensures long { FirstFault (0 ∷ 1 ∷ strings (long_name ∷ codes "octet" ∷ codes "blksize" ∷ codes "8" ∷ [])) PacketFault.RequestTooLong }
{}

/// The map of options has, at a name in lower case, what the first text of that name stands for; and where no
/// two names are equal, it has as many names as there are options.
pub fn map_of_options()
    ensures value { (pairs : List Pair) (key : List ℕ) → map.get (map_of pairs) key ≡ option_map (value_of key) (text_of pairs key) }
    ensures count { (pairs : List Pair) → AreApart pairs → map.len (map_of pairs) ≡ length pairs }
{}
