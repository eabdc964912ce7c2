//! The capture text of a transfer at an end.

ghost use Rattle.std.specs.Prelude.{◌≡◌, ◌++◌, ℕ, List, [], IfErr, IfOk, IsSome, OnErr, OnOk, Err, codes, string_bytes, true};
ghost use Rattle.std.specs.BTreeMap.{get};
ghost use Rattle.std.specs.Ordering.{nat_cmp};
ghost use Rattle.audit_recording.specs.Blame.Frames.{Carried, whole_of};
ghost use Rattle.audit_recording.specs.Blame.Kept.{IsTrailOf};
ghost use Rattle.audit_recording.specs.declared.judges.judging.Judging.{Judging as JudgingKind};
ghost use Rattle.audit_flows.specs.{Transfer as TransferKind};
ghost use Rattle.audit_recording.specs.Session.Kept.{IsSessionOf};
ghost use Rattle.audit_recording.specs.Session.Lines.{end_text};
ghost use Rattle.audit_recording.specs.Session.Noted.{Noticed};
ghost use Rattle.audit_recording.specs.Session.Plain.{plain};
ghost use Rattle.audit_recording.specs.Session.Texts.{IsHeadingFault, IsTextAt, IsTextFault, IsWhole, end_word, heading_text, is_wanted, ordinal, server_in, text_of};
ghost use Rattle.audit_views.specs.Texts.{IsComment};
ghost use Rattle.audit_recording.specs.declared.session.fault.TextFault.TheVariants.{LongName};
ghost use Rattle.net_streams.specs.Streams.{Wrote};
ghost use Rattle.net_udp.specs.Recording.{Step};

use crate::blame::Trail;
use crate::session::endpoint::shown;
use crate::session::fault::TextFault;
use crate::session::plain::{put_number, put_plain};
use crate::session::session::Session;
use audit_flows::lines::Endpoint;
use audit_views::texts::{Comment, TransferText};
use net_streams::streams::{LineWriter, WriteFault};
use std::alloc::{AllocError, Global};
use std::io::Write;
use tftp_packet::End;

/// The text of a transfer that is read, and which end it is wanted at: `text.write` writes it, with this heading.
#[derive(Drop)]
pub struct TextAt<'a> {
    /// The datagrams of the transfer.
    pub text: &'a TransferText,
    /// Which transfer of which file it is, at which end, and who its ends are.
    pub heading: Comment,
}

impl<'a> TextAt<'a> {
    /// The text at an end of the transfer with this number in the file of this name, of which all is read; it is wanted.
    pub fn find(
        alloc: Global,
        session: &'a Session,
        number: u64,
        end: End,
        file: &str,
    ) -> Result<Self, TextFault>
        ensures found { (named : List ℕ) (history : List Step) (carried : List Carried) (s : Noticed) → IsSessionOf session.now named [] history carried s
            → IfOk result (λ found. (key : ℕ) × (ordinal key (whole_of named carried) ≡ number) × IsTextAt found named carried key number end file.now) }
        ensures whole { (named : List ℕ) (history : List Step) (carried : List Carried) (s : Noticed) → IsSessionOf session.now named [] history carried s
            → IfOk result (λ found. IsWhole session.now.notes.fault found.text.now.transfer named carried s) }
        ensures why { (named : List ℕ) (history : List Step) (carried : List Carried) (s : Noticed) → IsSessionOf session.now named [] history carried s
            → is_wanted session.now.kept.wanted number ≡ true → IfErr result (IsTextFault session.now.notes.fault named carried s number end file.now) }
    {
        let key = session.key_of(alloc, number)?;
        TextAt::of(alloc, session, key, number, end, file)
    }

    /// The same of the transfer with this key, which has this number.
    pub fn of(
        alloc: Global,
        session: &'a Session,
        key: u64,
        number: u64,
        end: End,
        file: &str,
    ) -> Result<Self, TextFault>
        ensures found { (named out : List ℕ) (history : List Step) (carried : List Carried) (s : Noticed) → IsSessionOf session.now named out history carried s
            → IfOk result (λ found. IsTextAt found named carried key number end file.now) }
        ensures whole { (named out : List ℕ) (history : List Step) (carried : List Carried) (s : Noticed) → IsSessionOf session.now named out history carried s
            → IfOk result (λ found. IsWhole session.now.notes.fault found.text.now.transfer named carried s) }
        ensures why { (named out : List ℕ) (history : List Step) (carried : List Carried) (s : Noticed) → IsSessionOf session.now named out history carried s
            → ordinal key (whole_of named carried) ≡ number → IsSome (get nat_cmp session.now.trails key) → is_wanted session.now.kept.wanted number ≡ true
            → IfErr result (IsTextFault session.now.notes.fault named carried s number end file.now) }
    {
        let Some(trail) = session.trail(key) else {
            return Err(TextFault::NoTransfer(number, session.count()));
        };
        let Some(text) = session.kept.text(key) else {
            return Err(TextFault::NoTransfer(number, session.count()));
        };
        if session.notes.may_lack(trail) {
            return Err(TextFault::NotWhole);
        }
        let heading = heading_of(alloc, number, end, file, trail)?;
        Ok(TextAt { text, heading })
    }

    /// Writes the text at this end.
    pub fn write<W: Write>(&self, writer: &mut LineWriter<W>, end: End) -> Result<(), WriteFault>
        ensures written { (named : List ℕ) (carried : List Carried) (key number : ℕ) (file : List ℕ) → IsTextAt self.now named carried key number end file
            → OnOk result (Wrote W.contents writer.old writer.new (text_of number end file self.now.text.now.transfer named carried)) }
        ensures failed { OnErr result (writer.new.failed ≡ true) }
    {
        self.text.write(writer, end, &self.heading)
    }
}

/// Which transfer of which file it is, at which end, and who its ends are.
fn heading_of(
    alloc: Global,
    number: u64,
    end: End,
    file: &str,
    trail: &Trail,
) -> Result<Comment, TextFault>
    ensures heading { (judging : JudgingKind) (x : TransferKind) (named : List ℕ) (carried : List Carried) → IsTrailOf trail.now judging x named carried
        → IfOk result (λ heading. heading ≡ heading_text number file.now end x.client (server_in x named carried)) }
    ensures long { (judging : JudgingKind) (x : TransferKind) (named : List ℕ) (carried : List Carried) → IsTrailOf trail.now judging x named carried
        → result ≡ Err LongName → IsComment (heading_text number file.now end x.client (server_in x named carried)) → ⊥ }
    ensures other { IsHeadingFault result }
{
    let (client, server) = (trail.transfer.client, trail.server());
    let words = words_of(alloc, number, end, file, client, server)?;
    match Comment::new(words) {
        Some(heading) => Ok(heading),
        None => Err(TextFault::LongName),
    }
}

/// The words of a heading.
fn words_of(
    alloc: Global,
    number: u64,
    end: End,
    file: &str,
    client: Endpoint,
    server: Endpoint,
) -> Result<Vec<u8>, AllocError>
    ensures { IfOk result (λ words. words.items ≡ heading_text number file.now end client server) }
{
    let mut words = String::from_str(alloc, "transfer ")?;
    put_number(&mut words, number)?;
    put_place(&mut words, file, end)?;
    put_party(alloc, &mut words, "; client ", client)?;
    put_party(alloc, &mut words, ", server ", server)?;
    Ok(words.into_bytes())
}

/// Puts in which file a transfer is, and at which end.
fn put_place(words: &mut String, file: &str, end: End) -> Result<(), AllocError>
    ensures { OnOk result (string_bytes words.new ≡ string_bytes words.old ++ (codes " of '" ++ (plain file.now ++ (codes "', at the " ++ end_word end)))) }
{
    words.push_str(" of '")?;
    put_plain(words, file.as_bytes())?;
    words.push_str("', at the ")?;
    words.push_str(word_of(end))
}

/// Puts an endpoint after some words.
fn put_party(
    alloc: Global,
    words: &mut String,
    before: &str,
    party: Endpoint,
) -> Result<(), AllocError>
    ensures { OnOk result (string_bytes words.new ≡ string_bytes words.old ++ (before.now ++ end_text party)) }
{
    words.push_str(before)?;
    let shown = shown(alloc, party)?;
    words.push_str(shown.as_str())
}

fn word_of(end: End) -> &'static str
    ensures { result.now ≡ end_word end }
{
    match end {
        End::Client => "client",
        End::Server => "server",
    }
}
