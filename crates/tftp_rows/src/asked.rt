//! What a transfer's request asks for, in words.

ghost use Rattle.std.specs.Prelude.{◌≡◌, ◌++◌, IfOk, IfSome, None, OnOk, flat_map, string_bytes};
ghost use Rattle.tftp_packet.specs.{mode_name as name_of_mode};
ghost use Rattle.tftp_packet.specs.AsWritten.{IsWrittenRequest};
ghost use Rattle.tftp_rows.specs.Asked.{AreAskedBy, AreUnread, AreWordsOf, SpellsNone, further_option, kind_name as name_of_kind, option_text, options_text, quoted_name, request_of};

use crate::plain::put_plain;
use std::alloc::{AllocError, Global};
use tftp_packet::{Mode, OptionsView, Packet, Pairs, RequestView, Side, read_packet};

/// What a request asks for, in words; each is `?` where no request can be read.
#[derive(Drop)]
pub struct AskedWords {
    /// Whether the client gets or puts the file.
    pub kind: &'static str,
    /// How the file goes over the wire.
    pub mode: &'static str,
    /// The file's name, in quotes.
    pub file: String,
    /// The options, by their names and values.
    pub options: String,
}

impl AskedWords {
    /// The words of the request that a payload is.
    pub fn of(alloc: Global, payload: &[u8]) -> Result<Self, AllocError>
        ensures { IfOk result (λ words. AreAskedBy words payload.now) }
    {
        match request_in(payload) {
            Some(request) => AskedWords::of_request(alloc, &request),
            None => AskedWords::unread(alloc),
        }
    }

    fn of_request(alloc: Global, request: &RequestView<'_>) -> Result<Self, AllocError>
        ensures { IfOk result (λ words. AreWordsOf words request.now) }
    {
        let file = quoted(alloc, request.name())?;
        let options = options_of(alloc, request.options())?;
        Ok(AskedWords {
            kind: kind_name(request.side()),
            mode: mode_name(request.mode()),
            file,
            options,
        })
    }

    fn unread(alloc: Global) -> Result<Self, AllocError>
        ensures { IfOk result AreUnread }
    {
        let file = String::from_str(alloc, "?")?;
        let options = String::from_str(alloc, "?")?;
        Ok(AskedWords {
            kind: "?",
            mode: "?",
            file,
            options,
        })
    }
}

/// The request that a payload is.
fn request_in(payload: &[u8]) -> Option<RequestView<'_>>
    ensures some { IfSome result (IsWrittenRequest payload.now) }
    ensures none { result ≡ None → SpellsNone payload.now }
{
    match read_packet(payload) {
        Ok(packet) => request_of(packet),
        Err(_) => None,
    }
}

/// The request that a packet is.
fn request_of(packet: Packet<'_>) -> Option<RequestView<'_>>
    ensures { result ≡ request_of packet.entry }
{
    match packet {
        Packet::Request(request) => Some(request),
        _ => None,
    }
}

fn kind_name(side: Side) -> &'static str
    ensures { result.now ≡ name_of_kind side }
{
    match side {
        Side::Get => "get",
        Side::Put => "put",
    }
}

fn mode_name(mode: Mode) -> &'static str
    ensures { result.now ≡ name_of_mode mode }
{
    match mode {
        Mode::Netascii => "netascii",
        Mode::Octet => "octet",
    }
}

fn quoted(alloc: Global, name: &[u8]) -> Result<String, AllocError>
    ensures { IfOk result (λ text. string_bytes text ≡ quoted_name name.now) }
{
    let mut text = String::new(alloc);
    put_quoted(&mut text, name)?;
    Ok(text)
}

fn put_quoted(text: &mut String, name: &[u8]) -> Result<(), AllocError>
    ensures { OnOk result (string_bytes text.new ≡ string_bytes text.old ++ quoted_name name.now) }
{
    text.push('"')?;
    put_plain(text, name)?;
    text.push('"')
}

fn options_of(alloc: Global, options: OptionsView<'_>) -> Result<String, AllocError>
    ensures { IfOk result (λ text. string_bytes text ≡ options_text options.entry) }
{
    let mut text = String::new(alloc);
    put_options(&mut text, options)?;
    Ok(text)
}

fn put_options(text: &mut String, options: OptionsView<'_>) -> Result<(), AllocError>
    ensures { OnOk result (string_bytes text.new ≡ string_bytes text.old ++ options_text options.entry) }
{
    let mut pairs = options.pairs();
    match pairs.next() {
        Some((name, value)) => {
            put_option(text, name, value)?;
            put_further(text, pairs)
        }
        None => text.push('-'),
    }
}

fn put_further(text: &mut String, pairs: Pairs<'_>) -> Result<(), AllocError>
    ensures { OnOk result (string_bytes text.new ≡ string_bytes text.old ++ flat_map further_option pairs.entry) }
{
    for (name, value) in pairs {
        text.push(',')?;
        put_option(text, name, value)?;
    }
    Ok(())
}

fn put_option(text: &mut String, name: &[u8], value: &[u8]) -> Result<(), AllocError>
    ensures { OnOk result (string_bytes text.new ≡ string_bytes text.old ++ option_text (name.now, value.now)) }
{
    put_plain(text, name)?;
    text.push('=')?;
    put_plain(text, value)
}
