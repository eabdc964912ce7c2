//! A row of a list: what a transfer's request asks for, and how far the transfer went.

ghost use Rattle.std.specs.Prelude.{◌≡◌, ◌++◌, ℕ, List, IfOk, OnOk, codes, string_bytes};
ghost use Rattle.json.specs.Json.{string};
ghost use Rattle.json.specs.Tree.{json_tokens};
ghost use Rattle.audit_flows.specs.{Transfer};
ghost use Rattle.audit_recording.specs.Blame.Frames.{Carried};
ghost use Rattle.audit_recording.specs.Session.Trails.{IsTrailAfter};
ghost use Rattle.audit_recording.specs.declared.judges.judging.Judging.{Judging as JudgingKind};
ghost use Rattle.tftp_rows.specs.Cells.{cell};
ghost use Rattle.tftp_rows.specs.Listed.{IsListRowOf, at_server};
ghost use Rattle.tftp_rows.specs.Listing.{asked_cells, frames_text, list_head, list_json, list_lines, list_text};
ghost use Rattle.tftp_rows.specs.Members.{Adds, AddsMember, json_text};
ghost use Rattle.tftp_rows.specs.Plain.{endpoint_text};
ghost use Rattle.tftp_rows.specs.declared.printing.Form.TheVariants.{Words};

use crate::asked::AskedWords;
use crate::cells::{put_cell, put_number_cell};
use crate::conclusion::Conclusion;
use crate::endpoint::shown;
use crate::members::{put_count, put_text};
use crate::plain::put_number;
use crate::printing::Form;
use crate::times::Times;
use audit_flows::lines::Endpoint;
use audit_recording::blame::{Trail, Undelivered};
use json::Writer;
use std::alloc::{AllocError, Global};
use tftp_packet::End;

/// A row of a list.
#[derive(Drop)]
pub struct ListRow {
    /// The transfer's number, from 1.
    pub number: u64,
    /// Its client.
    pub client: Endpoint,
    /// Its server; whom it asked, where nobody answered.
    pub server: Endpoint,
    /// What its request asks for.
    pub asked: AskedWords,
    /// How many datagrams passed at its client.
    pub datagrams: u64,
    /// The frame of the first one.
    pub first_frame: u64,
    /// That of the last one.
    pub last_frame: u64,
    /// How it ended, as far as no judge is asked.
    pub ended: Conclusion,
    /// How it went in time.
    pub times: Times,
}

impl ListRow {
    /// The row of the transfer with this number, by a recording that was read up to now.
    pub fn of(alloc: Global, number: u64, trail: &Trail, now: u64) -> Result<Self, AllocError>
        ensures { (judging : JudgingKind) (x : Transfer) (named : List ℕ) (carried : List Carried) → IsTrailAfter trail.now judging x named carried
            → IfOk result (λ row. IsListRowOf row number trail.now now x named carried) }
    {
        let ending = trail.ending(false, now);
        let undelivered = at_server(trail.undelivered());
        let ended = Conclusion::of(alloc, ending, false, false, undelivered)?;
        let asked = AskedWords::of(alloc, trail.request.as_slice())?;
        Ok(ListRow {
            number,
            client: trail.transfer.client,
            server: trail.server(),
            asked,
            datagrams: trail.count,
            first_frame: trail.first,
            last_frame: trail.last,
            ended,
            times: Times::of(trail, None),
        })
    }

    /// The row's line with its end, behind the heads where they are wanted and do not stand there yet.
    pub fn lines(&self, alloc: Global, form: Form, is_headed: bool) -> Result<Vec<u8>, AllocError>
        ensures { IfOk result (λ lines. lines.items ≡ list_lines form is_headed self.now) }
    {
        match form {
            Form::Words(_) => self.words(alloc, is_headed),
            Form::Json => self.json(alloc),
        }
    }

    fn words(&self, alloc: Global, is_headed: bool) -> Result<Vec<u8>, AllocError>
        ensures { IfOk result (λ lines. lines.items ≡ list_lines (Words 0) is_headed self.now) }
    {
        let mut lines = String::new(alloc);
        if !is_headed {
            put_list_head(&mut lines)?;
        }
        self.put(alloc, &mut lines)?;
        lines.push('\n')?;
        Ok(lines.into_bytes())
    }

    fn json(&self, alloc: Global) -> Result<Vec<u8>, AllocError>
        ensures { IfOk result (λ line. line.items ≡ json_text (list_json self.now) ++ codes "\n") }
    {
        let mut out = Writer::new(Vec::new(alloc));
        self.put_object(alloc, &mut out)?;
        let mut line = out.into_inner();
        line.push(b'\n')?;
        Ok(line)
    }

    /// Puts the row.
    pub fn put(&self, alloc: Global, line: &mut String) -> Result<(), AllocError>
        ensures { OnOk result (string_bytes line.new ≡ string_bytes line.old ++ list_text self.now) }
    {
        put_number_cell(line, self.number, 6)?;
        put_endpoint(alloc, line, self.client)?;
        put_endpoint(alloc, line, self.server)?;
        put_asked(line, &self.asked)?;
        put_number_cell(line, self.datagrams, 9)?;
        put_frames(line, self.first_frame, self.last_frame)?;
        self.ended.put_fault(alloc, line)?;
        self.times.put(line)
    }

    /// Puts the row's object.
    pub fn put_object(&self, alloc: Global, out: &mut Writer) -> Result<(), AllocError>
        ensures { OnOk result (Adds out.old out.new (json_tokens (list_json self.now))) }
    {
        out.begin_object()?;
        put_count(out, "number", self.number)?;
        put_end(alloc, out, "client", self.client)?;
        put_end(alloc, out, "server", self.server)?;
        put_text(out, "kind", self.asked.kind)?;
        put_text(out, "mode", self.asked.mode)?;
        put_text(out, "file", self.asked.file.as_str())?;
        put_text(out, "options", self.asked.options.as_str())?;
        put_count(out, "datagrams", self.datagrams)?;
        put_count(out, "first_frame", self.first_frame)?;
        put_count(out, "last_frame", self.last_frame)?;
        self.ended.put_member(alloc, out)?;
        self.times.put_member(out)?;
        out.end_object()
    }
}

/// What did not reach the server. A client that a datagram does not reach is mostly one that has the whole file, and is gone.
fn at_server(undelivered: Option<(End, Undelivered)>) -> Option<(End, Undelivered)>
    ensures { result ≡ at_server undelivered }
{
    match undelivered {
        Some((End::Server, undelivered)) => Some((End::Server, undelivered)),
        _ => None,
    }
}

/// Puts the line of the columns' heads.
#[tactic(auto, unfolding(crate::specs::Listing::list_head))]
pub fn put_list_head(line: &mut String) -> Result<(), AllocError>
    ensures { OnOk result (string_bytes line.new ≡ string_bytes line.old ++ list_head) }
{
    line.push_str(
        "number  client                 server                 kind  mode      file              options           datagrams  frames\n",
    )
}

fn put_endpoint(alloc: Global, line: &mut String, end: Endpoint) -> Result<(), AllocError>
    ensures { OnOk result (string_bytes line.new ≡ string_bytes line.old ++ cell 21 (endpoint_text end)) }
{
    let text = shown(alloc, end)?;
    put_cell(line, text.as_str(), 21)
}

fn put_asked(line: &mut String, asked: &AskedWords) -> Result<(), AllocError>
    ensures { OnOk result (string_bytes line.new ≡ string_bytes line.old ++ asked_cells asked.now) }
{
    put_cell(line, asked.kind, 4)?;
    put_cell(line, asked.mode, 8)?;
    put_cell(line, asked.file.as_str(), 16)?;
    put_cell(line, asked.options.as_str(), 16)
}

fn put_frames(line: &mut String, first: u64, last: u64) -> Result<(), AllocError>
    ensures { OnOk result (string_bytes line.new ≡ string_bytes line.old ++ frames_text first last) }
{
    put_number(line, first)?;
    line.push('-')?;
    put_number(line, last)
}

fn put_end(alloc: Global, out: &mut Writer, name: &str, end: Endpoint) -> Result<(), AllocError>
    ensures { OnOk result (AddsMember out.old out.new name.now (string (endpoint_text end))) }
{
    let text = shown(alloc, end)?;
    put_text(out, name, text.as_str())
}
