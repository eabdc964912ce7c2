//! What is told of a file on standard error.

ghost use Rattle.std.specs.Prelude.{◌≡◌, ◌==◌, ◌++◌, [], IfErr, IfOk, IfSome, OnErr, OnOk, false, if◌then◌else◌, map, string_bytes, true};
ghost use Rattle.std.specs.Io.KnownBytes.{Appends};
ghost use Rattle.audit_recording.specs.Session.Lines.{lines_told, ports_text};
ghost use Rattle.audit_recording.specs.Session.Noted.{AreNotesOf, Noticed};
ghost use Rattle.audit_recording.specs.Session.Strays.{asked_ports};
ghost use Rattle.tftp_rows.specs.Faults.{IsRemarkFault};
ghost use Rattle.tftp_rows.specs.Remarks.{Says, lacking_line, none_lines, ports_line, ports_lines, remark_text, remarks_text, rest_lines};

use crate::output::Output;
use crate::plain::put_number;
use crate::reading::TellFault;
use audit_recording::session::Notes;
use std::alloc::{AllocError, Global};
use std::fmt::Display;
use std::io::Write;

/// Tells of files on standard error, each line behind the program's name and the file's.
#[derive(Drop)]
pub struct Remarks<'a, E: Drop> {
    program: &'a str,
    errors: Output<E>,
}

impl<'a, E: Write + Drop> Remarks<'a, E> {
    /// By a program of that name.
    pub fn new(program: &'a str, errors: E) -> Self
        ensures { result ≡ record { program = program.entry; errors = (errors, false) } }
    {
        let errors = Output::new(errors);
        Remarks { program, errors }
    }

    /// Tells what there is to tell of a recording as a whole, of which so many transfers were told.
    pub fn tell_rest(
        &mut self,
        alloc: Global,
        file: &str,
        notes: &Notes,
        told: u64,
    ) -> Result<(), TellFault>
        ensures rest { (s : Noticed) → AreNotesOf notes.now s
            → Says (E.Write.contents self.old.errors.0) (E.Write.contents self.new.errors.0) result (remarks_text self.old.program.now file.now (rest_lines notes.now s told)) }
        ensures same { self.new ≡ record self.old { errors = self.new.errors } }
        ensures why { IfErr result (IsRemarkFault self.new.errors.1) }
        ensures stays { self.old.errors.1 ≡ true → self.new.errors.1 ≡ true }
    {
        let lines = rest_of(alloc, notes, told)?;
        let text = text_of(alloc, self.program, file, lines.as_slice())?;
        self.errors.write_whole(text.as_bytes())?;
        Ok(())
    }

    /// Tells what there is to tell of a recording as a whole, but for whether it has a transfer.
    pub fn tell_notes(&mut self, alloc: Global, file: &str, notes: &Notes) -> Result<(), TellFault>
        ensures notes { (s : Noticed) → AreNotesOf notes.now s
            → Says (E.Write.contents self.old.errors.0) (E.Write.contents self.new.errors.0) result (remarks_text self.old.program.now file.now (lines_told s notes.now.dropped notes.now.fault)) }
        ensures same { self.new ≡ record self.old { errors = self.new.errors } }
        ensures why { IfErr result (IsRemarkFault self.new.errors.1) }
    {
        let lines = notes.lines(alloc)?;
        let text = text_of(alloc, self.program, file, lines.as_slice())?;
        self.errors.write_whole(text.as_bytes())?;
        Ok(())
    }

    /// Tells that the transfer with this number has no text, since datagrams of it may be missing.
    pub fn tell_lacking(&mut self, alloc: Global, file: &str, number: u64) -> Result<(), TellFault>
        ensures line { Says (E.Write.contents self.old.errors.0) (E.Write.contents self.new.errors.0) result (remark_text self.old.program.now file.now (lacking_line number)) }
        ensures same { self.new ≡ record self.old { errors = self.new.errors } }
        ensures why { IfErr result (IsRemarkFault self.new.errors.1) }
    {
        let text = lacking_text(alloc, self.program, file, number)?;
        self.errors.write_whole(text.as_bytes())?;
        Ok(())
    }

    /// Tells why a file is not told, or not to its end.
    pub fn tell_fault<F: Display + Drop>(&mut self, file: &str, fault: F) -> Result<(), TellFault>
        ensures line { OnOk result (IfSome (F.output fault) (λ words. Appends (E.Write.contents self.old.errors.0) (E.Write.contents self.new.errors.0) (remark_text self.old.program.now file.now words))) }
        ensures same { self.new ≡ record self.old { errors = self.new.errors } }
        ensures failed { OnErr result (self.new.errors.1 ≡ true) }
        ensures why { IfErr result (IsRemarkFault self.new.errors.1) }
        ensures stays { self.old.errors.1 ≡ true → self.new.errors.1 ≡ true }
    {
        let program = self.program;
        writeln!(self.errors, "{program}: {file}: {fault}")?;
        Ok(())
    }
}

/// That a transfer has no text, behind the names of the program and the file.
fn lacking_text(alloc: Global, program: &str, file: &str, number: u64) -> Result<String, AllocError>
    ensures { IfOk result (λ text. string_bytes text ≡ remark_text program.now file.now (lacking_line number)) }
{
    let mut line = String::from_str(alloc, "transfer ")?;
    put_number(&mut line, number)?;
    line.push_str(": nothing is written, since the recording is not whole")?;
    let mut text = String::new(alloc);
    put_remark(&mut text, program, file, line.as_str())?;
    Ok(text)
}

/// What there is to tell of a recording as a whole, of which so many transfers were told, a line each.
fn rest_of(alloc: Global, notes: &Notes, told: u64) -> Result<Vec<String>, AllocError>
    ensures { (s : Noticed) → AreNotesOf notes.now s → IfOk result (λ lines. map string_bytes lines.items ≡ rest_lines notes.now s told) }
{
    let mut lines = notes.lines(alloc)?;
    put_absence(alloc, &mut lines, notes, told)?;
    Ok(lines)
}

/// Adds that a recording has no transfer, where none was told.
fn put_absence(
    alloc: Global,
    lines: &mut Vec<String>,
    notes: &Notes,
    told: u64,
) -> Result<(), AllocError>
    ensures { (s : Noticed) → AreNotesOf notes.now s
        → OnOk result (map string_bytes lines.new.items ≡ map string_bytes lines.old.items ++ (if told == 0 then none_lines (ports_text (asked_ports s.strays)) else [])) }
{
    if told > 0 {
        return Ok(());
    }
    put_ports(alloc, lines, notes)?;
    lines.push(String::from_str(alloc, "no request passed, so there is no transfer")?)?;
    Ok(())
}

/// Adds at which ports something looks like a request, if anything does.
fn put_ports(alloc: Global, lines: &mut Vec<String>, notes: &Notes) -> Result<(), AllocError>
    ensures { (s : Noticed) → AreNotesOf notes.now s
        → OnOk result (map string_bytes lines.new.items ≡ map string_bytes lines.old.items ++ ports_lines (ports_text (asked_ports s.strays))) }
{
    match notes.asked_ports(alloc)? {
        Some(ports) => {
            lines.push(ports_line(alloc, ports.as_str())?)?;
            Ok(())
        }
        None => Ok(()),
    }
}

fn ports_line(alloc: Global, ports: &str) -> Result<String, AllocError>
    ensures { IfOk result (λ line. string_bytes line ≡ ports_line ports.now) }
{
    let mut line = String::from_str(alloc, "what looks like a request went to port")?;
    line.push_str(ports)?;
    line.push_str(": name the port by --service")?;
    Ok(line)
}

/// Each of these in a line behind the names of the program and the file.
fn text_of(alloc: Global, program: &str, file: &str, lines: &[String]) -> Result<String, AllocError>
    ensures { IfOk result (λ text. string_bytes text ≡ remarks_text program.now file.now (map string_bytes lines.now)) }
{
    let mut text = String::new(alloc);
    for line in lines {
        put_remark(&mut text, program, file, line.as_str())?;
    }
    Ok(text)
}

/// Adds a line behind the names of the program and the file.
fn put_remark(text: &mut String, program: &str, file: &str, words: &str) -> Result<(), AllocError>
    ensures { OnOk result (string_bytes text.new ≡ string_bytes text.old ++ remark_text program.now file.now words.now) }
{
    text.push_str(program)?;
    text.push_str(": ")?;
    text.push_str(file)?;
    text.push_str(": ")?;
    text.push_str(words)?;
    text.push('\n')
}
