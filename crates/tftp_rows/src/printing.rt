//! Rows are printed, each in a line.

ghost use Rattle.std.specs.Prelude.{◌≡◌, ◌∷◌, ◌++◌, [], IfErr, IfOk, OnErr, codes, false, true};
ghost use Rattle.net_streams.specs.Streams.{WritesWhole};
ghost use Rattle.tftp_rows.specs.Faults.{IsPrintFault};
ghost use Rattle.tftp_rows.specs.Listing.{list_lines};
ghost use Rattle.tftp_rows.specs.Members.{json_text};
ghost use Rattle.tftp_rows.specs.Objects.{row_json};
ghost use Rattle.tftp_rows.specs.Printing.{Prints, verdict_lines};
ghost use Rattle.tftp_rows.specs.declared.printing.Form.TheVariants.{Words};

use crate::listing::ListRow;
use crate::output::Output;
use crate::row::{VerdictRow, put_head};
use json::Writer;
use std::alloc::{AllocError, AllocFailed, Global};
use std::convert::From;
use std::io;
use std::io::Write;
use thiserror::Error;

/// How rows are printed.
#[derive(Clone, Copy, Debug, PartialEq, Eq)]
pub enum Form {
    /// In words, under the columns' heads, where that of files has this width in letters.
    Words(usize),
    /// Each as a JSON object (RFC 8259).
    Json,
}

/// Why a row is not printed.
#[derive(Debug, Drop, Error)]
pub enum PrintFault {
    /// Memory was refused.
    #[error(transparent)]
    Alloc(AllocError),
    /// A write failed.
    #[error(transparent)]
    Write(io::Error),
}

impl From<AllocError> for PrintFault {
    ghost use Rattle.std.specs.Prelude.{◌≡◌};
    ghost use Rattle.tftp_rows.specs.declared.printing.PrintFault.{PrintFault};

    ghost from_gives = { λ error fault. fault ≡ PrintFault.Alloc error };

    fn from(error: AllocError) -> Self {
        PrintFault::Alloc(error)
    }
}

impl<T: Drop> From<AllocFailed<T>> for PrintFault {
    ghost use Rattle.std.specs.Prelude.{◌≡◌, alloc_error};
    ghost use Rattle.tftp_rows.specs.declared.printing.PrintFault.{PrintFault};

    ghost from_gives = { λ _ fault. fault ≡ PrintFault.Alloc alloc_error };

    fn from(_failed: AllocFailed<T>) -> Self {
        PrintFault::Alloc(AllocError)
    }
}

impl From<io::Error> for PrintFault {
    ghost use Rattle.std.specs.Prelude.{◌≡◌};
    ghost use Rattle.tftp_rows.specs.declared.printing.PrintFault.{PrintFault};

    ghost from_gives = { λ error fault. fault ≡ PrintFault.Write error };

    fn from(error: io::Error) -> Self {
        PrintFault::Write(error)
    }
}

/// Prints rows to a writer, each as soon as it is given.
#[derive(Drop)]
pub struct RowPrinter<W: Drop> {
    writer: Output<W>,
    form: Form,
    /// Whether the heads stand before what comes next.
    is_headed: bool,
}

impl<W: Write + Drop> RowPrinter<W> {
    /// Nothing was printed.
    pub fn new(writer: W, form: Form) -> Self
        ensures { result ≡ record { writer = (writer, false); form = form; is_headed = false } }
    {
        RowPrinter {
            writer: Output::new(writer),
            form,
            is_headed: false,
        }
    }

    /// Prints a row, behind the heads if it is the first one.
    pub fn print(&mut self, alloc: Global, row: &VerdictRow<'_>) -> Result<(), PrintFault>
        ensures prints { Prints W.Write.contents verdict_lines self.old self.new result (row.now ∷ []) }
        ensures why { IfErr result (IsPrintFault self.new.writer.1) }
        ensures stays { self.old.writer.1 ≡ true → self.new.writer.1 ≡ true }
    {
        let lines = self.form.lines(alloc, row, self.is_headed)?;
        self.put(lines.as_slice())?;
        Ok(())
    }

    /// Prints a row of a list, behind the heads if it is the first one.
    pub fn print_listed(&mut self, alloc: Global, row: &ListRow) -> Result<(), PrintFault>
        ensures prints { Prints W.Write.contents list_lines self.old self.new result (row.now ∷ []) }
        ensures why { IfErr result (IsPrintFault self.new.writer.1) }
    {
        let lines = row.lines(alloc, self.form, self.is_headed)?;
        self.put(lines.as_slice())?;
        Ok(())
    }

    /// Writes the lines of a row, before which heads stand then.
    fn put(&mut self, lines: &[u8]) -> io::Result<()>
        ensures lines { WritesWhole (W.Write.contents self.old.writer.0) (W.Write.contents self.new.writer.0) result lines.now }
        ensures rest { self.new ≡ record self.old { writer = self.new.writer; is_headed = true } }
        ensures failed { OnErr result (self.new.writer.1 ≡ true) }
        ensures stays { self.old.writer.1 ≡ true → self.new.writer.1 ≡ true }
    {
        self.is_headed = true;
        self.writer.write_whole(lines)
    }
}

impl Form {
    /// The line of a row with its end, behind the heads where they are wanted and do not stand there yet.
    fn lines(
        self,
        alloc: Global,
        row: &VerdictRow<'_>,
        is_headed: bool,
    ) -> Result<Vec<u8>, AllocError>
        ensures { IfOk result (λ lines. lines.items ≡ verdict_lines self is_headed row.now) }
    {
        match self {
            Form::Words(width) => words_of(alloc, row, width, is_headed),
            Form::Json => json_of(alloc, row),
        }
    }
}

/// The row's line in words, behind the heads where these do not stand there yet.
fn words_of(
    alloc: Global,
    row: &VerdictRow<'_>,
    width: usize,
    is_headed: bool,
) -> Result<Vec<u8>, AllocError>
    ensures { IfOk result (λ lines. lines.items ≡ verdict_lines (Words width) is_headed row.now) }
{
    let mut lines = String::new(alloc);
    if !is_headed {
        put_head(&mut lines, width)?;
    }
    row.put(alloc, &mut lines, width)?;
    lines.push('\n')?;
    Ok(lines.into_bytes())
}

/// The line of the row's object.
fn json_of(alloc: Global, row: &VerdictRow<'_>) -> Result<Vec<u8>, AllocError>
    ensures { IfOk result (λ line. line.items ≡ json_text (row_json row.now) ++ codes "\n") }
{
    let mut out = Writer::new(Vec::new(alloc));
    row.put_object(alloc, &mut out)?;
    let mut line = out.into_inner();
    line.push(b'\n')?;
    Ok(line)
}
