//! The transfers of a recording, a line each.

use crate::PROGRAM;
use anyhow::Result;
use std::io;
use tftp_rows::{Form, Lister, Machine, Remarks, list_file};
use tftp_words::ListRequest;

/// Lists the transfers of a recording, and tells all that there is to tell of it; `-` is standard input.
pub fn list(rt: HostRuntime, asked: &ListRequest<'_>) -> Result<u8> {
    let machine = Machine::new(rt);
    let mut lister = Lister::new(io::writer(&rt), form_of(asked));
    let mut remarks = Remarks::new(PROGRAM, rt.stderr());
    list_file(
        rt.alloc(),
        &machine,
        asked.file,
        asked.services.as_slice(),
        &mut lister,
        &mut remarks,
    )
}

/// How the rows are printed: no column has the file's name.
fn form_of(asked: &ListRequest<'_>) -> Form {
    if asked.json {
        Form::Json
    } else {
        Form::Words(0)
    }
}
