//! Members of JSON objects (RFC 8259), each a name and a value.

ghost use Rattle.std.specs.Prelude.{OnOk, option_map};
ghost use Rattle.tftp_rows.specs.Members.{AddsMember, text_or_null};

use json::Writer;
use std::alloc::AllocError;

/// Puts a member that is a text or null.
pub fn put_some_text(out: &mut Writer, name: &str, text: Option<&str>) -> Result<(), AllocError>
    ensures { OnOk result (AddsMember out.old out.new name.now (text_or_null (option_map (λ t. t.now) text.entry))) }
{
    out.key(name)?;
    match text {
        Some(text) => out.string(text),
        None => out.null(),
    }
}
