//! Numbers and bytes as plain text.

ghost use Rattle.std.specs.Prelude.{◌≡◌, ◌<◌, ◌++◌, decimal, OnOk, string_bytes};
ghost use Rattle.std.specs.Char.{digit_char};
ghost use Rattle.audit_recording.specs.Session.Plain.{is_plain, plain, plain_byte};

use std::alloc::AllocError;

/// Puts a number.
pub fn put_number(line: &mut String, number: u64) -> Result<(), AllocError>
    ensures { OnOk result (string_bytes line.new ≡ string_bytes line.old ++ decimal number) }
{
    let mut buffer = itoa::Buffer::new();
    line.push_str(buffer.format(number))
}

/// Puts bytes as a person may read them: what is no plain sign of ASCII, a space, a quote or a backslash is escaped.
pub fn put_plain(line: &mut String, bytes: &[u8]) -> Result<(), AllocError>
    ensures { OnOk result (string_bytes line.new ≡ string_bytes line.old ++ plain bytes.now) }
{
    for byte in bytes {
        put_plain_byte(line, *byte)?;
    }
    Ok(())
}

fn put_plain_byte(line: &mut String, byte: u8) -> Result<(), AllocError>
    ensures { OnOk result (string_bytes line.new ≡ string_bytes line.old ++ plain_byte byte) }
{
    if is_plain(byte) {
        return line.push(char::from(byte));
    }
    line.push_str("\\x")?;
    line.push(digit_of(byte / 16))?;
    line.push(digit_of(byte % 16))
}

/// Whether a byte stands for itself.
fn is_plain(byte: u8) -> bool
    ensures { result ≡ is_plain byte }
{
    byte.is_ascii_graphic() && byte != b'"' && byte != b'\\'
}

/// The digit of a value below 16.
fn digit_of(value: u8) -> char
    ensures { value < 16 → result ≡ digit_char value }
{
    char::from_digit(u32::from(value), 16).unwrap_or('?')
}
