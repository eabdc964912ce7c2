//! Cells of a table, as wide as their columns at least.

ghost use Rattle.std.specs.Prelude.{◌≡◌, ◌++◌, decimal, OnOk, string_bytes};
ghost use Rattle.tftp_rows.specs.Cells.{cell, padding};

use std::alloc::AllocError;

/// Puts a cell of a column.
pub fn put_cell(line: &mut String, text: &str, width: usize) -> Result<(), AllocError>
    ensures { OnOk result (string_bytes line.new ≡ string_bytes line.old ++ cell width text.now) }
{
    line.push_str(text)?;
    pad(line, text.len(), width)
}

/// Puts a number as a cell of a column.
pub fn put_number_cell(line: &mut String, number: u64, width: usize) -> Result<(), AllocError>
    ensures { OnOk result (string_bytes line.new ≡ string_bytes line.old ++ cell width (decimal number)) }
{
    let mut buffer = itoa::Buffer::new();
    put_cell(line, buffer.format(number), width)
}

/// Puts what is wanting to a column's width, and the space between two columns.
pub fn pad(line: &mut String, length: usize, width: usize) -> Result<(), AllocError>
    ensures { OnOk result (string_bytes line.new ≡ string_bytes line.old ++ padding length width) }
{
    for _place in 0..width.saturating_sub(length) {
        line.push(' ')?;
    }
    line.push_str("  ")
}
