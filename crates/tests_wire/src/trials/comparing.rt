//! Comparisons that end a test.

use std::test::Fail;

/// Fails unless these bytes were found.
pub fn is_same(found: &[u8], wanted: &[u8]) -> Result<(), Fail> {
    if found == wanted {
        Ok(())
    } else {
        Err(Fail::from((found.len(), wanted.len())))
    }
}

/// Fails with what was tried unless it holds.
pub fn is_so(holds: bool, tried: &'static str) -> Result<(), Fail> {
    if holds { Ok(()) } else { Err(Fail::new(tried)) }
}
