//! What the tests of several libraries share: comparisons, scripts of captures, texts, and readers and writers that fail
//! where they are told to. It tries nothing itself.

pub mod comparing;
pub mod drip;
pub mod normals;
pub mod scripts;
pub mod texts;
