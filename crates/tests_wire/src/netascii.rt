//! Tests of netascii.

mod netascii;
