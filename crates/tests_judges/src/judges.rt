//! Tests of the judge, and of the verdicts on texts.

#[cfg(test)]
pub mod cases;
#[cfg(test)]
mod judges;
#[cfg(test)]
mod losses;
#[cfg(test)]
mod lossy;
#[cfg(test)]
mod rollover;
