//! Tests of the stores of blocks, and of the code at one end: its states and its ports.

#[cfg(test)]
mod ports;
#[cfg(test)]
mod states;
#[cfg(test)]
mod stores;
