//! Reads the datagrams of recordings on standard input, and prints where each belongs, what it makes doubtful, and the
//! doubts of each transfer: what the tests compare with the definition's prototype.
//!
//! A line has a datagram: the time in nanoseconds, the source's address and port, the target's, and the payload.
//! Addresses, of 4 or 16 bytes, and payloads are in hex digits; an empty payload is `-`. An empty line ends a recording,
//! and so does the end. Of each datagram a line is printed: the place, a transfer's number where it has one, and the
//! doubts; at a recording's end a line for each transfer, with its doubts, a line with the numbers of the datagrams that
//! its client saw and one with those that its server saw, and the line `end`.

use anyhow::{Result, bail};
use audit_flows::lines::{Address, Endpoint, Place, spells_request};
use audit_flows::transfers::{Attributed, Attribution, TransferDoubts, TransferEnds};
use hex::FromHex;
use std::alloc::Global;
use std::io::{BufRead, BufReader};

/// Lists the recordings on standard input.
pub fn list(rt: HostRuntime) -> Result<()> {
    let mut listing = Listing::new(rt.alloc())?;
    listing.put_lines(rt)
}

/// One recording.
struct Listing {
    attribution: Attribution,
    datagrams: Vec<Passed>,
    transfers: Vec<Known>,
}

impl Drop for Listing {
    // written out, since the prover takes a derived one apart again wherever a value is let go
    fn drop(self) {
        let Listing {
            attribution: _,
            datagrams: _,
            transfers: _,
        } = self;
    }
}

/// A datagram's place and ends.
#[derive(Clone, Copy)]
struct Passed {
    place: Place,
    source: Endpoint,
    target: Endpoint,
}

/// What is known of a transfer.
#[derive(Clone, Copy)]
struct Known {
    doubts: TransferDoubts,
    ends: TransferEnds,
}

impl Listing {
    fn new(alloc: Global) -> Result<Self> {
        Ok(Listing {
            attribution: Attribution::new(alloc, &[])?,
            datagrams: Vec::new(alloc),
            transfers: Vec::new(alloc),
        })
    }

    /// Takes the lines on standard input, and ends the last recording.
    fn put_lines(&mut self, rt: HostRuntime) -> Result<()> {
        for line in BufReader::new(rt.alloc(), rt.reader())?.lines(rt.alloc()) {
            self.put(rt, line?.as_str())?;
        }
        self.put_transfers(rt)
    }

    /// Takes a line: a datagram's, or an empty one, behind which the next recording begins.
    fn put(&mut self, rt: HostRuntime, line: &str) -> Result<()> {
        if !line.is_empty() {
            return self.put_line(rt, line);
        }
        self.put_transfers(rt)?;
        *self = Listing::new(rt.alloc())?;
        Ok(())
    }

    /// Takes a datagram's line.
    fn put_line(&mut self, rt: HostRuntime, line: &str) -> Result<()> {
        let words: Vec<&str> = line.split_whitespace().collect(rt.alloc())?;
        match *words {
            [time, source, source_port, target, target_port, payload] => {
                let source = read_endpoint(source, source_port)?;
                let target = read_endpoint(target, target_port)?;
                let payload = read_payload(rt.alloc(), payload)?;
                let found = self.feed(
                    rt.alloc(),
                    time.parse()?,
                    source,
                    target,
                    payload.as_slice(),
                )?;
                put_found(rt, &found)
            }
            _ => bail!("a line of other than six words: {line}"),
        }
    }

    fn feed(
        &mut self,
        alloc: Global,
        time: u64,
        source: Endpoint,
        target: Endpoint,
        payload: &[u8],
    ) -> Result<Attributed> {
        let is_spelled = spells_request(payload);
        let fed = self
            .attribution
            .feed(alloc, time, source, target, payload, is_spelled);
        let found = match fed {
            Ok(found) => found,
            Err(fault) => bail!("{fault:?}"),
        };
        if let Place::Opens(transfer) = found.place {
            self.transfers.push(Known {
                doubts: TransferDoubts::new(transfer.number),
                ends: TransferEnds::new(transfer.number),
            })?;
        }
        for transfer in self.transfers.iter_mut() {
            transfer.doubts.note(&found);
            transfer.ends.note(&found.place, source, target, payload);
        }
        self.datagrams.push(Passed {
            place: found.place,
            source,
            target,
        })?;
        Ok(found)
    }

    /// The doubts of each transfer and its views, and the end.
    fn put_transfers(&self, rt: HostRuntime) -> Result<()> {
        for known in self.transfers.iter() {
            put_transfer(rt, &known.doubts)?;
            self.put_views(rt, &known.ends)?;
        }
        println!(rt; "end")?;
        Ok(())
    }

    /// The numbers of the datagrams that each end of a transfer saw.
    fn put_views(&self, rt: HostRuntime, ends: &TransferEnds) -> Result<()> {
        print!(rt; "at-client")?;
        for (number, passed) in self.datagrams.iter().enumerate() {
            put_number(rt, ends.is_at_client(&passed.place), number)?;
        }
        print!(rt; "\nat-server")?;
        for (number, passed) in self.datagrams.iter().enumerate() {
            let is_there = ends.is_at_server(&passed.place, passed.source, passed.target);
            put_number(rt, is_there, number)?;
        }
        println!(rt)?;
        Ok(())
    }
}

fn read_endpoint(address: &str, port: &str) -> Result<Endpoint> {
    let address = if address.len() == 8 {
        Address::V4(<[u8; 4] as FromHex>::from_hex(address)?)
    } else {
        Address::V6(<[u8; 16] as FromHex>::from_hex(address)?)
    };
    Ok(Endpoint {
        address,
        port: port.parse()?,
    })
}

fn read_payload(alloc: Global, digits: &str) -> Result<Vec<u8>> {
    if digits == "-" {
        return Ok(Vec::new(alloc));
    }
    Ok(hex::decode(alloc, digits)?)
}

/// A transfer's doubts.
fn put_transfer(rt: HostRuntime, transfer: &TransferDoubts) -> Result<()> {
    let doubts = [
        (transfer.agrees_late(), "agrees"),
        (transfer.says_unknown_id(), "unknown"),
        (transfer.says_first_word(), "first"),
        (transfer.is_late(), "late"),
        (transfer.is_disordered(), "disordered"),
        (transfer.is_asked_again(), "again"),
        (transfer.is_answered_apart(), "apart"),
        (transfer.has_asked_more(), "asked"),
        (transfer.is_doubted(), "doubted"),
    ];
    print!(rt; "transfer {}", transfer.number())?;
    put_doubts(rt, &doubts)?;
    println!(rt)?;
    Ok(())
}

/// A datagram's place, and what it makes doubtful.
fn put_found(rt: HostRuntime, found: &Attributed) -> Result<()> {
    let doubts = &found.doubts;
    put_place(rt, &found.place)?;
    put_doubts(
        rt,
        &[
            (doubts.may_be_earlier, "earlier"),
            (doubts.rests_on_terms, "terms"),
            (doubts.follows_unknown_id, "anew"),
            (doubts.is_late, "late"),
            (doubts.is_disordered, "disordered"),
            (doubts.is_asked_again, "again"),
        ],
    )?;
    if let Some(number) = doubts.may_be_answer_of {
        print!(rt; " answer-of {number}")?;
    }
    println!(rt)?;
    Ok(())
}

/// A datagram's place.
fn put_place(rt: HostRuntime, place: &Place) -> Result<()> {
    let (word, transfer) = match place {
        Place::Opens(transfer) => ("opens", transfer),
        Place::Repeats(transfer) => ("repeats", transfer),
        Place::Talks(transfer) => ("client", transfer),
        Place::Beside(transfer) => ("server", transfer),
        Place::Apart(_) => return put_word(rt, "apart"),
        Place::Nowhere => return put_word(rt, "nowhere"),
    };
    print!(rt; "{word} {}", transfer.number)?;
    Ok(())
}

/// A place that is no transfer's.
fn put_word(rt: HostRuntime, word: &str) -> Result<()> {
    print!(rt; "{word}")?;
    Ok(())
}

fn put_number(rt: HostRuntime, is_there: bool, number: usize) -> Result<()> {
    if is_there {
        print!(rt; " {number}")?;
    }
    Ok(())
}

/// The words of the doubts that are there, each after a space.
fn put_doubts(rt: HostRuntime, doubts: &[(bool, &str)]) -> Result<()> {
    for (is_there, word) in doubts {
        if *is_there {
            print!(rt; " {word}")?;
        }
    }
    Ok(())
}
