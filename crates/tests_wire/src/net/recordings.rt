//! A recording of twelve frames of raw IP: what became of each, and what was told with it.

use crate::net::fragments::let_go_any;
use crate::trials::comparing::{is_same, is_so};
use crate::trials::drip::DripReader;
use net_pcap::{FaultKind, PcapFault};
use net_streams::streams::Latched;
use net_udp::fragments::Fragments;
use net_udp::recording::{Event, Fate, LeftOut, RecordingReader};
use std::alloc::AllocError;
use std::test::Fail;

/// A classic recording (draft-ietf-opsawg-pcap) of raw IP: the last part of a datagram, a whole datagram, a part, the
/// first part of the datagram, TCP, a part, a part with other bytes than the one before it, and a part 31 s later; and of
/// IPv6 a datagram in two fragments whose second names ICMP (58), and ICMP in two fragments whose second names UDP (RFC
/// 8200, section 4.5).
const RECORDING: &[u8] =
    b"\xd4\xc3\xb2\xa1\x02\x00\x04\x00\x00\x00\x00\x00\x00\x00\x00\x00\x00\x00\x04\x00\x65\x00\x00\x00\
    \x00\xf1\x53\x65\x00\x00\x00\x00\x20\x00\x00\x00\x20\x00\x00\x00\x45\x00\x00\x20\x00\x07\x00\x02\x40\x11\x00\x00\xc0\x00\x02\x01\xc0\x00\x02\x07\x38\x39\x61\x62\x63\x64\x65\x66\x67\x68\x69\x6a\
    \x00\xf1\x53\x65\xe8\x03\x00\x00\x21\x00\x00\x00\x21\x00\x00\x00\x45\x00\x00\x21\x00\x00\x00\x00\x40\x11\x00\x00\xc0\x00\x02\x01\xc0\x00\x02\x07\x9c\x40\x00\x45\x00\x0d\x00\x00\x68\x65\x6c\x6c\x6f\
    \x00\xf1\x53\x65\xd0\x07\x00\x00\x1c\x00\x00\x00\x1c\x00\x00\x00\x45\x00\x00\x1c\x00\x09\x20\x01\x40\x11\x00\x00\xc0\x00\x02\x01\xc0\x00\x02\x07\x41\x42\x43\x44\x45\x46\x47\x48\
    \x00\xf1\x53\x65\xb8\x0b\x00\x00\x24\x00\x00\x00\x24\x00\x00\x00\x45\x00\x00\x24\x00\x07\x20\x00\x40\x11\x00\x00\xc0\x00\x02\x01\xc0\x00\x02\x07\x9c\x40\x00\x45\x00\x1c\x00\x00\x30\x31\x32\x33\x34\x35\x36\x37\
    \x00\xf1\x53\x65\xa0\x0f\x00\x00\x28\x00\x00\x00\x28\x00\x00\x00\x45\x00\x00\x28\x00\x00\x00\x00\x40\x06\x00\x00\xc0\x00\x02\x01\xc0\x00\x02\x07\x00\x00\x00\x00\x00\x00\x00\x00\x00\x00\x00\x00\x00\x00\x00\x00\x00\x00\x00\x00\
    \x00\xf1\x53\x65\x88\x13\x00\x00\x1c\x00\x00\x00\x1c\x00\x00\x00\x45\x00\x00\x1c\x00\x0b\x20\x00\x40\x11\x00\x00\xc0\x00\x02\x01\xc0\x00\x02\x07\x49\x4a\x4b\x4c\x4d\x4e\x4f\x50\
    \x00\xf1\x53\x65\x70\x17\x00\x00\x1c\x00\x00\x00\x1c\x00\x00\x00\x45\x00\x00\x1c\x00\x09\x20\x01\x40\x11\x00\x00\xc0\x00\x02\x01\xc0\x00\x02\x07\x61\x62\x63\x64\x65\x66\x67\x68\
    \x1f\xf1\x53\x65\x70\x17\x00\x00\x1c\x00\x00\x00\x1c\x00\x00\x00\x45\x00\x00\x1c\x00\x0b\x20\x00\x40\x11\x00\x00\xc0\x00\x02\x01\xc0\x00\x02\x07\x51\x52\x53\x54\x55\x56\x57\x58\
    \x1f\xf1\x53\x65\x58\x1b\x00\x00\x40\x00\x00\x00\x40\x00\x00\x00\x60\x00\x00\x00\x00\x18\x2c\x40\x20\x01\x0d\xb8\x00\x00\x00\x00\x00\x00\x00\x00\x00\x00\x00\x01\x20\x01\x0d\xb8\x00\x00\x00\x00\x00\x00\x00\x00\x00\x00\x00\x07\x11\x00\x00\x01\x00\x00\x00\x07\x9c\x40\x00\x45\x00\x1c\x00\x00\x30\x31\x32\x33\x34\x35\x36\x37\
    \x1f\xf1\x53\x65\x40\x1f\x00\x00\x3c\x00\x00\x00\x3c\x00\x00\x00\x60\x00\x00\x00\x00\x14\x2c\x40\x20\x01\x0d\xb8\x00\x00\x00\x00\x00\x00\x00\x00\x00\x00\x00\x01\x20\x01\x0d\xb8\x00\x00\x00\x00\x00\x00\x00\x00\x00\x00\x00\x07\x3a\x00\x00\x10\x00\x00\x00\x07\x38\x39\x61\x62\x63\x64\x65\x66\x67\x68\x69\x6a\
    \x1f\xf1\x53\x65\x28\x23\x00\x00\x40\x00\x00\x00\x40\x00\x00\x00\x60\x00\x00\x00\x00\x18\x2c\x40\x20\x01\x0d\xb8\x00\x00\x00\x00\x00\x00\x00\x00\x00\x00\x00\x01\x20\x01\x0d\xb8\x00\x00\x00\x00\x00\x00\x00\x00\x00\x00\x00\x07\x3a\x00\x00\x01\x00\x00\x00\x08\x9c\x40\x00\x45\x00\x1c\x00\x00\x30\x31\x32\x33\x34\x35\x36\x37\
    \x1f\xf1\x53\x65\x10\x27\x00\x00\x3c\x00\x00\x00\x3c\x00\x00\x00\x60\x00\x00\x00\x00\x14\x2c\x40\x20\x01\x0d\xb8\x00\x00\x00\x00\x00\x00\x00\x00\x00\x00\x00\x01\x20\x01\x0d\xb8\x00\x00\x00\x00\x00\x00\x00\x00\x00\x00\x00\x07\x11\x00\x00\x10\x00\x00\x00\x08\x38\x39\x61\x62\x63\x64\x65\x66\x67\x68\x69\x6a";

/// Being out of memory as the tests tell it, and any other fault by its frame.
fn failed(fault: PcapFault) -> Fail {
    match fault.kind {
        FaultKind::Memory => Fail::new("want of memory"),
        _ => Fail::new("a fault"),
    }
}

/// Tells frames by their numbers, and how many they are.
fn tell_frames(told: &mut Vec<u8>, frames: &[u64]) -> Result<(), AllocError> {
    told.push(frames.len().min(255) as u8)?;
    for frame in frames {
        told.push((*frame).min(255) as u8)?;
    }
    Ok(())
}

/// Tells what has become of a frame: its payload, that it waits for others of its packet, that it carries no UDP, or that
/// its bytes are not those that came before.
fn tell_fate(told: &mut Vec<u8>, fate: &Fate<'_>) -> Result<(), AllocError> {
    let words = match fate {
        Fate::Datagram(datagram) => datagram.payload,
        Fate::Waits => b" waits",
        Fate::Left(LeftOut::Frame(_)) => b" no UDP",
        Fate::Left(LeftOut::Apart) => b" apart",
        _ => b" another fate",
    };
    told.extend_from_slice(words)
}

/// Tells a frame: its number, its fate, the frames that share that, those that were too old, and a line end.
fn tell(told: &mut Vec<u8>, event: &Event) -> Result<(), AllocError> {
    tell_frames(told, &[event.number()])?;
    tell_fate(told, &event.fate())?;
    tell_frames(told, event.sharers())?;
    tell_frames(told, event.old())?;
    told.push(b'\n')?;
    Ok(())
}

/// What is told of the frames. A count stands before the numbers of frames.
const FATES: &[u8] = b"\x01\x01 waits\0\0\n\
    \x01\x02hello\0\0\n\
    \x01\x03 waits\0\0\n\
    \x01\x040123456789abcdefghij\x02\x01\x04\0\n\
    \x01\x05 no UDP\0\0\n\
    \x01\x06 waits\0\0\n\
    \x01\x07 apart\x01\x03\0\n\
    \x01\x08 waits\0\x01\x06\n\
    \x01\x09 waits\0\0\n\
    \x01\x0a0123456789abcdefghij\x02\x09\x0a\0\n\
    \x01\x0b waits\0\0\n\
    \x01\x0c no UDP\x02\x0b\x0c\0\n";

/// A recording, how far it is read, and the last event. It hides what the libraries promise.
struct Reading<'a> {
    reader: Latched<DripReader<'a>>,
    frames: RecordingReader,
    event: Event,
}

impl Drop for Reading<'_> {
    // written out, since the prover takes a derived one apart again wherever a value is let go
    fn drop(self) {
        let Reading {
            reader: _,
            frames: _,
            event: _,
        } = self;
    }
}

impl Reading<'_> {
    /// The packets that wait for fragments.
    fn into_waiting(self) -> Fragments {
        let Reading {
            reader: _,
            frames,
            event: _,
        } = self;
        frames.into_waiting()
    }
}

/// Begins to read a recording in pieces of this size.
fn begun<'a>(rt: &HostRuntime, bytes: &'a [u8], piece: usize) -> Result<Reading<'a>, Fail> {
    let mut reader = Latched::new(DripReader::new(bytes, piece, 0, None));
    let frames = RecordingReader::begin(rt.alloc(), &mut reader).map_err(failed)?;
    let event = Event::empty(rt.alloc());
    Ok(Reading {
        reader,
        frames,
        event,
    })
}

/// Reads the next frame, where there is one.
fn next(rt: &HostRuntime, reading: &mut Reading<'_>) -> Result<bool, PcapFault> {
    reading
        .frames
        .next_into(rt.alloc(), &mut reading.reader, &mut reading.event)
}

/// Whether there was another frame, or a fault as the tests tell it.
fn is_next(rt: &HostRuntime, reading: &mut Reading<'_>) -> Result<bool, Fail> {
    match next(rt, reading) {
        Ok(is_read) => Ok(is_read),
        Err(fault) => Err(failed(fault)),
    }
}

/// Tells the next frames, as many as there are, and at most thirteen.
fn tell_all(rt: &HostRuntime, reading: &mut Reading<'_>, told: &mut Vec<u8>) -> Result<(), Fail> {
    for _ in 0..13u8 {
        if !is_next(rt, reading)? {
            break;
        }
        tell(told, &reading.event)?;
    }
    Ok(())
}

/// Fails unless the frames have their fates.
fn have_fates(rt: &HostRuntime, reading: &mut Reading<'_>) -> Result<(), Fail> {
    let mut told = Vec::new(rt.alloc());
    tell_all(rt, reading, &mut told)?;
    is_same(told.as_slice(), FATES)
}

/// The frames that wait at the end for others.
fn waiting_of(rt: &HostRuntime, mut waiting: Fragments) -> Result<Vec<u64>, AllocError> {
    let mut missing = Vec::new(rt.alloc());
    for _ in 0..3 {
        if let Some((_, gone)) = let_go_any(&mut waiting) {
            missing.extend_from_slice(gone.as_slice())?;
        }
    }
    Ok(missing)
}

/// Fails unless the recording in such pieces has its fates, and one frame waits at the end.
fn is_read_in(rt: &HostRuntime, piece: usize) -> Result<(), Fail> {
    let mut reading = begun(rt, RECORDING, piece)?;
    have_fates(rt, &mut reading)?;
    let missing = waiting_of(rt, reading.into_waiting())?;
    is_so(missing.as_slice() == [8u64].as_slice(), "other frames wait")
}

/// However the reader cuts the bytes.
#[test]
fn each_frame_has_its_fate(rt: HostRuntime) -> Result<(), Fail> {
    for piece in [1usize, 7, 4096] {
        is_read_in(&rt, piece)?;
    }
    Ok(())
}

/// The fault of a recording that is cut within its last record.
const CUT: PcapFault = PcapFault {
    kind: FaultKind::Truncated,
    frame: 12,
};

/// Fails unless the frames before the cut are read, and the fault comes then for good.
fn is_cut(rt: &HostRuntime, reading: &mut Reading<'_>) -> Result<(), Fail> {
    for frame in 1..14u64 {
        match next(rt, reading) {
            Ok(is_read) => is_so(is_read && frame < 12, "a frame, or none")?,
            Err(fault) if fault == CUT => is_so(12 <= frame, "a fault before")?,
            Err(fault) => return Err(failed(fault)),
        }
    }
    Ok(())
}

/// A recording that is cut within its last record has a fault there for good, and the frames before it.
#[test]
fn a_cut_recording_has_the_frames_before(rt: HostRuntime) -> Result<(), Fail> {
    let Some((_, front)) = RECORDING.split_last() else {
        return Err(Fail::new("empty"));
    };
    let mut reading = begun(&rt, front, 5)?;
    is_cut(&rt, &mut reading)
}
