//! Who was asked whether a call failed: a reader and a writer that count their calls.

ghost use Rattle.std.specs.Prelude.{◌≡◌, IfOk};

use crate::trials::comparing::is_so;
use net_streams::streams::{Latched, LineWriter, WriteFault};
use std::io;
use std::io::{ErrorKind, Read, Write};
use std::test::Fail;

/// Counts how often it was asked, and answers one call with an error.
#[derive(Drop)]
struct Asked {
    calls: u64,
    fails_at: u64,
}

impl Asked {
    fn answer(&mut self, count: usize) -> io::Result<usize>
        ensures { IfOk result (λ n. n ≡ count) }
    {
        self.calls = self.calls.saturating_add(1);
        if self.calls == self.fails_at {
            return Err(io::Error::from(ErrorKind::Other));
        }
        Ok(count)
    }
}

impl Read for Asked {
    fn read(&mut self, buf: &mut [u8]) -> io::Result<usize> {
        self.answer(buf.len())
    }
}

impl Write for Asked {
    fn write(&mut self, buf: &[u8]) -> io::Result<usize> {
        self.answer(buf.len())
    }

    fn flush(&mut self) -> io::Result<()> {
        self.answer(0)?;
        Ok(())
    }
}

/// Whether the call with this number answers what is wanted, and the failure is kept from then on.
fn is_kept(found: Option<usize>, failed: bool, number: u64, fails_at: u64) -> bool {
    let wanted = if number == fails_at { None } else { Some(2) };
    found == wanted && failed == (fails_at != 0 && fails_at <= number)
}

/// Fails unless each of three reads asks once, of which one fails, or none.
fn asks_once(fails_at: u64) -> Result<(), Fail> {
    let mut latched = Latched::new(Asked { calls: 0, fails_at });
    for number in 1..4u64 {
        let found = latched.read(&mut [0u8; 2]).ok();
        is_so(
            is_kept(found, latched.failed(), number, fails_at),
            "another answer",
        )?;
    }
    is_so(latched.into_inner().calls == 3, "another count")
}

#[test]
fn each_read_asks_once(_rt: HostRuntime) -> Result<(), Fail> {
    for fails_at in 0..4 {
        asks_once(fails_at)?;
    }
    Ok(())
}

/// Whether each of three writes passes until one fails.
fn pass_until(writer: &mut LineWriter<Asked>, fails_at: u64) -> bool {
    for number in 1..4u64 {
        let passes = fails_at == 0 || number < fails_at;
        if writer.write(b"ab").is_ok() != passes {
            return false;
        }
    }
    true
}

/// Fails unless each of three writes asks once, until one fails, and no more are made then.
fn asks_until_it_fails(rt: &HostRuntime, fails_at: u64) -> Result<(), Fail> {
    let mut writer = LineWriter::new(rt.alloc(), Asked { calls: 0, fails_at });
    let are_wanted = pass_until(&mut writer, fails_at);
    let (asked, ended) = writer.finish();
    let calls = if fails_at == 0 { 3 } else { fails_at };
    is_so(are_wanted, "another answer")?;
    is_so(ended.is_ok() == (fails_at == 0), "another end")?;
    is_so(asked.calls == calls, "another count")
}

#[test]
fn each_write_asks_once_until_one_fails(rt: HostRuntime) -> Result<(), Fail> {
    for fails_at in 0..4 {
        asks_until_it_fails(&rt, fails_at)?;
    }
    Ok(())
}

/// One of the calls of a writer.
fn call(writer: &mut LineWriter<Asked>, which: u8) -> Result<(), WriteFault> {
    match which {
        0 => writer.add(b"ab"),
        1 => writer.add_all(&[]),
        2 => writer.add_hex(b""),
        3 => writer.add_hex_line(b"", b"", b""),
        4 => writer.write(b""),
        _ => writer.flush(),
    }
}

/// Whether each call fails after a write that failed.
fn all_fail(writer: &mut LineWriter<Asked>) -> bool {
    for which in [5, 0, 1, 2, 3, 4, 5] {
        if call(writer, which).is_ok() {
            return false;
        }
    }
    true
}

/// Each call after a write that failed answers a fault, and asks for nothing.
#[test]
fn a_failure_is_for_good(rt: HostRuntime) -> Result<(), Fail> {
    let asked = Asked {
        calls: 0,
        fails_at: 1,
    };
    let mut writer = LineWriter::new(rt.alloc(), asked);
    let waits = call(&mut writer, 0).is_ok();
    let fails = all_fail(&mut writer);
    let (asked, ended) = writer.finish();
    is_so(waits && fails, "it does not wait, or goes on")?;
    is_so(ended.is_err() && asked.calls == 1, "another end")
}
