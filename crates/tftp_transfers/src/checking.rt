//! The verdict on each transfer of recordings.

ghost use Rattle.std.specs.Prelude.{◌≡◌, false, map, true};
ghost use Rattle.tftp_rows.specs.declared.printing.Form.TheVariants.{Json, Words};
ghost use Rattle.tftp_transfers.specs.Choices.{judging_at, widest};

use crate::PROGRAM;
use anyhow::Result;
use audit_recording::judges::Judging;
use std::io;
use tftp_packet::rounds::Rollover;
use tftp_rows::{Form, Machine, Remarks, Teller, check_files};
use tftp_words::{CheckRequest, Point};

/// Judges the transfers of recordings. A recording that can't be read does not end it. The status is 3 where nothing else is to
/// be told by it, and a file had no transfer to judge.
pub fn check(rt: HostRuntime, asked: &CheckRequest<'_>) -> Result<u8> {
    let machine = Machine::new(rt);
    let mut teller = Teller::new(rt.alloc(), io::writer(&rt), form_of(asked));
    let mut remarks = Remarks::new(PROGRAM, rt.stderr());
    check_files(
        rt.alloc(),
        &machine,
        asked.files.as_slice(),
        asked.services.as_slice(),
        judging_at(asked.end, asked.rollover),
        &mut teller,
        &mut remarks,
    )
}

/// Where transfers are judged, where the recordings were made there and this comes after block 65535, if that is said.
fn judging_at(point: Option<Point>, rollover: Option<Rollover>) -> Judging
    ensures { result ≡ judging_at point rollover }
{
    match (point, rollover) {
        (Some(Point::Client), None) => Judging::Client,
        (Some(Point::Client), Some(rollover)) => Judging::ClientBy(rollover),
        (Some(Point::Server), None) => Judging::Server,
        (Some(Point::Server), Some(rollover)) => Judging::ServerBy(rollover),
        (Some(Point::Between), None) => Judging::Between,
        (Some(Point::Between), Some(rollover)) => Judging::BetweenBy(rollover),
        (None, _) => Judging::WhereRecorded,
    }
}

/// How the rows are printed: the column of files is as wide as the longest name.
fn form_of(asked: &CheckRequest<'_>) -> Form
    ensures json { asked.now.json ≡ true → result ≡ Json }
    ensures words { asked.now.json ≡ false → result ≡ Words (widest (map (λ name. name.now) asked.now.files.items)) }
{
    if asked.json {
        return Form::Json;
    }
    let mut widest = 4;
    for file in asked.files.iter() {
        widest = file.len().max(widest);
    }
    Form::Words(widest)
}
