//! Requests, and what an OACK agrees to.

use crate::packets::views::{oack_of, owned_request_of};
use std::test::Fail;
use tftp_nego::{Agreed, AgreementRule, NegoFault, agree};
use tftp_packet::{OptionsView, Request};

/// The block size, the window, the timeout and the size.
type Numbers = (u16, u16, Option<u8>, Option<u64>);

/// Those that were agreed.
fn numbers_of(agreed: &Agreed) -> Numbers {
    (
        agreed.blksize(),
        agreed.windowsize(),
        agreed.timeout(),
        agreed.tsize(),
    )
}

/// A request, an OACK, and what it agrees to, or the fault that it has first.
type Row = (&'static [u8], &'static [u8], Result<Numbers, NegoFault>);

/// What is agreed of an OACK. It promises nothing.
fn agreed_of(
    rt: &HostRuntime,
    request: &Request,
    oack: &OptionsView<'_>,
) -> Result<Numbers, NegoFault> {
    match agree(rt.alloc(), request, oack, None) {
        Ok(agreed) => Ok(numbers_of(&agreed)),
        Err(fault) => Err(fault),
    }
}

/// What an OACK answers to a request.
fn answer(rt: &HostRuntime, (request, oack, _): &Row) -> Result<Result<Numbers, NegoFault>, Fail> {
    let oack = oack_of(*oack)?;
    let request = owned_request_of(rt, *request)?;
    match agreed_of(rt, &request, &oack) {
        Err(NegoFault::Memory) => Err(Fail::new("want of memory")),
        found => Ok(found),
    }
}

/// Requests and OACKs.
const ROWS: &[Row] = &[
    (
        b"\x00\x01a\x00octet\x00blksize\x008\x00windowsize\x004\x00",
        b"\x00\x06blksize\x008\x00windowsize\x004\x00",
        Ok((8, 4, None, None)),
    ),
    (
        b"\x00\x01a\x00octet\x00blksize\x001024\x00",
        b"\x00\x06blksize\x000512\x00",
        Ok((512, 1, None, None)),
    ),
    (
        b"\x00\x01a\x00octet\x00foo\x001\x00blksize\x008\x00",
        b"\x00\x06blksize\x008\x00",
        Ok((8, 1, None, None)),
    ),
    (
        b"\x00\x01a\x00octet\x00tsize\x0010\x00",
        b"\x00\x06tsize\x0011\x00",
        Ok((512, 1, None, Some(11))),
    ),
    (
        b"\x00\x01a\x00octet\x00timeout\x005\x00",
        b"\x00\x06TimeOut\x0005\x00",
        Ok((512, 1, Some(5), None)),
    ),
    (
        b"\x00\x02a\x00octet\x00tsize\x0010\x00",
        b"\x00\x06tsize\x0010\x00",
        Ok((512, 1, None, Some(10))),
    ),
    (
        b"\x00\x01a\x00octet\x00blksize\x008\x00tsize\x000\x00",
        b"\x00\x06blksize\x008\x00tsize\x00524279\x00",
        Ok((8, 1, None, Some(524279))),
    ),
    (
        b"\x00\x01a\x00octet\x00blksize\x008\x00windowsize\x0065535\x00",
        b"\x00\x06blksize\x008\x00windowsize\x0065535\x00",
        Ok((8, 65535, None, None)),
    ),
    (
        b"\x00\x01a\x00netascii\x00tsize\x000\x00",
        b"\x00\x06tsize\x0018446744073709551615\x00",
        Ok((512, 1, None, Some(18446744073709551615))),
    ),
    (
        b"\x00\x01a\x00octet\x00blksize\x0065464\x00tsize\x000\x00",
        b"\x00\x06blksize\x0065464\x00tsize\x004290183239\x00",
        Ok((65464, 1, None, Some(4290183239))),
    ),
    (
        b"\x00\x01a\x00octet\x00tsize\x000\x00",
        b"\x00\x06tsize\x0033553919\x00",
        Ok((512, 1, None, Some(33553919))),
    ),
    (
        b"\x00\x01a\x00octet\x00timeout\x00255\x00",
        b"\x00\x06timeout\x00255\x00",
        Ok((512, 1, Some(255), None)),
    ),
    (
        b"\x00\x01a\x00octet\x00",
        b"\x00\x06",
        Err(NegoFault::Broken(AgreementRule::OackEmpty)),
    ),
    (
        b"\x00\x01a\x00octet\x00multicast\x00\x00",
        b"\x00\x06multicast\x00\x00",
        Err(NegoFault::Broken(AgreementRule::MulticastAgreed)),
    ),
    (
        b"\x00\x01a\x00octet\x00",
        b"\x00\x06blksize\x008\x00MultiCast\x00\x00",
        Err(NegoFault::Broken(AgreementRule::MulticastAgreed)),
    ),
    (
        b"\x00\x01a\x00octet\x00",
        b"\x00\x06blksize\x008\x00",
        Err(NegoFault::Broken(AgreementRule::OptionNotRequested)),
    ),
    (
        b"\x00\x01a\x00octet\x00foo\x001\x00",
        b"\x00\x06foo\x001\x00",
        Err(NegoFault::Broken(AgreementRule::OptionOutsideProfile)),
    ),
    (
        b"\x00\x01a\x00octet\x00blksize\x007\x00",
        b"\x00\x06blksize\x007\x00",
        Err(NegoFault::Broken(AgreementRule::OptionValue)),
    ),
    (
        b"\x00\x01a\x00octet\x00timeout\x005\x00",
        b"\x00\x06timeout\x006\x00",
        Err(NegoFault::Broken(AgreementRule::OptionValue)),
    ),
    (
        b"\x00\x01a\x00octet\x00windowsize\x004\x00",
        b"\x00\x06windowsize\x005\x00",
        Err(NegoFault::Broken(AgreementRule::OptionValue)),
    ),
    (
        b"\x00\x02a\x00octet\x00tsize\x0010\x00",
        b"\x00\x06tsize\x0011\x00",
        Err(NegoFault::Broken(AgreementRule::OptionValue)),
    ),
    (
        b"\x00\x01a\x00octet\x00blksize\x00512\x00",
        b"\x00\x06blksize\x001024\x00",
        Err(NegoFault::Broken(AgreementRule::OptionValue)),
    ),
    (
        b"\x00\x01a\x00octet\x00tsize\x000\x00",
        b"\x00\x06tsize\x0018446744073709551616\x00",
        Err(NegoFault::Broken(AgreementRule::OptionValue)),
    ),
    (
        b"\x00\x01a\x00octet\x00blksize\x008\x00tsize\x000\x00",
        b"\x00\x06blksize\x008\x00tsize\x00524280\x00",
        Err(NegoFault::BeyondBlock65535),
    ),
    (
        b"\x00\x01a\x00octet\x00tsize\x000\x00",
        b"\x00\x06tsize\x0033553920\x00",
        Err(NegoFault::BeyondBlock65535),
    ),
    (
        b"\x00\x01a\x00octet\x00tsize\x000\x00",
        b"\x00\x06tsize\x0018446744073709551615\x00",
        Err(NegoFault::BeyondBlock65535),
    ),
];

#[test]
fn oacks_agree_to_options(rt: HostRuntime) -> Result<(), Fail> {
    for row in ROWS {
        let found = answer(&rt, row)?;
        if found != row.2 {
            return Err(Fail::from((found, row.2)));
        }
    }
    Ok(())
}
