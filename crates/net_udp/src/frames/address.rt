ghost use Rattle.std.specs.Prelude.{◌≡◌, ◌+◌, ◌*◌, ◌<◌, ◌≤◌, ◌++◌, length, take, codes, decimal};
ghost use Rattle.std.specs.Char.{digit_char};
ghost use Rattle.std.specs.Net.Addr.{ipv4_octets, ipv6_segments};
ghost use Rattle.std.specs.Net.Text as Text;

use itoa::Buffer;
use std::net::{IpAddr, Ipv4Addr, Ipv6Addr};

/// Writes an address at the front of the room, and answers how many bytes that takes: an IPv4 address in dotted decimal,
/// an IPv6 address as RFC 5952 has it, where IPv4-mapped with its last 32 bits in dotted decimal (section 5). Of no two
/// addresses is the same written.
pub fn write_address(address: &IpAddr, room: &mut [u8; 45]) -> usize
    ensures text { take result room.new ≡ Text.ip_text address.now }
    ensures within { result ≤ 45 }
{
    match address {
        IpAddr::V4(ipv4) => put_ipv4(room, 0, ipv4),
        IpAddr::V6(ipv6) => put_ipv6(room, ipv6),
    }
}

/// Writes a text at a place, and answers where it ends.
#[inline]
fn put(room: &mut [u8], place: usize, text: &[u8]) -> usize
    requires { place + length text.now ≤ length room.old }
    ensures text { take result room.new ≡ take place room.old ++ text.now }
    ensures end { result ≡ place + length text.now }
{
    let end = place + text.len();
    room[place..end].copy_from_slice(text);
    end
}

/// Writes a byte in decimal.
fn put_decimal(room: &mut [u8], place: usize, number: u8) -> usize
    requires { place + 3 ≤ length room.old }
    ensures text { take result room.new ≡ take place room.old ++ decimal number }
    ensures within { result ≤ place + 3 }
{
    let mut buffer = Buffer::new();
    put(room, place, buffer.format(number).as_bytes())
}

/// Writes an IPv4 address in dotted decimal.
fn put_ipv4(room: &mut [u8], place: usize, address: &Ipv4Addr) -> usize
    requires { place + 15 ≤ length room.old }
    ensures text { take result room.new ≡ take place room.old ++ Text.ipv4_text (ipv4_octets address.now) }
    ensures within { result ≤ place + 15 }
{
    let [a, b, c, d] = address.octets();
    let mut end = put_decimal(room, place, a);
    end = put(room, end, b".");
    end = put_decimal(room, end, b);
    end = put(room, end, b".");
    end = put_decimal(room, end, c);
    end = put(room, end, b".");
    put_decimal(room, end, d)
}

/// A digit of base 16, in lower case.
#[inline]
fn hex_digit(number: u16) -> u8
    requires { number < 16 }
    ensures { result ≡ digit_char number }
{
    if number < 10 {
        b'0' + number as u8
    } else {
        b'a' + (number - 10) as u8
    }
}

/// How many of the four digits of a segment are zeros in front, the last digit apart.
#[inline]
fn leading_zeros(segment: u16) -> usize
    ensures value { result ≡ Text.leading_zero_digits segment }
    ensures within { result < 4 }
{
    match segment {
        0x1000.. => 0,
        0x100.. => 1,
        0x10.. => 2,
        _ => 3,
    }
}

/// Writes a segment in lower-case hex, without zeros in front (RFC 5952, sections 4.1 and 4.3).
fn put_segment(room: &mut [u8], place: usize, segment: u16) -> usize
    requires { place + 4 ≤ length room.old }
    ensures text { take result room.new ≡ take place room.old ++ Text.hex segment }
    ensures within { result ≤ place + 4 }
{
    let digits = [
        hex_digit(segment / 0x1000),
        hex_digit(segment / 0x100 % 16),
        hex_digit(segment / 0x10 % 16),
        hex_digit(segment % 16),
    ];
    put(room, place, &digits[leading_zeros(segment)..])
}

/// Writes segments with colons between them.
fn put_segments(room: &mut [u8], place: usize, segments: &[u16]) -> usize
    requires { place + 5 * length segments.now ≤ length room.old }
    ensures text { take result room.new ≡ take place room.old ++ Text.groups_text segments.now }
    ensures within { result ≤ place + 5 * length segments.now }
{
    let [first, rest @ ..] = segments else {
        return place;
    };
    let mut end = put_segment(room, place, *first);
    for segment in rest {
        end = put(room, end, b":");
        end = put_segment(room, end, *segment);
    }
    end
}

/// The start and the length of the longest run of zeros; of two such runs the first (RFC 5952, section 4.2.3).
fn longest_zero_run(segments: &[u16]) -> (usize, usize)
    ensures value { result ≡ Text.longest_zero_run segments.now }
    ensures within { result.0 + result.1 ≤ length segments.now }
{
    let mut start = segments.len();
    let mut len = 0;
    let mut run = 0;
    for i in (0..segments.len()).rev() {
        run = if segments[i] == 0 { run + 1 } else { 0 };
        if run >= len {
            start = i;
            len = run;
        }
    }
    (start, len)
}

/// Writes an IPv6 address.
fn put_ipv6(room: &mut [u8], address: &Ipv6Addr) -> usize
    requires { 45 ≤ length room.old }
    ensures text { take result room.new ≡ Text.ipv6_text (ipv6_segments address.now) }
    ensures within { result ≤ 45 }
{
    match address.to_ipv4_mapped() {
        Some(ipv4) => {
            let end = put(room, 0, b"::ffff:");
            put_ipv4(room, end, &ipv4)
        }
        None => put_hex(room, &address.segments()),
    }
}

/// Writes segments in hex alone, with `::` for the longest run of two zeros or more (RFC 5952, section 4.2).
fn put_hex(room: &mut [u8], segments: &[u16]) -> usize
    requires room { 45 ≤ length room.old }
    requires eight { length segments.now ≡ 8 }
    ensures text { take result room.new ≡ Text.hex_groups_text segments.now }
    ensures within { result ≤ 45 }
{
    let (start, len) = longest_zero_run(segments);
    if len > 1 {
        let head = put_segments(room, 0, &segments[..start]);
        let colons = put(room, head, b"::");
        put_segments(room, colons, &segments[start + len..])
    } else {
        put_segments(room, 0, segments)
    }
}
