use crate::commands::prints;
use crate::scripts::Script;
use std::test::Fail;

/// Captures of whole transfers, and their files, in hex digits; `-` where the file is empty.
pub const SCRIPT: &str = "
READ_TEXT = out 40000 69 000161006e6574617363696900
READ_TEXT_BY_8 = out 40000 69 000161006e6574617363696900626c6b73697a65003800

tftp-capture 1, end client, service 69
READ, HI, ACK_1 => 6869
READ, in 40000 41000 00030001, ACK_1 => -
READ_4_BY_8, OACK_4_BY_8, ACK_0, IN_1, IN_2, IN_4, ACK_2, IN_3, IN_4, in 40000 41000 000300053535353535353535,
  in 40000 41000 00030006363636,
  out 40000 41000 00040006 => 31313131313131313232323232323232333333333333333334343434343434343535353535353535363636
WRITE_BY_8, OACK_BY_8, OUT_1, ACKED_1, OUT_1, OUT_22, ACKED_2 => 31313131313131313232
READ_TEXT_BY_8, OACK_BY_8, ACK_0, in 40000 41000 00030001616263646566670d, ACK_1, in 40000 41000 000300020a68,
  ACK_2 => 616263646566670a68
READ_TEXT_BY_8, OACK_BY_8, ACK_0, in 40000 41000 00030001616263646566670a, ACK_1, in 40000 41000 0003000268,
  ACK_2 => 616263646566670a68
READ_4_BY_8, OACK_4_BY_8, ACK_0, IN_1, IN_1, IN_4, ACK_1, IN_2, IN_3, out 40000 41000 00040004,
  in 40000 41000 00030005,
  out 40000 41000 00040005 => 3131313131313131323232323232323233333333333333333434343434343434
READ_TEXT, in 40000 41000 000300010a, ACK_1 => 0a
READ_TEXT, in 40000 41000 000300010d, ACK_1 => 0d
READ_TEXT, in 40000 41000 000300010d00, ACK_1 => 0d
READ_TEXT, in 40000 41000 000300010d0a, ACK_1 => 0a
READ_TEXT, in 40000 41000 000300010d0d0a, ACK_1 => 0d0a
READ_TEXT, in 40000 41000 000300010d41, ACK_1 => 0d41
";

/// Fails unless `extract` writes the file of the next capture of a script.
fn next_has_file(rt: &HostRuntime, script: &mut Script<'_>) -> Result<(), Fail> {
    let (text, digits) = script.next(rt.alloc())?;
    let digits = if digits == b"-".as_slice() {
        b""
    } else {
        digits
    };
    let file = hex::decode(rt.alloc(), digits)?;
    prints(rt, "extract", text.as_slice(), 0, file.as_slice())
}

#[test]
fn files_of_accepted_captures(rt: HostRuntime) -> Result<(), Fail> {
    let mut script = Script::new(SCRIPT);
    for _ in 0..13 {
        next_has_file(&rt, &mut script)?;
    }
    script.ends()
}
