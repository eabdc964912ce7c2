/// Each rule in the order of their numbers: the last datagram breaks it. Then payloads that spell no packet, whoever
/// sends them, and of a text the first datagram that breaks a rule.
pub const SCRIPT: &str = "
tftp-capture 1, end client, service 69
READ, HI, STRAY, in 40001 41000 000300016869 => 1 refused datagram 4 rule 1 ForeignPort
READ, HI, STRAY, out 40000 43000 00040001 => 1 refused datagram 4 rule 2 WrongPort
READ, HI, STRAY, out 40000 42000 00040001 => 1 refused datagram 4 rule 3 StrayAnswer
HI => 1 refused datagram 1 rule 4 NoRequest
READ, HI, out 40000 41000 0004000100 => 1 refused datagram 3 rule 5 Malformed AckLength
READ, ACKED_0 => 1 refused datagram 2 rule 6 WrongKind
READ, HI, DISK_FULL, ACK_1 => 1 refused datagram 4 rule 7 AfterError
READ, out 40000 69 000162006f6374657400 => 1 refused datagram 2 rule 8 RequestChanged
READ, HI, ACK_1, READ => 1 refused datagram 4 rule 9 RequestAfterStart
READ_4_BY_8, HI, OACK_4_BY_8 => 1 refused datagram 3 rule 10 ReplyChanged
READ, in 40000 41000 0006 => 1 refused datagram 2 rule 11 OackEmpty
out 40000 69 000161006f63746574006d756c7469636173740000,
  in 40000 41000 00066d756c7469636173740000 => 1 refused datagram 2 rule 12 MulticastAgreed
READ, OACK_BY_8 => 1 refused datagram 2 rule 13 OptionNotRequested
out 40000 69 000161006f6374657400666f6f003100,
  in 40000 41000 0006666f6f003100 => 1 refused datagram 2 rule 14 OptionOutsideProfile
out 40000 69 000161006f6374657400626c6b73697a650035313200,
  in 40000 41000 0006626c6b73697a65003130323400 => 1 refused datagram 2 rule 15 OptionValue
READ_4_BY_8, OACK_4_BY_8, OACK_BY_8 => 1 refused datagram 3 rule 16 OackChanged
tftp-capture 1, end server, service 69
in 69 40000 000161006f6374657400626c6b73697a6500380077696e646f7773697a65003400,
  out 41000 40000 0006626c6b73697a6500380077696e646f7773697a65003400, in 41000 40000 00040000,
  out 41000 40000 000300013131313131313131,
  out 41000 40000 0006626c6b73697a6500380077696e646f7773697a65003400 => 1 refused datagram 5 rule 17 OackAfterStart
tftp-capture 1, end client, service 69
READ_4_BY_8, OACK_4_BY_8, IN_1 => 1 refused datagram 3 rule 18 NotStarted
READ, in 40000 41000 00030000 => 1 refused datagram 2 rule 19 BlockZero
READ_65535_BY_8, OACK_65535_BY_8, ACK_0,
  in 40000 41000 0003ffff3131313131313131 => 1 refused datagram 4 rule 20 BeyondBlock65535
READ_SIZE, OACK_SIZE_10, ACK_0, IN_1, ACK_1, in 40000 41000 0003000232 => 1 refused datagram 6 rule 21 BlockLength
READ_4_BY_8, OACK_4_BY_8, ACK_0, IN_1, IN_2, IN_4, ACK_2,
  in 40000 41000 000300073737373737373737 => 1 refused datagram 8 rule 22 WindowOverrun
WRITE_2_BY_8, OACK_2_BY_8, OUT_2 => 1 refused datagram 3 rule 23 BlockSkipped
WRITE_BY_8, OACK_BY_8, OUT_1, ACKED_1, OUT_1, OUT_22, OUT_1 => 1 refused datagram 7 rule 24 GoneBack
READ_SIZE, OACK_SIZE_10, ACK_0, IN_1, IN_1_CHANGED => 1 refused datagram 5 rule 25 BlockChanged
READ, HI, ACK_2 => 1 refused datagram 3 rule 26 AckAhead
WRITE_4_BY_8, OACK_4_BY_8, ACKED_0 => 1 refused datagram 3 rule 27 AckZero

tftp-capture 1, end client, service 69
out 40000 69 000161006d61696c00 => 1 refused datagram 1 rule 5 Malformed MailMode
out 40000 69 000161006f6374657400626c6b73697a65003800626c6b73697a65003800 => 1 refused datagram 1 rule 5 Malformed DuplicateOption
READ, in 40000 41000 000300026869, out 40000 41000 0 => 1 refused datagram 2 rule 22 WindowOverrun

# A block that leaves out the first.
READ, in 40000 41000 000300026869 => 1 refused datagram 2 rule 22 WindowOverrun
";
