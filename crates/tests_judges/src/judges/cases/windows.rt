/// Captures of many blocks, in windows.
pub const SCRIPT: &str = "
IN_5 = in 40000 41000 000300053535353535353535
IN_666 = in 40000 41000 00030006363636
SENT_1 = out 41000 40000 000300013131313131313131
SENT_2 = out 41000 40000 000300023232323232323232
ASKED_4_BY_8 = in 69 40000 000261006f6374657400626c6b73697a6500380077696e646f7773697a65003400
AGREED_4_BY_8 = out 41000 40000 0006626c6b73697a6500380077696e646f7773697a65003400
TAKEN_2 = in 41000 40000 000300023232323232323232
ASKED_2_BY_8 = in 69 40000 000161006f6374657400626c6b73697a6500380077696e646f7773697a65003200
AGREED_2_BY_8 = out 41000 40000 0006626c6b73697a6500380077696e646f7773697a65003200
TAKEN_ACK_0 = in 41000 40000 00040000
GIVEN_ACK_0 = out 41000 40000 00040000
IN_7 = in 40000 41000 000300073737373737373737
ACK_4 = out 40000 41000 00040004
ACK_6 = out 40000 41000 00040006
READ_SPELLED = out 40000 69 000161006f637465740057696e646f7753697a65003400424c4b53495a4500303800
OUT_444 = out 40000 41000 000300043434
ACKED_4 = in 40000 41000 00040004

# A block that was lost, and a block too far ahead.
tftp-capture 1, end client, service 69
READ_4_BY_8, OACK_4_BY_8, ACK_0, IN_1, IN_2, IN_4, ACK_2, IN_3, IN_4, IN_5, IN_666,
  ACK_6 => 0 accepted get octet blocks 6 bytes 43
READ_SPELLED, OACK_4_BY_8, ACK_0, IN_1, IN_2, IN_4, ACK_2, IN_3, IN_4, IN_5, IN_666,
  ACK_6 => 0 accepted get octet blocks 6 bytes 43
READ_4_BY_8, OACK_4_BY_8, ACK_0, IN_1, IN_2, IN_4, ACK_2, IN_7 => 1 refused datagram 8 rule 22 WindowOverrun
READ_4_BY_8, OACK_4_BY_8, ACK_0, IN_1, IN_2, IN_4, ACK_4 => 1 refused datagram 7 rule 26 AckAhead
READ_4_BY_8, OACK_4_BY_8, ACK_0, IN_1, IN_1, IN_1_CHANGED => 1 refused datagram 6 rule 25 BlockChanged
READ_4_BY_8, OACK_4_BY_8, ACK_0, IN_1, IN_1, IN_4, ACK_4 => 1 refused datagram 7 rule 26 AckAhead
READ_4_BY_8, OACK_4_BY_8, ACK_0, IN_1, IN_1, IN_4, ACK_1, IN_2, IN_3, ACK_4 => 1 incomplete after 10
READ_4_BY_8, OACK_4_BY_8, ACK_0, IN_1, IN_1, IN_4, ACK_1, IN_2, IN_3, ACK_4, in 40000 41000 00030005,
  out 40000 41000 00040005 => 0 accepted get octet blocks 5 bytes 32
READ_4_BY_8, OACK_4_BY_8, ACK_0, IN_1, IN_1, IN_4, ACK_1,
  in 40000 41000 0003000333333333333333 => 1 refused datagram 8 rule 21 BlockLength
READ_4_BY_8, OACK_4_BY_8, ACK_0, IN_1, IN_1, IN_4, ACK_1, IN_5 => 1 incomplete after 8
READ_4_BY_8, OACK_4_BY_8, ACK_0, IN_1, IN_1, IN_4, ACK_1,
  in 40000 41000 000300063636363636363636 => 1 refused datagram 8 rule 22 WindowOverrun
READ_4_BY_8, OACK_4_BY_8, ACK_0, IN_4 => 1 incomplete after 4
READ_4_BY_8, OACK_4_BY_8, ACK_0, IN_5 => 1 refused datagram 4 rule 22 WindowOverrun
READ_4_BY_8, OACK_4_BY_8 => 1 incomplete after 2

# A block may come again, but not after the next one.
tftp-capture 1, end client, service 69
WRITE_BY_8, OACK_BY_8, OUT_1, ACKED_1, OUT_1, OUT_22, ACKED_2 => 0 accepted put octet blocks 2 bytes 10
WRITE_BY_8, OACK_BY_8, OUT_1, ACKED_1, OUT_1, OUT_22, OUT_1 => 1 refused datagram 7 rule 24 GoneBack
WRITE_BY_8, OACK_BY_8, OUT_1, ACKED_1, OUT_1, OUT_22 => 1 incomplete after 6

# An old ACK sends the sender back; no block is left out, and ACK 0 answers blocks.
tftp-capture 1, end client, service 69
WRITE_2_BY_8, OACK_2_BY_8, OUT_1, OUT_2, ACKED_2, OUT_3, OUT_444, ACKED_1, OUT_2, OUT_3,
  ACKED_4 => 0 accepted put octet blocks 4 bytes 26
WRITE_2_BY_8, OACK_2_BY_8, OUT_2, OUT_2, ACKED_2, OUT_3, OUT_444, ACKED_1, OUT_2, OUT_3,
  ACKED_4 => 1 refused datagram 3 rule 23 BlockSkipped
WRITE_4_BY_8, OACK_4_BY_8, OUT_1, OUT_22, ACKED_0, OUT_1, OUT_22, ACKED_2 => 0 accepted put octet blocks 2 bytes 10
WRITE_4_BY_8, OACK_4_BY_8, ACKED_0 => 1 refused datagram 3 rule 27 AckZero
WRITE_2_BY_8, OACK_2_BY_8, OUT_2 => 1 refused datagram 3 rule 23 BlockSkipped

# The agreed size gives the last block's length; a block does not change.
tftp-capture 1, end client, service 69
READ_SIZE, OACK_SIZE_10, ACK_0, IN_1, ACK_1, in 40000 41000 0003000232 => 1 refused datagram 6 rule 21 BlockLength
READ_SIZE, OACK_SIZE_10, ACK_0, IN_1, ACK_1, IN_22, ACK_2 => 0 accepted get octet blocks 2 bytes 10
READ_SIZE, OACK_SIZE_10, ACK_0, IN_1, IN_1_CHANGED,
  in 40000 41000 0003000232 => 1 refused datagram 5 rule 25 BlockChanged
READ_SIZE, OACK_SIZE_10, ACK_0, IN_1, IN_1_CHANGED => 1 refused datagram 5 rule 25 BlockChanged

# The same at a server: a receiver of a write, and a sender of a read.
tftp-capture 1, end server, service 69
ASKED_4_BY_8, AGREED_4_BY_8, TAKEN_2, GIVEN_ACK_0, out 41000 40000 00040002 => 1 refused datagram 5 rule 26 AckAhead
ASKED_4_BY_8, AGREED_4_BY_8, GIVEN_ACK_0 => 1 refused datagram 3 rule 27 AckZero
ASKED_4_BY_8, AGREED_4_BY_8, TAKEN_2, GIVEN_ACK_0,
  in 41000 40000 00030002323232 => 1 refused datagram 5 rule 21 BlockLength
ASKED_4_BY_8, AGREED_4_BY_8, in 41000 40000 000300003030303030303030 => 1 refused datagram 3 rule 19 BlockZero
ASKED_2_BY_8, AGREED_2_BY_8, TAKEN_ACK_0, SENT_1, SENT_2, SENT_1,
  in 41000 40000 00040003 => 1 refused datagram 7 rule 26 AckAhead
ASKED_2_BY_8, AGREED_2_BY_8, TAKEN_ACK_0, SENT_2 => 1 refused datagram 4 rule 23 BlockSkipped
ASKED_2_BY_8, AGREED_2_BY_8, SENT_1 => 1 refused datagram 3 rule 18 NotStarted
ASKED_2_BY_8, AGREED_2_BY_8, TAKEN_ACK_0,
  out 41000 40000 000300033333333333333333 => 1 refused datagram 4 rule 22 WindowOverrun
";
