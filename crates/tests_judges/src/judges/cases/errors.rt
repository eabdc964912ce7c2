/// Captures with ERRORs.
pub const SCRIPT: &str = "
NOT_FOUND = in 40000 41000 0005000100
STOPPED = in 40000 41000 0005000000
IN_01234567 = in 40000 41000 000300013031323334353637
IN_89 = in 40000 41000 000300023839
ASKED = in 69 40000 000161006f6374657400
ASKED_TO_WRITE = in 69 40000 000261006f6374657400626c6b73697a6500380077696e646f7773697a65003400
AGREED = out 69 40000 0006626c6b73697a6500380077696e646f7773697a65003400
ANSWERED = out 41000 40000 0005000100
ASKED_2_BY_8 = in 69 40000 000161006f6374657400626c6b73697a6500380077696e646f7773697a65003200
AGREED_2_BY_8 = out 41000 40000 0006626c6b73697a6500380077696e646f7773697a65003200
SENT_1 = out 41000 40000 000300013131313131313131
SENT_HI = out 41000 40000 000300016869
TAKEN_0 = in 41000 40000 00040000
TAKEN_1 = in 41000 40000 00040001
BROKEN_OFF = in 41000 40000 0005000000

# An ERROR that comes in may come again, but not with another code or message.
tftp-capture 1, end client, service 69
READ, NOT_FOUND => 1 aborted by peer code 1
READ, NOT_FOUND, NOT_FOUND => 1 aborted by peer code 1
READ, NOT_FOUND, NOT_FOUND, in 40000 41000 0005000200 => 1 refused datagram 4 rule 7 AfterError
READ, NOT_FOUND, in 40000 41000 000500016100 => 1 refused datagram 3 rule 7 AfterError
READ, STOPPED, DISK_FULL => 1 aborted by peer code 0
READ, in 40000 41000 0005ffff206100 => 1 aborted by peer code 65535
READ, in 40000 41000 00050001 => 1 refused datagram 2 rule 5 Malformed NoTerminator
READ, NOT_FOUND, HI => 1 aborted by peer code 1

# After its ERROR an end sends nothing else, while what was on the way to it still comes.
tftp-capture 1, end client, service 69
READ, HI, DISK_FULL => 1 aborted by local code 3
READ, HI, DISK_FULL, DISK_FULL => 1 aborted by local code 3
READ, HI, DISK_FULL, ACK_1 => 1 refused datagram 4 rule 7 AfterError
READ, HI, DISK_FULL, READ => 1 refused datagram 4 rule 7 AfterError
READ, HI, DISK_FULL, out 40000 41000 0005000400 => 1 refused datagram 4 rule 7 AfterError
READ, HI, DISK_FULL, out 40000 41000 000500036100 => 1 refused datagram 4 rule 7 AfterError
READ_BY_8, OACK_BY_8, out 40000 41000 0005000800 => 1 aborted by local code 8
READ, HI, DISK_FULL, HI, STOPPED => 1 aborted by local code 3
READ, HI, DISK_FULL, HI, DISK_FULL => 1 aborted by local code 3
READ, HI, DISK_FULL, in 40000 41000 0005000400 => 1 aborted by local code 3

# An ERROR is a datagram of the transfer, and what no end may send is no better after it.
tftp-capture 1, end client, service 69
NOT_FOUND => 1 refused datagram 1 rule 4 NoRequest
READ, out 40000 69 0005000300 => 1 refused datagram 2 rule 2 WrongPort
READ, HI, DISK_FULL, out 40000 41000 0004 => 1 refused datagram 4 rule 5 Malformed AckLength
READ, HI, DISK_FULL, OUT_1 => 1 refused datagram 4 rule 6 WrongKind
READ_BY_8, OACK_BY_8, DISK_FULL, ACK_0 => 1 refused datagram 4 rule 7 AfterError
READ, HI, DISK_FULL, out 40000 41000 0004000100 => 1 refused datagram 4 rule 5 Malformed AckLength

# A whole transfer stays accepted.
tftp-capture 1, end client, service 69
READ, HI, ACK_1, STOPPED => 0 accepted get octet blocks 1 bytes 2
READ, HI, ACK_1, DISK_FULL => 0 accepted get octet blocks 1 bytes 2
READ, HI, STOPPED, ACK_1 => 0 accepted get octet blocks 1 bytes 2

# A stray's ERROR ends nothing, and a stray is still answered.
tftp-capture 1, end client, service 69
READ, HI, in 40000 42000 0005000100, ACK_1 => 0 accepted get octet blocks 1 bytes 2
READ, HI, DISK_FULL, in 40000 42000 000300016869, out 40000 42000 0005000500 => 1 aborted by local code 3
READ, HI, in 40000 42000 0005000100 => 1 incomplete after 3

# The server sent its ERROR last: what this end sent after the ERROR had come was not yet there for what comes in.
tftp-capture 1, end client, service 69
READ_BY_8, OACK_BY_8, ACK_0, IN_1, ACK_1, STOPPED, IN_2 => 1 aborted by peer code 0
READ_BY_8, OACK_BY_8, ACK_0, IN_1, STOPPED, ACK_1, IN_2 => 1 refused datagram 7 rule 22 WindowOverrun
READ_BY_8, OACK_BY_8, STOPPED, ACK_0, IN_1 => 1 refused datagram 5 rule 18 NotStarted
READ_BY_8, OACK_BY_8, ACK_0, IN_1, STOPPED, IN_1, ACK_0, ACK_1 => 1 aborted by peer code 0
READ_BY_8, OACK_BY_8, ACK_0, IN_01234567, ACK_1, STOPPED, IN_89 => 1 aborted by peer code 0
READ_BY_8, OACK_BY_8, ACK_0, IN_01234567, STOPPED, ACK_1, IN_89 => 1 refused datagram 7 rule 22 WindowOverrun
READ_BY_8, OACK_BY_8, ACK_0, IN_01234567, STOPPED, ACK_1, IN_01234567 => 1 aborted by peer code 0
READ_BY_8, OACK_BY_8, ACK_0, STOPPED, IN_01234567 => 1 aborted by peer code 0
READ_BY_8, OACK_BY_8, STOPPED, ACK_0, IN_01234567 => 1 refused datagram 5 rule 18 NotStarted

tftp-capture 1, end client, service 69
WRITE_BY_8, OACK_BY_8, OUT_1, ACKED_1, OUT_2, STOPPED, ACKED_2 => 1 aborted by peer code 0
WRITE_BY_8, OACK_BY_8, OUT_1, ACKED_1, STOPPED, OUT_2, ACKED_2 => 1 refused datagram 7 rule 26 AckAhead
WRITE_BY_8, OACK_BY_8, OUT_1, STOPPED, ACKED_0 => 1 aborted by peer code 0
WRITE_BY_8, OACK_BY_8, STOPPED, OUT_1, ACKED_0 => 1 refused datagram 5 rule 27 AckZero

# A server answers a request by ERROR, again where the request comes again. Before it has answered no ERROR can come.
tftp-capture 1, end server, service 69
ASKED, ANSWERED => 1 aborted by local code 1
ASKED, ANSWERED, ASKED, ANSWERED => 1 aborted by local code 1
ASKED, ANSWERED, in 41000 40000 0005000000 => 1 aborted by local code 1
ASKED, ANSWERED, out 41000 40000 000300016869 => 1 refused datagram 3 rule 7 AfterError
ASKED_TO_WRITE, in 69 40000 0005000000 => 1 refused datagram 2 rule 2 WrongPort
ASKED_TO_WRITE, in 69 40000 0005000000, AGREED => 1 refused datagram 2 rule 2 WrongPort
ASKED, SENT_HI, in 41000 40000 0005000400, SENT_HI => 1 aborted by peer code 4
in 69 40000 000261006f6374657400, in 69 40000 0005000000 => 1 refused datagram 2 rule 2 WrongPort
ASKED_2_BY_8, AGREED_2_BY_8, TAKEN_0, SENT_1, BROKEN_OFF, TAKEN_1 => 1 aborted by peer code 0
ASKED_2_BY_8, AGREED_2_BY_8, TAKEN_0, BROKEN_OFF, SENT_1, TAKEN_1 => 1 refused datagram 6 rule 26 AckAhead
";
