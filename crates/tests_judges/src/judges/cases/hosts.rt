/// Captures with hosts.
pub const SCRIPT: &str = "
READ = out 40000 10.0.0.1 69 000161006f6374657400
HI = in 40000 10.0.0.1 41000 000300016869
ACK_1 = out 40000 10.0.0.1 41000 00040001
READ_AT_2 = out 40000 10.0.0.2 69 000161006f6374657400
HI_FROM_2 = in 40000 10.0.0.2 41000 000300016869
ACK_1_TO_2 = out 40000 10.0.0.2 41000 00040001
STRAY = in 40000 10.0.0.9 41000 000300016869
ASKED = in 69 10.0.0.7 40000 000161006f6374657400
SENT = out 41000 10.0.0.7 40000 000300016869
ACKED = in 41000 10.0.0.7 40000 00040001
STRAY_ACK = in 41000 10.0.0.8 40000 00040001

# A server may answer from another host than the one that was asked, and the client goes on with that one. Hosts are
# the same where their bytes are.
tftp-capture 2, end client, service 69
READ, HI, ACK_1 => 0 accepted get octet blocks 1 bytes 2
READ, READ, HI, ACK_1 => 0 accepted get octet blocks 1 bytes 2
READ, HI_FROM_2, ACK_1_TO_2 => 0 accepted get octet blocks 1 bytes 2
READ, HI_FROM_2, READ, ACK_1_TO_2 => 0 accepted get octet blocks 1 bytes 2
READ, HI_FROM_2, ACK_1 => 1 refused datagram 3 rule 2 WrongPort
READ, HI, out 40000 10.0.0.01 41000 00040001 => 1 refused datagram 3 rule 2 WrongPort

# A request is repeated to the host that was asked, not to the one that answered.
tftp-capture 2, end client, service 69
READ, READ_AT_2 => 1 refused datagram 2 rule 2 WrongPort
READ, HI_FROM_2, READ_AT_2 => 1 refused datagram 3 rule 2 WrongPort

# A third host is told from the server by its host, though its port is the server's. What comes first is the server's.
tftp-capture 2, end client, service 69
READ, HI, STRAY, ACK_1 => 0 accepted get octet blocks 1 bytes 2
READ, HI, STRAY, out 40000 10.0.0.9 41000 0005000500, ACK_1 => 0 accepted get octet blocks 1 bytes 2
READ, HI, STRAY, out 40000 10.0.0.9 41000 00040001 => 1 refused datagram 4 rule 3 StrayAnswer
READ, HI, out 40000 10.0.0.9 41000 0005000500 => 1 refused datagram 3 rule 2 WrongPort
READ, HI, STRAY, out 40000 10.0.0.9 42000 0005000500 => 1 refused datagram 4 rule 2 WrongPort
READ, HI, STRAY, out 40000 10.0.0.8 41000 0005000500 => 1 refused datagram 4 rule 2 WrongPort
READ, STRAY, HI, ACK_1 => 1 refused datagram 4 rule 3 StrayAnswer

# A server answers the client's host, and a request of another host is of another transfer.
tftp-capture 2, end server, service 69
ASKED, SENT, ACKED => 0 accepted get octet blocks 1 bytes 2
ASKED, SENT, STRAY_ACK, out 41000 10.0.0.8 40000 0005000500, ACKED => 0 accepted get octet blocks 1 bytes 2
ASKED, SENT, STRAY_ACK => 1 incomplete after 3
ASKED, SENT, STRAY_ACK, out 41000 10.0.0.8 40000 000300016869 => 1 refused datagram 4 rule 3 StrayAnswer
ASKED, in 69 10.0.0.8 40000 000161006f6374657400 => 1 refused datagram 2 rule 1 ForeignPort
ASKED, out 41000 10.0.0.8 40000 000300016869 => 1 refused datagram 2 rule 2 WrongPort
";
