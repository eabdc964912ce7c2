/// Reads, and strays beside them.
pub const SCRIPT: &str = "
READ_TEXT_BY_8 = out 40000 69 000161006e6574617363696900626c6b73697a65003800
READ_TEXT = out 40000 69 000161006e6574617363696900

tftp-capture 1, end client, service 69
READ, HI, ACK_1 => 0 accepted get octet blocks 1 bytes 2
READ, in 40000 69 000300016869, out 40000 69 00040001 => 0 accepted get octet blocks 1 bytes 2
READ, in 40000 41000 00030001, ACK_1 => 0 accepted get octet blocks 1 bytes 0
=> 1 incomplete after 0
READ, HI, ACK_1, HI, ACK_1 => 0 accepted get octet blocks 1 bytes 2
READ, READ, HI, ACK_1 => 0 accepted get octet blocks 1 bytes 2

tftp-capture 1, end server, service 6969
in 6969 2000 000161004f4354455400, out 3000 2000 000300016869,
  in 3000 2000 00040001 => 0 accepted get octet blocks 1 bytes 2

# A line end between two blocks, and one that came as LF alone: the file is the same. Four bare LFs came in one block,
# and are written as four pairs of CR and LF.
tftp-capture 1, end client, service 69
READ_TEXT_BY_8, OACK_BY_8, ACK_0, in 40000 41000 00030001616263646566670d, ACK_1, in 40000 41000 000300020a68,
  ACK_2 => 0 accepted get netascii blocks 2 bytes 9
READ_TEXT_BY_8, OACK_BY_8, ACK_0, in 40000 41000 00030001616263646566670a, ACK_1, in 40000 41000 0003000268,
  ACK_2 => 0 accepted get netascii blocks 2 bytes 9
READ_TEXT_BY_8, OACK_BY_8, ACK_0, in 40000 41000 000300010a0a0a0a, ACK_1 => 0 accepted get netascii blocks 2 bytes 4

# One or two bytes, by pairs and by what is none.
tftp-capture 1, end client, service 69
READ_TEXT, in 40000 41000 000300010a, ACK_1 => 0 accepted get netascii blocks 1 bytes 1
READ_TEXT, in 40000 41000 000300010d, ACK_1 => 0 accepted get netascii blocks 1 bytes 1
READ_TEXT, in 40000 41000 000300010d00, ACK_1 => 0 accepted get netascii blocks 1 bytes 1
READ_TEXT, in 40000 41000 000300010d0a, ACK_1 => 0 accepted get netascii blocks 1 bytes 1
READ_TEXT, in 40000 41000 000300010d0d0a, ACK_1 => 0 accepted get netascii blocks 1 bytes 2
READ_TEXT, in 40000 41000 000300010d41, ACK_1 => 0 accepted get netascii blocks 1 bytes 2

# A block from another port, and what may answer it.
tftp-capture 1, end client, service 69
READ, HI, STRAY, out 40000 42000 0005000500, ACK_1 => 0 accepted get octet blocks 1 bytes 2
READ, HI, STRAY, out 40000 42000 0005000500 => 1 incomplete after 4
READ, HI, STRAY, out 40000 42000 00040001 => 1 refused datagram 4 rule 3 StrayAnswer
READ, HI, STRAY, out 40000 43000 00040001 => 1 refused datagram 4 rule 2 WrongPort
READ, HI, STRAY, in 40001 41000 000300016869 => 1 refused datagram 4 rule 1 ForeignPort
READ, HI, STRAY, out 40000 42000 0005000500, out 40000 42000 00040001 => 1 refused datagram 5 rule 3 StrayAnswer
out 40000 70 000161006f6374657400 => 1 refused datagram 1 rule 2 WrongPort
READ, HI, STRAY, in 40001 41000 000300016869, ACK_1 => 1 refused datagram 4 rule 1 ForeignPort
READ, HI, STRAY, out 40000 42000 00040001, ACK_1 => 1 refused datagram 4 rule 3 StrayAnswer
READ, HI, STRAY, out 40000 43000 00040001, ACK_1 => 1 refused datagram 4 rule 2 WrongPort
";
