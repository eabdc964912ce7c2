/// Captures with options.
pub const SCRIPT: &str = "
READ_FOO = out 40000 69 000161006f6374657400666f6f003100
READ_MULTICAST = out 40000 69 000161006f63746574006d756c7469636173740000
IN_NINE = in 40000 41000 00030001393939393939393939
READ_FOO_BY_8 = out 40000 69 000161006f6374657400666f6f003100626c6b73697a65003800
READ_10 = out 40000 69 000161006f63746574007473697a6500313000
OACK_11 = in 40000 41000 00067473697a6500313100

# What an OACK may agree to.
tftp-capture 1, end client, service 69
out 40000 69 000161006f6374657400626c6b73697a650035313200,
  in 40000 41000 0006626c6b73697a65003130323400 => 1 refused datagram 2 rule 15 OptionValue
READ, OACK_BY_8 => 1 refused datagram 2 rule 13 OptionNotRequested
READ, in 40000 41000 0006 => 1 refused datagram 2 rule 11 OackEmpty
READ_FOO, in 40000 41000 0006666f6f003100 => 1 refused datagram 2 rule 14 OptionOutsideProfile
READ_MULTICAST, HI, ACK_1 => 0 accepted get octet blocks 1 bytes 2
READ_MULTICAST, in 40000 41000 00066d756c7469636173740000 => 1 refused datagram 2 rule 12 MulticastAgreed

# What is asked is not agreed, or more is agreed than was asked.
tftp-capture 1, end client, service 69
out 40000 69 000161006f6374657400626c6b73697a65003700,
  in 40000 41000 0006626c6b73697a65003700 => 1 refused datagram 2 rule 15 OptionValue
out 40000 69 000161006f637465740074696d656f7574003500,
  in 40000 41000 000674696d656f7574003600 => 1 refused datagram 2 rule 15 OptionValue
out 40000 69 000161006f637465740077696e646f7773697a65003400,
  in 40000 41000 000677696e646f7773697a65003500 => 1 refused datagram 2 rule 15 OptionValue
out 40000 69 000261006f63746574007473697a6500313000,
  in 40000 41000 00067473697a6500313100 => 1 refused datagram 2 rule 15 OptionValue

# What is agreed holds for the blocks.
tftp-capture 1, end client, service 69
READ_4_BY_8, OACK_4_BY_8, ACK_0, IN_NINE => 1 refused datagram 4 rule 21 BlockLength
READ_FOO_BY_8, OACK_BY_8, ACK_0, IN_NINE => 1 refused datagram 4 rule 21 BlockLength
READ_FOO_BY_8, OACK_BY_8, ACK_0, IN_1 => 1 incomplete after 4
READ_10, OACK_11, ACK_0, in 40000 41000 0003000178787878787878787878 => 1 refused datagram 4 rule 21 BlockLength
READ_10, OACK_11, ACK_0, in 40000 41000 000300017878787878787878787878,
  ACK_1 => 0 accepted get octet blocks 1 bytes 11

# Block 65535 may be the last, but not whole: a whole one has a next.
tftp-capture 1, end client, service 69
READ_65535_BY_8, OACK_65535_BY_8, ACK_0,
  in 40000 41000 0003ffff3131313131313131 => 1 refused datagram 4 rule 20 BeyondBlock65535
READ_65535_BY_8, OACK_65535_BY_8, ACK_0, in 40000 41000 0003ffff31313131313131 => 1 incomplete after 4
READ_SIZE,
  in 40000 41000 0006626c6b73697a650038007473697a650035323432383000 => 1 refused datagram 2 rule 20 BeyondBlock65535
READ_SIZE, in 40000 41000 0006626c6b73697a650038007473697a650035323432373900 => 1 incomplete after 2
";
