ghost use Rattle.std.specs.Prelude.{◌≡◌};
ghost use Rattle.law_model.specs.Rules.PortNames.{port_name, port_number};

/// A rule of ports and hosts, in the order in which they are tried.
#[derive(Clone, Copy, Debug, PartialEq, Eq)]
pub enum PortRule {
    /// The port at the named end is not the transfer's (RFC 1350, section 4).
    Foreign,
    /// The host or the port at the other side is none that the datagram may go to (RFC 1350, section 4).
    Wrong,
    /// A stray is answered by something else than ERROR 5 (RFC 1350, section 4).
    BadAnswer,
}

impl PortRule {
    /// The rule's place among all rules, 1 to 3.
    pub fn number(self) -> u8
        ensures { result ≡ port_number self }
    {
        match self {
            PortRule::Foreign => 1,
            PortRule::Wrong => 2,
            PortRule::BadAnswer => 3,
        }
    }

    /// The rule's name as it is printed.
    pub fn name(self) -> &'static str
        ensures { result.now ≡ port_name self }
    {
        match self {
            PortRule::Foreign => "ForeignPort",
            PortRule::Wrong => "WrongPort",
            PortRule::BadAnswer => "StrayAnswer",
        }
    }
}
