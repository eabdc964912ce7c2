ghost use Rattle.std.specs.Prelude.{◌≡◌, ◌≢◌, MatchOption};
ghost use Rattle.tftp_capture.specs.CaptureText.{head_line, longest_line};

/// The version of a capture text.
#[derive(Clone, Copy, Debug, PartialEq, Eq)]
pub enum Version {
    /// Datagrams name no host.
    One,
    /// Each datagram names the other host.
    Two,
}

impl Version {
    /// The version that a first line names.
    pub fn of(line: &[u8]) -> Option<Self>
        ensures { MatchOption result ((version : _) → line.now ≢ head_line version) (λ version. line.now ≡ head_line version) }
    {
        if line == b"tftp-capture 1".as_slice() {
            Some(Version::One)
        } else if line == b"tftp-capture 2".as_slice() {
            Some(Version::Two)
        } else {
            None
        }
    }

    /// The first line of a text of this version, without its LF.
    pub fn first_line(self) -> &'static [u8]
        ensures { result.now ≡ head_line self }
    {
        match self {
            Version::One => b"tftp-capture 1",
            Version::Two => b"tftp-capture 2",
        }
    }

    /// The most bytes of a line after the first, without its LF.
    #[inline]
    pub fn longest_line(self) -> usize
        ensures { result ≡ longest_line self }
    {
        match self {
            Version::One => 131_070,
            Version::Two => 131_116,
        }
    }
}
