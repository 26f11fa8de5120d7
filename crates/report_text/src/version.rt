ghost use Rattle.std.specs.Prelude.{◌≡◌};
ghost use Rattle.report_text.specs.Versions.{version_number};

/// A version of the format of reports.
#[derive(Clone, Copy, Debug, PartialEq, Eq)]
pub enum Version {
    /// At most 64 operations, and numbers of gates below 65536.
    One,
}

impl Version {
    /// The number that the first line of a report says.
    pub fn number(self) -> u32
        ensures { result ≡ version_number self }
    {
        match self {
            Version::One => 1,
        }
    }
}
