ghost use Rattle.std.specs.Prelude.{◌≡◌};
ghost use Rattle.field_codec.specs.Formats.{magic_of, text_limit, field_limit, version_limit};

/// The formats that a folder may have, by the eight bytes that name one in its manager file. A format sets the limits of what
/// is read, and whether a body names its session; a value is spelled alike in all. What is written has the limits of
/// [`Format::Two`].
#[derive(Clone, Copy, Debug, PartialEq, Eq)]
pub enum Format {
    /// `OTXLOG01`: texts of at most 256 bytes, and states of at most 16 values. A body names no session, and counts as one of
    /// session 1.
    One,
    /// `OTXLOG02`: texts of at most 4,096 bytes, and states of at most 64 values. A body names its session.
    Two,
}

impl Format {
    /// The eight bytes that name the format in a manager file.
    pub fn magic(self) -> [u8; 8]
        ensures { result ≡ magic_of self }
    {
        match self {
            Format::One => *b"OTXLOG01",
            Format::Two => *b"OTXLOG02",
        }
    }

    /// The most bytes that a text has.
    pub fn text_limit(self) -> u16
        ensures { result ≡ text_limit self }
    {
        match self {
            Format::One => 256,
            Format::Two => 4096,
        }
    }

    /// The most values that a state has.
    pub fn field_limit(self) -> u16
        ensures { result ≡ field_limit self }
    {
        match self {
            Format::One => 16,
            Format::Two => 64,
        }
    }

    /// The most bytes that a version has.
    pub fn version_limit(self) -> u32
        ensures { result ≡ version_limit self }
    {
        match self {
            Format::One => 4154,
            Format::Two => 262_346,
        }
    }
}
