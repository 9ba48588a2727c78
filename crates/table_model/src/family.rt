ghost use Rattle.std.specs.Prelude.{◌≡◌};
ghost use Rattle.table_model.specs.Width.{width};

/// An address family. IPv4 comes before IPv6.
#[derive(Clone, Copy, Debug, PartialEq, Eq, PartialOrd, Ord, Hash)]
pub enum Family {
    /// IPv4, addresses of 32 bits (RFC 791).
    V4,
    /// IPv6, addresses of 128 bits (RFC 4291).
    V6,
}

impl Family {
    /// How many bits an address of the family has: 32 or 128.
    pub const fn width(self) -> u8
        ensures { result ≡ width self }
    {
        match self {
            Family::V4 => 32,
            Family::V6 => 128,
        }
    }
}
