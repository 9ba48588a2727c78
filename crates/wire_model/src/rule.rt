//! The rules of reading.

ghost use Rattle.std.specs.Prelude.{◌≡◌};
ghost use Rattle.wire_model.specs.Rules.{rule_number};

/// The rules of reading: an input that can't be read breaks one of them, the one of its first field that is wrong.
#[derive(Clone, Copy, Debug, PartialEq, Eq)]
pub enum Rule {
    /// The input ends within a record's header.
    HeaderCut = 1,
    /// The input ends within a record's body.
    BodyCut = 2,
    /// A record's Length is over the limit.
    TooLong = 3,
    /// A PEER_INDEX_TABLE is cut, or has octets left after its last peer.
    PeerTableForm = 4,
    /// A unicast RIB record comes before any PEER_INDEX_TABLE of its input.
    NoPeerTable = 5,
    /// A prefix has more bits than its family's addresses.
    PrefixLength = 6,
    /// A RIB entry's peer index isn't below the number of peers.
    PeerIndex = 7,
    /// A unicast RIB record is cut, an attribute list as a whole and a path identifier too, or has octets left.
    RibForm = 8,
    /// An attribute is cut by the end of its list.
    AttributeCut = 9,
    /// The value of an attribute that is used isn't of its form; of AS_PATH and NEXT_HOP in a RIB entry alone.
    AttributeValue = 10,
    /// A second MP_REACH_NLRI or MP_UNREACH_NLRI stands in a list that uses it.
    SecondMp = 11,
    /// A BGP4MP record is cut outside its message, or a state change has octets left.
    SessionForm = 12,
    /// Fewer than 19 octets are left for a message, or its Length differs from what is left.
    MessageLength = 13,
    /// An UPDATE's lengths don't fit: a length field or an area is cut, or a prefix of the withdrawn routes or the NLRI, its path
    /// identifier too.
    UpdateLengths = 14,
}

impl Rule {
    /// The rule's number, from 1 to 14.
    pub fn number(self) -> u8
        ensures { result ≡ rule_number self }
    {
        self as u8
    }
}
