//! A direct word: a slot's hop beside the top bit, or the place of its node.

ghost use Rattle.std.specs.Prelude.{◌≡◌, ◌+◌, ◌^◌, ◌<◌};

use fib_addr::Hop;

/// The top bit of a direct word, which a hop stands beside.
pub const HOP: u32 = 1 << 31;

/// The direct word of a hop.
pub fn hop_word(hop: Hop) -> u32
    ensures word { result ≡ 2 ^ 31 + hop.0 }
    ensures small { hop.0 < 2 ^ 16 }
{
    HOP + u32::from(hop.0)
}

/// What a direct word says of its slot.
#[derive(Clone, Copy, Debug, PartialEq, Eq)]
pub enum DirectWord {
    /// Its addresses all have this hop.
    Hop(Hop),
    /// Its node has this place.
    Node(u32),
}

impl DirectWord {
    ghost use Rattle.poptrie_build.specs.Words.{Says};

    /// What this word says.
    pub fn read(word: u32) -> DirectWord
        ensures { Says word result }
    {
        if word < HOP {
            return DirectWord::Node(word);
        }
        DirectWord::Hop(Hop((word % (1 << 16)) as u16))
    }
}
