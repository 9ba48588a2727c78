//! Slots: what comes from a path source for the prefix of a row, in numbers.

ghost use Rattle.std.specs.Prelude.{◌≡◌};
ghost use Rattle.adj_rib_in.specs.Slots.{in_row, rowless};

/// The peer's number in a slot that is no path key any more.
pub const NO_PEER: u32 = u32::MAX;

/// What comes from a path source for the prefix of a row, in numbers.
#[derive(Clone, Copy)]
pub struct PathSlot {
    /// The length of the path.
    pub path: u32,
    /// The peer's number, or none if the slot is no path key any more.
    pub peer: u32,
    /// The path identifier.
    pub id: u32,
    /// The hop's number, or none if nothing is offered.
    pub hop: u32,
    /// The row's number.
    pub row: u32,
    /// Where the peer's chain goes on: 1 more than the place of the peer's slot before this one, or 0.
    pub link: u32,
}

/// A slot as it lies in its row's run, in 20 octets: its place implies its row.
#[derive(Clone, Copy)]
pub struct RunSlot {
    /// The length of the path.
    pub path: u32,
    /// The peer's number, or none if the slot is no path key any more.
    pub peer: u32,
    /// The path identifier.
    pub id: u32,
    /// The hop's number, or none if nothing is offered.
    pub hop: u32,
    /// Where the peer's chain goes on: 1 more than the place of the peer's slot before this one, or 0.
    pub link: u32,
}

impl RunSlot {
    /// A slot without its row.
    pub fn of(slot: &PathSlot) -> RunSlot
        ensures { result ≡ rowless slot.now }
    {
        RunSlot {
            path: slot.path,
            peer: slot.peer,
            id: slot.id,
            hop: slot.hop,
            link: slot.link,
        }
    }

    /// The slot with its row.
    pub fn in_row(&self, row: u32) -> PathSlot
        ensures { result ≡ in_row row self.now }
    {
        PathSlot {
            path: self.path,
            peer: self.peer,
            id: self.id,
            hop: self.hop,
            row,
            link: self.link,
        }
    }
}
