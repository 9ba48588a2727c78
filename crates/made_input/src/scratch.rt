//! Parts that are written before what stands before them.

ghost use Rattle.std.specs.Prelude.{◌≡◌, []};

use std::alloc::Global;

/// Octets that stand after their length. They are used again for each record, so that a record takes no memory of its own.
#[derive(Drop)]
pub struct Scratch {
    /// A prefix or attributes.
    pub part: Vec<u8>,
    /// An UPDATE.
    pub update: Vec<u8>,
    /// A record's body.
    pub body: Vec<u8>,
}

impl Scratch {
    /// Nothing is written.
    pub fn new(alloc: Global) -> Scratch
        ensures { result.body.items ≡ [] }
    {
        Scratch {
            part: Vec::new(alloc),
            update: Vec::new(alloc),
            body: Vec::new(alloc),
        }
    }
}
