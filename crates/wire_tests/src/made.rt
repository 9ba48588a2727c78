//! Made inputs against the octets of another implementation of their definition, and read back.

use fib_prefix::Event;
use made_input::generate;
use mrt_read::Reader;
use std::alloc::Global;
use std::test::Fail;

/// One route, drawn from 0: the eight peers, then 4.0.0.0/9, of the draws 167951807 and 218396424, from the second of them.
const ONE: &[u8] = b"\x00\x00\x00\x00\x00\x0d\x00\x01\x00\x00\x00\x70\
    \x00\x00\x00\x00\x00\x00\x00\x08\
    \x02\xc0\x00\x02\x01\xc0\x00\x02\x01\x00\x00\xfb\xf4\
    \x02\xc0\x00\x02\x02\xc0\x00\x02\x02\x00\x00\xfb\xf5\
    \x02\xc0\x00\x02\x03\xc0\x00\x02\x03\x00\x00\xfb\xf6\
    \x02\xc0\x00\x02\x04\xc0\x00\x02\x04\x00\x00\xfb\xf7\
    \x02\xc0\x00\x02\x05\xc0\x00\x02\x05\x00\x00\xfb\xf8\
    \x02\xc0\x00\x02\x06\xc0\x00\x02\x06\x00\x00\xfb\xf9\
    \x02\xc0\x00\x02\x07\xc0\x00\x02\x07\x00\x00\xfb\xfa\
    \x02\xc0\x00\x02\x08\xc0\x00\x02\x08\x00\x00\xfb\xfb\
    \x00\x00\x00\x00\x00\x0d\x00\x02\x00\x00\x00\x25\
    \x00\x00\x00\x00\x09\x04\x00\x00\x01\x00\x01\x00\x00\x00\x00\x00\x14\
    \x40\x01\x01\x00\x40\x02\x06\x02\x01\x00\x00\xfb\xf5\x40\x03\x04\xc6\x33\x64\x0e";

/// The FNV-1a hash of 64 bits (Fowler, Noll and Vo).
fn fnv1a(octets: &[u8]) -> u64 {
    octets.iter().fold(0xcbf2_9ce4_8422_2325, |hash, octet| {
        (hash ^ u64::from(*octet)).wrapping_mul(0x0000_0100_0000_01b3)
    })
}

/// How many records a file has that is read to its end, how many of them are skipped or treated, and how many events they say.
fn read_back(alloc: Global, octets: &[u8]) -> Result<(u64, u64, u64, usize), Fail> {
    let mut reader = Reader::new(alloc);
    let mut events: Vec<Event> = Vec::new(alloc);
    reader.feed(octets)?;
    while let Some(more) = reader.take_events()? {
        events.extend_from_slice(&more)?;
    }
    reader.finish()?;
    Ok((
        reader.records(),
        reader.skipped(),
        reader.treated(),
        events.len(),
    ))
}

#[test]
fn makes_these_octets(rt: HostRuntime) -> Result<(), Fail> {
    let (dump, updates) = generate(rt.alloc(), 1, 0)?;
    assert_eq!(rt; dump.as_slice(), ONE);
    assert_eq!(rt; updates.len(), 0);
    for (seed, lengths, hashes) in [
        (
            7,
            (11_146, 7_900),
            (0x8c3b_197f_04ae_36a2, 0x2125_aec4_1791_9d75),
        ),
        (
            u64::MAX,
            (11_196, 7_957),
            (0x1f63_b079_596c_f3cf, 0xb621_91cf_1168_0d62),
        ),
    ] {
        let (dump, updates) = generate(rt.alloc(), 200, seed)?;
        assert_eq!(rt; (dump.len(), updates.len()), lengths, "seed {seed}");
        assert_eq!(rt; (fnv1a(&dump), fnv1a(&updates)), hashes, "seed {seed}");
        assert_eq!(rt;
            read_back(rt.alloc(), &dump)?,
            (201, 0, 0, 200),
            "seed {seed}"
        );
        assert_eq!(rt;
            read_back(rt.alloc(), &updates)?,
            (100, 0, 0, 100),
            "seed {seed}"
        );
    }
    Ok(())
}
