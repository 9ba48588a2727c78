//! Two records in pieces of several sizes, a record that is given back, and inputs that are cut or have a Length over the
//! limit.
ghost use Rattle.std.specs.Prelude.{◌+◌, ◌<◌, ◌≤◌, length, OnOk};
ghost use Rattle.mrt_read.specs.Framing.{FramerIsUsedUp, framer_count, framer_left};

use mrt_read::{Framer, Malformed};
use std::alloc::Global;
use std::test::Fail;
use wire_model::Rule;

/// A peer index table with one peer.
const PEERS: [u8; 33] = [
    0x00, 0x00, 0x00, 0x00, 0x00, 0x0d, 0x00, 0x01, 0x00, 0x00, 0x00, 0x15, 0x00, 0x00, 0x00, 0x00,
    0x00, 0x00, 0x00, 0x01, 0x02, 0xc0, 0x00, 0x02, 0x01, 0xc0, 0x00, 0x02, 0x01, 0x00, 0x00, 0xfb,
    0xf4,
];

/// The routes to 10.0.0.0/8.
const ROUTES: [u8; 48] = [
    0x00, 0x00, 0x00, 0x00, 0x00, 0x0d, 0x00, 0x02, 0x00, 0x00, 0x00, 0x24, 0x00, 0x00, 0x00, 0x00,
    0x08, 0x0a, 0x00, 0x01, 0x00, 0x00, 0x00, 0x00, 0x00, 0x00, 0x00, 0x14, 0x40, 0x01, 0x01, 0x00,
    0x40, 0x02, 0x06, 0x02, 0x01, 0x00, 0x00, 0xfb, 0xf4, 0x40, 0x03, 0x04, 0xc0, 0x00, 0x02, 0x01,
];

/// A header whose Length is 16,777,217.
const LONG: [u8; 12] = [
    0x00, 0x00, 0x00, 0x00, 0x00, 0x0d, 0x00, 0x01, 0x01, 0x00, 0x00, 0x01,
];

/// Takes the whole records: their subtypes, and their bodies one after another.
fn take_whole(framer: &mut Framer, subs: &mut Vec<u16>, bodies: &mut Vec<u8>) -> Result<(), Fail>
    ensures used { OnOk result (FramerIsUsedUp framer.new) }
    ensures few { OnOk result (framer_count framer.new + length (framer_left framer.new)
        ≤ framer_count framer.old + length (framer_left framer.old)) }
{
    while let Some(framed) = framer.next()? {
        subs.push(framed.sub)?;
        bodies.extend_from_slice(framed.body)?;
    }
    Ok(())
}

/// A framer that was fed the input in pieces of this size, of which the whole records were taken.
fn take_in_pieces(
    alloc: Global,
    input: &[u8],
    size: usize,
    subs: &mut Vec<u16>,
    bodies: &mut Vec<u8>,
) -> Result<Framer, Fail>
    requires { 0 < size }
{
    let mut framer = Framer::new(alloc);
    let mut at = 0;
    while at < input.len() {
        let n = size.min(input.len() - at);
        framer.feed(&input[at..at + n])?;
        take_whole(&mut framer, subs, bodies)?;
        at += n;
    }
    Ok(framer)
}

/// Takes a record, gives it back and takes it anew: both times its Subtype and the length of its body.
fn take_twice(framer: &mut Framer) -> Result<Option<[(u16, usize); 2]>, Malformed> {
    let Some(framed) = framer.next()? else {
        return Ok(None);
    };
    let first = (framed.sub, framed.body.len());
    framer.again();
    let Some(framed) = framer.next()? else {
        return Ok(None);
    };
    Ok(Some([first, (framed.sub, framed.body.len())]))
}

/// What is said once the records of the input are taken.
fn end_of(framer: &mut Framer) -> Result<(), Malformed>
    ensures used { FramerIsUsedUp framer.new }
    ensures few { framer_count framer.new + length (framer_left framer.new)
        ≤ framer_count framer.old + length (framer_left framer.old) }
{
    while let Some(_framed) = framer.next()? {}
    framer.finish()
}

#[test]
fn takes_the_same_records_from_pieces_of_any_size(rt: HostRuntime) -> Result<(), Fail> {
    let mut input = Vec::from_slice(rt.alloc(), &PEERS)?;
    input.extend_from_slice(&ROUTES)?;
    let mut expected = Vec::from_slice(rt.alloc(), &PEERS[12..])?;
    expected.extend_from_slice(&ROUTES[12..])?;
    for size in [1, 2, 3, 7, 64] {
        let mut subs = Vec::new(rt.alloc());
        let mut bodies = Vec::new(rt.alloc());
        let mut framer = take_in_pieces(rt.alloc(), &input, size, &mut subs, &mut bodies)?;
        assert_eq!(rt; subs.as_slice(), [1, 2].as_slice(), "in pieces of {size}");
        assert_eq!(rt;
            bodies.as_slice(),
            expected.as_slice(),
            "in pieces of {size}"
        );
        assert_eq!(rt; end_of(&mut framer), Ok(()), "in pieces of {size}");
        assert_eq!(rt; framer.held(), 0, "in pieces of {size}");
    }
    Ok(())
}

#[test]
fn gives_a_record_back(rt: HostRuntime) -> Result<(), Fail> {
    let mut framer = Framer::new(rt.alloc());
    framer.feed(&PEERS)?;
    framer.feed(&ROUTES)?;
    assert_eq!(rt; take_twice(&mut framer), Ok(Some([(1, 21), (1, 21)])));
    assert_eq!(rt; take_twice(&mut framer), Ok(Some([(2, 36), (2, 36)])));
    assert_eq!(rt; take_twice(&mut framer), Ok(None));
    assert_eq!(rt; end_of(&mut framer), Ok(()));
    Ok(())
}

#[test]
fn refuses_what_is_cut_or_too_long(rt: HostRuntime) -> Result<(), Fail> {
    let mut long = Vec::from_slice(rt.alloc(), &PEERS)?;
    long.extend_from_slice(&LONG)?;
    let cases = [
        (
            &PEERS[..11],
            11,
            Malformed {
                number: 0,
                rule: Rule::HeaderCut,
            },
        ),
        (
            &PEERS[..20],
            20,
            Malformed {
                number: 0,
                rule: Rule::BodyCut,
            },
        ),
        (
            long.as_slice(),
            12,
            Malformed {
                number: 1,
                rule: Rule::TooLong,
            },
        ),
    ];
    for (input, held, refused) in cases {
        let mut framer = Framer::new(rt.alloc());
        assert_eq!(rt; end_of(&mut framer), Ok(()));
        framer.feed(input)?;
        assert_eq!(rt; end_of(&mut framer), Err(refused), "at {refused}");
        assert_eq!(rt; framer.held(), held, "at {refused}");
        assert_eq!(rt;
            end_of(&mut framer),
            Err(refused),
            "at {refused}, asked again"
        );
        assert_eq!(rt; framer.finish(), Err(refused), "at {refused}, asked again");
    }
    Ok(())
}

#[test]
fn a_refusal_has_its_numbers_in_place(rt: HostRuntime) -> Result<(), Fail> {
    let alloc = rt.alloc();
    for (number, rule, text) in [
        (
            3,
            Rule::HeaderCut,
            "record 3 breaks rule HeaderCut of reading",
        ),
        (0, Rule::TooLong, "record 0 breaks rule TooLong of reading"),
    ] {
        let refused = Malformed { number, rule };
        assert_eq!(rt; format!(in alloc; "{refused}")?.as_str(), text);
    }
    Ok(())
}
