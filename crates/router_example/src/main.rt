//! A router over the engine, for the author of a software router to copy from.
//!
//! `router_example DUMP UPDATES ADDRESS` loads a dump and prints where packets to the address go. Then it takes the updates, one
//! event after another: each is begun, its words are stored one by one, and it is ended. Beside the stores a lookup of the address
//! pauses between its reads, and a second one is made after them. Of each event it prints the changes for the hardware and what
//! both lookups found.
#![tactic(auto)]

mod load;
mod lookups;
mod session;
mod text;

use fib_io::FileInputs;
use fib_prefix::{Addr, read_addr};
use load::load;
use mrt_read::read_all_events;
use session::{Session, Taken};
use std::env;
use text::{change_string, hop_string};

/// What the command line says.
#[derive(Drop)]
struct Words {
    dump: String,
    updates: String,
    addr: Addr,
}

/// The words of the command line.
fn read_words(rt: &HostRuntime) -> anyhow::Result<Words> {
    let mut words = env::args(rt)?.skip(1);
    let (Some(dump), Some(updates), Some(addr)) = (words.next(), words.next(), words.next()) else {
        anyhow::bail!("usage: router_example DUMP UPDATES ADDRESS");
    };
    let Some(addr) = read_addr(addr.as_bytes()) else {
        anyhow::bail!("no address");
    };
    Ok(Words {
        dump,
        updates,
        addr,
    })
}

/// Prints what came of an event.
fn print(rt: &HostRuntime, session: &Session, taken: &Taken) -> anyhow::Result<()> {
    let alloc = rt.alloc();
    for change in &taken.changes {
        println!(rt; "{}", change_string(alloc, session.hops(), change)?)?;
    }
    if taken.before != taken.after {
        let before = hop_string(alloc, session.hops(), taken.before)?;
        let after = hop_string(alloc, session.hops(), taken.after)?;
        println!(rt;
            "lookup: {} before the stores, {} after them",
            before, after
        )?;
    }
    Ok(())
}

fn main(rt: HostRuntime) -> anyhow::Result<()> {
    let alloc = rt.alloc();
    let words = read_words(&rt)?;
    let mut inputs = FileInputs::new(alloc, &rt);
    let router = load(alloc, &mut inputs, &words.dump)?;
    let mut session = Session::new(alloc, router)?;
    println!(rt;
        "lookup: {}",
        hop_string(alloc, session.hops(), session.look_up(&words.addr))?
    )?;
    for event in &read_all_events(alloc, &mut inputs, &words.updates)? {
        for elem in &session.elementary(event)? {
            let taken = session.take(elem, &words.addr)?;
            print(&rt, &session, &taken)?;
        }
    }
    Ok(())
}
