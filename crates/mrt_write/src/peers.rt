//! Peers of a table.

ghost use Rattle.std.specs.Prelude.{◌≡◌, ◌≤◌, ◌++◌, length, map, IfOk, OnOk};
ghost use Rattle.std.specs.List.Sorted.{IsStrictlySortedBy};
ghost use Rattle.fib_prefix.specs.Order.{code_peer_cmp};
ghost use Rattle.fib_prefix.specs.Views.{cand_as, peer_as};
ghost use Rattle.mrt_write.specs.Entries.{table_peer};
ghost use Rattle.mrt_write.specs.Checkpoint.{table_body};
ghost use Rattle.mrt_write.specs.Saved.{peers_with_candidates};

use crate::field::put_addr;
use fib_prefix::{Cand, Family, Peer};
use std::alloc::{AllocError, Global};
use std::collections::BTreeSet;
use wire_model::{put_u16, put_u32};

/// Puts a peer: its type, by which the AS has four octets, BGP ID 0, its address and its AS (RFC 6396, section 4.3.1).
pub fn put_peer(peer: &Peer, out: &mut Vec<u8>) -> Result<(), AllocError>
    ensures { OnOk result (out.new.items ≡ out.old.items ++ table_peer (peer_as peer.now)) }
{
    out.push(match peer.addr.family {
        Family::V4 => 2,
        Family::V6 => 3,
    })?;
    put_u32(0, out)?;
    put_addr(&peer.addr, out)?;
    put_u32(peer.asn, out)
}

/// The peers of a set, in a list.
pub fn listed(alloc: Global, set: &BTreeSet<Peer>) -> Result<Vec<Peer>, AllocError>
    ensures list { IfOk result (λ list. list.items ≡ set.now.keys) }
    ensures sorted { IfOk result (λ list. IsStrictlySortedBy code_peer_cmp list.items) }
{
    let mut list = Vec::new(alloc);
    for peer in set.iter() {
        list.push(*peer)?;
    }
    Ok(list)
}

/// Puts the body of a peer table: Collector BGP ID, an empty View Name, Peer Count, the peers.
pub fn put_table(peers: &[Peer], out: &mut Vec<u8>) -> Result<(), AllocError>
    requires { length peers.now ≤ 65535 }
    ensures { OnOk result (out.new.items ≡ out.old.items ++ table_body (map peer_as peers.now)) }
{
    put_u32(0, out)?;
    put_u16(0, out)?;
    put_u16(peers.len() as u16, out)?;
    for peer in peers {
        put_peer(peer, out)?;
    }
    Ok(())
}
