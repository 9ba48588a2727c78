//! The text of IPv6 addresses: eight groups of 16 bits (RFC 4291, section 2.2), written as RFC 5952, section 4, has it.

ghost use Rattle.std.specs.Prelude.{◌≡◌, ◌+◌, ◌-◌, ◌*◌, ◌<◌, ◌≤◌, ◌++◌, drop, false, length, option_map};
ghost use Rattle.std.specs.Char.{digit_char};
ghost use Rattle.std.specs.List.{list_any};
ghost use Rattle.std.specs.Net.Text as Text;
ghost use Rattle.table_model.specs.Bits.{bits_of};
ghost use Rattle.fib_addr.specs.Groups.{groups_of, ipv6_text};
ghost use Rattle.fib_addr.specs.Views.{addr_as};
ghost use Rattle.fib_addr.specs.Text.{ipv6_in, is_dot};

use crate::addr::Addr;
use crate::text::{MOST_TEXT, put};
use std::net::Ipv6Addr;

/// How many zero groups `::` is written for at least (RFC 5952, section 4.2.2).
const LEAST_RUN: usize = 2;

/// Reads an IPv6 address of a text without dots, so without a dotted part.
pub(crate) fn read_ipv6(text: &[u8]) -> Option<Addr>
    requires { list_any is_dot text.now ≡ false }
    ensures { option_map addr_as result ≡ ipv6_in text.now }
{
    match Ipv6Addr::parse_ascii(text) {
        Ok(addr) => Some(Addr::v6(addr.to_bits())),
        Err(_) => None,
    }
}

/// The character of a hexadecimal digit.
fn hex_char(digit: u16) -> u8
    requires { digit < 16 }
    ensures { result ≡ digit_char digit }
{
    if digit < 10 {
        b'0' + digit as u8
    } else {
        b'a' + (digit - 10) as u8
    }
}

/// How many of a group's four digits are leading zeros, the last digit apart.
fn leading_zeros(group: u16) -> usize
    ensures value { result ≡ Text.leading_zero_digits group }
    ensures within { result < 4 }
{
    match group {
        0x1000.. => 0,
        0x100.. => 1,
        0x10.. => 2,
        _ => 3,
    }
}

/// Puts a group without leading zeros so that it ends at a place of the text, and returns where it starts.
fn put_group(out: &mut [u8; MOST_TEXT], end: usize, group: u16) -> usize
    requires fits { 4 ≤ end }
    requires within { end ≤ MOST_TEXT }
    ensures text { drop result out.new ≡ Text.hex group ++ drop end out.old }
    ensures start { end ≤ result + 4 }
    ensures before { result ≤ end }
{
    let digits = [
        hex_char(group / 0x1000),
        hex_char(group / 0x100 % 16),
        hex_char(group / 0x10 % 16),
        hex_char(group % 16),
    ];
    put(out, end, &digits[leading_zeros(group)..])
}

/// Puts groups with colons between them so that they end at a place of the text, and returns where they start.
fn put_groups(out: &mut [u8; MOST_TEXT], end: usize, groups: &[u16]) -> usize
    requires fits { 5 * length groups.now - 1 ≤ end }
    requires within { end ≤ MOST_TEXT }
    ensures text { drop result out.new ≡ Text.groups_text groups.now ++ drop end out.old }
    ensures start { end ≤ result + (5 * length groups.now - 1) }
    ensures before { result ≤ end }
{
    match groups {
        [] => end,
        [last] => put_group(out, end, *last),
        [first, rest @ ..] => {
            let after_colon = put_groups(out, end, rest);
            let after_first = put(out, after_colon, b":");
            put_group(out, after_first, *first)
        }
    }
}

/// The place and the length of the longest run of zeros, and of equal ones the first.
fn longest_zero_run(groups: &[u16]) -> (usize, usize)
    ensures value { result ≡ Text.longest_zero_run groups.now }
    ensures within { result.0 + result.1 ≤ length groups.now }
{
    let mut place = groups.len();
    let mut longest = 0;
    let mut run = 0;
    for at in (0..groups.len()).rev() {
        run = if groups[at] == 0 { run + 1 } else { 0 };
        if run >= longest {
            place = at;
            longest = run;
        }
    }
    (place, longest)
}

/// Puts the address of these bits so that it ends at a place of the text, and returns where it starts. A run of at least two zero
/// groups, the longest, is written `::`.
pub(crate) fn put_ipv6(out: &mut [u8; MOST_TEXT], end: usize, bits: u128) -> usize
    requires fits { 39 ≤ end }
    requires within { end ≤ MOST_TEXT }
    ensures text { drop result out.new ≡ ipv6_text (groups_of (bits_of 128 bits)) ++ drop end out.old }
    ensures before { result ≤ end }
{
    let groups = Ipv6Addr::from_bits(bits).segments();
    let (place, run) = longest_zero_run(&groups);
    if run < LEAST_RUN {
        return put_groups(out, end, &groups);
    }
    let after_gap = put_groups(out, end, &groups[place + run..]);
    let after_head = put(out, after_gap, b"::");
    put_groups(out, after_head, &groups[..place])
}
