//! The text of addresses and prefixes, read and written.
//!
//! An IPv4 address is four decimal numbers with dots between them, an IPv6 address eight hexadecimal groups with colons
//! between them, of which one run of zeros may be `::`. IPv6 addresses are read by std's parser. Both are written into
//! the caller's buffer from its end on, the last digit first. No call takes memory; each costs the length of the text.

ghost use Rattle.std.specs.Prelude.{◌≡◌, ℕ, List, ◌∷◌, ◌+◌, ◌*◌, ◌^◌, ◌<◌, ◌≤◌, ◌++◌, codes, decimal, drop, length, option_map, position, IfNone, IfSome};
ghost use Rattle.std.specs.Char.{digit_value};
ghost use Rattle.std.specs.Str.Parse.{AllDigits, digits_value};
ghost use Rattle.std.specs.Net.Text.{ipv4_text};
ghost use Rattle.fib_addr.specs.Views.{addr_as, prefix_as};
ghost use Rattle.fib_addr.specs.Text.{address_in, ipv4_in, is_dot, is_slash, number_below, prefix_in, address_text, prefix_text};

use crate::addr::Addr;
use crate::ipv6::{put_ipv6, read_ipv6};
use crate::prefix::Prefix;
use itoa::write_digits;
use table_model::Family;

/// The octets of a buffer that holds the text of any address or prefix: the longest takes 39 of an IPv6 address and `/128`.
pub const MOST_TEXT: usize = 43;

/// Reads an address, from its first octet to its last: an IPv4 address as `read_ipv4`; an IPv6 address as eight groups of one
/// to four hexadecimal digits with colons between them, or as at most seven with one `::` for those that are missing
/// (RFC 4291, section 2.2), without a dotted part or a zone. `None` exactly if the text is anything else.
pub fn read_addr(text: &[u8]) -> Option<Addr>
    ensures { option_map addr_as result ≡ address_in text.now }
{
    if text.contains(&b'.') {
        read_ipv4(text)
    } else {
        read_ipv6(text)
    }
}

/// The number with one more decimal digit at its end. `None` exactly if the octet is no digit, or the number isn't below
/// 2^64.
fn with_digit(number: u64, octet: u8) -> Option<u64>
    ensures more { IfSome result (λ n. (digit_value octet < 10)
        × (n ≡ number * 10 + digit_value octet)) }
    ensures none { IfNone result (digit_value octet < 10
        → 2 ^ 64 ≤ number * 10 + digit_value octet) }
{
    match octet {
        b'0'..=b'9' => number.checked_mul(10)?.checked_add(u64::from(octet - b'0')),
        _ => None,
    }
}

/// The number of decimal digits, 0 of none. `None` exactly if an octet is no digit, or the number isn't below 2^64.
fn read_digits(text: &[u8]) -> Option<u64>
    ensures some { IfSome result (λ n. AllDigits 10 text.now × (n ≡ digits_value 10 text.now)) }
    ensures none { IfNone result (AllDigits 10 text.now → 2 ^ 64 ≤ digits_value 10 text.now) }
{
    let mut number = 0;
    for octet in text {
        number = with_digit(number, *octet)?;
    }
    Some(number)
}

/// Reads a decimal number of at most `most`, from the text's first octet to its last, without a sign or leading zeros. `None`
/// exactly if the text is anything else.
pub fn read_number(text: &[u8], most: u64) -> Option<u64>
    ensures value { result ≡ number_below (most + 1) text.now }
    ensures fits { IfSome result (λ number. number ≤ most) }
{
    let [first, rest @ ..] = text else {
        return None;
    };
    if *first == b'0' {
        return rest.is_empty().then_some(0);
    }
    let number = read_digits(text)?;
    (number <= most).then_some(number)
}

/// The place of the first dot.
fn dot_at(text: &[u8]) -> Option<usize>
    ensures { result ≡ position is_dot text.now }
{
    text.iter().position(|b| *b == b'.')
}

/// Reads a decimal number from 0 to 255 and the dot after it, and returns what stands after the dot.
fn read_octet(text: &[u8]) -> Option<(u8, &[u8])>
    ensures some { IfSome result (λ r. text.now ≡ decimal r.0 ++ 46 ∷ r.1.now) }
    ensures fits { IfSome result (λ r. r.0 < 256) }
    ensures none { IfNone result ((n : ℕ) (rest : List ℕ) → n < 256
        → text.now ≡ decimal n ++ 46 ∷ rest → ⊥) }
{
    let dot = dot_at(text)?;
    let octet = read_number(&text[..dot], 255)?;
    Some((octet as u8, &text[dot + 1..]))
}

/// Reads an IPv4 address alone, from its first octet to its last: four decimal numbers from 0 to 255 without leading zeros,
/// with dots between them (`IPv4address` of RFC 3986, section 3.2.2). `None` exactly if the text is anything else.
pub fn read_ipv4(text: &[u8]) -> Option<Addr>
    ensures { option_map addr_as result ≡ ipv4_in text.now }
{
    let (a, text) = read_octet(text)?;
    let (b, text) = read_octet(text)?;
    let (c, text) = read_octet(text)?;
    let d = read_number(text, 255)?;
    Some(Addr::v4(u32::from_be_bytes([a, b, c, d as u8])))
}

/// The place of the first slash.
fn slash_at(text: &[u8]) -> Option<usize>
    ensures { result ≡ position is_slash text.now }
{
    text.iter().position(|b| *b == b'/')
}

/// Reads a prefix, from its first octet to its last: an address, a slash, and a decimal number without leading zeros of at
/// most the address's width (RFC 4632, section 3.1; RFC 4291, section 2.3). `None` exactly if the text is anything else,
/// or a bit past the length isn't 0.
pub fn read_prefix(text: &[u8]) -> Option<Prefix>
    ensures { option_map prefix_as result ≡ prefix_in text.now }
{
    let slash = slash_at(text)?;
    let addr = read_addr(&text[..slash])?;
    let len = read_number(&text[slash + 1..], u64::from(addr.family.width()))?;
    let prefix = Prefix::new(&addr, len as u8);
    (prefix.first_addr() == addr).then_some(prefix)
}

/// Puts a piece so that it ends at a place of the text, and returns where it starts.
pub(crate) fn put(out: &mut [u8; MOST_TEXT], end: usize, piece: &[u8]) -> usize
    requires fits { length piece.now ≤ end }
    requires within { end ≤ MOST_TEXT }
    ensures text { drop result out.new ≡ piece.now ++ drop end out.old }
    ensures start { result + length piece.now ≡ end }
{
    let start = end - piece.len();
    out[start..end].copy_from_slice(piece);
    start
}

/// Puts a number of at most three digits so that it ends at a place of the text, and returns where it starts.
fn put_octet(out: &mut [u8; MOST_TEXT], end: usize, octet: u8) -> usize
    requires fits { 3 ≤ end }
    requires within { end ≤ MOST_TEXT }
    ensures text { drop result out.new ≡ decimal octet ++ drop end out.old }
    ensures start { end ≤ result + 3 }
    ensures before { result ≤ end }
{
    write_digits(u64::from(octet), out, end)
}

/// Puts such a number with a dot after it.
fn put_octet_dot(out: &mut [u8; MOST_TEXT], end: usize, octet: u8) -> usize
    requires fits { 4 ≤ end }
    requires within { end ≤ MOST_TEXT }
    ensures text { drop result out.new ≡ (decimal octet ++ codes ".") ++ drop end out.old }
    ensures start { end ≤ result + 4 }
    ensures before { result ≤ end }
{
    let dot = put(out, end, b".");
    put_octet(out, dot, octet)
}

/// Puts four octets as decimal numbers, with dots between them, so that they end at a place of the text, and returns where they
/// start.
fn put_ipv4(out: &mut [u8; MOST_TEXT], end: usize, octets: [u8; 4]) -> usize
    requires fits { 15 ≤ end }
    requires within { end ≤ MOST_TEXT }
    ensures text { drop result out.new ≡ ipv4_text octets ++ drop end out.old }
    ensures before { result ≤ end }
{
    let [a, b, c, d] = octets;
    let at = put_octet(out, end, d);
    let at = put_octet_dot(out, at, c);
    let at = put_octet_dot(out, at, b);
    put_octet_dot(out, at, a)
}

/// Puts an address so that it ends at a place of the text, and returns where it starts.
fn put_addr(out: &mut [u8; MOST_TEXT], end: usize, addr: &Addr) -> usize
    requires fits { 39 ≤ end }
    requires within { end ≤ MOST_TEXT }
    ensures text { drop result out.new ≡ address_text (addr_as addr.now) ++ drop end out.old }
    ensures before { result ≤ end }
{
    match addr.family {
        Family::V4 => put_ipv4(out, end, (addr.bits as u32).to_be_bytes()),
        Family::V6 => put_ipv6(out, end, addr.bits),
    }
}

/// The address's text, in the buffer: IPv4 as `IPv4address` of RFC 3986, section 3.2.2, and IPv6 as RFC 5952, section 4, has it,
/// without a dotted part.
pub fn addr_text<'a>(buffer: &'a mut [u8; MOST_TEXT], addr: &Addr) -> &'a [u8]
    ensures text { result.now ≡ address_text (addr_as addr.now) }
    ensures short { length result.now ≤ MOST_TEXT }
{
    let start = put_addr(buffer, MOST_TEXT, addr);
    &buffer[start..]
}

/// The prefix's text, in the buffer: its first address, a slash and its length (RFC 4632, section 3.1).
pub fn prefix_text<'a>(buffer: &'a mut [u8; MOST_TEXT], prefix: &Prefix) -> &'a [u8]
    ensures text { result.now ≡ prefix_text (prefix_as prefix.now) }
    ensures short { length result.now ≤ MOST_TEXT }
{
    let len = put_octet(buffer, MOST_TEXT, prefix.len);
    let slash = put(buffer, len, b"/");
    let start = put_addr(buffer, slash, &prefix.first_addr());
    &buffer[start..]
}
