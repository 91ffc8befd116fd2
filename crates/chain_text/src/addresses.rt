//! Addresses, prefixes and Ethernet addresses in a text.

ghost use Rattle.std.specs.Prelude.{◌≡◌, ◌<◌, ◌≤◌, ◌==◌, [], ◌∷◌, IfOk, IfSome, Some, None, map, option_map};
ghost use Rattle.std.specs.Prelude.{if◌then◌else◌};
ghost use Rattle.std.specs.List.{slice_split};
ghost use Rattle.chain_spec.specs.ChainText as spec;
ghost use Rattle.brick_spec.specs.Route.{has_host_bits};
ghost use Rattle.brick_base.specs.PrefixView.{prefix_view};
ghost use Rattle.chain_text.specs.Written.{any_prefix_view, six_of};

use crate::any_prefix::AnyPrefix;
use brick_base::{NoMemory, Prefix, number_of};
use std::alloc::{AllocError, Global};

/// The text, cut at an ASCII character.
fn cut<'a>(alloc: Global, text: &'a str, at: char) -> Result<Vec<&'a str>, AllocError>
    requires { at < 128 }
    ensures { IfOk result (λ v. map (λ x. x.now) v.items ≡ slice_split (λ c. c == at) text.now) }
{
    text.split(at).collect(alloc)
}

#[tactic(auto, unfolding(chain_spec::specs::ChainText::address_of_four))]
fn address_of_four(first: &str, second: &str, third: &str, fourth: &str) -> Option<u32>
    ensures { result ≡ spec.address_of_four first.now second.now third.now fourth.now }
{
    let a = number_of(255, first)? as u32;
    let b = number_of(255, second)? as u32;
    let c = number_of(255, third)? as u32;
    let d = number_of(255, fourth)? as u32;
    Some(((a * 256 + b) * 256 + c) * 256 + d)
}

fn address_in(parts: &[&str]) -> Option<u32>
    ensures { result ≡ spec.address_in (map (λ x. x.now) parts.now) }
{
    match parts {
        [a, b, c, d] => address_of_four(a, b, c, d),
        _ => None,
    }
}

/// The address that `a.b.c.d` writes, in network order as a number: each part is 0 to 255, without leading zero.
pub fn address_of(alloc: Global, text: &str) -> Result<Option<u32>, NoMemory>
    ensures { IfOk result (λ address. address ≡ spec.address_of text.now) }
{
    let parts = cut(alloc, text, '.')?;
    Ok(address_in(&parts))
}

#[tactic(auto, unfolding(chain_spec::specs::ChainText::any_prefix_of_two))]
fn any_prefix_of_two(
    alloc: Global,
    address: &str,
    bits: &str,
) -> Result<Option<AnyPrefix>, NoMemory>
    ensures { IfOk result (λ p. option_map any_prefix_view p ≡ spec.any_prefix_of_two address.now bits.now) }
{
    let Some(addr) = address_of(alloc, address)? else {
        return Ok(None);
    };
    let Some(bits) = number_of(32, bits) else {
        return Ok(None);
    };
    Ok(Some(AnyPrefix {
        addr,
        bits: bits as u8,
    }))
}

fn any_prefix_in(alloc: Global, parts: &[&str]) -> Result<Option<AnyPrefix>, NoMemory>
    ensures { IfOk result (λ p. option_map any_prefix_view p ≡ spec.any_prefix_in (map (λ x. x.now) parts.now)) }
{
    match parts {
        [address, bits] => any_prefix_of_two(alloc, address, bits),
        _ => Ok(None),
    }
}

/// The prefix that `a.b.c.d/n` writes, n from 0 to 32, whatever the bits of the address past the first n are.
#[tactic(auto, unfolding(chain_spec::specs::ChainText::any_prefix_of))]
pub fn any_prefix_of(alloc: Global, text: &str) -> Result<Option<AnyPrefix>, NoMemory>
    ensures { IfOk result (λ p. option_map any_prefix_view p ≡ spec.any_prefix_of text.now) }
{
    let parts = cut(alloc, text, '/')?;
    any_prefix_in(alloc, &parts)
}

/// The prefix, where the bits of its address past the first n are 0.
fn without_host_bits(prefix: AnyPrefix) -> Option<Prefix>
    ensures { option_map prefix_view result
        ≡ (if has_host_bits (any_prefix_view prefix) then None else Some (any_prefix_view prefix)) }
{
    Prefix::new(prefix.addr, prefix.bits)
}

/// The prefix that `a.b.c.d/n` writes: n is 0 to 32, and the address has no bit past the first n.
pub fn prefix_of(alloc: Global, text: &str) -> Result<Option<Prefix>, NoMemory>
    ensures { IfOk result (λ p. option_map prefix_view p ≡ spec.prefix_of text.now) }
{
    match any_prefix_of(alloc, text)? {
        Some(prefix) => Ok(without_host_bits(prefix)),
        None => Ok(None),
    }
}

/// The value of a hexadecimal digit of either case.
fn hex_value(digit: u8) -> Option<u8>
    ensures value { result ≡ spec.hex_value digit }
    ensures bound { IfSome result (λ v. v ≤ 15) }
{
    match digit {
        b'0'..=b'9' => Some(digit - b'0'),
        b'a'..=b'f' => Some(digit - b'a' + 10),
        b'A'..=b'F' => Some(digit - b'A' + 10),
        _ => None,
    }
}

fn hex_byte(digits: &[u8]) -> Option<u8>
    ensures { result ≡ spec.hex_pair digits.now }
{
    match digits {
        [high, low] => {
            let high = hex_value(*high)?;
            let low = hex_value(*low)?;
            Some(high * 16 + low)
        }
        _ => None,
    }
}

/// The byte that two hexadecimal digits write.
fn hex_pair(text: &str) -> Option<u8>
    ensures { result ≡ spec.hex_pair text.now }
{
    hex_byte(text.as_bytes())
}

/// The bytes that pairs of hexadecimal digits write.
fn hex_pairs(alloc: Global, parts: &[&str]) -> Result<Option<Vec<u8>>, NoMemory>
    ensures { IfOk result (λ bytes. option_map (λ v. v.items) bytes ≡ spec.hex_pairs (map (λ x. x.now) parts.now)) }
{
    let mut bytes = Vec::new(alloc);
    for part in parts {
        let Some(byte) = hex_pair(part) else {
            return Ok(None);
        };
        bytes.push(byte)?;
    }
    Ok(Some(bytes))
}

/// The bytes, where they are six.
fn six_of(bytes: &[u8]) -> Option<[u8; 6]>
    ensures { result ≡ six_of (Some bytes.now) }
{
    match bytes.as_array::<6>() {
        Some(mac) => Some(*mac),
        None => None,
    }
}

/// The Ethernet address that six pairs of hexadecimal digits write, of either case, joined by `:` (RFC 7042, section
/// 2.1).
pub fn mac_of(alloc: Global, text: &str) -> Result<Option<[u8; 6]>, NoMemory>
    ensures { IfOk result (λ mac. mac ≡ spec.mac_of text.now) }
{
    let parts = cut(alloc, text, ':')?;
    match hex_pairs(alloc, &parts)? {
        Some(bytes) => Ok(six_of(&bytes)),
        None => Ok(None),
    }
}
