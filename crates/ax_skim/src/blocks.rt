//! Blocks of 64 bytes: which of them are brackets that stand outside of texts. The bit tricks are
//! those of simdjson (Langdale and Lemire, 2019).
ghost use Rattle.std.specs.Prelude.{◌≡◌, ℕ, ◌+◌, ◌<◌, ◌==◌, ◌&&◌, not, get_or, IfSome};
ghost use Rattle.json.specs.Scan.{test, parity};
ghost use Rattle.ax_skim.specs.Blocks.{is_opening, is_closing, IsBlock};

use std::simd::prelude::*;

/// Of 64 bytes without a backslash: which are brackets outside of texts, which are opening ones, and
/// whether a text goes on behind them.
#[derive(Clone, Copy, Drop)]
pub(crate) struct Block {
    pub(crate) brackets: u64,
    pub(crate) opens: u64,
    pub(crate) inside: bool,
}

#[inline(always)]
fn equal_to(v: u8x64, byte: u8) -> u64
    ensures { (i : ℕ) → i < 64 → test result i ≡ (get_or v i 0 == byte) }
{
    v.simd_eq(u8x64::splat(byte)).to_bitmask()
}

#[inline(always)]
fn opening(v: u8x64) -> u64
    ensures { (i : ℕ) → i < 64 → test result i ≡ is_opening (get_or v i 0) }
{
    let curly = v | u8x64::splat(0x20);
    curly.simd_eq(u8x64::splat(b'{')).to_bitmask()
}

#[inline(always)]
fn closing(v: u8x64) -> u64
    ensures { (i : ℕ) → i < 64 → test result i ≡ is_closing (get_or v i 0) }
{
    let curly = v | u8x64::splat(0x20);
    curly.simd_eq(u8x64::splat(b'}')).to_bitmask()
}

#[inline(always)]
fn prefix_xor(x: u64) -> u64
    ensures { (i : ℕ) → i < 64 → test result i ≡ parity x (i + 1) }
{
    let a = x ^ (x << 1);
    let b = a ^ (a << 2);
    let c = b ^ (b << 4);
    let d = c ^ (c << 8);
    let e = d ^ (d << 16);
    e ^ (e << 32)
}

/// Those of the bits at which no text goes on.
#[inline(always)]
#[tactic(auto, using(crate::proofs::Blocked::without_bits))]
fn outside_texts(bits: u64, within: u64) -> u64
    ensures { (i : ℕ) → i < 64 → test result i ≡ (test bits i && not (test within i)) }
{
    bits & !within
}

/// The block at the front; none where there are fewer than 64 bytes, or a backslash is among them.
#[inline(always)]
pub(crate) fn block_at(text: &[u8], inside: bool) -> Option<Block>
    ensures { IfSome result (λ block. IsBlock inside text.now block) }
{
    if text.len() < 64 {
        return None;
    }
    let v = u8x64::from_slice(text);
    if equal_to(v, b'\\') != 0 {
        return None;
    }
    let within = prefix_xor(equal_to(v, b'"')) ^ 0u64.wrapping_sub(inside as u64);
    let opens = opening(v);
    let brackets = outside_texts(opens | closing(v), within);
    let inside = within >> 63 == 1;
    Some(Block {
        brackets,
        opens,
        inside,
    })
}
