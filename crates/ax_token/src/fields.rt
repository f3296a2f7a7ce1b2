//! What bytes begin with.
ghost use Rattle.std.specs.Prelude.{◌≡◌, IfOk};
ghost use Rattle.std.specs.Option.{option_map};
ghost use Rattle.ax_token.specs.Reading.{first_byte, first_bytes, first_u32, first_u64, first_sized, told_by, optional};

use crate::out_of_memory::Memory;
use crate::page_token::Bytes;
use ax_tree::Items;
use std::alloc::Global;

pub fn split_byte(bytes: &[u8]) -> Option<(u8, &[u8])>
    ensures { option_map (λ x. (x.0, x.1.now)) result ≡ first_byte bytes.now }
{
    match bytes.split_first() {
        Some((byte, rest)) => Some((*byte, rest)),
        None => None,
    }
}

fn split_bytes(bytes: &[u8], count: usize) -> Option<(&[u8], &[u8])>
    ensures { option_map (λ x. (x.0.now, x.1.now)) result ≡ first_bytes count bytes.now }
{
    bytes.split_at_checked(count)
}

pub fn split_u32(bytes: &[u8]) -> Option<(u32, &[u8])>
    ensures { option_map (λ x. (x.0, x.1.now)) result ≡ first_u32 bytes.now }
{
    let (front, rest) = bytes.split_first_chunk::<4>()?;
    Some((u32::from_le_bytes(*front), rest))
}

pub fn split_u64(bytes: &[u8]) -> Option<(u64, &[u8])>
    ensures { option_map (λ x. (x.0, x.1.now)) result ≡ first_u64 bytes.now }
{
    let (front, rest) = bytes.split_first_chunk::<8>()?;
    Some((u64::from_le_bytes(*front), rest))
}

/// Bytes behind their length.
pub fn split_sized(bytes: &[u8]) -> Option<(&[u8], &[u8])>
    ensures { option_map (λ x. (x.0.now, x.1.now)) result ≡ first_sized bytes.now }
{
    let (count, rest) = split_u32(bytes)?;
    split_bytes(rest, count as usize)
}

pub fn split_limit(bytes: &[u8]) -> Option<(Option<u32>, &[u8])>
    ensures { option_map (λ x. (x.0, x.1.now)) result ≡ optional first_u32 bytes.now }
{
    let (mark, rest) = split_byte(bytes)?;
    limit_after(mark, rest)
}

fn limit_after(mark: u8, bytes: &[u8]) -> Option<(Option<u32>, &[u8])>
    ensures { option_map (λ x. (x.0, x.1.now)) result ≡ told_by first_u32 mark bytes.now }
{
    match mark {
        0 => Some((None, bytes)),
        1 => {
            let (limit, rest) = split_u32(bytes)?;
            Some((Some(limit), rest))
        }
        _ => None,
    }
}

pub fn copied(alloc: Global, bytes: &[u8]) -> Result<Bytes, Memory>
    ensures { IfOk result (λ copy. copy ≡ bytes.now) }
{
    Ok(Items::from_vec(bytes.to_vec(alloc)?))
}
