//! Writing gap lists.

ghost use Rattle.std.specs.Prelude.{◌≡◌, ℕ, ◌++◌, ◌≤◌, ◌<◌, List, length, take, IfOk, OnOk, OnErr};
ghost use Rattle.std.specs.List.Sorted.{IsStrictlyIncreasing};
ghost use Rattle.ax_gap.specs.Gaps.{gaps, gaps_from};
ghost use Rattle.ax_gap.specs.Varint.{varint};

use crate::out_of_memory::Memory;
use crate::varint::push_varint;

/// Writes the gap list of the numbers at the end. After `Memory` `out` is as before.
pub fn put_gaps(out: &mut Vec<u8>, list: &[u32]) -> Result<(), Memory>
    requires { IsStrictlyIncreasing list.now }
    ensures ok { OnOk result (out.new.items ≡ out.old.items ++ gaps list.now) }
    ensures err { OnErr result (out.new.items ≡ out.old.items) }
{
    let length = out.len();
    let put = push_list(out, list);
    if put.is_err() {
        out.truncate(length);
    }
    put
}

/// Writes the gap list of the numbers at the end. An error may leave some of its bytes there.
#[tactic(auto, using(std::proofs::lemmas::List::append_assoc), unfolding(crate::specs::Gaps::gaps))]
fn push_list(out: &mut Vec<u8>, list: &[u32]) -> Result<(), Memory>
    requires { IsStrictlyIncreasing list.now }
    ensures ok { OnOk result (out.new.items ≡ out.old.items ++ gaps list.now) }
    ensures prefix { take (length out.old.items) out.new.items ≡ out.old.items }
{
    out.reserve(list.len())?;
    push_varint(out, list.len() as u64)?;
    push_gaps(out, list)
}

/// Writes the gaps of the numbers at the end, without their count.
fn push_gaps(out: &mut Vec<u8>, list: &[u32]) -> Result<(), Memory>
    requires { IsStrictlyIncreasing list.now }
    ensures ok { OnOk result (out.new.items ≡ out.old.items ++ gaps_from 0 list.now) }
    ensures prefix { take (length out.old.items) out.new.items ≡ out.old.items }
{
    let mut gathered = [0u8; 256];
    let mut count = 0;
    let mut least = 0u64;
    for &n in list {
        let number = n as u64;
        count = push_gap(out, &mut gathered, count, number - least)?;
        least = number + 1;
    }
    out.extend_from_slice(&gathered[..count])?;
    Ok(())
}

/// Writes one gap at the end, behind the bytes that are gathered for it, and answers how many are
/// gathered then. Most gaps take one byte or two, and are gathered, so that the vector is asked for
/// room once for many of them.
#[inline]
fn push_gap(
    out: &mut Vec<u8>,
    gathered: &mut [u8; 256],
    count: usize,
    gap: u64,
) -> Result<usize, Memory>
    requires { count ≤ 256 }
    ensures ok { IfOk result (λ many. (many ≤ 256)
        × (out.new.items ++ take many gathered.new ≡ out.old.items ++ take count gathered.old ++ varint gap)) }
    ensures prefix { take (length out.old.items) out.new.items ≡ out.old.items }
{
    if gap >= 16384 || count > 254 {
        out.extend_from_slice(&gathered[..count])?;
        push_varint(out, gap)?;
        return Ok(0);
    }
    Ok(gather(gathered, count, gap))
}

/// Gathers a gap of one byte or two, without a branch on which it is: how many bytes are gathered
/// then.
#[inline]
fn gather(gathered: &mut [u8; 256], count: usize, gap: u64) -> usize
    requires room { count ≤ 254 }
    requires short { gap < 16384 }
    ensures within { result ≤ 256 }
    ensures spelled { take result gathered.new ≡ take count gathered.old ++ varint gap }
{
    let more = usize::from(gap >= 128);
    gathered[count] = (gap % 128) as u8 + 128 * more as u8;
    gathered[count + 1] = (gap / 128) as u8;
    count + 1 + more
}
