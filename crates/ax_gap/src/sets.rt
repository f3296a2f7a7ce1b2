//! Lists of numbers that rise strictly, as sets: what two have in common, have together, and have
//! apart.

ghost use Rattle.std.specs.Prelude.{◌≡◌, ℕ, ◌↔◌, ◌⊎◌, IfOk, IsTrue, Contains};
ghost use Rattle.std.specs.List.Sorted.{IsStrictlyIncreasing};

use crate::out_of_memory::Memory;
use std::alloc::Global;

/// Is each number above the one before? The other calls of this crate require it of their lists.
pub fn is_rising(list: &[u32]) -> bool
    ensures { IsTrue result ↔ IsStrictlyIncreasing list.now }
{
    for i in 1..list.len() {
        if list[i] <= list[i - 1] {
            return false;
        }
    }
    true
}

/// The numbers that are in both lists, in order.
pub fn meet(alloc: Global, a: &[u32], b: &[u32]) -> Result<Vec<u32>, Memory>
    requires first { IsStrictlyIncreasing a.now }
    requires second { IsStrictlyIncreasing b.now }
    ensures rising { IfOk result (λ v. IsStrictlyIncreasing v.items) }
    ensures members { IfOk result (λ v. (n : ℕ) → Contains v.items n ↔ (Contains a.now n × Contains b.now n)) }
{
    let mut both = Vec::with_capacity(alloc, a.len().min(b.len()))?;
    let mut i = 0;
    let mut j = 0;
    while i < a.len() && j < b.len() {
        let x = a[i];
        let y = b[j];
        if x < y {
            i += 1;
        } else if y < x {
            j += 1;
        } else {
            both.push(x)?;
            i += 1;
            j += 1;
        }
    }
    Ok(both)
}

/// The numbers that are in either list, in order, each once.
pub fn join(alloc: Global, a: &[u32], b: &[u32]) -> Result<Vec<u32>, Memory>
    requires first { IsStrictlyIncreasing a.now }
    requires second { IsStrictlyIncreasing b.now }
    ensures rising { IfOk result (λ v. IsStrictlyIncreasing v.items) }
    ensures members { IfOk result (λ v. (n : ℕ) → Contains v.items n ↔ (Contains a.now n ⊎ Contains b.now n)) }
{
    let mut all = Vec::with_capacity(alloc, a.len() + b.len())?;
    let mut i = 0;
    let mut j = 0;
    while i < a.len() && j < b.len() {
        let x = a[i];
        let y = b[j];
        if x < y {
            all.push(x)?;
            i += 1;
        } else if y < x {
            all.push(y)?;
            j += 1;
        } else {
            // It is in both, and stands once.
            all.push(x)?;
            i += 1;
            j += 1;
        }
    }
    all.extend_from_slice(&a[i..])?;
    all.extend_from_slice(&b[j..])?;
    Ok(all)
}

/// The numbers that are in the first list and not in the second, in order.
pub fn without(alloc: Global, a: &[u32], b: &[u32]) -> Result<Vec<u32>, Memory>
    requires first { IsStrictlyIncreasing a.now }
    requires second { IsStrictlyIncreasing b.now }
    ensures rising { IfOk result (λ v. IsStrictlyIncreasing v.items) }
    ensures members { IfOk result (λ v. (n : ℕ) → Contains v.items n ↔ (Contains a.now n × ¬ Contains b.now n)) }
{
    let mut kept = Vec::with_capacity(alloc, a.len())?;
    let mut i = 0;
    let mut j = 0;
    while i < a.len() && j < b.len() {
        let x = a[i];
        let y = b[j];
        if x < y {
            kept.push(x)?;
            i += 1;
        } else if y < x {
            j += 1;
        } else {
            // It is in both, and falls out.
            i += 1;
            j += 1;
        }
    }
    kept.extend_from_slice(&a[i..])?;
    Ok(kept)
}
