//! Bases of term pages. Their lengths are worked out by hand from docs/FORMAT.md: the low pair, an
//! empty term and number 0, has two bytes.
use ax_leaf::{encode, is_in_order};
use ax_pair::{Bytes, Pair};
use ax_pair_list::{PairRef, refs_of};
use std::alloc::{AllocError, Global};
use std::test::Fail;

/// The length of the base with these pairs; 0 where they do not rise.
fn base_length(alloc: Global, pairs: &[Pair]) -> Result<usize, Fail> {
    let refs = refs_of(alloc, pairs)?;
    let low = PairRef::new(&[], 0);
    if !is_in_order(&low, refs.as_slice()) {
        return Ok(0);
    }
    Ok(encode(alloc, &low, refs.as_slice())?.len())
}

/// The pair of number 1 and a term that is one letter so many times.
fn long_pair(alloc: Global, letter: u8, count: usize) -> Result<Pair, AllocError> {
    let term = Bytes::from_vec(vec![in alloc; letter; count]?);
    Ok(Pair { term, number: 1 })
}

/// Pairs of so many terms, each a letter of its own so many times.
fn long_pairs(alloc: Global, letters: &[u8], count: usize) -> Result<Vec<Pair>, AllocError> {
    let mut pairs = Vec::new(alloc);
    for letter in letters {
        pairs.push(long_pair(alloc, *letter, count)?)?;
    }
    Ok(pairs)
}

// The number of terms has one byte. Of each term: one byte of what it shares with the one before,
// three bytes of its length, its bytes, one byte of how many numbers it has, and one of number 1.
#[test]
fn terms_have_more_than_64_kib_together_and_alone(rt: HostRuntime) -> Result<(), Fail> {
    let alloc = rt.alloc();
    let pairs = long_pairs(alloc, b"abc".as_slice(), 30_000)?;
    assert_eq!(rt; base_length(alloc, pairs.as_slice())?, 3 + 3 * 30_006);
    let pairs = long_pairs(alloc, b"ab".as_slice(), 70_000)?;
    assert_eq!(rt; base_length(alloc, pairs.as_slice())?, 3 + 2 * 70_006);
    Ok(())
}

/// One term with so many numbers, from 1 on.
fn many_numbers(alloc: Global, count: u32) -> Result<Vec<Pair>, AllocError> {
    let mut pairs = Vec::new(alloc);
    for before in 0..count {
        let mut pair = long_pair(alloc, b'a', 1)?;
        pair.number = before + 1;
        pairs.push(pair)?;
    }
    Ok(pairs)
}

// The term has three bytes with what stands before it, and the number of its numbers three. Each
// number has the byte of the gap before it.
#[test]
fn a_term_has_more_than_65536_numbers(rt: HostRuntime) -> Result<(), Fail> {
    let alloc = rt.alloc();
    let pairs = many_numbers(alloc, 70_000)?;
    assert_eq!(rt; base_length(alloc, pairs.as_slice())?, 3 + 3 + 3 + 70_000);
    Ok(())
}

/// So many terms of four bytes that rise by one.
fn many_terms(alloc: Global, count: u32) -> Result<Vec<Pair>, AllocError> {
    let mut pairs = Vec::new(alloc);
    for at in 0..count {
        let bytes = at.to_be_bytes();
        let term = Bytes::from_vec(Vec::from_slice(alloc, bytes.as_slice())?);
        pairs.push(Pair { term, number: 1 })?;
    }
    Ok(pairs)
}

// The number of terms has three bytes. A term has four bytes besides those of its own: the first has
// four of its own, one at a multiple of 65,536 three, one at another multiple of 256 two, others one.
#[test]
fn a_base_has_more_than_65536_terms(rt: HostRuntime) -> Result<(), Fail> {
    let alloc = rt.alloc();
    let pairs = many_terms(alloc, 70_000)?;
    let expected = 5 + 70_000 * 4 + 4 + 3 + 272 * 2 + 69_726;
    assert_eq!(rt; base_length(alloc, pairs.as_slice())?, expected);
    Ok(())
}
