//! How large bases and deltas are to be, and how many bytes of them a pair and a change take.
//!
//! A document of 1 KB has some 30 terms on as many pages, so a write appends 30 deltas of some 40 bytes
//! with their heads. A page that has `MOST_PARTS` is merged at its next change, unless it is stuck (`rewrite`),
//! as no page of a container is: so a look-up reads so many parts at most, and a write causes 30 / 17, about 2,
//! merges. Each of them writes a base, whose size
//! decides what a write costs: bases of `MOST_BASE_BYTES` at most, split to `SPLIT_BASE_BYTES`, have about
//! three quarters of the most.

ghost use Rattle.std.specs.Prelude.{◌≡◌, ◌↔◌, ◌+◌, ◌<◌, ◌≤◌, ◌^◌, IsTrue, nat_lt, if◌then◌else◌, length, take, drop};
ghost use Rattle.ax_index.specs.DeltaSizes.{AreShort, HaveShortTerms, counted_bytes};
ghost use Rattle.ax_index.specs.PageSizes.{TakePages, base_bytes, bytes_beside, number_bytes, rest_of};

use ax_delta::Change;
use ax_leaf::short_term::in_common;
use ax_pair_list::PairRef;

/// The most parts that a page is to have: one that has them and is changed is merged.
pub(crate) const MOST_PARTS: usize = 17;

/// As many changes of one page count as one of its parts: so a long run of them is merged at once.
pub(crate) const CHANGES_FOR_PART: usize = 8;

/// The most pages that are merged in one batch.
pub(crate) const MOST_MERGED: u32 = 16;

/// How many bytes the pairs of a base are counted as, at most, without the term of the first.
const MOST_BASE_BYTES: usize = 4_096;

/// As how many bytes the pairs of a base are counted, at most, that is split off one of more.
const SPLIT_BASE_BYTES: usize = 2_048;

/// The most bytes of a term that a change may bring.
const MOST_TERM_BYTES: usize = 4_096;

/// How many bytes the changes of a delta are counted as, at most, where they do not fit one. A part has room
/// for 65,536.
const MOST_DELTA_BYTES: usize = 60_000;

/// What a term and a number take beside the bytes of the term, at most: five numbers of five bytes.
const BESIDE_TERM: usize = 25;

/// How many of rising pairs a base is to have: all, where they are few enough. The term of the first is not
/// counted: it names the page too, whatever the page holds, and a long one must not leave it alone there.
pub(crate) fn base_len(pairs: &[PairRef<'_>]) -> usize
    ensures within { result ≤ length pairs.now }
    ensures some { 0 < length pairs.now → 0 < result }
    ensures cut { drop result pairs.now ≡ rest_of pairs.now }
    ensures fits { base_bytes (take result pairs.now) ≤ 4096 }
{
    let mut bytes = BESIDE_TERM;
    let mut front = 1;
    for i in 1..pairs.len() {
        bytes += bytes_of_pair(&pairs[i - 1], &pairs[i]);
        if bytes > MOST_BASE_BYTES {
            return front;
        }
        front = front_after(bytes, front, i);
    }
    pairs.len()
}

/// How many pairs a base has that is split off: so many more as bytes up to this pair are few enough.
fn front_after(bytes: usize, front: usize, i: usize) -> usize
    requires { i < 2 ^ 63 }
    ensures { result ≡ (if nat_lt 2048 bytes then front else i + 1) }
{
    if bytes > SPLIT_BASE_BYTES {
        front
    } else {
        i + 1
    }
}

/// How many new pages the pairs of one take beside it.
pub(crate) fn new_pages(pairs: &[PairRef<'_>]) -> usize
    ensures within { result ≤ length pairs.now }
    ensures take { TakePages result (rest_of pairs.now) }
{
    let mut count = 0;
    let (_, mut rest) = pairs.split_at(base_len(pairs));
    while rest.len() > 0 {
        let (_, behind) = rest.split_at(base_len(rest));
        rest = behind;
        count += 1;
    }
    count
}

/// How many bytes of a base a pair takes behind another, counted from above where they are of two terms,
/// and about so many where they are of one.
fn bytes_of_pair(before: &PairRef<'_>, pair: &PairRef<'_>) -> usize
    ensures few { result ≤ 2 ^ 63 + 8 }
    ensures is { result ≡ bytes_beside before.now pair.now }
{
    let term = pair.term();
    let last = before.term();
    let shared = in_common(last, term);
    if shared == term.len() && shared == last.len() {
        return bytes_of_number(pair.number().saturating_sub(before.number()));
    }
    4 + bytes_of_number(pair.number()) + (term.len() - shared)
}

/// How many bytes a number takes, seven bits a byte.
fn bytes_of_number(number: u32) -> usize
    ensures few { result ≤ 5 }
    ensures is { result ≡ number_bytes number }
{
    match number {
        0..=0x7f => 1,
        0x80..=0x3fff => 2,
        0x4000..=0x1f_ffff => 3,
        0x20_0000..=0xfff_ffff => 4,
        _ => 5,
    }
}

/// Has no term of the changes more than 4,096 bytes? `plan_changes` requires it.
pub fn have_short_terms(changes: &[Change]) -> bool
    ensures { IsTrue result ↔ HaveShortTerms changes.now }
{
    changes.iter().all(|change| change.pair.term.as_slice().len() <= MOST_TERM_BYTES)
}

/// Has no term of a page's low pair and of these pairs more than 4,096 bytes? `put_base` requires it.
pub(crate) fn are_short(low: &PairRef<'_>, pairs: &[PairRef<'_>]) -> bool
    ensures { IsTrue result ↔ AreShort low.now pairs.now }
{
    low.term().len() <= MOST_TERM_BYTES
        && pairs
            .iter()
            .all(|pair| pair.term().len() <= MOST_TERM_BYTES)
}

/// How many of rising changes a delta is to have: as many as surely fit a part.
pub(crate) fn delta_len(changes: &[Change]) -> usize
    requires short { HaveShortTerms changes.now }
    ensures within { result ≤ length changes.now }
    ensures some { 0 < length changes.now → 0 < result }
    ensures fits { counted_bytes (take result changes.now) ≤ 60000 }
{
    let mut bytes = 0;
    for (i, change) in changes.iter().enumerate() {
        bytes += BESIDE_TERM + change.pair.term.as_slice().len();
        if bytes > MOST_DELTA_BYTES {
            return i;
        }
    }
    changes.len()
}
