//! The terms of documents: an id of eight random bytes, and thirty members, of which five have 5 values,
//! five 1,000, ten are random numbers and ten random texts of 20 bytes.

use ax_index::Change;
use ax_index_support::put;
use ax_term::{Bytes, Memory, TermValue, append_value};
use std::alloc::{AllocError, Global};

/// What the term of an id begins with, and that of a member.
const ID: u8 = 0x01;

const PLAIN: u8 = 0x02;

/// The members of one kind begin at these.
const OF_A_THOUSAND: u8 = 5;

const NUMBERS: u8 = 10;

const TEXTS: u8 = 20;

const END: u8 = 30;

/// How many bytes a text has.
const TEXT_BYTES: usize = 20;

/// Numbers that are drawn by multiplying and adding, the same in each run.
#[derive(Drop)]
pub(crate) struct Draws {
    state: u64,
}

impl Draws {
    pub(crate) fn new() -> Draws {
        Draws { state: 1 }
    }

    /// The upper half of the next state.
    fn next(&mut self) -> u32 {
        self.state = self
            .state
            .wrapping_mul(6_364_136_223_846_793_005)
            .wrapping_add(1_442_695_040_888_963_407);
        (self.state >> 32) as u32
    }
}

/// The changes that add the terms of a document, in order.
pub(crate) fn changes_of(
    alloc: Global,
    draws: &mut Draws,
    number: u32,
) -> Result<Vec<Change>, AllocError> {
    let mut changes = Vec::new(alloc);
    let id = id_term(alloc, draws)?;
    put(alloc, &mut changes, true, id.as_slice(), number)?;
    for member in 0..END {
        let term = member_term(alloc, draws, member)?;
        put(alloc, &mut changes, true, term.as_slice(), number)?;
    }
    Ok(changes)
}

fn id_term(alloc: Global, draws: &mut Draws) -> Result<Vec<u8>, AllocError> {
    let mut term = Vec::from_slice(alloc, &[ID])?;
    term.extend_from_slice(&draws.next().to_be_bytes())?;
    term.extend_from_slice(&draws.next().to_be_bytes())?;
    Ok(term)
}

/// The term of a member: its name is `f` and two digits.
fn member_term(alloc: Global, draws: &mut Draws, member: u8) -> Result<Vec<u8>, AllocError> {
    let name = [b'f', b'0' + member / 10 % 10, b'0' + member % 10];
    let mut term = Vec::from_slice(alloc, &[PLAIN, 0x03])?;
    term.extend_from_slice(&name)?;
    term.extend_from_slice(&[0x00, 0x01, 0x01])?;
    let value = value_of(alloc, draws, member)?;
    match append_value(&mut term, &value) {
        Ok(()) => Ok(term),
        Err(Memory) => Err(AllocError),
    }
}

fn value_of(alloc: Global, draws: &mut Draws, member: u8) -> Result<TermValue, AllocError> {
    if member >= TEXTS {
        return text_of(alloc, draws);
    }
    let drawn = i64::from(draws.next());
    if member < OF_A_THOUSAND {
        return Ok(TermValue::Number(drawn % 5));
    }
    if member < NUMBERS {
        return Ok(TermValue::Number(drawn % 1000));
    }
    Ok(TermValue::Number(drawn))
}

fn text_of(alloc: Global, draws: &mut Draws) -> Result<TermValue, AllocError> {
    let mut text = Vec::with_capacity(alloc, TEXT_BYTES)?;
    for _ in 0..TEXT_BYTES {
        text.push(b'a' + (draws.next() % 26) as u8)?;
    }
    Ok(TermValue::Text(Bytes::from_vec(text)))
}
