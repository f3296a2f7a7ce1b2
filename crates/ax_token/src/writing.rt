//! A token written as a word.
ghost use Rattle.std.specs.Prelude.{◌≡◌, ◌++◌, length, ◌<◌, ◌^◌, IfOk, IfSome, OnOk};
ghost use Rattle.std.specs.List.{AllByRecursion};
ghost use Rattle.ax_token.specs.TokenBytes.{Fits, HasSpelling, IsU32, KeyFits, KeyIsSpelled, PlaceIsSpelled, ValueFits, kind_of as kind_of_key, key_bytes, listed_bytes, optional_bytes, place_bytes, sized, token_bytes, u32_bytes, u64_bytes, value_bytes};
ghost use Rattle.ax_token.specs.Words.{IsWordOf};

use crate::letters::word_of;
use crate::out_of_memory::Memory;
use crate::page_token::{Bytes, PageToken, PlaceList, TokenKey, ValueTexts};
use std::alloc::Global;

/// The word of a token whose texts have less than 2^32 bytes each, with at most 255 order values and
/// at most 255 positions. It takes time and memory by the length of the word.
pub fn write_token(alloc: Global, token: &PageToken) -> Result<Vec<u8>, Memory>
    requires { Fits token.now }
    ensures { IfOk result (λ word. IsWordOf token.now word.items) }
{
    // Room for all but order values and positions.
    let room = token.text.as_slice().len() + token.params.as_slice().len() + 27;
    let mut bytes = Vec::with_capacity(alloc, room)?;
    put_token(&mut bytes, token)?;
    word_of(alloc, bytes.as_slice())
}

fn put_token(out: &mut Vec<u8>, token: &PageToken) -> Result<(), Memory>
    requires { Fits token.now }
    ensures bytes { OnOk result (out.new.items ≡ out.old.items ++ token_bytes token.now) }
    ensures spelling { OnOk result (HasSpelling token.now) }
{
    out.push(1)?;
    out.push(kind_of(&token.key))?;
    put_sized(out, token.text.as_slice())?;
    put_sized(out, token.params.as_slice())?;
    put_u32(out, token.skip)?;
    put_limit(out, token.left)?;
    put_key(out, &token.key)
}

fn kind_of(key: &TokenKey) -> u8
    ensures { result ≡ kind_of_key key.now }
{
    match key {
        TokenKey::Place { .. } => 0,
        TokenKey::Ordered { .. } => 1,
        TokenKey::Count(_) => 2,
    }
}

fn put_u32(out: &mut Vec<u8>, number: u32) -> Result<(), Memory>
    ensures bytes { OnOk result (out.new.items ≡ out.old.items ++ u32_bytes number) }
    ensures spelling { OnOk result (IsU32 number) }
{
    out.extend_from_slice(&number.to_le_bytes())?;
    Ok(())
}

fn put_u64(out: &mut Vec<u8>, number: u64) -> Result<(), Memory>
    ensures { OnOk result (out.new.items ≡ out.old.items ++ u64_bytes number) }
{
    out.extend_from_slice(&number.to_le_bytes())?;
    Ok(())
}

fn put_sized(out: &mut Vec<u8>, bytes: &[u8]) -> Result<(), Memory>
    requires { length bytes.now < 2 ^ 32 }
    ensures { OnOk result (out.new.items ≡ out.old.items ++ sized bytes.now) }
{
    put_u32(out, bytes.len() as u32)?;
    out.extend_from_slice(bytes)?;
    Ok(())
}

fn put_limit(out: &mut Vec<u8>, left: Option<u32>) -> Result<(), Memory>
    ensures bytes { OnOk result (out.new.items ≡ out.old.items ++ optional_bytes u32_bytes left) }
    ensures spelling { OnOk result (IfSome left IsU32) }
{
    match left {
        None => {
            out.push(0)?;
            Ok(())
        }
        Some(limit) => {
            out.push(1)?;
            put_u32(out, limit)
        }
    }
}

fn put_key(out: &mut Vec<u8>, key: &TokenKey) -> Result<(), Memory>
    requires { KeyFits key.now }
    ensures bytes { OnOk result (out.new.items ≡ out.old.items ++ key_bytes key.now) }
    ensures spelling { OnOk result (KeyIsSpelled key.now) }
{
    match key {
        TokenKey::Place { number, place } => put_place(out, *number, place),
        TokenKey::Ordered {
            values,
            number,
            place,
        } => {
            put_values(out, values)?;
            put_place(out, *number, place)
        }
        TokenKey::Count(given) => put_u64(out, *given),
    }
}

fn put_place(out: &mut Vec<u8>, number: u32, place: &PlaceList) -> Result<(), Memory>
    requires { length place.now < 256 }
    ensures bytes { OnOk result (out.new.items ≡ out.old.items ++ place_bytes number place.now) }
    ensures spelling { OnOk result (PlaceIsSpelled number place.now) }
{
    put_u32(out, number)?;
    put_positions(out, place.as_slice())
}

#[tactic(auto, using(crate::proofs::Numbers::all_u32))]
fn put_positions(out: &mut Vec<u8>, place: &[u32]) -> Result<(), Memory>
    requires { length place.now < 256 }
    ensures bytes { OnOk result (out.new.items ≡ out.old.items ++ listed_bytes u32_bytes place.now) }
    ensures numbers { OnOk result (AllByRecursion IsU32 place.now) }
{
    out.push(place.len() as u8)?;
    for position in place {
        put_u32(out, *position)?;
    }
    Ok(())
}

fn put_values(out: &mut Vec<u8>, values: &ValueTexts) -> Result<(), Memory>
    requires few { length values.now < 256 }
    requires fit { AllByRecursion ValueFits values.now }
    ensures { OnOk result
        (out.new.items ≡ out.old.items ++ listed_bytes value_bytes values.now) }
{
    let values = values.as_slice();
    out.push(values.len() as u8)?;
    for value in values {
        put_value(out, value)?;
    }
    Ok(())
}

fn put_value(out: &mut Vec<u8>, value: &Option<Bytes>) -> Result<(), Memory>
    requires { ValueFits value.now }
    ensures { OnOk result (out.new.items ≡ out.old.items ++ value_bytes value.now) }
{
    match value {
        None => {
            out.push(0)?;
            Ok(())
        }
        Some(text) => {
            out.push(1)?;
            put_sized(out, text.as_slice())
        }
    }
}
