//! A token read from a word.
ghost use Rattle.std.specs.Prelude.{◌≡◌, IfOk, IfSome, IfNone, if◌then◌else◌, None};
ghost use Rattle.std.specs.Option.{option_map, option_and_then};
ghost use Rattle.ax_token.specs.Reading.{both, first_fields, first_key, first_place, first_sized, first_u32, has_query, in_order_of, is_query, listed, many, told_by, optional, token_in, token_of, whole, with};
ghost use Rattle.ax_token.specs.TokenBytes.{Fits};
ghost use Rattle.ax_token.specs.Words.{IsOfQuery, IsWordOf};
ghost use Rattle.ax_token.specs.declared.page_token.PageToken as page_tokens;

use crate::fields::{copied, split_byte, split_limit, split_sized, split_u32, split_u64};
use crate::letters::bytes_of;
use crate::out_of_memory::Memory;
use crate::page_token::{Bytes, PageToken, PlaceList, TokenKey, ValueTexts};
use ax_tree::Items;
use std::alloc::Global;

/// The token whose word this is; `None` exactly where it is the word of none. What is read can be
/// written. It takes time and memory by the length of the word.
pub fn read_token(alloc: Global, word: &[u8]) -> Result<Option<PageToken>, Memory>
    ensures found { IfOk result (λ token. IfSome token (λ t. IsWordOf t word.now)) }
    ensures none { IfOk result (λ token.
        IfNone token ((t : page_tokens.PageToken) → IsWordOf t word.now → ⊥)) }
    ensures fits { IfOk result (λ token. IfSome token (λ t. Fits t)) }
{
    match bytes_of(alloc, word) {
        Ok(Some(bytes)) => token_of_bytes(alloc, bytes.as_slice()),
        Ok(None) => Ok(None),
        Err(fault) => Err(fault),
    }
}

/// The token whose word this is, where it is one of the query with this text and with parameters of
/// this canonical text; `None` exactly where it is the word of no such token. Nothing of a token of
/// another query is copied.
pub fn read_token_of(
    alloc: Global,
    word: &[u8],
    text: &[u8],
    params: &[u8],
) -> Result<Option<PageToken>, Memory>
    ensures found { IfOk result (λ token.
        IfSome token (λ t. IsWordOf t word.now × IsOfQuery t text.now params.now)) }
    ensures none { IfOk result (λ token. IfNone token
        ((t : page_tokens.PageToken) → IsWordOf t word.now → IsOfQuery t text.now params.now → ⊥)) }
    ensures fits { IfOk result (λ token. IfSome token (λ t. Fits t)) }
{
    match bytes_of(alloc, word) {
        Ok(Some(bytes)) => token_of_query(alloc, bytes.as_slice(), text, params),
        Ok(None) => Ok(None),
        Err(fault) => Err(fault),
    }
}

/// The token that bytes are, where the query in them is this one.
fn token_of_query(
    alloc: Global,
    bytes: &[u8],
    text: &[u8],
    params: &[u8],
) -> Result<Option<PageToken>, Memory>
    ensures { IfOk result (λ token. token
        ≡ if has_query text.now params.now bytes.now then token_in bytes.now else None) }
{
    if is_of_query(bytes, text, params) {
        token_of_bytes(alloc, bytes)
    } else {
        Ok(None)
    }
}

/// Do the text and the parameters behind the first two bytes equal these?
fn is_of_query(bytes: &[u8], text: &[u8], params: &[u8]) -> bool
    ensures { result ≡ has_query text.now params.now bytes.now }
{
    match bytes {
        [_, _, rest @ ..] => begins_with_query(rest, text, params),
        _ => false,
    }
}

fn begins_with_query(bytes: &[u8], text: &[u8], params: &[u8]) -> bool
    ensures { result ≡ is_query text.now params.now (both first_sized first_sized bytes.now) }
{
    let Some((found, rest)) = split_sized(bytes) else {
        return false;
    };
    let Some((given, _)) = split_sized(rest) else {
        return false;
    };
    found == text && given == params
}

/// The token that bytes are, and no others.
fn token_of_bytes(alloc: Global, bytes: &[u8]) -> Result<Option<PageToken>, Memory>
    ensures { IfOk result (λ token. token ≡ token_in bytes.now) }
{
    match bytes {
        [1, kind, rest @ ..] => token_of_kind(alloc, *kind, rest),
        _ => Ok(None),
    }
}

fn token_of_kind(alloc: Global, kind: u8, bytes: &[u8]) -> Result<Option<PageToken>, Memory>
    ensures { IfOk result (λ token.
        token ≡ option_and_then (λ x. whole (token_of x.0) x.1) (first_fields kind bytes.now)) }
{
    match split_fields(alloc, kind, bytes) {
        Ok(Some((token, []))) => Ok(Some(token)),
        Ok(_) => Ok(None),
        Err(fault) => Err(fault),
    }
}

/// The fields behind the kind.
fn split_fields(alloc: Global, kind: u8, bytes: &[u8]) -> Result<Option<(PageToken, &[u8])>, Memory>
    ensures { IfOk result (λ r.
        option_map (λ x. (x.0, x.1.now)) r
        ≡ with token_of (first_fields kind) bytes.now) }
{
    let Some((text, rest)) = split_sized(bytes) else {
        return Ok(None);
    };
    let Some((params, rest)) = split_sized(rest) else {
        return Ok(None);
    };
    let Some((skip, rest)) = split_u32(rest) else {
        return Ok(None);
    };
    let Some((left, rest)) = split_limit(rest) else {
        return Ok(None);
    };
    let text = copied(alloc, text)?;
    let params = copied(alloc, params)?;
    match split_key(alloc, kind, rest) {
        Ok(Some((key, rest))) => Ok(Some((
            PageToken {
                text,
                params,
                skip,
                left,
                key,
            },
            rest,
        ))),
        Ok(None) => Ok(None),
        Err(fault) => Err(fault),
    }
}

fn split_key(alloc: Global, kind: u8, bytes: &[u8]) -> Result<Option<(TokenKey, &[u8])>, Memory>
    ensures { IfOk result (λ r. option_map (λ x. (x.0, x.1.now)) r ≡ first_key kind bytes.now) }
{
    match kind {
        0 => split_placed(alloc, bytes),
        1 => split_ordered(alloc, bytes),
        2 => Ok(split_count(bytes)),
        _ => Ok(None),
    }
}

fn split_count(bytes: &[u8]) -> Option<(TokenKey, &[u8])>
    ensures { option_map (λ x. (x.0, x.1.now)) result ≡ first_key 2 bytes.now }
{
    let (given, rest) = split_u64(bytes)?;
    Some((TokenKey::Count(given), rest))
}

fn split_placed(alloc: Global, bytes: &[u8]) -> Result<Option<(TokenKey, &[u8])>, Memory>
    ensures { IfOk result (λ r. option_map (λ x. (x.0, x.1.now)) r ≡ first_key 0 bytes.now) }
{
    let Some((number, rest)) = split_u32(bytes) else {
        return Ok(None);
    };
    match split_place(alloc, rest) {
        Ok(Some((place, rest))) => Ok(Some((TokenKey::Place { number, place }, rest))),
        Ok(None) => Ok(None),
        Err(fault) => Err(fault),
    }
}

fn split_ordered(alloc: Global, bytes: &[u8]) -> Result<Option<(TokenKey, &[u8])>, Memory>
    ensures { IfOk result (λ r. option_map (λ x. (x.0, x.1.now)) r ≡ first_key 1 bytes.now) }
{
    match split_values(alloc, bytes) {
        Ok(Some((values, rest))) => split_behind_values(alloc, values, rest),
        Ok(None) => Ok(None),
        Err(fault) => Err(fault),
    }
}

fn split_behind_values(
    alloc: Global,
    values: ValueTexts,
    bytes: &[u8],
) -> Result<Option<(TokenKey, &[u8])>, Memory>
    ensures { IfOk result (λ r.
        option_map (λ x. (x.0, x.1.now)) r
        ≡ with (in_order_of values) first_place bytes.now) }
{
    let Some((number, rest)) = split_u32(bytes) else {
        return Ok(None);
    };
    match split_place(alloc, rest) {
        Ok(Some((place, rest))) => Ok(Some((
            TokenKey::Ordered {
                values,
                number,
                place,
            },
            rest,
        ))),
        Ok(None) => Ok(None),
        Err(fault) => Err(fault),
    }
}

fn split_place(alloc: Global, bytes: &[u8]) -> Result<Option<(PlaceList, &[u8])>, Memory>
    ensures { IfOk result (λ r.
        option_map (λ x. (x.0, x.1.now)) r ≡ listed first_u32 bytes.now) }
{
    let Some((count, rest)) = split_byte(bytes) else {
        return Ok(None);
    };
    split_positions(alloc, count, rest)
}

fn split_positions(
    alloc: Global,
    count: u8,
    bytes: &[u8],
) -> Result<Option<(PlaceList, &[u8])>, Memory>
    ensures { IfOk result (λ r.
        option_map (λ x. (x.0, x.1.now)) r ≡ many first_u32 count bytes.now) }
{
    let mut place = Vec::new(alloc);
    let mut rest = bytes;
    for _turn in 0..count {
        let Some((position, after)) = split_u32(rest) else {
            return Ok(None);
        };
        place.push(position)?;
        rest = after;
    }
    Ok(Some((Items::from_vec(place), rest)))
}

fn split_values(alloc: Global, bytes: &[u8]) -> Result<Option<(ValueTexts, &[u8])>, Memory>
    ensures { IfOk result (λ r.
        option_map (λ x. (x.0, x.1.now)) r ≡ listed (optional first_sized) bytes.now) }
{
    let Some((count, rest)) = split_byte(bytes) else {
        return Ok(None);
    };
    split_texts(alloc, count, rest)
}

fn split_texts(
    alloc: Global,
    count: u8,
    bytes: &[u8],
) -> Result<Option<(ValueTexts, &[u8])>, Memory>
    ensures { IfOk result (λ r.
        option_map (λ x. (x.0, x.1.now)) r ≡ many (optional first_sized) count bytes.now) }
{
    let mut values = Vec::new(alloc);
    let mut rest = bytes;
    for _turn in 0..count {
        match split_value(alloc, rest) {
            Ok(Some((value, after))) => {
                values.push(value)?;
                rest = after;
            }
            Ok(None) => return Ok(None),
            Err(fault) => return Err(fault),
        }
    }
    Ok(Some((Items::from_vec(values), rest)))
}

fn split_value(alloc: Global, bytes: &[u8]) -> Result<Option<(Option<Bytes>, &[u8])>, Memory>
    ensures { IfOk result (λ r.
        option_map (λ x. (x.0, x.1.now)) r ≡ optional first_sized bytes.now) }
{
    let Some((mark, rest)) = split_byte(bytes) else {
        return Ok(None);
    };
    split_marked(alloc, mark, rest)
}

fn split_marked(
    alloc: Global,
    mark: u8,
    bytes: &[u8],
) -> Result<Option<(Option<Bytes>, &[u8])>, Memory>
    ensures { IfOk result (λ r.
        option_map (λ x. (x.0, x.1.now)) r ≡ told_by first_sized mark bytes.now) }
{
    match mark {
        0 => Ok(Some((None, bytes))),
        1 => {
            let Some((text, rest)) = split_sized(bytes) else {
                return Ok(None);
            };
            let text = copied(alloc, text)?;
            Ok(Some((Some(text), rest)))
        }
        _ => Ok(None),
    }
}
