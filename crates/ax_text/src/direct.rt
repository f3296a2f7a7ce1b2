//! The reader that makes the tree while it reads. It may give up on any text.
ghost use Rattle.std.specs.Prelude.{◌≡◌, ◌<◌, length, ◌==◌, slice_index, Some, true, false, IfSome, is_some, IsTrue, option_and_then};
ghost use Rattle.fast_float.specs.Text.{minus};
ghost use Rattle.json.specs.Json.{value, items, members, number as json_number};
ghost use Rattle.serde_json.specs.Find.{as_i64};
ghost use Rattle.serde_json.specs.Read.{converted, number_of, number_from, read as read_data};
ghost use Rattle.ax_tree.specs.Names.{names, HaveRisingNames};
ghost use Rattle.ax_text.specs.OfJson.{tree_of_json, items_of_json, members_of_json};
ghost use Rattle.ax_text.specs.Places.{IsPlace};
ghost use Rattle.ax_text.specs.Reading.{reading, Stands};
ghost use Rattle.ax_text.specs.TreeOf.{tree_of};

use ax_tree::{Items, Member, Members, Text, Tree};
use fast_float::Numeral;
use json::{Reader, Scratch, Token};
use std::alloc::Global;

/// How deep lists and maps may nest.
const MOST_NESTING: usize = 127;

/// The most members that one is put before, of those that came earlier. Where the names rise, as in
/// each canonical text, none is put before another.
const MOST_PASSED: usize = 64;

/// The tree that the bytes stand for as a JSON text. `None` says nothing of the bytes: they may be
/// no JSON, have a number that is not whole, a name that stands twice in one map, a name that belongs
/// before more than `MOST_PASSED` of those that stand before it, or memory ran out.
pub(crate) fn read_directly(alloc: Global, bytes: &[u8], scratch: &mut Scratch) -> Option<Tree>
    ensures { IfSome result (λ tree. reading bytes.now ≡ Stands tree) }
{
    let Ok(text) = simdutf8::compat::from_utf8(bytes) else {
        return None;
    };
    read_text(alloc, text, scratch)
}

fn read_text(alloc: Global, text: &str, scratch: &mut Scratch) -> Option<Tree>
    ensures { IfSome result (λ tree. option_and_then tree_of (read_data text.now) ≡ Some tree) }
{
    let mut reader = Reader::new(text, scratch).ok()?;
    let tree = read(alloc, &mut reader, MOST_NESTING)?;
    if reader.next().is_some() {
        return None;
    }
    Some(tree)
}

#[cycle(read)]
#[inline(always)]
fn read(alloc: Global, reader: &mut Reader<'_>, depth: usize) -> Option<Tree>
    ensures tree { IfSome result
        (λ tree. converted tree_of_json (value depth reader.old) ≡ Some (tree, reader.new)) }
    ensures shorter { IsTrue (is_some result) → length reader.new < length reader.old }
{
    let token = reader.next()?;
    match token {
        Token::String(text) => text_from(alloc, text),
        Token::Number(text) => number_from_text(text),
        Token::Bool(value) => Some(Tree::Truth(value)),
        Token::Null => Some(Tree::Null),
        Token::EndObject | Token::EndArray | Token::Key(_) | Token::Bad => None,
        Token::BeginArray => {
            if depth == 0 {
                return None;
            }
            Some(Tree::List(read_items(alloc, reader, depth - 1)?))
        }
        Token::BeginObject => {
            if depth == 0 {
                return None;
            }
            Some(Tree::Object(read_members(alloc, reader, depth - 1)?))
        }
    }
}

#[inline(always)]
fn text_from(alloc: Global, text: &str) -> Option<Tree>
    ensures { IfSome result (λ tree. tree ≡ Tree.Text text.now) }
{
    let text = String::from_str(alloc, text).ok()?;
    Some(Tree::Text(Text::from_string(text)))
}

#[inline(never)]
#[cycle(read)]
fn read_items(alloc: Global, reader: &mut Reader<'_>, depth: usize) -> Option<Items<Tree>>
    ensures items { IfSome result
        (λ found. converted items_of_json (items (value depth) (length reader.old) reader.old)
        ≡ Some (found, reader.new)) }
    ensures shorter { IsTrue (is_some result) → length reader.new < length reader.old }
{
    let mut found = Vec::new(alloc);
    'items: while !reader.take_end_array() {
        let item = read(alloc, reader, depth)?;
        let Ok(()) = found.push(item) else {
            return None;
        };
    }
    Some(Items::from_vec(found))
}

#[inline(never)]
#[cycle(read)]
fn read_members(alloc: Global, reader: &mut Reader<'_>, depth: usize) -> Option<Members<Tree>>
    ensures members { IfSome result
        (λ found. converted members_of_json (members (value depth) (length reader.old) reader.old)
        ≡ Some (found, reader.new)) }
    ensures shorter { IsTrue (is_some result) → length reader.new < length reader.old }
{
    let mut found = Vec::new(alloc);
    'members: while let Some(name) = reader.next_key().ok()? {
        let place = place_for(found.as_slice(), name)?;
        let name = Text::from_string(String::from_str(alloc, name).ok()?);
        let value = read(alloc, reader, depth)?;
        let Ok(()) = found.insert(place, Member { name, value }) else {
            return None;
        };
    }
    Some(Members::from_vec(found))
}

/// Where a member of that name is put among members whose names rise; `None` where the name stands
/// there, or where too many are behind its place.
fn place_for(members: &[Member<Tree>], name: &str) -> Option<usize>
    requires { HaveRisingNames members.now }
    ensures { IfSome result (λ place. IsPlace name.now (names members.now) place) }
{
    let mut place = members.len();
    'earlier: while place > 0 {
        if members.len() - place > MOST_PASSED {
            return None;
        }
        let order = name.cmp(members[place - 1].name.as_str());
        if order.is_gt() {
            return Some(place);
        }
        if order.is_eq() {
            return None;
        }
        place -= 1;
    }
    Some(place)
}

#[inline(always)]
#[tactic(auto, using(crate::proofs::Turns::number_tree))]
fn number_from_text(text: &str) -> Option<Tree>
    ensures { IfSome result (λ tree. tree_of_json (json_number text.now) ≡ Some tree) }
{
    match whole_from(text) {
        Some(number) => Some(Tree::Number(number)),
        None => None,
    }
}

/// The whole number of 64 bits that a number token writes; `None` where it writes another number.
#[inline(always)]
fn whole_from(text: &str) -> Option<i64>
    ensures { IfSome result (λ n. option_and_then as_i64 (number_of text.now) ≡ Some n) }
{
    let bytes = text.as_bytes();
    if has_minus(bytes) {
        below_zero(&Numeral::scan(&bytes[1..]))
    } else {
        not_below_zero(&Numeral::scan(bytes))
    }
}

#[inline(always)]
fn has_minus(bytes: &[u8]) -> bool
    ensures value { result ≡ (slice_index bytes.now 0 == minus) }
    ensures some { IsTrue result → 0 < length bytes.now }
{
    !bytes.is_empty() && bytes[0] == b'-'
}

fn not_below_zero(numeral: &Numeral<'_>) -> Option<i64>
    ensures { IfSome result (λ n. option_and_then as_i64 (number_from false numeral.now) ≡ Some n) }
{
    numeral.to_i64(false)
}

fn below_zero(numeral: &Numeral<'_>) -> Option<i64>
    ensures { IfSome result (λ n. option_and_then as_i64 (number_from true numeral.now) ≡ Some n) }
{
    let number = numeral.to_i64(true)?;
    if number < 0 { Some(number) } else { None }
}
