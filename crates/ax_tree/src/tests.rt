use crate::{
    Items, Member, Members, Memory, Text, Tree, append_tree, id_of, may_be_id, write_tree,
};
use std::alloc::Global;
use std::test::Fail;

fn text(alloc: Global, text: &str) -> Result<Text, Memory> {
    Ok(Text::from_string(String::from_str(alloc, text)?))
}

fn member(alloc: Global, name: &str, value: Tree) -> Result<Members<Tree>, Memory> {
    let name = text(alloc, name)?;
    let mut members = Vec::new(alloc);
    members.push(Member { name, value })?;
    Ok(Members::from_vec(members))
}

fn numbers(alloc: Global, numbers: &[i64]) -> Result<Tree, Memory> {
    let mut items = Items::new(alloc);
    for number in numbers {
        items.push(Tree::Number(*number))?;
    }
    Ok(Tree::List(items))
}

// The texts by hand, from the grammar of JSON.
#[test]
fn a_tree_has_its_canonical_text(rt: HostRuntime) -> Result<(), Fail> {
    let alloc = rt.alloc();
    let list = numbers(alloc, &[0, -1, i64::MAX, i64::MIN])?;
    let table = [
        (Tree::Null, "null"),
        (Tree::Truth(true), "true"),
        (Tree::Truth(false), "false"),
        (
            Tree::Text(text(alloc, "a\"\\\n\u{1}/é")?),
            "\"a\\\"\\\\\\n\\u0001/é\"",
        ),
        (list, "[0,-1,9223372036854775807,-9223372036854775808]"),
        (Tree::List(Items::new(alloc)), "[]"),
        (Tree::Object(Members::new(alloc)), "{}"),
        (
            Tree::Object(member(alloc, "k", Tree::Null)?),
            "{\"k\":null}",
        ),
    ];
    for (tree, expected) in table {
        assert_eq!(rt; write_tree(alloc, &tree)?.as_slice(), expected.as_bytes());
        assert_eq!(rt;
            write_tree(alloc, &tree.copy(alloc)?)?.as_slice(),
            expected.as_bytes()
        );
    }
    Ok(())
}

#[test]
fn a_text_is_appended_behind_what_stands_there(rt: HostRuntime) -> Result<(), Fail> {
    let alloc = rt.alloc();
    let mut out = Vec::new(alloc);
    out.extend_from_slice(b"ok ")?;
    append_tree(
        &mut out,
        &Tree::Object(member(alloc, "k", Tree::Number(-7))?),
    )?;
    append_tree(&mut out, &Tree::Null)?;
    assert_eq!(rt; out.as_slice(), b"ok {\"k\":-7}null".as_slice());
    Ok(())
}

#[test]
fn an_id_has_no_control_character(rt: HostRuntime) -> Result<(), Fail> {
    let alloc = rt.alloc();
    for (id, expected) in [
        ("a", true),
        ("", false),
        ("a\tb", false),
        ("\u{7f}", false),
        ("é", true),
    ] {
        assert_eq!(rt; may_be_id(id), expected, "{id:?}");
        let document = Tree::Object(member(alloc, "id", Tree::Text(text(alloc, id)?))?);
        assert_eq!(rt; id_of(&document).is_some(), expected, "{id:?}");
    }
    assert!(rt; id_of(&Tree::Null).is_none());
    assert!(rt; id_of(&Tree::Object(member(alloc, "id", Tree::Number(1))?)).is_none());
    Ok(())
}
