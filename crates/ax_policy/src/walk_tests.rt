use crate::{Policy, RuleWalk, read_policy};
use ax_mean::{Memory, Path, Step, Text};
use ax_text::read_tree;
use std::alloc::Global;
use std::test::Fail;

/// The policy that a text is.
fn policy_of(alloc: Global, text: &str) -> Result<Policy, Memory> {
    let Ok(tree) = read_tree(alloc, text.as_bytes()) else {
        return Err(Memory);
    };
    match read_policy(alloc, &tree) {
        Ok(policy) => Ok(policy),
        Err(_fault) => Err(Memory),
    }
}

/// The walk at a path, of which the test writes the names one after another and an item as `#`.
fn walk_to<'a>(walk: RuleWalk<'a>, path: &str) -> RuleWalk<'a> {
    let mut here = walk;
    for word in path.split_whitespace() {
        here = if word == "#" {
            here.item()
        } else {
            here.name(word)
        };
    }
    here
}

/// The path of that test's text.
fn path_of(alloc: Global, path: &str) -> Result<Path, Memory> {
    let mut steps = Path::new(alloc);
    for word in path.split_whitespace() {
        let step = if word == "#" {
            Step::Item
        } else {
            Step::Name(Text::from_string(String::from_str(alloc, word)?))
        };
        steps.push(step)?;
    }
    Ok(steps)
}

// By hand, from the rules that the manual gives: of the paths that match the one with most steps
// decides, and of equal steps the one with `/?`.
#[test]
fn a_walk_covers_what_its_path_does(rt: HostRuntime) -> Result<(), Fail> {
    let alloc = rt.alloc();
    let policy = policy_of(
        alloc,
        r#"{"includedPaths":[{"path":"/*"},{"path":"/a/b/?"},{"path":"/a/[]/c/*"},{"path":"/e/*"}],"excludedPaths":[{"path":"/a/*"},{"path":"/a/[]/c/d/?"},{"path":"/e/?"},{"path":"/\"x\\\"y\"/?"},{"path":"/\"[]\"/?"}]}"#,
    )?;
    for (path, covered) in [
        ("", true),
        ("z", true),
        ("a", false),
        ("a b", true),
        ("a b c", false),
        ("ab", true),
        ("a #", false),
        ("a # c", true),
        ("a # c d", false),
        ("a # c d e", true),
        ("a # q", false),
        ("e", false),
        ("e f", true),
        (r#"x"y"#, false),
        (r#"x"y z"#, true),
        (r#"x\"y"#, true),
        ("[]", false),
        ("#", true),
    ] {
        assert_eq!(rt; walk_to(policy.walk(), path).covers(), covered, "{path}");
        let steps = path_of(alloc, path)?;
        assert_eq!(rt; policy.covers(&steps), covered, "{path}");
    }
    Ok(())
}

#[test]
fn a_walk_of_what_indexes_little_covers_little(rt: HostRuntime) -> Result<(), Fail> {
    let alloc = rt.alloc();
    for (text, path, covered) in [
        (
            r#"{"indexingMode":"none","includedPaths":[{"path":"/*"}]}"#,
            "a",
            false,
        ),
        (r#"{"indexingMode":"none"}"#, "", false),
        (
            r#"{"automatic":false,"includedPaths":[{"path":"/*"}]}"#,
            "a",
            false,
        ),
        (
            r#"{"includedPaths":[{"path":"/a/?"}],"excludedPaths":[{"path":"/*"}]}"#,
            "a",
            true,
        ),
        (
            r#"{"includedPaths":[{"path":"/a/?"}],"excludedPaths":[{"path":"/*"}]}"#,
            "a b",
            false,
        ),
        (
            r#"{"includedPaths":[{"path":"/a/?"}],"excludedPaths":[{"path":"/*"}]}"#,
            "",
            false,
        ),
    ] {
        let policy = policy_of(alloc, text)?;
        assert_eq!(rt;
            walk_to(policy.walk(), path).covers(),
            covered,
            "{text} {path}"
        );
    }
    Ok(())
}

/// The name of two digits behind an `n`.
fn name_of(alloc: Global, number: u8) -> Result<String, Memory> {
    let mut name = String::from_str(alloc, "n")?;
    name.push((b'0' + number / 10 % 10) as char)?;
    name.push((b'0' + number % 10) as char)?;
    Ok(name)
}

/// The policy that leaves out the leaves at the forty even names below 80.
fn policy_of_many(alloc: Global) -> Result<Policy, Memory> {
    let mut text = String::from_str(
        alloc,
        r#"{"includedPaths":[{"path":"/*"}],"excludedPaths":[{"path":"/m/?"}"#,
    )?;
    for half in 0..40u8 {
        text.push_str(r#",{"path":"/"#)?;
        text.push_str(name_of(alloc, half * 2)?.as_str())?;
        text.push_str(r#"/?"}"#)?;
    }
    text.push_str("]}")?;
    policy_of(alloc, text.as_str())
}

#[test]
fn a_name_is_found_from_any_place(rt: HostRuntime) -> Result<(), Fail> {
    let alloc = rt.alloc();
    let policy = policy_of_many(alloc)?;
    let mut next = 0;
    for number in 0..80u8 {
        let name = name_of(alloc, number)?;
        let covered = number % 2 == 1;
        for near in [0, 1, 2, 12, 20, 39, 40, 41, 42, usize::MAX] {
            let mut place = near;
            let walk = policy.walk().name_near(name.as_str(), &mut place);
            assert_eq!(rt; walk.covers(), covered, "{number} {near}");
        }
        let walk = policy.walk().name_near(name.as_str(), &mut next);
        assert_eq!(rt; walk.covers(), covered, "{number}");
    }
    Ok(())
}

/// The text of so many steps to items.
fn items_text(alloc: Global, count: usize) -> Result<String, Memory> {
    let mut text = String::new(alloc);
    for _ in 0..count {
        text.push_str("/[]")?;
    }
    Ok(text)
}

// 1,023 steps to items are the most that a path has: each takes one byte of 1,024, and its end one.
#[test]
fn the_deepest_rule_is_found(rt: HostRuntime) -> Result<(), Fail> {
    let alloc = rt.alloc();
    let mut text = String::from_str(
        alloc,
        r#"{"includedPaths":[{"path":"/*"}],"excludedPaths":[{"path":""#,
    )?;
    text.push_str(items_text(alloc, 1_023)?.as_str())?;
    text.push_str(r#"/?"}]}"#)?;
    let policy = policy_of(alloc, text.as_str())?;
    let mut walk = policy.walk();
    for steps in 0..1_025u32 {
        assert_eq!(rt; walk.covers(), steps != 1_023, "{steps}");
        walk = walk.item();
    }
    Ok(())
}
