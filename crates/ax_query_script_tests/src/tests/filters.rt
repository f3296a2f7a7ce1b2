//! Queries with conditions that an index answers, over a store of more documents. The replies are worked out by hand.
use crate::tests::asking::{answer_to, line_of, store_after};
use ax_disk::MemDisk;
use std::alloc::Global;
use std::test::Fail;

/// How many documents are created, from 1 on.
pub const COUNT: usize = 100;

/// Adds the creation of a document whose `k` is the last digit of its number.
fn add_creation(alloc: Global, script: &mut Vec<u8>, number: usize) -> Result<(), Fail> {
    let digit = number % 10;
    let line = format!(in alloc; "CREATE {{\"id\":\"{number}\",\"k\":{digit}}}\n")?;
    Ok(script.extend_from_slice(line.as_bytes())?)
}

/// The store of so many documents.
pub fn store_of(alloc: Global, count: usize) -> Result<MemDisk, Fail> {
    let mut script = Vec::new(alloc);
    for number in 1..=count {
        add_creation(alloc, &mut script, number)?;
    }
    store_after(alloc, script.as_slice())
}

/// What the program answers over a store to the query for the ids of the documents that pass a condition;
/// nothing where the run ends otherwise.
fn answer_over(alloc: Global, disk: &mut MemDisk, condition: &str) -> Result<Vec<u8>, Fail> {
    let line = line_of(alloc, condition)?;
    answer_to(alloc, disk, line.as_bytes())
}

// Of a condition that the index answers and one that it does not, both are kept; one that it does not
// answer looks at each document.
#[test]
fn a_hundred_documents_are_filtered(rt: HostRuntime) -> Result<(), Fail> {
    const WHOLE: [(&str, &str); 5] = [
        (
            "c.k = 3 AND c.id != '3'",
            "row \"13\"\nrow \"23\"\nrow \"33\"\nrow \"43\"\nrow \"53\"\nrow \"63\"\nrow \"73\"\nrow \"83\"\nrow \"93\"\nend 9\n",
        ),
        ("c.id = '64'", "row \"64\"\nend 1\n"),
        (
            "c.k >= 8 AND STARTSWITH(c.id, '5')",
            "row \"58\"\nrow \"59\"\nend 2\n",
        ),
        (
            "c.id IN ('100', '7', '101', '7') AND c.k < 8",
            "row \"7\"\nrow \"100\"\nend 2\n",
        ),
        ("c.k = 3 AND c.k = 4", "end 0\n"),
    ];
    const ENDS: [(&str, &str); 3] = [
        ("c.k != 3", "\nend 90\n"),
        ("c.k BETWEEN 2 AND 4", "\nend 30\n"),
        ("IS_DEFINED(c.k)", "\nend 100\n"),
    ];
    let alloc = rt.alloc();
    let mut disk = store_of(alloc, COUNT)?;
    for (condition, expected) in WHOLE {
        let answer = answer_over(alloc, &mut disk, condition)?;
        assert_eq!(rt; answer.as_slice(), expected.as_bytes(), "{condition}");
    }
    for (condition, end) in ENDS {
        let answer = answer_over(alloc, &mut disk, condition)?;
        assert!(rt; answer.ends_with(end.as_bytes()), "{condition}");
    }
    Ok(())
}

/// The condition that the id is one of so many numbers, from 0 on, and `k` is 3.
fn one_of(alloc: Global, count: usize) -> Result<String, Fail> {
    let mut condition = format!(in alloc; "c.id IN ('0'")?;
    for number in 1..count {
        condition = format!(in alloc; "{condition},'{number}'")?;
    }
    Ok(format!(in alloc; "{condition}) AND c.k = 3")?)
}

// As many ids as a list may have are asked for at once.
#[test]
fn two_hundred_and_fifty_six_ids_are_found(rt: HostRuntime) -> Result<(), Fail> {
    let alloc = rt.alloc();
    let mut disk = store_of(alloc, COUNT)?;
    let condition = one_of(alloc, 256)?;
    let answer = answer_over(alloc, &mut disk, condition.as_str())?;
    drop(condition);
    assert_eq!(rt;
        answer.as_slice(),
        b"row \"3\"\nrow \"13\"\nrow \"23\"\nrow \"33\"\nrow \"43\"\nrow \"53\"\nrow \"63\"\nrow \"73\"\nrow \"83\"\nrow \"93\"\nend 10\n".as_slice()
    );
    Ok(())
}
