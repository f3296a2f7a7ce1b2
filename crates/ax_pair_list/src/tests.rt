//! What a list of pairs gives back.
use crate::PairList;
use std::test::Fail;

/// Neighbours of one term, another term of the same length, and an empty term at the front.
#[test]
fn pairs_come_back(rt: HostRuntime) -> Result<(), Fail> {
    let rows: [(&[u8], u32); 5] = [(b"", 4), (b"ab", 1), (b"ab", 9), (b"cd", 2), (b"ab", 3)];
    let mut list = PairList::new(rt.alloc());
    for (term, number) in rows {
        list.push(term, number)?;
    }
    assert_eq!(rt; list.len(), 5);
    let refs = list.refs(rt.alloc())?;
    assert_eq!(rt; refs.len(), 5);
    for at in 0..5usize {
        let (term, number) = rows[at];
        let (found, with) = list.pair(at);
        assert!(rt; found == term && with == number, "{at}");
        assert!(rt;
            refs[at].term() == term && refs[at].number() == number,
            "{at}"
        );
    }
    Ok(())
}

/// Neighbours of one term share its bytes.
#[test]
fn neighbours_share_a_term(rt: HostRuntime) -> Result<(), Fail> {
    let mut list = PairList::new(rt.alloc());
    list.push(b"term", 1)?;
    list.push(b"term", 2)?;
    list.push(b"another", 2)?;
    let terms: &[u8] = b"termanother";
    assert_eq!(rt; list.terms.as_slice(), terms);
    Ok(())
}
