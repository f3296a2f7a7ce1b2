use crate::RecentIds;
use std::test::Fail;

// Ids that begin one another, end in a zero byte, or are empty.
#[test]
fn each_id_has_the_number_that_was_put_last(rt: HostRuntime) -> Result<(), Fail> {
    let texts: [(&str, u32); 6] = [
        ("", 1),
        ("a", 2),
        ("a\0", 3),
        ("ab", 4),
        ("1f0e5f0a-8d3e-4c2b-9a61-0c5d7e", 5),
        ("1f0e5f0a-8d3e-4c2b-9a61-0c5d7", 6),
    ];
    let mut ids = RecentIds::make(rt.alloc(), 4096)?;
    for (id, _) in texts {
        assert_eq!(rt; ids.get(id.as_bytes()), None, "{id:?}");
    }
    for (id, number) in texts {
        ids.put(id.as_bytes(), number);
    }
    for (id, number) in texts {
        assert_eq!(rt; ids.get(id.as_bytes()), Some(number), "{id:?}");
    }
    ids.put(b"a", 7);
    assert_eq!(rt; ids.get(b"a"), Some(7));
    assert_eq!(rt; ids.get(b"ab"), Some(4));
    assert_eq!(rt; ids.get(b"b"), None);
    Ok(())
}

// All ids have the one place.
#[test]
fn another_id_at_the_same_place_drives_out_the_first(rt: HostRuntime) -> Result<(), Fail> {
    let mut ids = RecentIds::make(rt.alloc(), 1)?;
    ids.put(b"a", 1);
    ids.put(b"ab", 2);
    assert_eq!(rt; ids.get(b"a"), None);
    assert_eq!(rt; ids.get(b"ab"), Some(2));
    ids.remove(b"a");
    assert_eq!(rt; ids.get(b"ab"), Some(2));
    ids.remove(b"ab");
    assert_eq!(rt; ids.get(b"ab"), None);
    Ok(())
}

// What is too long to be kept drives out nothing.
#[test]
fn ids_of_at_most_30_bytes_are_kept(rt: HostRuntime) -> Result<(), Fail> {
    let mut ids = RecentIds::make(rt.alloc(), 1)?;
    ids.put(&[b'x'; 30], 1);
    ids.put(&[b'x'; 31], 2);
    assert_eq!(rt; ids.get(&[b'x'; 30]), Some(1));
    assert_eq!(rt; ids.get(&[b'x'; 31]), None);
    ids.remove(&[b'x'; 31]);
    assert_eq!(rt; ids.get(&[b'x'; 30]), Some(1));
    Ok(())
}

#[test]
fn an_id_is_taken_out_and_others_stay(rt: HostRuntime) -> Result<(), Fail> {
    let mut ids = RecentIds::make(rt.alloc(), 4096)?;
    ids.put(b"a", 1);
    ids.put(b"ab", 2);
    ids.remove(b"a");
    assert_eq!(rt; ids.get(b"a"), None);
    assert_eq!(rt; ids.get(b"ab"), Some(2));
    ids.remove(b"abc");
    assert_eq!(rt; ids.get(b"ab"), Some(2));
    ids.put(b"a", 3);
    assert_eq!(rt; ids.get(b"a"), Some(3));
    Ok(())
}
