//! Names: what is noted of those that came after them, and the limit on their number.
use redodb_names::{Names, NamesFault, Turn, is_name};
use std::process::Abort;

/// The number of the name with this text, which is added if there are fewer than so many.
fn added(rt: &impl Abort, names: &mut Names, text: &str, most: u32) -> Option<u32> {
    assert!(rt; is_name(text.as_bytes()));
    match names.add(text.as_bytes(), most) {
        Ok(number) => Some(number),
        Err(fault) => {
            assert!(rt; matches!(fault, NamesFault::Full));
            None
        }
    }
}

/// The follower that was noted last is given, if it is a name and came after one. There are four names.
fn check_followers(rt: &impl Abort, names: &mut Names, turn: Turn) {
    for (before, number, want) in [
        (1, 2, Some(2)),
        (1, 3, Some(3)),
        (1, 4, None),
        (3, 0, Some(0)),
        (4, 1, None),
        (u32::MAX, 1, None),
    ] {
        names.note_follower(before, turn, number);
        assert!(rt; names.follower(before, turn) == want);
    }
}

#[test]
fn followers(rt: HostRuntime) {
    let mut names = Names::new(rt.alloc());
    for (text, want) in [("b", 0), ("a", 1), ("b", 0), ("a.c", 2), ("B", 3), ("a", 1)] {
        assert!(rt; added(&rt, &mut names, text, 9) == Some(want));
    }
    check_followers(&rt, &mut names, Turn::First);
    assert!(rt; names.follower(3, Turn::Next).is_none());
    check_followers(&rt, &mut names, Turn::Next);
}

/// If only two names are allowed, a third is a fault, and the two are still found.
#[test]
fn two_names(rt: HostRuntime) {
    let mut names = Names::new(rt.alloc());
    for (text, most, want) in [
        ("a", 2, Some(0)),
        ("b", 2, Some(1)),
        ("a", 2, Some(0)),
        ("b", 1, Some(1)),
        ("c", 2, None),
        ("c", 3, Some(2)),
    ] {
        assert!(rt; added(&rt, &mut names, text, most) == want);
    }
}
