//! What a stamp takes.
use redodb_commands::FileStamp;
use std::mem::size_of;

/// A stamp is 64 bytes and their number, and an optional one has no padding.
#[test]
fn size_of_a_stamp(rt: HostRuntime) {
    assert!(rt; size_of::<FileStamp>() == 65);
    assert!(rt; size_of::<Option<FileStamp>>() == 66);
}
