/// What a change row records of a name. Stamps and digests are numbers of tables, so equal numbers are equal marks.
#[derive(Clone, Copy, Debug, PartialEq, Eq)]
pub enum Mark {
    /// It is no target, and has no file.
    Absent,
    /// It is being built, or its last build failed.
    Pending,
    /// It is no target, and its file has this stamp.
    File(u32),
    /// It is built, and its build stamped content with this digest.
    Digest(u32),
    /// It is built, and its build stamped no content: how often it was built.
    Builds(u32),
}
