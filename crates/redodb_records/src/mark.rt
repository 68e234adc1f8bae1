ghost use Rattle.std.specs.Prelude.{◌≡◌};
ghost use Rattle.redodb_model.specs.State as states;

use redodb_commands::FileStamp;

/// What a change row records of a name.
#[derive(Clone, Copy, Debug, PartialEq, Eq)]
pub enum Mark {
    /// It is built, and its build stamped content with this digest.
    Digest([u8; 20]),
    /// It is built, and its build stamped no content: how often it was built.
    Builds(u32),
    /// It is being built, or its last build failed.
    Pending,
    /// It is no target, and its file has this stamp.
    File(FileStamp),
    /// It is no target, and has no file.
    Absent,
}

impl Mark {
    ghost use Rattle.redodb_records.specs.Meaning.{row_mark_of};

    /// The mark of an idle name.
    pub(crate) fn of_file(file: Option<FileStamp>) -> Mark
        ensures { row_mark_of result ≡ states.file_mark file }
    {
        match file {
            Some(stamp) => Mark::File(stamp),
            None => Mark::Absent,
        }
    }

    /// The mark of a target that is built.
    pub(crate) fn of_build(digest: Option<[u8; 20]>, builds: u32) -> Mark
        ensures { row_mark_of result ≡ states.build_mark digest builds }
    {
        match digest {
            Some(digest) => Mark::Digest(digest),
            None => Mark::Builds(builds),
        }
    }
}
