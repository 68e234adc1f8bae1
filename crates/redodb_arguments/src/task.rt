use std::slice;

/// What the words mean.
#[derive(Debug, Drop)]
pub enum Job {
    /// One session, from standard input.
    Input,
    /// One session for each file, in this order.
    Run(Vec<String>),
    /// The replay of the history in this file.
    Replay(String),
}

impl Job {
    ghost use Rattle.std.specs.Prelude.{◌≡◌};
    ghost use Rattle.redodb_arguments.specs.Support.Words.{files_of};

    /// The files that it reads.
    pub fn files(&self) -> &[String]
        ensures { result.now ≡ files_of self.now }
    {
        match self {
            Job::Input => &[],
            Job::Run(files) => files,
            Job::Replay(file) => slice::from_ref(file),
        }
    }
}

/// The log of a conversation.
#[derive(Debug, Drop)]
pub struct LogFile {
    pub name: String,
    /// Whether each line is synced to the disk before its answer.
    pub sync: bool,
    /// Whether it is cut if it is damaged.
    pub salvage: bool,
    /// Whether a dump takes the place of its lines in any case.
    pub compact: bool,
    /// Whether no dump ever takes their place. It isn't asked together with `compact`.
    pub whole: bool,
}

/// A log, and the new file that gets a dump of what is known after it.
#[derive(Debug, Drop)]
pub struct Backup {
    pub log: String,
    pub copy: String,
}

/// What the words of `redodb-live` mean.
#[derive(Debug, Drop)]
pub enum LiveJob {
    /// A conversation, with its log if it has one.
    Talk(Option<LogFile>),
    /// A backup of a log.
    BackUp(Backup),
}
