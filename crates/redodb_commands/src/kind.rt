/// The kind of a command: its case alone.
#[derive(Clone, Copy, Debug, PartialEq, Eq)]
pub enum Kind {
    File,
    Gone,
    Lock,
    Unlock,
    Start,
    IfChange,
    IfCreate,
    Always,
    Stamp,
    Done,
    Failed,
    Ood,
    Targets,
    Sources,
}
