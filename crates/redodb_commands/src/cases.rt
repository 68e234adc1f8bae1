/// The table of the commands, a row for each. The macro `$then` gets the arguments in brackets, and then the rows.
///
/// A row has, in this order:
///
/// - the case of `Command` and of `Kind`, with a name for each field of the command;
/// - the word that a line of it begins with;
/// - - what it needs, in the order of the tests, each need with its refusal: `held`, the session holds the target's
///   lock; `resting`, nobody builds the target; `own_build`, the session builds it; `others`, the target is not among
///   the names after it; `missing`, none of these has a file;
/// - - the reply if it is accepted: `okay`; `grant`, whether the session gets the lock, and the number of the grant;
///   `stale`, which of the names after the target are stale, if any; `digest`, that of the content; `ood`, the targets
///   that have a file and are out of date; `targets`, those that have a file; `sources`, the sources;
/// - - what it then changes: `set_file` and `clear_file` the name's file; `start`, `stamp`, `done` and `failed` the
///   target's build; `put_changes` and `put_created` its rows on the names after it; `put_always` its always row;
///   `nothing`.
#[macro_export]
macro_rules! cases {
    ($then:ident $($args:tt)*) => {
        $then! {
            [$($args)*]
            (File(n, stamp), b"file", [], okay, set_file)
            (Gone(n), b"gone", [], okay, clear_file)
            (Lock(t), b"lock", [], grant, nothing)
            (Unlock(t), b"unlock", [held NotLocked, resting Building], okay, nothing)
            (Start(t), b"start", [held NotLocked, resting Building], okay, start)
            (IfChange(t, names), b"ifchange",
                [own_build NotBuilding, others Itself], stale, put_changes)
            (IfCreate(t, names), b"ifcreate",
                [own_build NotBuilding, others Itself, missing Exists], okay, put_created)
            (Always(t), b"always", [own_build NotBuilding], okay, put_always)
            (Stamp(t, content), b"stamp", [own_build NotBuilding], digest, stamp)
            (Done(t, stamp), b"done", [own_build NotBuilding], okay, done)
            (Failed(t), b"failed", [own_build NotBuilding], okay, failed)
            (Ood, b"ood", [], ood, nothing)
            (Targets, b"targets", [], targets, nothing)
            (Sources, b"sources", [], sources, nothing)
        }
    };
}
