use std::mem::size_of;

/// What an `ifchange` or `ifcreate` lists: the places of its pairs, which a graph has from `from` on.
#[derive(Clone, Copy, Debug)]
pub struct Listed {
    pub from: u32,
    /// How many names there are.
    pub len: u32,
    /// Whether the target is among them.
    pub itself: bool,
}

/// A line of a plan, or a closing `failed`. The first number is its target or name; stamps and digests are numbers of
/// the graph.
#[derive(Clone, Copy, Debug)]
pub enum Step {
    File(u32, u32),
    Gone(u32),
    Lock(u32),
    Unlock(u32),
    Start(u32),
    IfChange(u32, Listed),
    IfCreate(u32, Listed),
    Always(u32),
    Stamp(u32, u32),
    Done(u32, Option<u32>),
    Failed(u32),
    Ood,
    Targets,
    Sources,
}

// A plan has up to 262,144 lines.
const _: () = prove!(size_of::<Step>() <= 20);
