//! What the library exports. Callers see to what a call needs in addition to its clauses: that pointers and lengths are
//! those of memory that nobody else uses meanwhile.
ghost use Rattle.std.specs.Prelude.{◌≡◌};
ghost use Rattle.std.specs.Mem.{type_size};
ghost use Rattle.redodb_c.specs.Calls.{AnswersAt, Opens, Restores};
ghost use Rattle.redodb_c.specs.contracts.contents.Contents.{the_row};
ghost use Rattle.redodb_c.specs.declared.contents.Contents.TheVariants.{Closed};

use crate::answering::{AnswerSizes, answer};
use crate::contents::{Contents, Opened};
use crate::handle::Handle;
use crate::status::{DIFFERS, MEMORY, MISUSE, OK, WORN};
use redodb_live::Live;
use redodb_log::{RestoreFault, Restored, restore};
use std::alloc::Global;
use std::mem::size_of;

/// How many bytes of memory the caller gives a handle.
#[unsafe(no_mangle)]
pub extern "C" fn redodb_c_room() -> usize
    ensures { result ≡ type_size the_row }
{
    size_of::<Contents>()
}

/// Opens an empty database.
#[unsafe(no_mangle)]
pub extern "C" fn redodb_c_open(alloc: Global, handle: &mut Handle) -> u32
    ensures { Opens result handle.old.contents handle.new.contents }
{
    let Ok(live) = Live::new(alloc) else {
        return MEMORY;
    };
    match Opened::new(alloc, live) {
        Ok(opened) => {
            handle.replace(Contents::Open(opened));
            OK
        }
        Err(_) => MEMORY,
    }
}

/// What was restored of a log, or comes before the line that differs.
#[repr(C)]
#[derive(Debug)]
pub struct Counts {
    pub lines: usize,
    pub bytes: usize,
    /// The number of the line that differs, else 0.
    pub line: usize,
}

/// Opens a database in the state after a log's lines.
#[unsafe(no_mangle)]
pub extern "C" fn redodb_c_restore(
    alloc: Global,
    handle: &mut Handle,
    log: &[u8],
    counts: &mut Counts,
) -> u32
    ensures { Restores result handle.old.contents handle.new.contents log.now counts.new }
{
    match restore(alloc, log) {
        Ok(
            Restored {
                live,
                lines,
                bytes,
                ..
            },
        ) => match Opened::new(alloc, live) {
            Ok(opened) => {
                counts.lines = lines;
                counts.bytes = bytes;
                counts.line = 0;
                handle.replace(Contents::Open(opened));
                OK
            }
            Err(_) => MEMORY,
        },
        Err(RestoreFault::Memory) => MEMORY,
        Err(RestoreFault::Worn) => WORN,
        Err(RestoreFault::State { line }) => {
            counts.lines = 0;
            counts.bytes = 0;
            counts.line = line;
            DIFFERS
        }
        Err(RestoreFault::Differs { line, lines, bytes }) => {
            counts.lines = lines;
            counts.bytes = bytes;
            counts.line = line;
            DIFFERS
        }
    }
}

/// Answers a line into the buffer.
#[unsafe(no_mangle)]
pub extern "C" fn redodb_c_answer(
    alloc: Global,
    handle: &mut Handle,
    line: &[u8],
    room: &mut [u8],
    sizes: &mut AnswerSizes,
) -> u32
    ensures { AnswersAt result handle.old.contents handle.new.contents line.now
        room.old room.new sizes.new }
{
    let Contents::Open(mut opened) = handle.replace(Contents::Closed) else {
        return MISUSE;
    };
    let status = answer(alloc, &mut opened, line, room, sizes);
    handle.replace(Contents::Open(opened));
    status
}

/// Closes the database, if one is open.
#[unsafe(no_mangle)]
pub extern "C" fn redodb_c_close(handle: &mut Handle)
    ensures { handle.new.contents ≡ Closed }
{
    handle.replace(Contents::Closed);
}
