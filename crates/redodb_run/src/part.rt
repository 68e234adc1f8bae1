ghost use Rattle.std.specs.Prelude.{◌≡◌, ◌<◌, ◌≤◌, ◌+◌, ◌^◌, ◌++◌, ◌∷◌, ◌||◌, List, [], true, not, drop, length, map, IfOk, OnOk, slice_index_or};
ghost use Rattle.std.specs.List.{flat_map};
ghost use Rattle.redodb_model.specs.History as histories;
ghost use Rattle.redodb_model.specs.Names.{Text};
ghost use Rattle.redodb_model.specs.Renaming.{IsBelow, IsReplyBelow, IsLineBelow};
ghost use Rattle.redodb_commands.specs.Meaning.{command_of, reply_of, line_of, line_at, reply_at};
ghost use Rattle.redodb_commands.specs.Support.Meaning.{item_at};
ghost use Rattle.redodb_journal.specs.Plans.{AreBelow};
ghost use Rattle.redodb_history.specs.Histories.{ended, answer_text_of};
ghost use Rattle.redodb_run.specs.RunTexts.{done_text_of, skipped_text_of, session_lines_of, session_header_of, session_text_of};
ghost use Rattle.redodb_run.specs.Support.Printed.{skipped_lines_of, IsBlank, IsPrinted};

use redodb_commands::{Item, Line, Reply};
use redodb_history::{put_number, put_session};
use redodb_names::Names;
use redodb_text::{put_item, put_reply};
use std::alloc::{AllocError, Global};

/// Most lines have fewer bytes: memory is reserved for as many.
const LINE_BYTES: usize = 48;

/// An empty text, with memory for lines of the usual length.
pub(crate) fn blank_text(alloc: Global, lines: usize) -> Result<Vec<u8>, AllocError>
    ensures { IfOk result (λ text. text.items ≡ []) }
{
    Vec::with_capacity(alloc, lines.saturating_mul(LINE_BYTES))
}

/// Prints a line of a script that was not done.
fn put_skipped(
    alloc: Global,
    text: &mut Vec<u8>,
    item: &Item,
    names: &Names,
) -> Result<(), AllocError>
    requires { IsBelow (length names.now) (command_of item.now.command) }
    ensures { OnOk result (text.new.items
        ≡ text.old.items ++ ended (skipped_text_of (item_at names.now item.now))) }
{
    put_item(alloc, text, item, names)?;
    text.extend_from_slice(b" => skipped\n")?;
    Ok(())
}

/// Prints the lines of a script from here on, which were not done.
fn put_rest(
    alloc: Global,
    text: &mut Vec<u8>,
    items: &[Item],
    from: usize,
    names: &Names,
) -> Result<(), AllocError>
    requires { AreBelow (length names.now) items.now }
    ensures { OnOk result (text.new.items ≡ text.old.items
        ++ flat_map ended (skipped_lines_of (drop from (map (item_at names.now) items.now)))) }
{
    for at in from..items.len() {
        put_skipped(alloc, text, &items[at], names)?;
    }
    Ok(())
}

/// Prints a line of a script with a reply.
fn put_replied(
    alloc: Global,
    text: &mut Vec<u8>,
    item: &Item,
    reply: &Reply,
    names: &Names,
) -> Result<(), AllocError>
    requires item { IsBelow (length names.now) (command_of item.now.command) }
    requires reply { IsReplyBelow (length names.now) (reply_of reply.now) }
    ensures { OnOk result (text.new.items ≡ text.old.items
        ++ ended (done_text_of (item_at names.now item.now) (reply_at names.now reply.now))) }
{
    put_item(alloc, text, item, names)?;
    text.extend_from_slice(b" => ")?;
    put_reply(alloc, text, reply, names)?;
    text.push(b'\n')?;
    Ok(())
}

/// Prints a line of a script that was done at this line of the history, whose command and reply
/// are printed already: they are copied.
fn put_done(
    alloc: Global,
    text: &mut Vec<u8>,
    item: &Item,
    line: &Line,
    answer: &[u8],
    names: &Names,
) -> Result<(), AllocError>
    requires item { IsBelow (length names.now) (command_of item.now.command) }
    requires line { IsLineBelow (length names.now) (line_of line.now) }
    requires answer { answer.now ≡ ended (answer_text_of (line_at names.now line.now)) }
    ensures { OnOk result (text.new.items ≡ text.old.items
        ++ ended (done_text_of (item_at names.now item.now) (reply_at names.now line.now.reply))) }
{
    // The history of a run has the commands of its scripts, so no run gets here.
    if !item.command.is_same(&line.command) {
        return put_replied(alloc, text, item, &line.reply, names);
    }
    if item.guarded {
        text.extend_from_slice(b"? ")?;
    }
    text.extend_from_slice(answer)
}

/// Prints a session's header: how many lines it has.
fn put_header(text: &mut Vec<u8>, session: u8, count: usize) -> Result<(), AllocError>
    ensures { OnOk result (text.new.items ≡ text.old.items ++ session_header_of session count) }
{
    text.extend_from_slice(b"session ")?;
    put_session(text, session as u16)?;
    put_number(text, count)?;
    text.push(b'\n')?;
    Ok(())
}

/// What is printed of a session so far.
#[derive(Drop)]
pub(crate) struct Part {
    /// How many lines of its script are printed.
    next: usize,
    /// Whether its latest reply lets a guarded line through.
    through: bool,
    /// How many closing lines are printed after those of its script.
    closing: usize,
    /// The lines that are printed.
    body: Vec<u8>,
}

impl Part {
    /// Nothing is printed of a script with so many lines.
    pub(crate) fn new(alloc: Global, lines: usize) -> Result<Part, AllocError>
        ensures { IfOk result IsBlank }
    {
        let body = blank_text(alloc, lines)?;
        Ok(Part {
            next: 0,
            through: true,
            closing: 0,
            body,
        })
    }

    /// Prints the lines of the script that come before the next one to be done.
    fn skip(&mut self, alloc: Global, items: &[Item], names: &Names) -> Result<(), AllocError>
        requires items { AreBelow (length names.now) items.now }
        ensures printed { OnOk result
            ((all : List Text) (line : histories.Line Text) (later : List (histories.Line Text))
            → IsPrinted (map (item_at names.now) items.now) all self.old (line ∷ later)
            → IsPrinted (map (item_at names.now) items.now) all self.new (line ∷ later)) }
        ensures done { OnOk result ((item : Item) → self.new.next < length items.now
            → item ≡ slice_index_or items.now self.new.next item
            → (self.new.through || not item.guarded) ≡ true) }
        ensures closing { OnOk result (self.new.closing ≡ self.old.closing) }
    {
        for at in self.next..items.len() {
            let item = &items[at];
            if self.through || !item.guarded {
                return Ok(());
            }
            put_skipped(alloc, &mut self.body, item, names)?;
            self.next = at + 1;
        }
        Ok(())
    }

    /// Prints the session's next line. Its command and reply are printed already: they are copied.
    pub(crate) fn put(
        &mut self,
        alloc: Global,
        items: &[Item],
        line: &Line,
        answer: &[u8],
        names: &Names,
    ) -> Result<(), AllocError>
        requires items { AreBelow (length names.now) items.now }
        requires line { IsLineBelow (length names.now) (line_of line.now) }
        requires answer { answer.now ≡ ended (answer_text_of (line_at names.now line.now)) }
        requires few { self.old.closing + 1 < 2 ^ 64 }
        ensures printed { OnOk result ((all : List Text) (later : List (histories.Line Text))
            → IsPrinted (map (item_at names.now) items.now) all self.old
            (line_at names.now line.now ∷ later)
            → IsPrinted (map (item_at names.now) items.now) all self.new later) }
        ensures few { OnOk result (self.new.closing ≤ self.old.closing + 1) }
    {
        self.skip(alloc, items, names)?;
        if self.next >= items.len() {
            self.body.extend_from_slice(answer)?;
            self.closing += 1;
            return Ok(());
        }
        let item = &items[self.next];
        put_done(alloc, &mut self.body, item, line, answer, names)?;
        self.next += 1;
        self.through = line.reply.lets_through();
        Ok(())
    }

    /// Adds to a text the session's header, the lines that are printed, and the others of its
    /// script: these were not done.
    pub(crate) fn put_all(
        &self,
        alloc: Global,
        text: &mut Vec<u8>,
        session: u8,
        items: &[Item],
        names: &Names,
    ) -> Result<(), AllocError>
        requires items { AreBelow (length names.now) items.now }
        requires few { self.now.closing < 2 ^ 63 }
        ensures { OnOk result ((lines : List (histories.Line Text))
            → IsPrinted (map (item_at names.now) items.now)
            (session_lines_of true (map (item_at names.now) items.now) lines) self.now []
            → text.new.items ≡ text.old.items
            ++ session_text_of session (map (item_at names.now) items.now) lines) }
    {
        put_header(text, session, items.len() + self.closing)?;
        text.extend_from_slice(&self.body)?;
        put_rest(alloc, text, items, self.next, names)?;
        Ok(())
    }
}
