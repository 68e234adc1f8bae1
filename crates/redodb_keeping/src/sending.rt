ghost use Rattle.std.specs.Prelude.{◌≡◌, ◌⊎◌, ◌+◌, ◌<◌, ◌≤◌, ◌++◌, ◌↔◌, [], true, OnOk, OnErr, IfErr, decimal, length};
ghost use Rattle.redodb_live.specs.Support.AnswerFaults.{IsUnwrittenFor};
ghost use Rattle.redodb_keeping.specs.Rounds.{fault_text_of};
ghost use Rattle.redodb_keeping.specs.Support.Sending.{IsKeptBack, IsSent, IsSentInPart, IsFaultSentInPart, IsSendCause, sent_after};

use crate::fault::{Refusal, ServeFault};
use arrayvec::ArrayVec;
use itoa::Buffer;
use redodb_live::AnswerFault;
use redodb_log::Devices;
use std::alloc::Global;

/// The line of a fault: a number of five digits, ` fault `, the longest word and an LF fit in it.
type FaultLine = ArrayVec<u8, 40>;

/// More bytes than these are sent without waiting for more.
const MANY: usize = 65_536;

/// The answers that aren't sent yet, and their log lines.
#[derive(Debug, Drop)]
pub struct Unsent {
    pub output: Vec<u8>,
    pub logged: Vec<u8>,
    /// How many bytes came to the log since these were counted last.
    pub appended: usize,
}

impl Unsent {
    /// Nothing. Allocates nothing.
    pub fn new(alloc: Global) -> Unsent
        ensures output { result.output.items ≡ [] }
        ensures logged { result.logged.items ≡ [] }
    {
        Unsent {
            output: Vec::new(alloc),
            logged: Vec::new(alloc),
            appended: 0,
        }
    }

    /// Whether there is so much that it is sent without waiting for more.
    pub fn is_much(&self) -> bool
        ensures { (result ≡ true) ↔ ((65536 < length self.now.output.items)
            ⊎ (65536 < length self.now.logged.items)) }
    {
        self.output.len() > MANY || self.logged.len() > MANY
    }

    fn clear(&mut self)
        ensures output { self.new.output.items ≡ [] }
        ensures logged { self.new.logged.items ≡ [] }
    {
        self.output.clear();
        self.logged.clear();
    }
}

/// Appends bytes to the log, and then writes others to the output; between these the log is synced, if that is asked.
/// Allocates nothing.
fn put<D: Devices>(
    sync: bool,
    logged: &[u8],
    output: &[u8],
    devices: &mut D,
) -> Result<(), ServeFault>
    ensures sent { OnOk result (D.history devices.new
        ≡ sent_after sync logged.now output.now (D.history devices.old)) }
    ensures part { OnErr result (IsSentInPart sync logged.now output.now
        (D.history devices.old) (D.history devices.new)) }
    ensures cause { IfErr result (IsSendCause (D.history devices.new)) }
{
    devices.append(logged)?;
    if sync {
        devices.sync()?;
    }
    devices.write(output)?;
    Ok(())
}

/// Sends what waits. Allocates nothing.
pub fn send<D: Devices>(sync: bool, unsent: &mut Unsent, devices: &mut D) -> Result<(), ServeFault>
    ensures sent { OnOk result (D.history devices.new ≡ sent_after sync
        unsent.old.logged.items unsent.old.output.items (D.history devices.old)) }
    ensures none_output { OnOk result (unsent.new.output.items ≡ []) }
    ensures none_logged { OnOk result (unsent.new.logged.items ≡ []) }
    ensures part { OnErr result (IsSentInPart sync
        unsent.old.logged.items unsent.old.output.items (D.history devices.old)
        (D.history devices.new)) }
    ensures cause { IfErr result (IsSendCause (D.history devices.new)) }
{
    put(sync, &unsent.logged, &unsent.output, devices)?;
    unsent.appended = unsent.appended.saturating_add(unsent.logged.len());
    unsent.clear();
    Ok(())
}

/// Appends the bytes. Allocates nothing.
fn add(line: &mut FaultLine, bytes: &[u8])
    requires { length line.old.items + length bytes.now ≤ 40 }
    ensures { line.new.items ≡ line.old.items ++ bytes.now }
{
    let _ = line.try_extend_from_slice(bytes);
}

/// The line of a fault. Allocates nothing.
fn fault_line(fault: Refusal) -> FaultLine
    requires { length fault.word.now ≤ 20 }
    ensures { result.items ≡ fault_text_of (decimal fault.number) fault.word.now }
{
    let mut digits = Buffer::new();
    let mut line = ArrayVec::new();
    add(&mut line, digits.format(fault.number).as_bytes());
    add(&mut line, b" fault ");
    add(&mut line, fault.word.as_bytes());
    add(&mut line, b"\n");
    line
}

/// Appends the line of a fault, if it has at most `most` bytes.
pub fn put_fault(fault: Refusal, most: usize, output: &mut Vec<u8>) -> Result<(), AnswerFault>
    requires { length fault.word.now ≤ 20 }
    ensures answered { OnOk result (output.new.items
        ≡ output.old.items ++ fault_text_of (decimal fault.number) fault.word.now) }
    ensures fits { OnOk result
        (length output.new.items ≤ length output.old.items + most) }
    ensures cause { IfErr result
        (IsUnwrittenFor (fault_text_of (decimal fault.number) fault.word.now) most) }
    ensures unwritten { OnErr result (output.new.items ≡ output.old.items) }
{
    let line = fault_line(fault);
    let size = line.len();
    if size > most {
        return Err(AnswerFault::TooLong(size));
    }
    output.extend_from_slice(&line)?;
    Ok(())
}

/// Answers a fault: appends it to what waits if memory suffices, else writes it after that was sent.
pub fn send_fault<D: Devices>(
    fault: Refusal,
    sync: bool,
    unsent: &mut Unsent,
    devices: &mut D,
) -> Result<(), ServeFault>
    requires { length fault.word.now ≤ 20 }
    ensures answered { OnOk result (IsKeptBack (D.history devices.old) (D.history devices.new)
        unsent.old.logged.items unsent.new.logged.items
        unsent.old.output.items unsent.new.output.items
        (fault_text_of (decimal fault.number) fault.word.now)
        ⊎ IsSent sync (D.history devices.old) (D.history devices.new)
        unsent.old.logged.items unsent.new.logged.items
        unsent.old.output.items unsent.new.output.items
        (fault_text_of (decimal fault.number) fault.word.now)) }
    ensures part { OnErr result (IsFaultSentInPart sync
        unsent.old.logged.items unsent.old.output.items
        (fault_text_of (decimal fault.number) fault.word.now)
        (D.history devices.old) (D.history devices.new)) }
    ensures cause { IfErr result (IsSendCause (D.history devices.new)) }
{
    let line = fault_line(fault);
    if unsent.output.extend_from_slice(&line).is_ok() {
        return Ok(());
    }
    send(sync, unsent, devices)?;
    put(sync, &[], &line, devices)
}
