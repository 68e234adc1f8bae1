//! Laws: what the code's types hold has the form that is required of a dump's state.
ghost use Rattle.std.specs.Prelude.{◌≡◌, ◌<◌, IfSome, option_map};
ghost use Rattle.std.specs.List.{AllByRecursion};
ghost use Rattle.redodb_records.specs.Meaning.{row_mark_of};
ghost use Rattle.redodb_text.specs.Replies.{IsDigest};
ghost use Rattle.redodb_dump.specs.Dumps.{HasCellForm, HasMarkForm, IsStampOrNone};

use redodb_commands::FileStamp;
use redodb_records::{Cell, Mark, Slot};

/// Of a stamp, if there is one.
fn is_stamp_or_none(stamp: &Option<FileStamp>)
    ensures { IsStampOrNone stamp.now }
{
    if let Some(stamp) = stamp {
        let _ = stamp.bytes();
    }
}

fn are_bytes(bytes: &[u8])
    ensures { AllByRecursion (λ b. b < 256) bytes.now }
{
    let _length = bytes.len();
}

/// Of a digest.
fn is_digest(digest: &[u8; 20])
    ensures { IsDigest digest.now }
{
    let _bytes = *digest;
    are_bytes(digest);
}

fn is_digest_or_none(digest: Option<&[u8; 20]>)
    ensures { IfSome (option_map (λ bytes. bytes.now) digest.entry) IsDigest }
{
    if let Some(digest) = digest {
        is_digest(digest);
    }
}

/// Of a cell.
pub(crate) fn has_cell_form(cell: &Cell)
    ensures { HasCellForm cell.now }
{
    is_stamp_or_none(&cell.file());
    let _builds = cell.builds();
    is_stamp_or_none(&cell.last_done());
    is_digest_or_none(cell.digest_ref());
}

fn has_mark_form(mark: &Mark)
    ensures { HasMarkForm (row_mark_of mark.now) }
{
    match mark {
        Mark::File(stamp) => {
            let _bytes = stamp.bytes();
        }
        Mark::Digest(digest) => is_digest(digest),
        Mark::Builds(builds) => {
            let _builds = *builds;
        }
        Mark::Pending | Mark::Absent => {}
    }
}

/// Of the mark of a change row, if there is one.
pub(crate) fn has_change_form(slot: &Slot)
    ensures { IfSome slot.now.change HasMarkForm }
{
    if let Some(mark) = slot.change() {
        has_mark_form(&mark);
    }
}
