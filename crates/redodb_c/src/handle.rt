ghost use Rattle.std.specs.Prelude.{◌≡◌};
ghost use Rattle.std.specs.Borrow.{full_share, sem};
ghost use Rattle.std.specs.Ptr.{lies_at, room_at};
ghost use Rattle.redodb_c.specs.contracts.contents.Contents.{the_row};
ghost use Rattle.redodb_c.specs.declared.contents.Contents.{Contents};
ghost use Rattle.redodb_c.specs.declared.contents.Contents.TheVariants.{Closed};

use crate::contents::Contents;
use std::marker::Model;

/// Where the caller's memory for a database begins, and its value.
#[repr(C)]
pub struct Handle {
    at: *mut u8,
    pub ghost contents: { Contents } by { the_row.coded },
}

impl Model for Handle {
    ghost also_owns = { λ h. lies_at the_row full_share h.at h.contents };
}

impl Handle {
    /// Puts a value there, and returns the old one.
    pub(crate) fn replace(&mut self, contents: Contents) -> Contents
        ensures { (result ≡ self.old.contents) × (self.new.contents ≡ contents) }
    {
        let at = self.at as *mut Contents;
        unsafe {
            let old = at.read();
            at.write(contents);
            old
        }
    }
}

/// Prepares the caller's memory for a handle: no database is open there.
#[unsafe(no_mangle)]
pub unsafe extern "C" fn redodb_c_place(at: *mut u8)
    requires* { sem 𝓛 (room_at the_row at) }
    ensures* { sem 𝓛 (lies_at the_row full_share at Closed) }
{
    let place = at as *mut Contents;
    place.write(Contents::Closed);
}
