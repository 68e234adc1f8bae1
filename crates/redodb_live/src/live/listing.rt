//! What is known of all names, in one line. Looking changes nothing.
ghost use Rattle.std.specs.Prelude.{◌≡◌, ◌≤◌, ◌+◌, ◌++◌, length, IfErr, OnOk, OnErr};
ghost use Rattle.std.specs.List.{flat_map};
ghost use Rattle.redodb_text.specs.Texts.{after_space};
ghost use Rattle.redodb_live.specs.Answers.{known_words, names_line};
ghost use Rattle.redodb_live.specs.Support.LiveState.{state_in};
ghost use Rattle.redodb_live.specs.Support.AnswerFaults.{IsUnwrittenFor};

use crate::fault::AnswerFault;
use crate::known::put_cell;
use crate::live::Live;
use redodb_history::{put_count, put_number};
use redodb_text::put_word;
use std::alloc::{AllocError, Global};

impl Live {
    /// Answers a session what is known of all names but rows and locks: appends a line to `output`, if that has at most
    /// `most` bytes.
    pub fn list_names(
        &self,
        alloc: Global,
        session: u16,
        most: usize,
        output: &mut Vec<u8>,
    ) -> Result<(), AnswerFault>
        ensures answered { OnOk result (output.new.items
            ≡ output.old.items ++ names_line session self.now.names (state_in self.now)) }
        ensures fits { OnOk result
            (length output.new.items ≤ length output.old.items + most) }
        ensures cause { IfErr result
            (IsUnwrittenFor (names_line session self.now.names (state_in self.now)) most) }
        ensures unwritten { OnErr result (output.new.items ≡ output.old.items) }
    {
        let mut line = Vec::new(alloc);
        put_number(&mut line, session as usize + 1)?;
        put_word(&mut line, b"names")?;
        put_word(&mut line, b"=>")?;
        put_count(&mut line, self.names.len() as usize)?;
        self.put_all(&mut line)?;
        line.extend_from_slice(b"\n")?;
        let size = line.len();
        if size > most {
            return Err(AnswerFault::TooLong(size));
        }
        output.extend_from_slice(&line)?;
        Ok(())
    }

    /// Writes what is known of each name, in the order of their numbers.
    fn put_all(&self, line: &mut Vec<u8>) -> Result<(), AllocError>
        ensures { OnOk result (line.new.items ≡ line.old.items
            ++ flat_map after_space (flat_map (known_words (state_in self.now)) self.now.names)) }
    {
        for n in 0..self.names.len() {
            put_cell(line, self.names.text(n), &self.cell(n))?;
        }
        Ok(())
    }
}
