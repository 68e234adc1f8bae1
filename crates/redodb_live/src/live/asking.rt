//! Questions about names. They change nothing, and a name that isn't known is idle.
ghost use Rattle.std.specs.Prelude.{◌≡◌, ◌++◌, length, option_map, IfOk, IfSome, IsNone, OnOk, OnErr};
ghost use Rattle.std.specs.List.{flat_map};
ghost use Rattle.redodb_names.specs.Support.Names.{AreNames};
ghost use Rattle.redodb_model.specs.Deps.{AreDeps};
ghost use Rattle.redodb_model.specs.Support.Deps.{AreDepsBelow};
ghost use Rattle.redodb_model.specs.Support.Unknown.{IsUnknown};
ghost use Rattle.redodb_model.specs.Users.{AreUsers};
ghost use Rattle.redodb_model.specs.Support.Users.{AreUsersBelow, IsUnused};
ghost use Rattle.redodb_model.specs.Why.{TellsWhy};
ghost use Rattle.redodb_model.specs.Support.Why.{IsWhyBelow};
ghost use Rattle.redodb_model.specs.Names.{Text, texts};
ghost use Rattle.redodb_model.specs.State.{target_state};
ghost use Rattle.redodb_database.specs.Meaning.{deps_of, users_of, why_of};
ghost use Rattle.redodb_text.specs.Texts.{after_space};
ghost use Rattle.redodb_live.specs.Answers.{Answer, IsAnswer, Rows, Standing, Uses, answer_words, inquiry_of, state_words};
ghost use Rattle.redodb_live.specs.Support.AnswerForms.{AnswersInForm, HasAnswerForm, HasWhyForm};
ghost use Rattle.redodb_live.specs.Support.Asked.{deps_at, users_at, why_at};
ghost use Rattle.redodb_live.specs.Support.LiveState.{IsNumberOf, state_in};

use crate::asked::{inquiry_word, put_deps, put_state, put_users, put_why};
use crate::live::Live;
use crate::ordering::sort;
use redodb_database::{Deps, Users, Why};
use redodb_history::put_number;
use redodb_records::State;
use redodb_text::{Inquiry, put_word};
use std::alloc::{AllocError, Global};

impl Live {
    /// Answers a session's question about a name: appends a line to `output`.
    pub fn ask(
        &mut self,
        alloc: Global,
        session: u16,
        inquiry: Inquiry,
        name: &[u8],
        output: &mut Vec<u8>,
    ) -> Result<(), AllocError>
        ensures kept { self.new ≡ self.old }
        ensures answered { OnOk result ((line : Text)
            × AnswersInForm (state_in self.old) session inquiry name.now line
            × (output.new.items ≡ output.old.items ++ line)) }
        ensures unwritten { OnErr result (output.new.items ≡ output.old.items) }
    {
        let mut line = self.take_line(alloc);
        line.clear();
        put_number(&mut line, session as usize + 1)?;
        put_word(&mut line, inquiry_word(inquiry))?;
        put_word(&mut line, name)?;
        put_word(&mut line, b"=>")?;
        self.put_answer(alloc, inquiry, name, &mut line)?;
        line.push(b'\n')?;
        output.extend_from_slice(&line)?;
        self.line = line;
        Ok(())
    }

    /// The number of a name of which something may be known.
    fn known_number(&self, name: &[u8]) -> Option<u32>
        ensures known { IfSome result (IsNumberOf self.now name.now) }
        ensures unknown { IsNone result → IsUnknown (state_in self.now) name.now }
        ensures unused { IsNone result → IsUnused (state_in self.now).records name.now }
        ensures names { AreNames self.now.names }
    {
        self.names.are_names();
        let number = self.names.number_of(name)?;
        if number < self.redo.count() {
            Some(number)
        } else {
            None
        }
    }

    /// Writes the words that answer the question.
    fn put_answer(
        &mut self,
        alloc: Global,
        inquiry: Inquiry,
        name: &[u8],
        line: &mut Vec<u8>,
    ) -> Result<(), AllocError>
        ensures kept { self.new ≡ self.old }
        ensures answer { OnOk result ((answer : Answer) × (inquiry_of answer ≡ inquiry)
            × IsAnswer (state_in self.old) name.now answer
            × HasAnswerForm answer × (line.new.items
            ≡ line.old.items ++ flat_map after_space (answer_words name.now answer))) }
    {
        match inquiry {
            Inquiry::Why => {
                let found = self.why(alloc, name)?;
                put_why(line, &self.names, name, &found)
            }
            Inquiry::Deps => {
                let deps = self.deps(alloc, name)?;
                put_deps(line, &self.names, &deps)
            }
            Inquiry::Users => {
                let users = self.users(alloc, name)?;
                put_users(line, &self.names, &users)
            }
            Inquiry::State => self.put_state(name, line),
        }
    }

    /// Why the target is out of date, if it is.
    fn why(&mut self, alloc: Global, name: &[u8]) -> Result<Option<Why>, AllocError>
        ensures kept { self.new ≡ self.old }
        ensures why { IfOk result (λ found. TellsWhy (state_in self.old).records name.now
            (option_map (why_at self.old.names) found)) }
        ensures below { IfOk result
            (λ found. IfSome found (λ why. IsWhyBelow (length self.old.names) (why_of why))) }
        ensures form { IfOk result
            (λ found. IfSome (option_map (why_at self.old.names) found) HasWhyForm) }
    {
        match self.known_number(name) {
            Some(t) => self.redo.why(alloc, t),
            None => Ok(None),
        }
    }

    /// On which names the target has rows, in the order of their texts.
    fn deps(&self, alloc: Global, name: &[u8]) -> Result<Deps, AllocError>
        ensures deps { IfOk result (λ deps. AreDeps texts (state_in self.now).records name.now
            (deps_at self.now.names deps)) }
        ensures below { IfOk result
            (λ deps. AreDepsBelow (length self.now.names) (deps_of deps)) }
        ensures form { IfOk result
            (λ deps. HasAnswerForm (Rows (deps_at self.now.names deps))) }
    {
        match self.known_number(name) {
            Some(t) => {
                let mut deps = self.redo.deps(alloc, t)?;
                sort(&self.names, &mut deps.change);
                sort(&self.names, &mut deps.created);
                Ok(deps)
            }
            None => Ok(Deps {
                change: Vec::new(alloc),
                created: Vec::new(alloc),
                always: false,
            }),
        }
    }

    /// Which targets have rows on the name, in the order of their texts.
    fn users(&self, alloc: Global, name: &[u8]) -> Result<Users, AllocError>
        ensures users { IfOk result (λ users. AreUsers texts (state_in self.now).records name.now
            (users_at self.now.names users)) }
        ensures below { IfOk result
            (λ users. AreUsersBelow (length self.now.names) (users_of users)) }
        ensures form { IfOk result
            (λ users. HasAnswerForm (Uses (users_at self.now.names users))) }
    {
        match self.known_number(name) {
            Some(n) => {
                let mut users = self.redo.users(alloc, n)?;
                sort(&self.names, &mut users.change);
                sort(&self.names, &mut users.created);
                Ok(users)
            }
            None => Ok(Users {
                change: Vec::new(alloc),
                created: Vec::new(alloc),
            }),
        }
    }

    /// Writes the words of the state of a name.
    fn put_state(&self, name: &[u8], line: &mut Vec<u8>) -> Result<(), AllocError>
        ensures words { OnOk result (line.new.items ≡ line.old.items ++ flat_map after_space
            (state_words (target_state (state_in self.now).records name.now)
            ((state_in self.now).locks.holder name.now)
            ((state_in self.now).records.cell name.now).file)) }
        ensures form { OnOk result (HasAnswerForm
            (Standing (target_state (state_in self.now).records name.now)
            ((state_in self.now).locks.holder name.now)
            ((state_in self.now).records.cell name.now).file)) }
    {
        match self.known_number(name) {
            Some(n) => put_state(
                line,
                self.redo.state(n),
                self.redo.holder(n),
                self.redo.file(n),
            ),
            None => put_state(line, State::Idle, None, None),
        }
    }
}
