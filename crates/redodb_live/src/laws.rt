//! Laws of the lines that answer questions, and of sessions that end.

ghost use Rattle.std.specs.Prelude.{◌≡◌, ℕ, ◌<◌, List, Contains, Some, None, true, false};
ghost use Rattle.redodb_names.specs.Names.{is_name};
ghost use Rattle.redodb_model.specs.Names.{Text};
ghost use Rattle.redodb_model.specs.State.{State, Building, is_building, target_state};
ghost use Rattle.redodb_live.specs.Answers.{Answer, answer_line};
ghost use Rattle.redodb_live.specs.Support.AnswerForms.{HasAnswerForm};
ghost use Rattle.redodb_live.specs.Support.Ended.{without_each};

/// A line gives at most one answer about at most one name to at most one session.
pub fn one_answer_a_line()
    ensures { (session other_session : ℕ) (name other_name : Text) (answer other : Answer)
        → session < 65536 → other_session < 65536
        → is_name name ≡ true → is_name other_name ≡ true
        → HasAnswerForm answer → HasAnswerForm other
        → answer_line session name answer ≡ answer_line other_session other_name other
        → (session ≡ other_session) × (name ≡ other_name) × (answer ≡ other) }
{}

/// When all sessions that hold or build something have ended, nothing is held, and nothing is being built.
pub fn ended_leave_nothing()
    ensures held { (sessions : List ℕ) (state : State Text) (t : Text)
        → ((s : ℕ) → state.locks.holder t ≡ Some s → Contains sessions s)
        → (without_each sessions state).locks.holder t ≡ None }
    ensures built { (sessions : List ℕ) (state : State Text) (t : Text)
        → ((s : ℕ) → target_state state.records t ≡ Building s → Contains sessions s)
        → is_building (target_state (without_each sessions state).records t) ≡ false }
{}
