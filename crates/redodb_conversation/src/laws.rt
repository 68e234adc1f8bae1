//! Laws of conversations.

ghost use Rattle.std.specs.Prelude.{◌≡◌, ◌⊎◌, ℕ, ◌<◌, ◌^◌, List, [], ◌++◌, Option, length, map};
ghost use Rattle.std.specs.List.{AllByRecursion};
ghost use Rattle.redodb_model.specs.Names.{Text, texts};
ghost use Rattle.redodb_model.specs.State.{empty};
ghost use Rattle.redodb_model.specs.History.{Line, left_by, part_of};
ghost use Rattle.redodb_history.specs.Histories.{history_text_of};
ghost use Rattle.redodb_history.specs.HistoryTexts.{IsHistory};
ghost use Rattle.redodb_live.specs.Lines.{names_after};
ghost use Rattle.redodb_log.specs.Operations.{Operation, held_after, written_by, IsAlways};
ghost use Rattle.redodb_keeping.specs.Rounds.{Round, AreRounds, received_in, lines_in};
ghost use Rattle.redodb_conversation.specs.Talks.{Former, IsConversation, IsTalk, lines_after};
ghost use Rattle.redodb_conversation.specs.Support.Laws.{Agree, AreFew, AreLoggedBy, AsksWhy, HasLed, HasSufficed, IsLogUpTo, RestoresFormer, RestoresAnswered, rounds_of};
ghost use Rattle.redodb_keeping.specs.Support.Steps.{Known, Inquiring};
ghost use Rattle.redodb_conversation.specs.declared.keeping.Keeping.{Keeping};

/// The lines of a conversation, from the first that its log ever had on, are a history: where they are few enough, so
/// is their text.
pub fn conversation_is_history()
    ensures { (keeping : Keeping) (version : Text) (former : Former) (rounds : List Round)
        (rest : Text) (input input_after : Option Text) (done : List Operation)
        → IsTalk keeping version former rounds rest input input_after done
        → AreFew (lines_after former rounds)
        → IsHistory (history_text_of (lines_after former rounds))
        (names_after (lines_after former rounds)) (lines_after former rounds) }
{}

/// A session's lines of the history are, in order, those of the rounds whose line names the session.
pub fn own_lines_in_order()
    ensures { (s : ℕ) (before : List (Line Text)) (rounds : List Round) → s < 65535
        → AreRounds before rounds → part_of s (lines_in rounds) ≡ lines_in (rounds_of s rounds) }
{}

/// The log of a conversation is a log whose past and lines leave the state that the conversation left: from it the next
/// one goes on, if memory and the counters suffice.
pub fn log_restores()
    ensures log { (keeping : Keeping) (version : Text) (former : Former) (rounds : List Round)
        (rest : Text) (input input_after : Option Text) (done : List Operation)
        → IsConversation keeping version former rounds rest input input_after done
        → (lines : List (Line Text)) × AreLoggedBy former rounds lines
        × IsLogUpTo (held_after done).all lines [] }
    ensures state { (keeping : Keeping) (version : Text) (former : Former) (rounds : List Round)
        (rest : Text) (input input_after : Option Text) (done : List Operation)
        → IsTalk keeping version former rounds rest input input_after done
        → (lines : List (Line Text)) → AreLoggedBy former rounds lines
        → left_by texts empty lines ≡ left_by texts empty (lines_after former rounds) }
{}

/// At each moment a conversation can be cut off, and its log restored, or salvaged where it was damaged: with the past
/// and the lines that were restored before, and once answers are written with all that was logged for these.
pub fn log_is_always_one()
    ensures { (keeping : Keeping) (version : Text) (former : Former) (rounds : List Round)
        (rest : Text) (input input_after : Option Text) (done : List Operation)
        → IsTalk keeping version former rounds rest input input_after done
        → length (lines_after former rounds) < 2 ^ 32
        → IsAlways (λ now. RestoresFormer keeping.salvage former now
        ⊎ RestoresAnswered keeping.sync version former rounds now) done }
{}

/// What is received after a history determines what is done and answered, but for the answers that memory or the
/// counters ran out, and for the shortest chain that says why a name is out of date. So the bytes that are read
/// determine the bytes that are written, and with what the log begins with, and after how many rounds, the log.
pub fn conversation_is_determined()
    ensures agree { (before : List (Line Text)) (a b : List Round)
        → AreRounds before a → AreRounds before b
        → map (λ round. round.received) a ≡ map (λ round. round.received) b
        → AllByRecursion HasSufficed a → AllByRecursion HasSufficed b → Agree a b }
    ensures equal { (before : List (Line Text)) (a b : List Round)
        → AreRounds before a → AreRounds before b
        → map (λ round. round.received) a ≡ map (λ round. round.received) b
        → AllByRecursion HasSufficed a → AllByRecursion HasSufficed b
        → AllByRecursion (λ round. ¬ (AsksWhy round.received)) a → a ≡ b }
    ensures bytes { (version base second : Text) (m n : ℕ) (former : Former) (a b : List Round)
        (rest last : Text) (one other : List Operation) → HasLed version base m former a rest one
        → HasLed version second n former b last other
        → received_in a ++ rest ≡ received_in b ++ last
        → AllByRecursion HasSufficed a → AllByRecursion HasSufficed b
        → AllByRecursion (λ round. ¬ (AsksWhy round.received)) a
        → (written_by one ≡ written_by other)
        × (base ≡ second → m ≡ n → (held_after one).all ≡ (held_after other).all) }
{}

/// Questions with the same line as their answer are the same session's about the same name, and are answered the same.
pub fn answers_differ()
    ensures { (old new other_old other_new : Known) (a b : Round)
        → (one : Inquiring old new a) → (other : Inquiring other_old other_new b)
        → a.output ≡ b.output
        → (one.session ≡ other.session) × (one.name ≡ other.name)
        × (one.answers.is.answer ≡ other.answers.is.answer) }
{}
