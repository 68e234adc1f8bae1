// Laws of command lines, session files and the texts of replies.
ghost use Rattle.std.specs.Prelude.{◌≡◌, ◌≤◌, ◌⊎◌, ℕ, List, [], ◌∷◌, length, None};
ghost use Rattle.redodb_model.specs.Names.{Text};
ghost use Rattle.redodb_model.specs.Command.{Command, Item};
ghost use Rattle.redodb_model.specs.Reply.{Reply};
ghost use Rattle.redodb_text.specs.Texts.{command_text_of, item_text_of, reply_text_of};
ghost use Rattle.redodb_text.specs.Grammar.{HasForm, IsShort, IsCommandLine, IsScript, AddsNames};
ghost use Rattle.redodb_text.specs.Questions.{line_fault};
ghost use Rattle.redodb_text.specs.Faults.{IsFirstFault};
ghost use Rattle.redodb_text.specs.Support.Faults.{IsReadFault};
ghost use Rattle.redodb_text.specs.declared.fault.LineFault.{LineFault};
ghost use Rattle.redodb_text.specs.declared.fault.ReadFault.{ReadFault};
ghost use Rattle.redodb_text.specs.Replies.{HasReplyForm, IsReplyText};

/// The text of a command is a line of that command, if it is not too long.
pub fn command_reads_back()
    ensures { (command : Command Text) → HasForm command → IsShort (command_text_of command)
        → IsCommandLine (command_text_of command) command }
{}

/// The text of a line of a script, as a file of one line, is the session file of that line alone,
/// if it is not too long and its names fit.
pub fn line_reads_back()
    ensures { (names : List Text) (item : Item Text) (after : List Text) → HasForm item.command
        → IsShort (item_text_of item) → AddsNames 65536 names (item.command ∷ []) after
        → IsScript names (item_text_of item) (item ∷ []) after }
{}

/// A line is the line of at most one command.
pub fn one_command_a_line()
    ensures { (line : Text) (a b : Command Text) → IsCommandLine line a → IsCommandLine line b
        → a ≡ b }
{}

/// The text of a reply is that reply's.
pub fn reply_reads_back()
    ensures { (reply : Reply Text) → HasReplyForm reply → IsReplyText (reply_text_of reply) reply }
{}

/// A text is the text of at most one reply.
pub fn one_reply_a_text()
    ensures { (text : Text) (a b : Reply Text) → IsReplyText text a → IsReplyText text b → a ≡ b }
{}

/// With the same names before, a text is the session file of at most one list of items, and
/// leaves one list of names.
pub fn one_script()
    ensures { (names : List Text) (text : Text) (a b : List (Item Text)) (n m : List Text)
        → IsScript names text a n → IsScript names text b m → (a ≡ b) × (n ≡ m) }
{}

/// A session file has no fault but `Memory`.
pub fn no_read_fault()
    ensures { (names : List Text) (text : Text) (items : List (Item Text))
        (after : List Text) (fault : ReadFault) → IsScript names text items after
        → IsReadFault names text fault → fault ≡ ReadFault.Memory }
{}

/// A line is a command's whose names fit, or it has a fault, and never both.
pub fn fault_or_command()
    ensures command { (most : ℕ) (names : List Text) (line : Text)
        → line_fault most names line ≡ None
        → (command : Command Text) × (after : List Text)
        × IsCommandLine line command × AddsNames most names (command ∷ []) after }
    ensures fault { (most : ℕ) (names : List Text) (line : Text) (command : Command Text)
        (after : List Text)
        → IsCommandLine line command → AddsNames most names (command ∷ []) after
        → line_fault most names line ≡ None }
{}

/// A text is a session file, or it has a first fault, and it has no two.
pub fn fault_or_script()
    ensures either { (names : List Text) (text : Text) → length names ≤ 65536
        → ((items : List (Item Text)) × (after : List Text) × IsScript names text items after)
        ⊎ ((number : ℕ) × (fault : LineFault) × IsFirstFault names text number fault) }
    ensures one { (names : List Text) (text : Text) (n m : ℕ) (a b : LineFault)
        → IsFirstFault names text n a → IsFirstFault names text m b → (n ≡ m) × (a ≡ b) }
{}
