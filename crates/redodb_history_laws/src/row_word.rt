//! What the word of a board's row says.

ghost use Rattle.std.specs.Prelude.{◌≡◌, ◌<◌};
ghost use Rattle.redodb_history_laws.specs.RowWord.{decoded, encoded, session_of};

/// The command of a row, and the session that did it.
#[derive(Clone, Copy, Debug, PartialEq, Eq)]
pub enum RowWord {
    /// A line of the session's script, and whether the session held its target before.
    Line {
        session: u8,
        number: u32,
        holds: bool,
    },
    /// A closing `failed`.
    Closing {
        session: u8,
        target: u32,
    },
}

/// The words of closing commands are at least this.
const CLOSING: u64 = 4294967296;

impl RowWord {
    /// The number that is written into the row.
    pub fn encode(self) -> u64
        ensures { result ≡ encoded self }
    {
        match self {
            RowWord::Line {
                session,
                number,
                holds,
            } => 1 + 2 * (4096 * session as u64 + number as u64) + holds as u64,
            RowWord::Closing { session, target } => {
                CLOSING + 65536 * session as u64 + target as u64
            }
        }
    }

    /// What the number of a filled row says.
    pub fn decode(word: u64) -> RowWord
        requires some { 0 < word }
        requires few { session_of (decoded word) < 64 }
        ensures { result ≡ decoded word }
    {
        if word >= CLOSING {
            let rest = word - CLOSING;
            return RowWord::Closing {
                session: (rest / 65536) as u8,
                target: (rest % 65536) as u32,
            };
        }
        let rest = word - 1;
        RowWord::Line {
            session: (rest / 8192) as u8,
            number: (rest / 2 % 4096) as u32,
            holds: rest % 2 == 1,
        }
    }
}
