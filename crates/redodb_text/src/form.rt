//! What follows the word of a command.

ghost use Rattle.std.specs.Prelude.{◌≡◌, ◌<◌, ◌∷◌, List, Some, map, ℕ};
ghost use Rattle.redodb_model.specs.Names.{Text, text_at};
ghost use Rattle.redodb_model.specs.Renaming.{AllBelow, IsBelow};
ghost use Rattle.redodb_commands.specs.Meaning.{command_of};
ghost use Rattle.redodb_commands.specs.Support.Meaning.{command_at};
ghost use Rattle.redodb_text.specs.Support.Reading.{form_in};
ghost use Rattle.redodb_text.specs.Support.Forms.{about_name, about_names, about_nothing, words_read};

use redodb_commands::{Command, Kind};

/// A command with one name.
#[derive(Clone, Copy)]
pub(crate) enum OneName {
    Gone,
    Lock,
    Unlock,
    Start,
    Always,
    Failed,
}

/// A command with a target and names.
#[derive(Clone, Copy)]
pub(crate) enum Listing {
    IfChange,
    IfCreate,
}

/// A command without words.
#[derive(Clone, Copy)]
pub(crate) enum Bare {
    Ood,
    Targets,
    Sources,
}

/// What follows the word of a command.
#[derive(Clone, Copy)]
pub(crate) enum Form {
    OneName(OneName),
    Listing(Listing),
    Bare(Bare),
    File,
    Stamp,
    Done,
}

impl OneName {
    pub(crate) fn command(self, n: u32) -> Command
        ensures named { (names : List Text)
            → command_at names result ≡ about_name self (text_at names n) }
        ensures below { (count : ℕ) → n < count → IsBelow count (command_of result) }
    {
        match self {
            OneName::Gone => Command::Gone(n),
            OneName::Lock => Command::Lock(n),
            OneName::Unlock => Command::Unlock(n),
            OneName::Start => Command::Start(n),
            OneName::Always => Command::Always(n),
            OneName::Failed => Command::Failed(n),
        }
    }
}

impl Listing {
    pub(crate) fn command(self, t: u32, others: Vec<u32>) -> Command
        ensures named { (names : List Text) → command_at names result
            ≡ about_names self (text_at names t) (map (text_at names) others.items) }
        ensures below { (count : ℕ) → AllBelow count (t ∷ others.items)
            → IsBelow count (command_of result) }
    {
        match self {
            Listing::IfChange => Command::IfChange(t, others),
            Listing::IfCreate => Command::IfCreate(t, others),
        }
    }
}

impl Bare {
    pub(crate) fn command(self) -> Command
        ensures named { (names : List Text) → command_at names result ≡ about_nothing self }
        ensures below { (count : ℕ) → IsBelow count (command_of result) }
    {
        match self {
            Bare::Ood => Command::Ood,
            Bare::Targets => Command::Targets,
            Bare::Sources => Command::Sources,
        }
    }
}

impl Form {
    /// What follows the word of a command of this kind.
    #[tactic(auto, unfolding(crate::specs::Support::Reading::form_in))]
    pub(crate) fn of(kind: Kind) -> Form
        ensures { (most : ℕ) (names args : List Text)
            → form_in most (Some kind) names args ≡ words_read most result names args }
    {
        match kind {
            Kind::File => Form::File,
            Kind::Gone => Form::OneName(OneName::Gone),
            Kind::Lock => Form::OneName(OneName::Lock),
            Kind::Unlock => Form::OneName(OneName::Unlock),
            Kind::Start => Form::OneName(OneName::Start),
            Kind::IfChange => Form::Listing(Listing::IfChange),
            Kind::IfCreate => Form::Listing(Listing::IfCreate),
            Kind::Always => Form::OneName(OneName::Always),
            Kind::Stamp => Form::Stamp,
            Kind::Done => Form::Done,
            Kind::Failed => Form::OneName(OneName::Failed),
            Kind::Ood => Form::Bare(Bare::Ood),
            Kind::Targets => Form::Bare(Bare::Targets),
            Kind::Sources => Form::Bare(Bare::Sources),
        }
    }
}
