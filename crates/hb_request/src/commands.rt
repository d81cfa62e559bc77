//! Which words name which commands?

ghost use Rattle.std.specs.Prelude.{◌≡◌};
ghost use Rattle.hb_request.specs.Command.{command_of, command_word, table_word};
ghost use Rattle.hb_request.specs.Printed.{command_for, table_command};

use crate::requests::{Ask, Request};

/// A command at a table. Its word is its name in lower case.
#[derive(Clone, Copy, PartialEq, Eq, Debug)]
pub enum TableCommand {
    Open,
    Sit,
    Rise,
    Start,
    Play,
    Discard,
    Clue,
    Note,
    Pause,
    Resume,
    Terminate,
    Watch,
    Leave,
    Load,
    Go,
    Hypo,
    Undo,
    Close,
}

impl TableCommand {
    /// The word of the command.
    fn word(self) -> &'static str
        ensures { result.now ≡ table_word self }
    {
        match self {
            TableCommand::Open => "open",
            TableCommand::Sit => "sit",
            TableCommand::Rise => "rise",
            TableCommand::Start => "start",
            TableCommand::Play => "play",
            TableCommand::Discard => "discard",
            TableCommand::Clue => "clue",
            TableCommand::Note => "note",
            TableCommand::Pause => "pause",
            TableCommand::Resume => "resume",
            TableCommand::Terminate => "terminate",
            TableCommand::Watch => "watch",
            TableCommand::Leave => "leave",
            TableCommand::Load => "load",
            TableCommand::Go => "go",
            TableCommand::Hypo => "hypo",
            TableCommand::Undo => "undo",
            TableCommand::Close => "close",
        }
    }

    /// The command that asks this of a table.
    fn of_ask(ask: &Ask) -> Self
        ensures { result ≡ table_command ask.now }
    {
        match ask {
            Ask::Open { .. } => TableCommand::Open,
            Ask::Sit => TableCommand::Sit,
            Ask::Rise => TableCommand::Rise,
            Ask::Start => TableCommand::Start,
            Ask::Play { .. } => TableCommand::Play,
            Ask::Discard { .. } => TableCommand::Discard,
            Ask::Clue { .. } => TableCommand::Clue,
            Ask::Note { .. } => TableCommand::Note,
            Ask::Pause => TableCommand::Pause,
            Ask::Resume => TableCommand::Resume,
            Ask::Terminate => TableCommand::Terminate,
            Ask::Watch { .. } => TableCommand::Watch,
            Ask::Leave => TableCommand::Leave,
            Ask::Load { .. } => TableCommand::Load,
            Ask::Go { .. } => TableCommand::Go,
            Ask::Hypo { .. } => TableCommand::Hypo,
            Ask::Undo => TableCommand::Undo,
            Ask::Close => TableCommand::Close,
        }
    }
}

/// A command.
#[derive(Clone, Copy, PartialEq, Eq, Debug)]
pub enum Command {
    Hello,
    Look,
    Table(TableCommand),
}

/// All commands.
const COMMANDS: [Command; 20] = [
    Command::Hello,
    Command::Look,
    Command::Table(TableCommand::Open),
    Command::Table(TableCommand::Sit),
    Command::Table(TableCommand::Rise),
    Command::Table(TableCommand::Start),
    Command::Table(TableCommand::Play),
    Command::Table(TableCommand::Discard),
    Command::Table(TableCommand::Clue),
    Command::Table(TableCommand::Note),
    Command::Table(TableCommand::Pause),
    Command::Table(TableCommand::Resume),
    Command::Table(TableCommand::Terminate),
    Command::Table(TableCommand::Watch),
    Command::Table(TableCommand::Leave),
    Command::Table(TableCommand::Load),
    Command::Table(TableCommand::Go),
    Command::Table(TableCommand::Hypo),
    Command::Table(TableCommand::Undo),
    Command::Table(TableCommand::Close),
];

impl Command {
    /// The word of the command.
    pub(crate) fn word(self) -> &'static str
        ensures { result.now ≡ command_word self }
    {
        match self {
            Command::Hello => "hello",
            Command::Look => "look",
            Command::Table(command) => command.word(),
        }
    }

    /// The command with a word.
    #[tactic(auto, unfolding(crate::specs::Command::command_of))]
    pub(crate) fn with_word(word: &str) -> Option<Self>
        ensures { result ≡ command_of word.now }
    {
        COMMANDS
            .iter()
            .copied()
            .find(|&command| command.word() == word)
    }

    /// The command of a request.
    pub(crate) fn of_request(request: &Request) -> Self
        ensures { result ≡ command_for request.now }
    {
        match request {
            Request::Hello { .. } => Command::Hello,
            Request::Look { .. } => Command::Look,
            Request::Room { ask, .. } => Command::Table(TableCommand::of_ask(ask)),
        }
    }
}
