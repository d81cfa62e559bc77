//! For how many commands, and for how many servers, do words ask?

ghost use Rattle.hb_words.specs.Commands.{WordsAskForOne};
ghost use Rattle.hb_words.specs.Servers.{ServersAreNoCommands, WordsAskForOneServer};

/// A law, with no work to do: words ask for at most one command.
pub fn words_ask_for_one()
    ensures { WordsAskForOne }
{}

/// A law, with no work to do: words ask for at most one server, and for no command besides.
pub fn words_ask_for_one_server()
    ensures one { WordsAskForOneServer }
    ensures alone { ServersAreNoCommands }
{}
