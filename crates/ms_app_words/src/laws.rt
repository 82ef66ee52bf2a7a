ghost use Rattle.std.specs.Prelude.{◌≡◌, List};
ghost use Rattle.clap.specs.Words.{Text};
ghost use Rattle.ms_app_words.specs.Command.{IsCommand};
ghost use Rattle.ms_app_words.specs.declared.command.Command.{Command};

/// Words are one command at most.
pub fn one_command()
    ensures { (words : List Text) (one other : Command) → IsCommand words one → IsCommand words other → one ≡ other }
{}
