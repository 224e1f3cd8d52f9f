// What stands before the first command: the tool's arguments, and the mark that some editors put in front of a text.
ghost use Rattle.std.specs.Prelude.{◌≡◌};
ghost use Rattle.commands.specs.Options.{option_of, without_mark};

use super::Choice;
use super::names::find;

// The options by name.
static OPTIONS: [(&str, Choice); 6] = [
    ("-", Choice::Input),
    ("--strict", Choice::Strict),
    ("--report", Choice::Report),
    ("--version", Choice::Version),
    ("--help", Choice::Help),
    ("-h", Choice::Help),
];

// What an argument of the tool asks for, if it is one of the options or begins with no hyphen.
#[tactic(auto, using(std::proofs::lemmas::Bool::Decides::nat_tests), unfolding(crate::specs::Internal::beside, crate::specs::Options::option_of))]
pub fn option(text: &[u8]) -> Option<Choice>
    ensures { result ≡ option_of text.now }
{
    match find(&OPTIONS, text) {
        None if !text.starts_with(b"-") => Some(Choice::Script),
        choice => choice,
    }
}

// The script's first line without the mark of three bytes that says UTF-8.
#[tactic(auto, unfolding(crate::specs::Options::without_mark))]
pub fn without_mark(line: &[u8]) -> &[u8]
    ensures { result.now ≡ without_mark line.now }
{
    line.strip_prefix(b"\xEF\xBB\xBF").unwrap_or(line)
}
