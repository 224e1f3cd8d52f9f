// A line's words, and the command that they make.
ghost use Rattle.std.specs.Prelude.{◌≡◌, ◌≤◌, ◌-◌, ◌^◌, true, length, reverse, ok_or};
ghost use Rattle.digits.specs.Numbers.{decimal_of};
ghost use Rattle.commands.specs.Words.{if_empty, blank as blank_of, front as front_of, skip_blanks, trim_end, trim, word as word_of, after_word};
ghost use Rattle.commands.specs.Commands.{first_salt, view_line, settings_line, asks_of, keywords};
ghost use Rattle.commands.specs.Commands.{named as named_of, command_of, argument_of, first_name_of, second_name_of};

use super::names::find;
use super::{Asks, Command, Expected, Mistake};

// A space, a tab or the first byte of a line end of two.
fn blank(b: u8) -> bool
    ensures { result ≡ blank_of b }
{
    matches!(b, b' ' | b'\t' | b'\r')
}

// How many bytes in front are blanks, or are none.
fn front(text: &[u8], blanks: bool) -> usize
    ensures { (result ≤ length text.now) × (result ≡ front_of blanks text.now) }
{
    text.iter().take_while(|b| blank(**b) == blanks).count()
}

// How many blanks stand at the end.
fn back(text: &[u8]) -> usize
    ensures { (result ≤ length text.now) × (result ≡ front_of true (reverse text.now)) }
{
    text.iter().rev().take_while(|b| blank(**b)).count()
}

#[tactic(auto, using(digits::proofs::Texts::from), unfolding(crate::specs::Words::skip_blanks))]
fn skip_blanks(text: &[u8]) -> &[u8]
    ensures { result.now ≡ skip_blanks text.now }
{
    &text[front(text, true)..]
}

#[tactic(auto, using(crate::proofs::Scanning::counted_end))]
fn trim_end(text: &[u8]) -> &[u8]
    ensures { result.now ≡ trim_end text.now }
{
    &text[..text.len() - back(text)]
}

#[tactic(auto, unfolding(crate::specs::Words::trim))]
fn trimmed(line: &[u8]) -> &[u8]
    ensures { result.now ≡ trim line.now }
{
    trim_end(skip_blanks(line))
}

// The first word, and what follows it.
#[tactic(auto, unfolding(crate::specs::Words::word, crate::specs::Words::after_word))]
fn split(text: &[u8]) -> (&[u8], &[u8])
    ensures first { result.0.now ≡ word_of text.now }
    ensures rest { result.1.now ≡ after_word text.now }
{
    let (first, rest) = text.split_at(front(text, false));
    (first, skip_blanks(rest))
}

// Something has to stand after a command.
fn needs(rest: &[u8], what: Expected) -> Result<(), Mistake>
    ensures { result ≡ if_empty rest.now (Err (Mistake.Missing what)) (Ok tt) }
{
    if rest.is_empty() {
        Err(Mistake::Missing(what))
    } else {
        Ok(())
    }
}

// Nothing more may.
fn ends(rest: &[u8], what: Expected) -> Result<(), Mistake>
    ensures { result ≡ if_empty rest.now (Ok tt) (Err (Mistake.Extra what)) }
{
    if rest.is_empty() {
        Ok(())
    } else {
        Err(Mistake::Extra(what))
    }
}

// The number that a word is.
fn number(word: &[u8], what: Expected) -> Result<u32, Mistake>
    ensures { result ≡ ok_or (decimal_of (2 ^ 32 - 1) word.now) (Mistake.NotNumber what) }
{
    let n = digits::decimal(word, u64::from(u32::MAX)).ok_or(Mistake::NotNumber(what))?;
    Ok(n as u32)
}

// The salt that the first word is, 0 where there is none.
fn salt_at(text: &[u8]) -> Result<u64, Mistake>
    ensures { result ≡ ok_or (first_salt text.now) (Mistake.NotNumber Expected.Salt) }
{
    if text.is_empty() {
        return Ok(0);
    }
    digits::number(split(text).0, u64::MAX).ok_or(Mistake::NotNumber(Expected::Salt))
}

// The command that takes one number.
#[tactic(auto, using(std::proofs::lemmas::Bool::Decides::nat_tests), unfolding(crate::specs::Commands::view_line))]
fn view_line(rest: &[u8]) -> Result<Command, Mistake>
    ensures { result ≡ view_line rest.now }
{
    let (bucket, more) = split(rest);
    needs(rest, Expected::Bucket)?;
    ends(more, Expected::Bucket)?;
    Ok(Command::View(number(bucket, Expected::Bucket)?))
}

// The command that takes numbers, or none to have the present ones told.
#[tactic(auto, using(std::proofs::lemmas::Bool::Decides::nat_tests), unfolding(crate::specs::Commands::settings_line, crate::specs::Commands::settings_numbers))]
fn settings_line(rest: &[u8]) -> Result<Command, Mistake>
    ensures { result ≡ settings_line rest.now }
{
    if rest.is_empty() {
        return Ok(Command::Present);
    }
    let (rule, second) = split(rest);
    let (width, third) = split(second);
    let (buckets, fourth) = split(third);
    let (mask, fifth) = split(fourth);
    needs(fourth, Expected::Settings)?;
    ends(split(fifth).1, Expected::Settings)?;
    Ok(Command::Settings {
        rule: number(rule, Expected::Rule)?,
        width: number(width, Expected::Width)?,
        buckets: number(buckets, Expected::Buckets)?,
        mask: number(mask, Expected::Mask)?,
        salt: salt_at(fifth)?,
    })
}

// The keywords, and what each asks for.
static KEYWORDS: [(&str, Asks); 15] = [
    ("hold", Asks::Text(Command::Hold, Expected::Tag)),
    ("release", Asks::Text(Command::Release, Expected::Tag)),
    ("lookup", Asks::Text(Command::Lookup, Expected::Tag)),
    ("forecast", Asks::Text(Command::Forecast, Expected::Tag)),
    ("save", Asks::Text(Command::Save, Expected::File)),
    ("load", Asks::Text(Command::Load, Expected::File)),
    ("pack", Asks::Text(Command::Pack, Expected::File)),
    ("unpack", Asks::Text(Command::Unpack, Expected::File)),
    ("convert", Asks::Files(Command::Convert)),
    ("view", Asks::View),
    ("settings", Asks::Settings),
    ("clear", Asks::Nothing(Command::Clear)),
    ("length", Asks::Nothing(Command::Length)),
    ("stats", Asks::Nothing(Command::Stats)),
    ("help", Asks::Nothing(Command::Help)),
];

// What a name asks for.
fn keyword(name: &[u8]) -> Option<Asks>
    ensures { result ≡ asks_of name.now keywords }
{
    find(&KEYWORDS, name)
}

// The command of a name, by what follows it.
#[tactic(auto, using(std::proofs::lemmas::Bool::Decides::nat_tests), unfolding(crate::specs::Commands::named))]
fn named(name: &[u8], rest: &[u8]) -> Result<Command, Mistake>
    ensures { result ≡ named_of name.now rest.now }
{
    match keyword(name).ok_or(Mistake::Unknown)? {
        Asks::Text(command, what) => {
            needs(rest, what)?;
            Ok(command)
        }
        Asks::Files(command) => {
            needs(split(rest).1, Expected::Files)?;
            Ok(command)
        }
        Asks::Nothing(command) => {
            ends(rest, Expected::Nothing)?;
            Ok(command)
        }
        Asks::View => view_line(rest),
        Asks::Settings => settings_line(rest),
    }
}

// What a line asks for. The line has no line end.
#[tactic(auto, using(std::proofs::lemmas::Bool::Decides::nat_tests), unfolding(crate::specs::Commands::command_of, crate::specs::Commands::command_in))]
pub fn parse(line: &[u8]) -> Result<Command, Mistake>
    ensures { result ≡ command_of line.now }
{
    match trimmed(line) {
        [] | [b'#', ..] => Ok(Command::Nothing),
        words => {
            let (name, rest) = split(words);
            named(name, rest)
        }
    }
}

// The tag or the file's name that a line has.
#[tactic(auto, unfolding(crate::specs::Commands::argument_of))]
pub fn argument(line: &[u8]) -> &[u8]
    ensures { result.now ≡ argument_of line.now }
{
    split(trimmed(line)).1
}

// The first of a line's two names, a word.
#[tactic(auto, unfolding(crate::specs::Commands::first_name_of))]
pub fn first_name(line: &[u8]) -> &[u8]
    ensures { result.now ≡ first_name_of line.now }
{
    split(argument(line)).0
}

// The second, which is all that follows.
#[tactic(auto, unfolding(crate::specs::Commands::second_name_of))]
pub fn second_name(line: &[u8]) -> &[u8]
    ensures { result.now ≡ second_name_of line.now }
{
    split(argument(line)).1
}
