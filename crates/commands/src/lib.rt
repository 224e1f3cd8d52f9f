// The lines of the command-line tool: what a line asks for, and the numbers that are told of a list. The
// tool itself only reads lines, makes the calls and prints their answers.
#![tactic(auto)]

mod counts;
mod names;
mod options;
mod words;

pub use counts::{longest, permille};
pub use options::{option, without_mark};
pub use words::{argument, first_name, parse, second_name};

// What a command takes, or one of the numbers that it takes.
#[derive(Clone, Copy, Debug, PartialEq, Eq)]
pub enum Expected {
    Tag,
    File,
    Files,
    Nothing,
    Bucket,
    Settings,
    Rule,
    Width,
    Buckets,
    Mask,
    Salt,
}

// What a line asks for. A tag or the name of a file is the line's argument; of two names the first is a word.
#[derive(Clone, Copy, Debug, PartialEq, Eq)]
pub enum Command {
    Nothing,
    Settings {
        rule: u32,
        width: u32,
        buckets: u32,
        mask: u32,
        salt: u64,
    },
    // the settings are to be told
    Present,
    Hold,
    Release,
    Lookup,
    // what a hold would answer
    Forecast,
    View(u32),
    Clear,
    Save,
    Load,
    Pack,
    Unpack,
    Convert,
    // the bytes that the hold file would have
    Length,
    Stats,
    Help,
}

// What is wrong with a line.
#[derive(Clone, Copy, Debug, PartialEq, Eq)]
pub enum Mistake {
    // there is no such command
    Unknown,
    // what has to stand after the command is not there
    Missing(Expected),
    // more stands there than this
    Extra(Expected),
    // what should be this number is none, or is too large
    NotNumber(Expected),
}

// What an argument of the tool asks for.
#[derive(Clone, Copy, Debug, PartialEq, Eq)]
pub enum Choice {
    // a script of this name
    Script,
    // the script is standard input
    Input,
    Strict,
    Report,
    Help,
    Version,
}

// What a name asks for: a command with a text, two names or nothing after it, or one that takes numbers.
#[derive(Clone, Copy, Debug, PartialEq, Eq)]
enum Asks {
    Text(Command, Expected),
    Files(Command),
    Nothing(Command),
    View,
    Settings,
}
