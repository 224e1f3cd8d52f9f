// What is printed, and the count of what went wrong.
use super::errors::{Cause, StoreError};
use super::files;
use commands::{Expected, Mistake};
use index::Settings;
use programs::Refused;
use refusals::Refusal;
use std::{fmt, io};

// ── words for values ──

// A number and what it counts, one or more.
#[derive(Clone, Copy)]
pub(crate) struct Count {
    number: u64,
    one: &'static str,
    more: &'static str,
}

impl Count {
    pub(crate) fn moves(number: u32) -> Count {
        Count {
            number: u64::from(number),
            one: "move",
            more: "moves",
        }
    }

    pub(crate) fn orders(number: u32) -> Count {
        Count {
            number: u64::from(number),
            one: "order",
            more: "orders",
        }
    }

    pub(crate) fn entries(number: usize) -> Count {
        Count {
            number: number as u64,
            one: "entry",
            more: "entries",
        }
    }
}

impl fmt::Display for Count {
    fn fmt<W: fmt::Write>(&self, f: &mut fmt::Formatter<W>) -> fmt::Result {
        let number = self.number;
        let word = if number == 1 { self.one } else { self.more };
        write!(f, "{number} {word}")
    }
}

// The settings of a list, as they are told.
#[derive(Clone, Copy)]
pub(crate) struct Shown(pub(crate) Settings);

impl fmt::Display for Shown {
    fn fmt<W: fmt::Write>(&self, f: &mut fmt::Formatter<W>) -> fmt::Result {
        let Settings {
            rule,
            width,
            buckets,
            mask,
            salt,
        } = self.0;
        write!(
            f,
            "rule {rule}, width {width}, buckets {buckets}, mask {mask}, salt {salt}"
        )
    }
}

// ── the log ──

// What goes with every line: its number, how many were refused by number, how many could not be done
// for another reason, whether an answer could not be written, whether the commands could not be read,
// and whether the first trouble is to be the last. With it goes the system, which all of it is told to.
#[derive(Clone, Copy)]
pub(crate) struct Log {
    pub(crate) rt: HostRuntime,
    pub(crate) line: u64,
    refused: u64,
    failed: u64,
    unwritten: bool,
    unread: bool,
    strict: bool,
}

// How it went, as the number that the status is.
#[derive(Clone, Copy)]
pub(crate) enum Status {
    Done = 0,
    // a line was refused or could not be done, or an answer could not be written
    Trouble = 1,
    // the commands could not be read, or an argument is wrong
    Unread = 2,
}

impl Log {
    pub(crate) fn new(rt: HostRuntime, strict: bool) -> Log {
        Log {
            rt,
            line: 0,
            refused: 0,
            failed: 0,
            unwritten: rt.write_some(b"").is_err(),
            unread: false,
            strict,
        }
    }

    // Each answer goes out at once: whoever reads the answers waits for them.
    pub(crate) fn print(&mut self, answer: impl fmt::Display + Drop) {
        if self.rt.print(answer).is_err() {
            self.unwritten = true;
        }
    }

    // Bytes that need not be text.
    pub(crate) fn print_bytes(&mut self, bytes: &[u8]) {
        if self.rt.write_all(bytes).is_err() {
            self.unwritten = true;
        }
    }

    // An empty line is answered by one, and a comment by itself, so that answers and lines go together.
    pub(crate) fn echo(&mut self, line: &[u8]) {
        self.print_bytes(line);
        self.print("\n");
    }

    pub(crate) fn refused(&mut self, why: Refusal) {
        self.refused = self.refused.wrapping_add(1);
        let number = Refused(why);
        self.print(format_args!("{number}: {why}\n"));
    }

    // What is wrong with a line, which has changed nothing.
    pub(crate) fn bad(&mut self, what: impl fmt::Display + Drop) {
        self.failed = self.failed.wrapping_add(1);
        let line = self.line;
        self.print(format_args!("line {line}: {what}\n"));
    }

    // What is wrong with the file that a line names. A name need not be text.
    fn bad_file(&mut self, what: &str, name: &[u8], why: impl fmt::Display + Drop) {
        self.failed = self.failed.wrapping_add(1);
        let line = self.line;
        self.print(format_args!("line {line}: {what} "));
        self.print_bytes(name);
        self.print(format_args!(": {why}\n"));
    }

    // A file that the system refused. For an error that the tool has no words for the system's stand
    // on standard error.
    fn failed(&mut self, what: &str, name: &[u8], why: Cause) {
        self.bad_file(what, name, why);
        if let Cause::Other(number) = why {
            if !self.unwritten {
                fail(self.rt, b"gedrunelj", io::Error::from_raw_os_error(number));
            }
        }
    }

    pub(crate) fn not_read(&mut self, name: &[u8], why: Cause) {
        self.failed("cannot read", name, why);
    }

    fn not_stored(&mut self, name: &[u8], why: StoreError) {
        match why {
            StoreError::Failed(cause) => self.failed("cannot write", name, cause),
            StoreError::Rights(cause) => {
                self.failed("cannot keep owner and rights of", name, cause)
            }
            StoreError::Link => self.bad_file(
                "cannot write",
                name,
                "it is a link; give the name of the file that it leads to",
            ),
            StoreError::Irregular => self.bad_file("cannot write", name, "it is no regular file"),
            StoreError::Unforced(cause) => self.failed(
                "written, but a power cut may undo it: cannot force to the disk the folder of",
                name,
                cause,
            ),
        }
    }

    // Keeps the first bytes of the space in a file, as many as are told.
    pub(crate) fn store(&mut self, done: &str, name: &[u8], space: &[u8], count: usize) {
        let n = count.min(space.len());
        match files::store(self.rt, name, &space[..n]) {
            Ok(()) => self.print(format_args!("{done}, {n} bytes\n")),
            Err(why) => self.not_stored(name, why),
        }
    }

    // ── lines that are not commands ──

    pub(crate) fn mistake(&mut self, what: Mistake) {
        match what {
            Mistake::Unknown => self.bad("there is no such command; help names them"),
            Mistake::Missing(what) => self.missing(what),
            Mistake::Extra(what) => self.extra(what),
            Mistake::NotNumber(what) => self.not_number(what),
        }
    }

    // What should have stood after the command is missing.
    fn missing(&mut self, what: Expected) {
        self.bad(match what {
            Expected::Tag => {
                "a tag is missing after the command: text, or hexadecimal digits after 0x"
            }
            Expected::File => "the name of a file is missing after the command",
            Expected::Files => {
                "convert takes two names of files: the one to read, which is a word, and the one to write"
            }
            Expected::Bucket => "view takes the number of a bucket",
            _ => {
                "settings takes four numbers, RULE WIDTH BUCKETS MASK, and a salt if one is wanted, or none to tell the present ones"
            }
        });
    }

    // More stands there than what should have been the last.
    fn extra(&mut self, what: Expected) {
        self.bad(match what {
            Expected::Bucket => "view takes one number and no more",
            Expected::Settings => {
                "settings takes four numbers and a salt, and no more: RULE WIDTH BUCKETS MASK [SALT]"
            }
            _ => "the command stands alone",
        });
    }

    // What should be this number is none.
    fn not_number(&mut self, what: Expected) {
        let name = match what {
            Expected::Salt => {
                return self.bad(
                    "the salt is not a number below 18446744073709551616, in decimal or hexadecimal digits after 0x",
                );
            }
            Expected::Rule => "the rule",
            Expected::Width => "the width",
            Expected::Buckets => "the bucket count",
            Expected::Mask => "the mask",
            _ => "the bucket",
        };
        self.bad(format_args!("{name} is not a number in decimal digits below 4294967296"));
    }

    // ── the end ──

    pub(crate) fn cannot_read(&mut self, why: io::Error) {
        fail(self.rt, b"gedrunelj: the commands cannot be read", why);
        self.unread = true;
    }

    fn is_clean(&self) -> bool {
        self.refused == 0 && self.failed == 0
    }

    // Whether the lines end here: no answer can be written, no more can be read, so that the last line
    // may be a part of one, or the first trouble was to be the last.
    pub(crate) fn ends(&self) -> bool {
        self.unwritten || self.unread || self.strict && !self.is_clean()
    }

    // How it went.
    pub(crate) fn status(&self) -> Status {
        if self.unread {
            Status::Unread
        } else if self.unwritten || !self.is_clean() {
            Status::Trouble
        } else {
            Status::Done
        }
    }

    // One line of counts where anything went wrong, with the line at which it ended early.
    pub(crate) fn summary(&self) {
        let rt = self.rt;
        let line = self.line;
        if self.unwritten {
            say(
                rt,
                format_args!("gedrunelj: an answer could not be written; stopped at line {line}\n"),
            );
        }
        if self.is_clean() {
            return;
        }
        let refused = self.refused;
        let failed = self.failed;
        say(
            rt,
            format_args!("gedrunelj: {refused} refused, {failed} failed"),
        );
        if self.strict {
            say(rt, format_args!("; stopped at line {line}"));
        }
        say(rt, "\n");
    }
}

// ── standard error ──

// Nobody can be told where standard error takes nothing.
pub(crate) fn say(rt: HostRuntime, text: impl fmt::Display + Drop) {
    let _ = rt.eprint(text);
}

// The system's words for an error, without its number, which std puts behind them.
fn words(text: &str) -> &str {
    match text.split_once(" (os error ") {
        Some((before, _)) => before,
        None => text,
    }
}

// A line that tells what failed, and why. What failed need not be text.
pub(crate) fn fail(rt: HostRuntime, what: &[u8], why: io::Error) {
    let number = filestat::error_number(&why);
    let why = io::Error::from_raw_os_error(number);
    let _ = rt.stderr().write_all(what);
    match format!(in rt.alloc(); "{why}") {
        Ok(text) => say(rt, format_args!(": {}\n", words(text.as_str()))),
        Err(_) => say(rt, format_args!(": {}\n", number.max(0))),
    }
}
