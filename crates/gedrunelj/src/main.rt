// The command-line tool: one hold list in memory, and a command on each line of standard input, or of
// the script that an argument names. Each line gets one line of answer. What a line asks for is the
// crate `commands`'s to say, and what becomes of the list that of the crates below it: here lines are
// read, calls are made, and answers are printed.
#![tactic(auto)]

mod errors;
mod files;
mod list;
mod tell;

ghost use Rattle.std.specs.Prelude.{◌≡◌, ◌≤◌, length};

use commands::{Choice, Command};
use index::Settings;
use list::Session;
use std::env::FillError;
use std::fs::OpenOptions;
use std::io;
use std::io::{IsTerminal, Read, Write};
use std::rt::Env;
use tell::{Log, Status};

// The most bytes of a line, and one more.
const LINE: usize = 65536;

// The cells of the largest list, the words of its scratch, and more bytes than a file of it has: one
// that fills this space is longer than any that a list has.
const CELLS: usize = 262144;

const WORDS: usize = 131072;

const FILE: usize = 589840;

// ── lines ──

const HELP: &str =
    "settings RULE WIDTH BUCKETS MASK [SALT], settings, hold TAG, release TAG, lookup TAG, forecast TAG, view BUCKET, clear, save FILE, load FILE, pack FILE, unpack FILE, convert FROM TO, length, stats, help; a tag is text, or hexadecimal digits after 0x; # starts a comment; the end of the input ends it\n";

impl Session<'_> {
    fn answer(&mut self, line: &[u8]) {
        match commands::parse(line) {
            Ok(command) => self.carry_out(command, line),
            Err(mistake) => self.log.mistake(mistake),
        }
    }

    fn carry_out(&mut self, command: Command, line: &[u8]) {
        match command {
            Command::Nothing => self.log.echo(line),
            Command::Hold => self.hold(commands::argument(line)),
            Command::Release => self.release(commands::argument(line)),
            Command::Lookup => self.lookup(commands::argument(line)),
            Command::Forecast => self.forecast(commands::argument(line)),
            Command::View(bucket) => self.view(bucket),
            Command::Clear => self.clear(),
            Command::Settings {
                rule,
                width,
                buckets,
                mask,
                salt,
            } => self.set(Settings {
                rule,
                width,
                buckets,
                mask,
                salt,
            }),
            Command::Present => self.tell_settings(),
            Command::Save => self.save(commands::argument(line)),
            Command::Load => self.load(commands::argument(line)),
            Command::Pack => self.pack(commands::argument(line)),
            Command::Unpack => self.unpack(commands::argument(line)),
            Command::Convert => {
                self.convert(commands::first_name(line), commands::second_name(line))
            }
            Command::Length => self.length(),
            Command::Stats => self.stats(),
            Command::Help => self.log.print(HELP),
        }
    }

    // One line, or the end of one that was too long. An editor may have put a mark before the first.
    fn answer_line(&mut self, line: &[u8]) {
        if self.skipping {
            self.skipping = false;
            return;
        }
        self.log.line = self.log.line.wrapping_add(1);
        if self.log.line == 1 {
            self.answer(commands::without_mark(line));
        } else {
            self.answer(line);
        }
    }

    // A line that does not end in the room that there is for one.
    fn too_long(&mut self) {
        if !self.skipping {
            self.skipping = true;
            self.log.line = self.log.line.wrapping_add(1);
            self.log.bad("the line is longer than 65535 bytes");
        }
    }

    // Answers every whole line of s, or those up to one that ends it all, and tells how many bytes are
    // left behind them.
    fn answer_lines(&mut self, s: &[u8]) -> usize
        ensures { result ≤ length s.now }
    {
        let mut rest = s;
        while let Some(n) = rest.iter().position(|b| *b == b'\n') {
            if self.log.ends() {
                break;
            }
            self.answer_line(&rest[..n]);
            rest = &rest[n + 1..];
        }
        rest.len()
    }

    // Answers what has come, and moves the start of the next line to the front: how long that is. Nothing
    // is left of a line that is too long.
    fn take(&mut self, room: &mut [u8], have: usize) -> usize
        requires { have ≤ length room.old }
        ensures { result ≤ length room.new }
    {
        let left = self.answer_lines(&room[..have]);
        room.copy_within(have - left..have, 0);
        if left < room.len() {
            return left;
        }
        self.too_long();
        0
    }

    // Reads once into the room, and answers how many bytes came. Where somebody sits at a terminal, a
    // line is asked for before.
    fn receive(&mut self, input: &mut impl Read, asks: bool, room: &mut [u8]) -> usize
        ensures { result ≤ length room.new }
    {
        if asks {
            self.log.print("> ");
        }
        match input.read(room) {
            Ok(more) => more,
            Err(e) => {
                self.log.cannot_read(e);
                0
            }
        }
    }

    // Answers the lines of the input until its end; the last may have no line end. Nothing says that the
    // input has an end, and the loop has to: it counts to a number that no run reaches.
    fn serve(&mut self, input: &mut impl Read, asks: bool, room: &mut [u8]) {
        let mut have = 0;
        for _ in 0..u64::MAX {
            let more = self.receive(input, asks, &mut room[have..]);
            if more == 0 {
                break;
            }
            have = self.take(room, have + more);
            if self.log.ends() {
                break;
            }
        }
        if have > 0 && !self.log.ends() {
            self.answer_line(&room[..have]);
        }
    }
}

// ── the program ──

// Where the commands come from.
#[derive(Clone, Copy)]
enum Source {
    Input,
    // the script that this argument names
    Script(usize),
}

// What the arguments ask for: the options, whether one of them is wrong, and the commands' source.
#[derive(Clone, Copy, Default)]
struct Options {
    strict: bool,
    report: bool,
    help: bool,
    version: bool,
    wrong: bool,
    source: Option<Source>,
}

impl Options {
    // A second name for the script is one too many.
    fn name(&mut self, source: Source) {
        self.wrong = self.wrong || self.source.is_some();
        self.source = Some(source);
    }

    fn take(&mut self, i: usize, text: &[u8]) {
        match commands::option(text) {
            Some(Choice::Strict) => self.strict = true,
            Some(Choice::Report) => self.report = true,
            Some(Choice::Help) => self.help = true,
            Some(Choice::Version) => self.version = true,
            None => self.wrong = true,
            Some(Choice::Input) => self.name(Source::Input),
            Some(Choice::Script) => self.name(Source::Script(i)),
        }
    }
}

// What the arguments ask for. One that is longer than any path is none of ours.
fn asked(rt: HostRuntime) -> Options {
    let mut o = Options::default();
    for i in 1..usize::MAX {
        let mut space = [0u8; 4096];
        match rt.arg(i, &mut space) {
            Ok(n) => o.take(i, &space[..n]),
            Err(FillError::TooLong) => o.wrong = true,
            Err(FillError::NotPresent) => break,
        }
    }
    o
}

// How the tool is used.
const USAGE: &str =
    "usage: gedrunelj [--strict] [SCRIPT]\nCommands come from SCRIPT, or from standard input where none or - is named; the command help names them.\n  --strict    stop at the first line that is refused or cannot be done\n  -h, --help  this text\n  --version   the version\n";

fn tell_status(rt: HostRuntime, status: Status) -> io::Result<()> {
    let mut to = OpenOptions::new().write(true).open(&rt, "/dev/fd/3")?;
    let number = status as u8;
    write!(to, "{number}")
}

// Answers the lines of the input, tells what went wrong, and answers the status.
fn run(rt: HostRuntime, input: &mut impl Read, asks: bool, strict: bool) -> Status {
    let mut room = programs::space::<u8, LINE>(0);
    let mut cells = programs::space::<u16, CELLS>(0);
    let mut words = programs::space::<u32, WORDS>(0);
    let mut file = programs::space::<u8, FILE>(0);
    let log = Log::new(rt, strict);
    let mut session = Session::new(log, &mut cells, &mut words, &mut file);
    session.serve(input, asks, &mut room);
    session.log.summary();
    session.log.status()
}

fn run_named(rt: HostRuntime, name: &[u8], strict: bool) -> Status {
    match files::open(rt, name) {
        Ok(mut script) => run(rt, &mut script, false, strict),
        Err(e) => {
            tell::fail(rt, name, e);
            Status::Unread
        }
    }
}

fn run_script(rt: HostRuntime, i: usize, strict: bool) -> Status {
    let mut path = [0u8; 4096];
    let n = rt.arg(i, &mut path).unwrap_or(0);
    run_named(rt, &path[..n], strict)
}

// Somebody may sit at both ends.
fn run_input(rt: HostRuntime, strict: bool) -> Status {
    let asks = rt.stdin().is_terminal() && rt.stdout().is_terminal();
    run(rt, &mut rt.stdin(), asks, strict)
}

// What the arguments ask for is done, and the status is answered.
fn served(rt: HostRuntime, o: Options) -> Status {
    if o.help {
        let _ = rt.print(USAGE);
        return Status::Done;
    }
    if o.version {
        let _ = rt.print("gedrunelj 0.8.0\n");
        return Status::Done;
    }
    if o.wrong {
        tell::say(rt, USAGE);
        return Status::Unread;
    }
    match o.source {
        Some(Source::Script(i)) => run_script(rt, i, o.strict),
        _ => run_input(rt, o.strict),
    }
}

// The tool itself ends with 0. Whoever starts it with --report is told on descriptor 3 what the status
// should be.
fn main(rt: HostRuntime) {
    let o = asked(rt);
    let status = served(rt, o);
    if o.report {
        let _ = tell_status(rt, status);
    }
}
