// What the programs share: space to lend, an input read whole, the fields of its lines, and how a refusal
// is told.
#![tactic(auto)]

ghost use Rattle.std.specs.Prelude.{◌≡◌, ◌≤◌, ◌/◌, ◌++◌, ◌==◌, length, min, replicate, codes, Some, IfOk};
ghost use Rattle.std.specs.Fmt.{decimal};
ghost use Rattle.std.specs.List.{position_or_len};
ghost use Rattle.refusals.specs.Refusals.{number_told};
ghost use Rattle.programs.specs.Lines.{field, past, number_in, settings_in};

use index::Settings;
use refusals::Refusal;
use std::io::Read;
use std::{fmt, io};

// Space of one value throughout. Lending it as a slice needs its length and nothing else.
pub fn space<T: Copy, const N: usize>(value: T) -> [T; N]
    ensures values { result ≡ replicate N value }
    ensures len { N ≡ length result }
{
    [value; N]
}

// A refusal as programs tell it, by its number.
#[derive(Clone, Copy)]
pub struct Refused(pub Refusal);

impl fmt::Display for Refused {
    ghost output = { λ r. Some (codes "refused " ++ decimal (number_told r.0)) };

    fn fmt<W: fmt::Write>(&self, f: &mut fmt::Formatter<W>) -> fmt::Result {
        let number = self.0.number();
        write!(f, "refused {number}")
    }
}

// Numbers with a space between.
#[derive(Clone, Copy)]
pub struct Spaced<'a, T>(pub &'a [T]);

impl<T: fmt::Display> fmt::Display for Spaced<'_, T> {
    fn fmt<W: fmt::Write>(&self, f: &mut fmt::Formatter<W>) -> fmt::Result {
        let mut between = "";
        for number in self.0 {
            write!(f, "{between}{number}")?;
            between = " ";
        }
        Ok(())
    }
}

// Reads until there is no more room, or to the end of the input, and answers how many bytes came.
pub fn read_full(input: &mut impl Read, space: &mut [u8]) -> io::Result<usize>
    ensures { IfOk result (λ n. n ≤ length space.new) }
{
    let mut n = 0;
    while n < space.len() {
        let more = input.read(&mut space[n..])?;
        if more == 0 {
            break;
        }
        n += more;
    }
    Ok(n)
}

// The place of the first space, or the end of the text.
fn space_in(text: &[u8]) -> usize
    ensures place { result ≡ position_or_len (λ b. b == 32) text.now }
    ensures bound { result ≤ length text.now }
{
    text.iter().position(|b| *b == b' ').unwrap_or(text.len())
}

// The fields of a line that are still to come.
#[derive(Clone, Copy)]
pub struct Fields<'a> {
    pub rest: &'a [u8],
}

impl<'a> Fields<'a> {
    pub fn of(line: &'a [u8]) -> Fields<'a>
        ensures { result.rest.now ≡ line.now }
    {
        Fields { rest: line }
    }

    // The next field. It is empty where there is none.
    pub fn next(&mut self) -> &'a [u8]
        ensures value { result.now ≡ field self.old.rest.now }
        ensures rest { self.new.rest.now ≡ past 1 self.old.rest.now }
    {
        let text = self.rest;
        let end = space_in(text);
        if end < text.len() {
            self.rest = &text[end + 1..];
        } else {
            self.rest = &[];
        }
        &text[..end]
    }

    // The number that the next field is, at most so much. A field that is no number counts as 0.
    pub fn number(&mut self, most: u64) -> u64
        ensures value { result ≡ number_in most self.old.rest.now }
        ensures rest { self.new.rest.now ≡ past 1 self.old.rest.now }
    {
        digits::decimal(self.next(), u64::MAX)
            .unwrap_or(0)
            .min(most)
    }

    // The same for a number of 32 bits, or of 16.
    pub fn word(&mut self) -> u32
        ensures value { result ≡ number_in 4294967295 self.old.rest.now }
        ensures rest { self.new.rest.now ≡ past 1 self.old.rest.now }
    {
        self.number(u64::from(u32::MAX)) as u32
    }

    pub fn half_word(&mut self) -> u16
        ensures value { result ≡ number_in 65535 self.old.rest.now }
        ensures rest { self.new.rest.now ≡ past 1 self.old.rest.now }
    {
        self.number(u64::from(u16::MAX)) as u16
    }

    // The settings that the next five fields are.
    pub fn settings(&mut self) -> Settings
        ensures value { result ≡ settings_in self.old.rest.now }
        ensures rest { self.new.rest.now ≡ past 5 self.old.rest.now }
    {
        Settings {
            rule: self.word(),
            width: self.word(),
            buckets: self.word(),
            mask: self.word(),
            salt: self.number(u64::MAX),
        }
    }

    // Puts the bytes that the rest stands for in hexadecimal digits at the start of out, as many as there
    // is room for, and answers how many they are.
    pub fn bytes(self, out: &mut [u8]) -> usize
        ensures { result ≡ min (length self.entry.rest.now / 2) (length out.new) }
    {
        for (pair, byte) in self.rest.chunks_exact(2).zip(out.iter_mut()) {
            *byte = digit(pair[0]) << 4 | digit(pair[1]);
        }
        (self.rest.len() / 2).min(out.len())
    }
}

// The value of a hexadecimal digit. No input has another byte there.
fn digit(b: u8) -> u8 {
    digits::hex_value(b).unwrap_or(16)
}
