// Answers requests on the table. Each line of standard input is a request, and is written to
// standard output with " = " and the answer after it. A request acts on what those before it left:
//
//     open RULE WIDTH BUCKETS MASK SALT CELLS WORDS   the settings, and how much the next calls lend
//     dirt VALUE                  scratch becomes VALUE, VALUE + 1, .. modulo 2^32
//     set CELL VALUE              one cell, as it is
//     clear
//     hold HEX
//     release HEX
//     lookup HEX
//     view BUCKET
//     holds SEED COUNT            the call on COUNT tags made from SEED
//     releases SEED COUNT
//     lookups SEED COUNT
//     cells                       all cells that are lent, or their hash where they are many
#![tactic(auto)]

ghost use Rattle.std.specs.Iterator.{at_most};

use index::Settings;
use programs::{Fields, Refused, Spaced};
use refusals::Refusal;
use std::io;
use std::io::Write;
use table::Removal;

// ── tags that are made from a seed ──

// How many are still to come, and the state from which the next is made.
#[derive(Clone, Copy)]
struct Tags {
    state: u64,
    left: u64,
}

// A tag is the bytes of a state, the low one first.
impl Iterator for Tags {
    type Item = [u8; 8];

    ghost remaining = { λ tags. at_most tags.left };

    fn next(&mut self) -> Option<[u8; 8]> {
        if self.left == 0 {
            return None;
        }
        self.left -= 1;
        self.state = self.state.wrapping_add(0x9e3779b97f4a7c15);
        Some(self.state.to_le_bytes())
    }
}

// ── what many calls said ──

// What calls on many tags said: yes, no, or neither, and of lookups how many copies in all.
#[derive(Clone, Copy, Default)]
struct Counted {
    yes: u64,
    no: u64,
    refused: u64,
    copies: u64,
}

impl Counted {
    fn add(&mut self, yes: bool) {
        if yes {
            self.yes = self.yes.wrapping_add(1);
        } else {
            self.no = self.no.wrapping_add(1);
        }
    }

    fn add_release(&mut self, answer: Result<Removal, Refusal>) {
        match answer {
            Ok(Removal::Released) => self.add(true),
            Ok(Removal::Absent) => self.add(false),
            Err(_) => self.refused = self.refused.wrapping_add(1),
        }
    }

    fn add_lookup(&mut self, answer: Result<u32, Refusal>) {
        match answer {
            Ok(copies) => {
                self.add(copies > 0);
                self.copies = self.copies.wrapping_add(u64::from(copies));
            }
            Err(_) => self.refused = self.refused.wrapping_add(1),
        }
    }
}

// What many holds said, with the sum and the most of their moves, and a hash of all answers.
#[derive(Clone, Copy)]
struct Held {
    accepted: u64,
    refused: u64,
    moves: u64,
    longest: u32,
    hash: u64,
}

impl Held {
    fn new() -> Held {
        Held {
            accepted: 0,
            refused: 0,
            moves: 0,
            longest: 0,
            hash: index::fnv1a(b""),
        }
    }

    fn add(&mut self, answer: Result<u32, Refusal>) {
        let told = match answer {
            Ok(moves) => {
                self.accepted = self.accepted.wrapping_add(1);
                self.moves = self.moves.wrapping_add(u64::from(moves));
                self.longest = self.longest.max(moves);
                moves
            }
            Err(why) => {
                self.refused = self.refused.wrapping_add(1);
                why.number().wrapping_add(1 << 31)
            }
        };
        self.hash = index::fnv_from(self.hash, &told.to_le_bytes());
    }
}

// ── requests ──

fn hash_of_cells(cells: &[u16]) -> u64 {
    let mut hash = index::fnv1a(b"");
    for cell in cells {
        hash = index::fnv_from(hash, &cell.to_le_bytes());
    }
    hash
}

// What each call of a request is handed, and where its answer is written.
#[derive(Drop)]
struct Call<'a, W> {
    out: &'a mut W,
    settings: Settings,
    cells: &'a mut [u16],
    words: &'a mut [u32],
}

impl<W: Write> Call<'_, W> {
    fn refused(&mut self, why: Refusal) -> io::Result<()> {
        write!(self.out, "{}", Refused(why))
    }

    fn dirt(&mut self, value: u32) -> io::Result<()> {
        let mut next = value;
        for word in self.words.iter_mut() {
            *word = next;
            next = next.wrapping_add(1);
        }
        self.out.write_all(b"dirt")
    }

    fn set(&mut self, cell: u64, value: u16) -> io::Result<()> {
        let i = cell as usize;
        if i < self.cells.len() {
            self.cells[i] = value;
            self.out.write_all(b"set")
        } else {
            self.out.write_all(b"none")
        }
    }

    fn clear(&mut self) -> io::Result<()> {
        match table::clear(self.settings, self.cells) {
            Ok(()) => self.out.write_all(b"cleared"),
            Err(why) => self.refused(why),
        }
    }

    fn hold(&mut self, tag: &[u8]) -> io::Result<()> {
        match table::hold(self.settings, self.cells, self.words, tag) {
            Ok(moves) => write!(self.out, "accepted {moves}"),
            Err(why) => self.refused(why),
        }
    }

    fn release(&mut self, tag: &[u8]) -> io::Result<()> {
        match table::release(self.settings, self.cells, tag) {
            Ok(Removal::Released) => self.out.write_all(b"released"),
            Ok(Removal::Absent) => self.out.write_all(b"absent"),
            Err(why) => self.refused(why),
        }
    }

    fn lookup(&mut self, tag: &[u8]) -> io::Result<()> {
        match table::lookup(self.settings, self.cells, tag) {
            Ok(copies) => write!(self.out, "copies {copies}"),
            Err(why) => self.refused(why),
        }
    }

    fn view(&mut self, bucket: u32) -> io::Result<()> {
        let settings = self.settings;
        let cells = &mut *self.cells;
        let out = &mut *self.out;
        match bucket_view::view_check(settings, cells, bucket) {
            Ok(()) => write!(
                out,
                "{}",
                Spaced(bucket_view::view(settings, cells, bucket))
            ),
            Err(why) => write!(out, "{}", Refused(why)),
        }
    }

    fn holds(&mut self, tags: Tags) -> io::Result<()> {
        let mut t = Held::new();
        for tag in tags {
            t.add(table::hold(self.settings, self.cells, self.words, &tag));
        }
        let Held {
            accepted,
            refused,
            moves,
            longest,
            hash,
        } = t;
        write!(
            self.out,
            "accepted {accepted} refused {refused} moves {moves} longest {longest} hash {hash:016x}"
        )
    }

    fn releases(&mut self, tags: Tags) -> io::Result<()> {
        let mut t = Counted::default();
        for tag in tags {
            t.add_release(table::release(self.settings, self.cells, &tag));
        }
        let Counted {
            yes,
            no,
            refused,
            ..
        } = t;
        write!(self.out, "released {yes} absent {no} refused {refused}")
    }

    fn lookups(&mut self, tags: Tags) -> io::Result<()> {
        let mut t = Counted::default();
        for tag in tags {
            t.add_lookup(table::lookup(self.settings, self.cells, &tag));
        }
        let Counted {
            yes,
            no,
            refused,
            copies,
        } = t;
        write!(
            self.out,
            "copies {copies} held {yes} clear {no} refused {refused}"
        )
    }

    fn cells(&mut self) -> io::Result<()> {
        let cells = &mut *self.cells;
        let out = &mut *self.out;
        if cells.len() <= 64 {
            return write!(out, "{}", Spaced(cells));
        }
        let hash = hash_of_cells(cells);
        write!(out, "{hash:016x}")
    }

    // A request on one tag: its first letter tells its kind.
    fn answer_tag(&mut self, kind: u8, fields: Fields) -> io::Result<()> {
        let mut bytes = [0u8; 4096];
        let n = fields.bytes(&mut bytes);
        let tag = &bytes[..n];
        match kind {
            b'h' => self.hold(tag),
            b'r' => self.release(tag),
            b'l' => self.lookup(tag),
            _ => Ok(()),
        }
    }

    // A request on one thing: its first letter tells its kind.
    fn answer_one(&mut self, kind: u8, mut fields: Fields) -> io::Result<()> {
        match kind {
            b'd' => self.dirt(fields.word()),
            b's' => {
                let cell = fields.number(u64::MAX);
                self.set(cell, fields.half_word())
            }
            b'c' => self.clear(),
            b'v' => self.view(fields.word()),
            _ => self.answer_tag(kind, fields),
        }
    }

    // A request on many tags, or on all cells: its first letter tells its kind.
    fn answer_many(&mut self, kind: u8, mut fields: Fields) -> io::Result<()> {
        let tags = Tags {
            state: fields.number(u64::MAX),
            left: fields.number(u64::MAX),
        };
        match kind {
            b'h' => self.holds(tags),
            b'r' => self.releases(tags),
            b'l' => self.lookups(tags),
            b'c' => self.cells(),
            _ => Ok(()),
        }
    }
}

// ── the program ──

// The settings that go with each call, and how many cells and words of scratch it is lent.
#[derive(Clone, Copy)]
struct Lent {
    settings: Settings,
    cells: usize,
    words: usize,
}

impl Lent {
    fn none() -> Lent {
        Lent {
            settings: Settings::defaults(),
            cells: 0,
            words: 0,
        }
    }

    fn new(mut fields: Fields) -> Lent {
        Lent {
            settings: fields.settings(),
            cells: fields.number(u64::MAX) as usize,
            words: fields.number(u64::MAX) as usize,
        }
    }

    // Answers a request, which may change what is lent from then on. A word that ends in s stands for many.
    fn answer(
        &mut self,
        out: &mut impl Write,
        line: &[u8],
        cells: &mut [u16],
        words: &mut [u32],
    ) -> io::Result<()> {
        let mut fields = Fields::of(line);
        let word = fields.next();
        if let [b'o', ..] = word {
            *self = Lent::new(fields);
            return out.write_all(b"open");
        }
        let n = self.cells.min(cells.len());
        let w = self.words.min(words.len());
        let mut call = Call {
            out,
            settings: self.settings,
            cells: &mut cells[..n],
            words: &mut words[..w],
        };
        match word {
            [] | [b's'] => Ok(()),
            [kind, .., b's'] => call.answer_many(*kind, fields),
            [kind, ..] => call.answer_one(*kind, fields),
        }
    }
}

fn answer_lines(
    out: &mut impl Write,
    requests: &[u8],
    cells: &mut [u16],
    words: &mut [u32],
) -> io::Result<()> {
    let mut lent = Lent::none();
    for line in requests.split_inclusive(|b| *b == b'\n') {
        let line = line.strip_suffix(b"\n").unwrap_or(line);
        out.write_all(line)?;
        out.write_all(b" = ")?;
        lent.answer(out, line, cells, words)?;
        out.write_all(b"\n")?;
    }
    Ok(())
}

fn main(rt: HostRuntime) -> io::Result<()> {
    let mut requests = programs::space::<u8, 262144>(0);
    let mut cells = programs::space::<u16, 262144>(0);
    let mut words = programs::space::<u32, 131072>(0);
    let n = programs::read_full(&mut rt.stdin(), &mut requests)?;
    let mut out = rt.stdout();
    answer_lines(&mut out, &requests[..n], &mut cells, &mut words)?;
    out.flush()
}
