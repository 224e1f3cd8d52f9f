// The packed form of a table: semi-sorted buckets as a stream of bits, and back.
#![tactic(auto)]

ghost use Rattle.std.specs.Prelude.{◌≡◌, not, cond, [], ◌∷◌, ◌++◌, ◌+◌, ◌*◌, ◌-◌, ◌/◌, ◌%◌, ◌^◌, ◌<◌, ◌≤◌, min, max, eqb, length, get_or, take, drop, ℕ};
ghost use Rattle.std.proofs.Math.Option.{none};
ghost use Rattle.lemmas.specs.Bytes.{bytes_of, number_from};
ghost use Rattle.refusals.specs.Checks.{first_met};
ghost use Rattle.refusals.specs.Outcomes.{given, unless, outcome};
ghost use Rattle.refusals.specs.Refusals.{told};
ghost use Rattle.index.specs.Settings.{settings_refusal};
ghost use Rattle.rows.specs.Rows.{rows as all_rows, larger, Ascends, rank_of};
ghost use Rattle.calls.specs.Cells.{filled_count};
ghost use Rattle.calls.specs.WrittenForms.{any_from};
ghost use Rattle.packed_form.specs.Writer.{sort4, code_of, bucket_bits, length_of_packed, packed_of, write_packed};
ghost use Rattle.packed_form.specs.Reader.{bucket_from, descends, code_checks, unpack, read_packed};
ghost use Rattle.packed_form.specs.RoundTrip.{Packable};
ghost use Rattle.packed.specs.Internal.{bytes_for, BucketAsked, BucketAt, PairFits, RunFits, formed, stream_from, code_in, count_in, CellsCounted, CellsStored, Storing, Unpacked};

use index::Settings;
use refusals::Refusal;

// A width that settings which pass can have.
#[derive(Clone, Copy)]
struct Width {
    bits: u32,
    ghost low: { 4 ≤ bits },
    ghost high: { bits ≤ 16 },
}

// A bucket's cells in ascending order.
fn sorted(a: u64, b: u64, c: u64, d: u64) -> [u64; 4]
    ensures { result ≡ sort4 a b c d }
{
    let low = a.min(b);
    let high = a.max(b);
    let low2 = c.min(d);
    let high2 = c.max(d);
    let inner = low.max(low2);
    let outer = high.min(high2);
    [
        low.min(low2),
        inner.min(outer),
        inner.max(outer),
        high.max(high2),
    ]
}

// The low n bits of x.
fn low(x: u64, n: u32) -> u64
    requires { n < 64 }
    ensures { result ≡ x % 2 ^ n }
{
    x & ((1u64 << n) - 1)
}

// x with the low n bits of v put below it.
fn above(x: u64, n: u32, v: u64) -> u64
    requires { (x < 2 ^ 36) × (n ≤ 12) }
    ensures { result ≡ v % 2 ^ n + 2 ^ n * x }
{
    (x << n) + low(v, n)
}

// What the writer makes a bucket's number by: the width, and the counts by which a row is found.
#[derive(Clone, Copy)]
struct Packer<'a> {
    width: Width,
    counts: &'a [u16; 48],
    ghost counts_are: { counts.now ≡ larger },
}

impl Packer<'_> {
    // The row of an ascending quadruple of nibbles, by counting from the end: the rows whose first nibble is
    // larger, those that have the same first and a larger second, and so on.
    fn row_from(self, a: u64, b: u64, c: u64, d: u64) -> u64
        requires { (a < 16) × (b < 16) × (c < 16) × (d < 16) }
        ensures { result ≡ rank_of a b c d }
    {
        let counts = self.counts;
        let i = a as usize;
        let j = (b + 16) as usize;
        let k = (c + 32) as usize;
        let first = counts[i] as u64;
        let second = counts[j] as u64;
        let third = counts[k] as u64;
        3860 + d - first - second - third
    }

    // A sorted bucket as a number: its row, and above that the four low parts.
    fn code_of(self, a: u64, b: u64, c: u64, d: u64) -> u64
        requires { Ascends a b c d × (d < 2 ^ self.width.bits) }
        ensures { result ≡ code_of self.entry.width.bits a b c d }
    {
        let n = self.width.bits - 4;
        let row = self.row_from(a >> n, b >> n, c >> n, d >> n);
        let one = above(0, n, d);
        let two = above(one, n, c);
        let three = above(two, n, b);
        let four = above(three, n, a);
        four * 4096 + row
    }

    // The same, with the usual widths as literals: the shifts are then by constants.
    fn code_by(self, a: u64, b: u64, c: u64, d: u64) -> u64
        requires { Ascends a b c d × (d < 2 ^ self.width.bits) }
        ensures { result ≡ code_of self.entry.width.bits a b c d }
    {
        let counts = self.counts;
        match self.width.bits {
            16 => Packer {
                width: Width { bits: 16 },
                counts,
            }
            .code_of(a, b, c, d),
            12 => Packer {
                width: Width { bits: 12 },
                counts,
            }
            .code_of(a, b, c, d),
            _ => self.code_of(a, b, c, d),
        }
    }

    // The number of the bucket that starts at a cell, once it is sorted.
    fn bucket_code(self, table: &[u16], at: usize) -> u64
        requires { BucketAsked self.width.bits table.now at }
        ensures { BucketAt self.entry.width.bits table.now at result }
    {
        let a = table[at] as u64;
        let b = table[at + 1] as u64;
        let c = table[at + 2] as u64;
        let d = table[at + 3] as u64;
        let f = sorted(a, b, c, d);
        self.code_by(f[0], f[1], f[2], f[3])
    }

    // The pairs of buckets from one to another, sorted, to the output.
    fn write_run(self, table: &[u16], out: &mut [u8], from: usize, to: usize, words: bool)
        requires { RunFits self.width.bits table.now (length out.old) from to words }
        ensures { formed self.entry.width.bits table.now to out.new ≡ formed self.entry.width.bits table.now from out.old }
    {
        let step = (self.width.bits - 1) as usize;
        for p in from..to {
            let one = self.bucket_code(table, 8 * p);
            let two = self.bucket_code(table, 8 * p + 4);
            write_pair(&mut out[step * p..], self.width, one, two, words);
        }
    }
}

// The low bytes of a word, to the start of a part of the output. They are shifted out one by one: a copy would want `memcpy` of whoever
// links the library for C.
fn emit(part: &mut [u8], word: u64, count: usize)
    requires { (count ≤ 8) × (count ≤ length part.old) }
    ensures { part.new ≡ bytes_of count word ++ drop count part.old }
{
    let mut rest = word;
    for i in 0..count {
        part[i] = (rest % 256) as u8;
        rest /= 256;
    }
}

// All the bytes of a word, in one store.
fn emit_word(part: &mut [u8], word: u64)
    requires { 8 ≤ length part.old }
    ensures { part.new ≡ bytes_of 8 word ++ drop 8 part.old }
{
    part[..8].copy_from_slice(&word.to_le_bytes());
}

// Two buckets to the start of a part of the output: they take w − 1 whole bytes. As words, where these fit the part:
// their bytes past the two buckets belong to later ones.
fn write_pair(part: &mut [u8], width: Width, one: u64, two: u64, words: bool)
    requires { PairFits width.bits one two words (length part.old) }
    ensures { take (width.bits - 1) part.new ≡ bytes_of (width.bits - 1) (one + 2 ^ bucket_bits width.bits * two) }
{
    let w = width.bits;
    let half = (w - 1) / 2;
    let skip = (w - 1) % 2 * 4;
    let first = half as usize;
    let last = (w - 1 - half) as usize;
    let rest = (one >> (half * 8)) + (two << skip);
    if words {
        emit_word(part, one);
        emit_word(&mut part[first..], rest);
        return;
    }
    emit(part, one, first);
    emit(&mut part[first..], rest, last);
}

// How many pairs of buckets have two pairs after them. Three pairs take nine bytes or more, so that a word
// that starts in the second bucket of such a pair ends in the form.
fn ahead(m: usize) -> usize
    ensures { result ≡ (m - 4) / 2 }
{
    m.saturating_sub(4) / 2
}

// Every bucket, sorted, to an output of their length: two at a time, and by words as far as these fit. Only a table of
// one bucket has none to go with it.
fn write_buckets(s: Settings, table: &[u16], out: &mut [u8])
    requires { Packable s table.now × (length out.old ≡ length_of_packed s) }
    ensures { out.new ≡ packed_of s table.now }
{
    let m = s.buckets as usize;
    let counts = rows::counts();
    let width = Width { bits: s.width };
    let packer = Packer {
        width,
        counts: &counts,
    };
    let pairs = m / 2;
    let many = ahead(m);
    packer.write_run(table, out, 0, many, true);
    packer.write_run(table, out, many, pairs, false);
    if m % 2 == 1 {
        let at = ((s.width - 1) as usize) * pairs;
        let one = packer.bucket_code(table, 8 * pairs);
        emit(&mut out[at..], one, (s.width / 2) as usize);
    }
}

// Whether some cell does not fit the width: the highest tells.
fn too_wide(width: Width, table: &[u16]) -> bool
    ensures { result ≡ any_from (2 ^ width.bits) table.now }
{
    let mut top = 0u16;
    for v in table {
        top = top.max(*v);
    }
    u32::from(top) >= 1u32 << width.bits
}

// How many bytes the buckets take.
fn packed_length(s: Settings) -> usize
    requires { settings_refusal s ≡ none }
    ensures { result ≡ length_of_packed s }
{
    let w = s.width;
    let m = s.buckets as usize;
    let size = (4 * (w - 1)) as usize;
    (size * m + 7) / 8
}

// The packed form of a table to the output, whose later bytes stay as they are: how many bytes it has.
pub fn write(s: Settings, table: &[u16], out: &mut [u8]) -> Result<usize, Refusal>
    ensures { outcome (told result) out.new ≡ write_packed s table.now out.old }
{
    table::table_check(s, table)?;
    if too_wide(Width { bits: s.width }, table) {
        return Err(Refusal::WideCell);
    }
    let needed = packed_length(s);
    if out.len() < needed {
        return Err(Refusal::Output);
    }
    write_buckets(s, table, &mut out[..needed]);
    Ok(needed)
}

// The number of the eight bytes from a place on.
fn word_ahead(bytes: &[u8], at: usize) -> u64
    requires { at + 8 ≤ length bytes.now }
    ensures { result ≡ number_from (drop at bytes.now) % 2 ^ 64 }
{
    u64::from_le_bytes(*bytes[at..at + 8].first_chunk().unwrap())
}

// A byte, or 0 past the end.
fn byte_or(bytes: &[u8], at: usize) -> u8
    ensures { result ≡ get_or bytes.now at 0 }
{
    bytes.get(at).copied().unwrap_or(0)
}

// The number of the eight bytes from a place on where there may be fewer: zeros follow.
fn word_at(bytes: &[u8], at: usize) -> u64
    requires { at ≤ length bytes.now }
    ensures { result ≡ number_from (drop at bytes.now) % 2 ^ 64 }
{
    u64::from_le_bytes([
        byte_or(bytes, at),
        byte_or(bytes, at + 1),
        byte_or(bytes, at + 2),
        byte_or(bytes, at + 3),
        byte_or(bytes, at + 4),
        byte_or(bytes, at + 5),
        byte_or(bytes, at + 6),
        byte_or(bytes, at + 7),
    ])
}

// A quadruple's nibbles, each as the highest of a word's 16 bits, the first lowest. The product has the
// quadruple four times, 20 bits apart, so that the nibbles stand right and the mask takes them out.
fn nibbles(q: u16) -> u64
    ensures { result ≡ 4096 * (q / 4096 + 65536 * (q / 256 % 16 + 65536 * (q / 16 % 16 + 65536 * (q % 16)))) }
{
    let x = q as u64;
    (x * 1099512676353 + (x << 60)) & 17294086455919964160
}

// The four fields of n bits of a number, 16 bits each: first two and two are moved apart, then all four.
fn fields(n: u32, x: u64) -> u64
    requires { n ≤ 12 }
    ensures { result ≡ x % 2 ^ n + 65536 * (x / 2 ^ n % 2 ^ n + 65536 * (x / 2 ^ (n * 2) % 2 ^ n + 65536 * (x / 2 ^ (n * 3) % 2 ^ n))) }
{
    let half = n * 2;
    let one = (1u64 << n) - 1;
    let pairs = low(x, half) + low(x >> half, half) * 4294967296;
    let lower = pairs & (one * 4294967297);
    lower + ((pairs - lower) << (16 - n))
}

// Whether one of four values is above the next.
fn descending(f: &[u16; 4]) -> bool
    ensures { result ≡ descends f.now }
{
    (f[1] < f[0]) | (f[2] < f[1]) | (f[3] < f[2])
}

// How many of four cells are filled.
fn filled(f: &[u16; 4]) -> usize
    ensures { result ≡ filled_count f.now }
{
    usize::from(f[0] != 0)
        + usize::from(f[1] != 0)
        + usize::from(f[2] != 0)
        + usize::from(f[3] != 0)
}

// One bucket's cells, to the part that is lent for it, so that no other is in reach. One by one they become one store;
// `copy_from_slice` tests for overlap.
fn put(part: &mut [u16], f: [u16; 4])
    requires { length part.old ≡ 4 }
    ensures { part.new ≡ f }
{
    part[0] = f[0];
    part[1] = f[1];
    part[2] = f[2];
    part[3] = f[3];
}

// How many buckets passed, and how many of their cells are filled.
#[derive(Clone, Copy)]
struct Seen {
    buckets: usize,
    count: usize,
}

// What the reader goes by: the width, the rows, and an input of the length that so many buckets take.
#[derive(Clone, Copy)]
struct Unpacker<'a> {
    width: Width,
    buckets: usize,
    quads: &'a [u16; 3876],
    bytes: &'a [u8],
    ghost some: { 1 ≤ buckets },
    ghost few: { buckets ≤ 65536 },
    ghost quads_are: { quads.now ≡ all_rows },
    ghost size: { length bytes.now ≡ bytes_for width.bits buckets },
    ghost in_range: { (i : ℕ) → get_or bytes.now i 0 < 256 },
}

impl Unpacker<'_> {
    // The number of bucket b, from the bytes in which it lies.
    fn code_at(self, b: usize) -> u64
        requires { b < self.buckets }
        ensures { result ≡ code_in self.entry.width.bits (number_from self.entry.bytes.now) b }
    {
        let w = self.width.bits;
        let half = ((w - 1) as usize) * b;
        let at = half / 2;
        let skip = ((half % 2) as u32) * 4;
        low(word_at(self.bytes, at) >> skip, 4 * (w - 1))
    }

    // The numbers of the two buckets of a pair ahead: a word fits that starts in the second.
    fn pair_ahead(self, p: usize) -> (u64, u64)
        requires { p < (self.buckets - 4) / 2 }
        ensures first { result.0 ≡ code_in self.entry.width.bits (number_from self.entry.bytes.now) (2 * p) }
        ensures second { result.1 ≡ code_in self.entry.width.bits (number_from self.entry.bytes.now) (2 * p + 1) }
    {
        let w = self.width.bits;
        let half = ((w - 1) / 2) as usize;
        let skip = (w - 1) % 2 * 4;
        let size = 4 * (w - 1);
        let at = ((w - 1) as usize) * p;
        let one = word_ahead(self.bytes, at);
        let two = word_ahead(self.bytes, at + half);
        (low(one, size), low(two >> skip, size))
    }

    // The four fingerprints of a bucket's number, made side by side in one word.
    fn bucket_from(self, code: u64) -> [u16; 4]
        requires { code % 4096 < 3876 }
        ensures { result ≡ bucket_from self.entry.width.bits code }
    {
        let w = self.width.bits;
        let quads = self.quads;
        let row = (code % 4096) as usize;
        let high = nibbles(quads[row]);
        let low = fields(w - 4, code / 4096);
        let all = (high >> (16 - w)) + low;
        [
            (all % 65536) as u16,
            (all / 65536 % 65536) as u16,
            (all / 4294967296 % 65536) as u16,
            (all / 281474976710656) as u16,
        ]
    }

    // One bucket checked: how many of its cells are filled.
    fn check_code(self, code: u64) -> Result<usize, Refusal>
        ensures { told result ≡ unless (first_met (code_checks self.entry.width.bits code)) (given (filled_count (bucket_from self.entry.width.bits code))) }
    {
        if code % 4096 >= 3876 {
            return Err(Refusal::Row);
        }
        let f = self.bucket_from(code);
        if descending(&f) {
            return Err(Refusal::Order);
        }
        Ok(filled(&f))
    }

    // Whether a bit behind the last bucket is set: there are four if the buckets take an odd number of half bytes.
    fn filling_set(self) -> bool
        ensures { result ≡ not (eqb (stream_from self.entry.width.bits (number_from self.entry.bytes.now) self.entry.buckets) 0) }
    {
        let half = ((self.width.bits - 1) as usize) * self.buckets;
        let bytes = self.bytes;
        let last = bytes[bytes.len() - 1];
        if half % 2 == 0 {
            return false;
        }
        last >= 16
    }

    // The pairs ahead checked, up to a bucket that does not pass. Its refusal is found by the next loop: kept in this one,
    // it makes reading take a third longer.
    #[inline(always)]
    fn check_pairs(self) -> Seen
        ensures { CellsCounted self.entry.width.bits self.entry.buckets (number_from self.entry.bytes.now) result.count result.buckets }
    {
        let many = ahead(self.buckets);
        let mut count = 0;
        for p in 0..many {
            let (one, two) = self.pair_ahead(p);
            let Ok(n) = self.check_code(one) else {
                return Seen {
                    buckets: 2 * p,
                    count,
                };
            };
            count += n;
            let Ok(n) = self.check_code(two) else {
                return Seen {
                    buckets: 2 * p + 1,
                    count,
                };
            };
            count += n;
        }
        Seen {
            buckets: 2 * many,
            count,
        }
    }

    // Every bucket checked and the filling after them: how many cells are filled.
    #[inline(always)]
    fn check(self) -> Result<usize, Refusal>
        ensures { told result ≡ count_in (unpack self.entry.width.bits self.entry.buckets (number_from self.entry.bytes.now)) }
    {
        let Seen { buckets, mut count } = self.check_pairs();
        for b in buckets..self.buckets {
            count += self.check_code(self.code_at(b))?;
        }
        if self.filling_set() {
            return Err(Refusal::Filling);
        }
        Ok(count)
    }

    // One bucket to the table, from its number.
    fn store_code(self, code: u64, table: &mut [u16], at: usize)
        requires { (code % 4096 < 3876) × (at + 4 ≤ length table.old) }
        ensures { table.new ≡ take at table.old ++ (bucket_from self.entry.width.bits code ++ drop (at + 4) table.old) }
    {
        let e = at + 4;
        put(&mut table[at..e], self.bucket_from(code));
    }

    // The pairs ahead of a stream that passed, to the table.
    #[inline(always)]
    fn store_pairs(self, table: &mut [u16])
        requires { Storing self.width.bits self.buckets (number_from self.bytes.now) table.old }
        ensures { CellsStored self.entry.width.bits self.entry.buckets (number_from self.entry.bytes.now) table.new (2 * ((self.entry.buckets - 4) / 2)) }
    {
        for p in 0..ahead(self.buckets) {
            let (one, two) = self.pair_ahead(p);
            self.store_code(one, table, 8 * p);
            self.store_code(two, table, 8 * p + 4);
        }
    }

    // Every bucket of a stream that passed, to the table.
    #[inline(always)]
    fn store(self, table: &mut [u16])
        requires { Storing self.width.bits self.buckets (number_from self.bytes.now) table.old }
        ensures { given table.new ≡ unpack self.entry.width.bits self.entry.buckets (number_from self.entry.bytes.now) }
    {
        self.store_pairs(table);
        for b in 2 * ahead(self.buckets)..self.buckets {
            self.store_code(self.code_at(b), table, 4 * b);
        }
    }

    // The cells of an input that passes, to the table: how many are filled. It is inlined with what it calls, so that a
    // literal width reaches their shifts.
    #[inline(always)]
    fn unpack(self, table: &mut [u16]) -> Result<usize, Refusal>
        requires { length table.old ≡ 4 * self.buckets }
        ensures { Unpacked (unpack self.entry.width.bits self.entry.buckets (number_from self.entry.bytes.now)) table.old (told result) table.new }
    {
        let count = self.check()?;
        self.store(table);
        Ok(count)
    }

    // The same, with the usual widths as literals.
    fn unpack_by(self, table: &mut [u16]) -> Result<usize, Refusal>
        requires { length table.old ≡ 4 * self.buckets }
        ensures { Unpacked (unpack self.entry.width.bits self.entry.buckets (number_from self.entry.bytes.now)) table.old (told result) table.new }
    {
        let Unpacker {
            width,
            buckets,
            quads,
            bytes,
        } = self;
        match width.bits {
            16 => Unpacker {
                width: Width { bits: 16 },
                buckets,
                quads,
                bytes,
            }
            .unpack(table),
            12 => Unpacker {
                width: Width { bits: 12 },
                buckets,
                quads,
                bytes,
            }
            .unpack(table),
            _ => self.unpack(table),
        }
    }
}

// The table that a packed form has, its buckets sorted: how many cells are filled. The table is written once the whole
// input has passed.
pub fn read(s: Settings, bytes: &[u8], table: &mut [u16]) -> Result<usize, Refusal>
    ensures { outcome (told result) table.new ≡ read_packed s bytes.now table.old }
{
    table::table_check(s, table)?;
    let needed = packed_length(s);
    if bytes.len() < needed {
        return Err(Refusal::EndsEarly);
    }
    if bytes.len() > needed {
        return Err(Refusal::GoesOn);
    }
    let quads = rows::table();
    let width = Width { bits: s.width };
    Unpacker {
        width,
        buckets: s.buckets as usize,
        quads: &quads,
        bytes,
    }
    .unpack_by(table)
}
