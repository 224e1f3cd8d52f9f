// The hold file: a table written as bytes, and read back. Numbers of two bytes have the low byte first.
#![tactic(auto)]

ghost use Rattle.std.specs.Prelude.{◌≡◌, cond, ◌&&◌, ◌||◌, ◌+◌, ◌*◌, ◌%◌, ◌^◌, ◌<◌, ◌≤◌, eqb, leb, length, drop, get_or};
ghost use Rattle.std.proofs.lemmas.List.Edits.{sets};
ghost use Rattle.lemmas.specs.Stores.{PutBefore};
ghost use Rattle.refusals.specs.Outcomes.{outcome, keeping};
ghost use Rattle.refusals.specs.Refusals.{told, refused_by};
ghost use Rattle.file_form.specs.Bytes.{nibble as nibble_of};
ghost use Rattle.file_form.specs.Parsed.{next, and_then};
ghost use Rattle.file_form.specs.Writer.{cell_bytes, body, write_file};
ghost use Rattle.file_form.specs.Reader.{take_byte, take_pair, read_cell, read_bucket, read_buckets, after_buckets, read_file};
ghost use Rattle.holdfile.specs.Answers.{Examined};
ghost use Rattle.holdfile.specs.Internal.{field_is, slack, pass_is, end_of, stop_of, pair_from, GivesCells, cells_read, bucket_size, GoodAt, bytes_of_bucket};

use index::Settings;
use refusals::Refusal;

// The bytes of a fingerprint where it is there.
fn print_size(stands: bool) -> usize
    ensures { (result ≡ cond stands 2 0) × (result ≤ 2) }
{
    2 * usize::from(stands)
}

// ── the writer ──

// Four bits as a number.
fn nibble(a: bool, b: bool, c: bool, d: bool) -> u8
    ensures { result ≡ nibble_of a b c d }
{
    u8::from(a) + 2 * u8::from(b) + 4 * u8::from(c) + 8 * u8::from(d)
}

// A cell, which takes two bytes where it is filled. Where more is still to be stored behind it, ahead, both bytes are stored in any case
// and an empty cell's are stored over: whether a cell is filled is then no branch.
fn put_cell(out: &mut [u8], at: usize, x: u16, ahead: bool) -> usize
    requires { at + length (cell_bytes x) + slack ahead ≤ length out.old }
    ensures { PutBefore (slack ahead) out.old out.new at (cell_bytes x) result }
{
    let next = at + print_size(x != 0);
    if ahead | (x != 0) {
        let [low, high] = x.to_le_bytes();
        out[at] = low;
        out[at + 1] = high;
    }
    next
}

// A bucket of four cells. Its size is added up apart: the places of all later buckets wait for it.
fn put_bucket(out: &mut [u8], at: usize, cells: &[u16], ahead: bool) -> usize
    requires { (length cells.now ≡ 4) × (at + length (bytes_of_bucket cells.now) + slack ahead ≤ length out.old) }
    ensures { PutBefore (slack ahead) out.old out.new at (bytes_of_bucket cells.now) result }
{
    let a = cells[0];
    let b = cells[1];
    let c = cells[2];
    let d = cells[3];
    let marks = nibble(a != 0, b != 0, c != 0, d != 0);
    let low = print_size(a != 0) + print_size(b != 0);
    let high = print_size(c != 0) + print_size(d != 0);
    out[at] = marks;
    let second = put_cell(out, at + 1, a, ahead);
    let third = put_cell(out, second, b, ahead);
    let fourth = put_cell(out, third, c, ahead);
    put_cell(out, fourth, d, ahead);
    at + (1 + low + high)
}

// The second pass over the cells. Behind every bucket but the last two at least two bytes are still to be stored.
fn put_body(out: &mut [u8], from: usize, table: &[u16])
    requires { (length table.now % 4 ≡ 0) × (from + length (body table.now) ≤ length out.old) }
    ensures { out.new ≡ sets out.old from (body table.now) }
{
    let (front, last) = table.split_at(table.len().saturating_sub(8));
    let mut at = from;
    for cells in front.chunks_exact(4) {
        at = put_bucket(out, at, cells, true);
    }
    for cells in last.chunks_exact(4) {
        at = put_bucket(out, at, cells, false);
    }
}

// The table as a file: its byte count. Nothing is written before every check has passed: those of its length, and then the output's.
pub fn write(s: Settings, table: &[u16], out: &mut [u8]) -> Result<usize, Refusal>
    ensures { outcome (told result) out.new ≡ write_file s table.now out.old }
{
    let needed = file_length::file_length(s, table)?;
    if out.len() < needed {
        return Err(Refusal::Output);
    }
    let at = file_header::put_header(s, out);
    put_body(out, at, table);
    Ok(needed)
}

// ── the reader ──

// One byte, and the place after it.
fn byte_at(bytes: &[u8], at: usize) -> Option<(u8, usize)>
    ensures { field_is bytes.now result ≡ take_byte (drop at bytes.now) }
{
    let x = *bytes.get(at)?;
    Some((x, at + 1))
}

// A number of two bytes, and the place after it.
fn pair_at(bytes: &[u8], at: usize) -> Option<(u16, usize)>
    ensures { field_is bytes.now result ≡ take_pair (drop at bytes.now) }
{
    let low = *bytes.get(at)?;
    let high = *bytes.get(at + 1)?;
    Some((u16::from_le_bytes([low, high]), at + 2))
}

// The bytes of a bucket by the byte that marks its cells: digit by digit of one word, for 15 down to 0. A sum of the four marks would be
// right as well, but takes longer, and the place of every later bucket waits for it.
fn bucket_size(marks: u8) -> usize
    ensures { result ≡ bucket_size marks }
{
    let digit = u32::from(marks % 16) * 4;
    ((10913758273313395505u64 >> digit) % 16) as usize
}

// Two bytes from a place on, each 0 past the end. Where they are known to be there, ahead, that is not asked.
fn pair_from(bytes: &[u8], at: usize, ahead: bool) -> u16
    requires { at + cond ahead 2 0 ≤ length bytes.now }
    ensures { result ≡ pair_from bytes.now at }
{
    if ahead {
        return u16::from_le_bytes([bytes[at], bytes[at + 1]]);
    }
    let low = bytes.get(at).copied().unwrap_or(0);
    let high = bytes.get(at + 1).copied().unwrap_or(0);
    u16::from_le_bytes([low, high])
}

// A cell's value, or 0 where it is not marked.
fn pick(stands: bool, v: u16) -> u16
    ensures { result ≡ cond stands v 0 }
{
    if stands { v } else { 0 }
}

// The buckets behind a header: the file's bytes, the place where they start, the width of their fingerprints, and how many there are.
#[derive(Clone, Copy)]
struct Body<'a> {
    bytes: &'a [u8],
    from: usize,
    width: u32,
    count: u32,
    ghost narrow: { width ≤ 16 },
}

impl<'a> Body<'a> {
    // A fingerprint that no filled cell of the width has.
    fn unfit(self, marked: bool, v: u16) -> bool
        ensures { result ≡ (marked && (eqb v 0 || leb (2 ^ self.entry.width) v)) }
    {
        marked & ((v == 0) | (u32::from(v) >= 1 << self.width))
    }

    // The place after a cell. One that is not marked takes no bytes.
    fn cell_end(self, at: usize, marked: bool) -> Result<usize, Refusal>
        ensures { pass_is self.entry.bytes.now result ≡ end_of (read_cell self.entry.width marked (drop at self.entry.bytes.now)) }
    {
        if !marked {
            return Ok(at);
        }
        let Some((v, end)) = pair_at(self.bytes, at) else {
            return Err(Refusal::EndsEarly);
        };
        if self.unfit(true, v) {
            return Err(Refusal::Fingerprint);
        }
        Ok(end)
    }

    // The place after a bucket, cell by cell.
    fn bucket_by_cells(self, at: usize) -> Result<usize, Refusal>
        ensures { pass_is self.entry.bytes.now result ≡ end_of (read_bucket self.entry.width (drop at self.entry.bytes.now)) }
    {
        let Some((m, first)) = byte_at(self.bytes, at) else {
            return Err(Refusal::EndsEarly);
        };
        if m >= 16 {
            return Err(Refusal::Marks);
        }
        let second = self.cell_end(first, m % 2 == 1)?;
        let third = self.cell_end(second, m / 2 % 2 == 1)?;
        let fourth = self.cell_end(third, m / 4 % 2 == 1)?;
        self.cell_end(fourth, m / 8 % 2 == 1)
    }

    // Does a good bucket stand at a place? The four tests are made in any case, on bytes that are there, and no branch depends on them.
    fn good_at(self, at: usize) -> bool
        requires { at + 9 ≤ length self.bytes.now }
        ensures { GoodAt self.entry.width self.entry.bytes.now at result }
    {
        let m = self.bytes[at];
        let first = at + 1;
        let second = first + print_size(m % 2 == 1);
        let third = second + print_size(m / 2 % 2 == 1);
        let fourth = third + print_size(m / 4 % 2 == 1);
        let a = pair_from(self.bytes, first, true);
        let b = pair_from(self.bytes, second, true);
        let c = pair_from(self.bytes, third, true);
        let d = pair_from(self.bytes, fourth, true);
        let low = self.unfit(m % 2 == 1, a) | self.unfit(m / 2 % 2 == 1, b);
        let high = self.unfit(m / 4 % 2 == 1, c) | self.unfit(m / 8 % 2 == 1, d);
        !((m >= 16) | low | high)
    }

    // The place after a bucket. One that is good and not near the end of the bytes is passed at once; any other cell by cell, which
    // finds the refusal.
    fn bucket_end(self, at: usize) -> Result<usize, Refusal>
        ensures { pass_is self.entry.bytes.now result ≡ end_of (read_bucket self.entry.width (drop at self.entry.bytes.now)) }
    {
        let n = self.bytes.len();
        if n >= 9 && at <= n - 9 && self.good_at(at) {
            return Ok(at + bucket_size(self.bytes[at]));
        }
        self.bucket_by_cells(at)
    }

    // The first pass: the place after the buckets. It checks, and stores nothing.
    fn end(self) -> Result<usize, Refusal>
        ensures { pass_is self.entry.bytes.now result ≡ end_of (read_buckets self.entry.width self.entry.count (drop self.entry.from self.entry.bytes.now)) }
    {
        let mut at = self.from;
        for _ in 0..self.count {
            at = self.bucket_end(at)?;
        }
        Ok(at)
    }

    // Are the buckets sound, with nothing left over behind them?
    fn check(self) -> Result<(), Refusal>
        ensures { (s : Settings) → refused_by result ≡ stop_of (and_then (read_buckets self.entry.width self.entry.count (drop self.entry.from self.entry.bytes.now)) (after_buckets s)) }
    {
        let end = self.end()?;
        if end < self.bytes.len() {
            return Err(Refusal::GoesOn);
        }
        Ok(())
    }

    // One bucket into the part that is lent for it, so that no other is in reach; the place after it. The first pass has met no refusal,
    // so nothing is checked again.
    fn store_bucket(self, at: usize, part: &mut [u16], ahead: bool) -> usize
        requires { (length part.old ≡ 4) × (at + cond ahead 9 0 ≤ length self.bytes.now) × GivesCells (read_bucket self.width (drop at self.bytes.now)) }
        ensures { read_bucket self.entry.width (drop at self.entry.bytes.now) ≡ next part.new (drop result self.entry.bytes.now) }
    {
        let m = self.bytes[at];
        let first = at + 1;
        let second = first + print_size(m % 2 == 1);
        let third = second + print_size(m / 2 % 2 == 1);
        let fourth = third + print_size(m / 4 % 2 == 1);
        let a = pick(m % 2 == 1, pair_from(self.bytes, first, ahead));
        let b = pick(m / 2 % 2 == 1, pair_from(self.bytes, second, ahead));
        let c = pick(m / 4 % 2 == 1, pair_from(self.bytes, third, ahead));
        let d = pick(m / 8 % 2 == 1, pair_from(self.bytes, fourth, ahead));
        part[0] = a;
        part[1] = b;
        part[2] = c;
        part[3] = d;
        at + bucket_size(m)
    }

    // The second pass: every bucket into the table. Behind all but the last eight stand eight bytes at least, one for each bucket.
    fn store(self, table: &mut [u16])
        requires { (length table.old ≡ 4 * self.count) × GivesCells (read_buckets self.width self.count (drop self.from self.bytes.now)) }
        ensures { table.new ≡ cells_read (read_buckets self.entry.width self.entry.count (drop self.entry.from self.entry.bytes.now)) }
    {
        let count = self.count as usize;
        let most = count.saturating_sub(8);
        let mut at = self.from;
        for bucket in 0..most {
            let i = 4 * bucket;
            let e = i + 4;
            at = self.store_bucket(at, &mut table[i..e], true);
        }
        for bucket in most..count {
            let i = 4 * bucket;
            let e = i + 4;
            at = self.store_bucket(at, &mut table[i..e], false);
        }
    }
}

// A file's settings, with its cells in the table. The table is written once the whole file has passed.
pub fn read(bytes: &[u8], table: &mut [u16]) -> Result<Settings, Refusal>
    ensures { outcome (told result) table.new ≡ read_file bytes.now table.old }
{
    let (s, at) = file_header::header_at(bytes)?;
    table::table_check(s, table)?;
    let body = Body {
        bytes,
        from: at,
        width: s.width,
        count: s.buckets,
    };
    body.check()?;
    body.store(table);
    Ok(s)
}

// A file by itself, without a table: the settings that its header names and the place where its buckets start, where the whole is sound
// by the former checks of the settings: a file that was written under a degenerate mask passes.
pub fn examine(bytes: &[u8]) -> Result<(Settings, usize), Refusal>
    ensures { Examined bytes.now result }
{
    let (s, at) = file_header::header_at(bytes)?;
    s.former_check()?;
    let body = Body {
        bytes,
        from: at,
        width: s.width,
        count: s.buckets,
    };
    body.check()?;
    Ok((s, at))
}
