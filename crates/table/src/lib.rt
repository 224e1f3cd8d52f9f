// The table of a cuckoo filter: clear, lookup, release and hold over cells that the caller lends. Bucket
// b is cells 4b to 4b + 3, and 0 is an empty cell.
#![tactic(auto)]

ghost use Rattle.std.specs.Prelude.{◌≡◌, cond, ℕ, ◌+◌, ◌*◌, ◌/◌, ◌%◌, ◌^◌, ◌<◌, ◌≤◌, eqb, length, set};
ghost use Rattle.std.specs.List.{list_any};
ghost use Rattle.std.proofs.Math.Option.{none, some};
ghost use Rattle.lemmas.specs.Count.{◌among◌};
ghost use Rattle.lemmas.specs.Sums.{total_once};
ghost use Rattle.refusals.specs.Checks.{first_met};
ghost use Rattle.refusals.specs.Outcomes.{outcome};
ghost use Rattle.refusals.specs.Refusals.{refused_by};
ghost use Rattle.calls.specs.Cells.{scan as scan_of, copies_at, lowest_at, in_first, filled_count};
ghost use Rattle.calls.specs.Calls.{table_checks, clear_table, lookup as lookup_of, release as release_of};
ghost use Rattle.table.specs.Answers.{clear_is, lookup_is, release_is};
ghost use Rattle.table.specs.Internal.{place_is, scanned_is};

use index::Settings;
use refusals::Refusal;

mod queue;
mod search;

pub use search::{hold, probe};

// What the scan of a bucket reports: how many of its cells hold the fingerprint, and the lowest of them.
#[derive(Clone, Copy)]
struct Scanned {
    copies: u32,
    lowest: Option<usize>,
}

// Where the entry of a tag would go: to an empty cell of one of its candidates; to one at the end of a relocation path, with how many
// entries of the queue are roots and the queue index of the cell's bucket; or nowhere, with the number of buckets marked.
#[derive(Clone, Copy, Debug, PartialEq, Eq)]
pub enum Placement {
    Free {
        print: u16,
        cell: usize,
    },
    Path {
        print: u16,
        cell: usize,
        roots: usize,
        last: usize,
    },
    Exhausted(usize),
}

// What a release finds: a copy, which it takes out, or none.
#[derive(Clone, Copy, Debug, PartialEq, Eq)]
pub enum Removal {
    Released,
    Absent,
}

// The checks of settings and table. Every form of a table checks by it.
pub fn table_check(s: Settings, table: &[u16]) -> Result<(), Refusal>
    ensures { refused_by result ≡ first_met (table_checks s table.now) }
{
    s.check()?;
    let m = s.buckets as usize;
    if table.len() != 4 * m {
        return Err(Refusal::Cells);
    }
    Ok(())
}

// Four tests, one for each cell of a bucket: how many of them hold.
fn copies(x: bool, y: bool, z: bool, u: bool) -> u32
    ensures { result ≡ cond x 1 0 + cond y 1 0 + cond z 1 0 + cond u 1 0 }
{
    u32::from(x) + u32::from(y) + u32::from(z) + u32::from(u)
}

// Which of the four is the first that holds, where one does.
fn first(x: bool, y: bool, z: bool) -> usize
    ensures { (result ≡ cond x 0 (cond y 1 (cond z 2 3))) × (result ≤ 3) }
{
    if x {
        0
    } else if y {
        1
    } else if z {
        2
    } else {
        3
    }
}

// The cell of the first that holds, in the bucket that starts at cell a. There is one branch for all
// four.
fn lowest(a: usize, x: bool, y: bool, z: bool, u: bool) -> Option<usize>
    requires { a + 3 < 2 ^ 64 }
    ensures { place_is result ≡ cond x (some a) (cond y (some (a + 1)) (cond z (some (a + 2)) (cond u (some (a + 3)) none))) }
{
    if x | y | z | u {
        Some(a + first(x, y, z))
    } else {
        None
    }
}

// The scan of bucket b for p. All four cells are compared before anything is decided, so that no
// branch waits for one of them.
fn scan(table: &[u16], b: usize, p: u16) -> Scanned
    requires { 4 * b + 4 ≤ length table.now }
    ensures { scanned_is result ≡ scan_of table.now p b }
{
    let a = 4 * b;
    let x = table[a] == p;
    let y = table[a + 1] == p;
    let z = table[a + 2] == p;
    let u = table[a + 3] == p;
    Scanned {
        copies: copies(x, y, z, u),
        lowest: lowest(a, x, y, z, u),
    }
}

// Whether b is one of the buckets. The slice's own `contains` answers the same, but looks at several at once, and so waits until the
// list that was just made has reached memory: a lookup of four candidates takes a seventh longer by it.
fn listed(buckets: &[u32], b: u32) -> bool
    ensures { result ≡ list_any (λ x. eqb x b) buckets.now }
{
    for &x in buckets {
        if x == b {
            return true;
        }
    }
    false
}

// How many copies of p the listed buckets hold, each bucket counted once however often it is listed.
fn count(table: &[u16], buckets: &[u32], p: u16) -> u32
    requires { (length buckets.now ≤ 4) × ((b : ℕ) → b among buckets.now → 4 * b + 4 ≤ length table.now) }
    ensures { result ≡ total_once (length table.now / 4) (copies_at table.now p) buckets.now }
{
    let mut n = 0;
    for (at, b) in buckets.iter().enumerate() {
        if !listed(&buckets[..at], *b) {
            n += scan(table, *b as usize, p).copies;
        }
    }
    n
}

// The lowest cell with p in the first of the listed buckets that has one.
fn find(table: &[u16], buckets: &[u32], p: u16) -> Option<usize>
    requires { (b : ℕ) → b among buckets.now → 4 * b + 4 ≤ length table.now }
    ensures { place_is result ≡ in_first (lowest_at table.now p) buckets.now }
{
    for b in buckets {
        let lowest = scan(table, *b as usize, p).lowest;
        if let Some(i) = lowest {
            return Some(i);
        }
    }
    None
}

// One cell of a bucket, which is lent as its four cells. A single store, with no value in between: what an interrupted hold leaves rests on that,
// and the contract does not say it.
fn put(part: &mut [u16], i: usize, v: u16)
    requires { (length part.old ≡ 4) × (i < 4) }
    ensures { part.new ≡ set part.old i v }
{
    part[i] = v;
}

// A cell is written through its bucket, so that no other bucket is in reach.
fn write_cell(table: &mut [u16], at: usize, v: u16)
    requires { (at < length table.old) × (length table.old % 4 ≡ 0) }
    ensures { table.new ≡ set table.old at v }
{
    let b = at / 4;
    let a = 4 * b;
    let e = a + 4;
    put(&mut table[a..e], at - a, v);
}

// Every cell empty. The slice's own `fill` stores the last cell apart from the others.
pub fn clear(s: Settings, table: &mut [u16]) -> Result<(), Refusal>
    ensures { outcome (clear_is result) table.new ≡ clear_table s table.old }
{
    table_check(s, table)?;
    for cell in table.iter_mut() {
        *cell = 0;
    }
    Ok(())
}

// How many cells are filled: the entries of a table, of any length. A chain of filter and count takes half as long again.
pub fn filled(table: &[u16]) -> usize
    ensures { result ≡ filled_count table.now }
{
    let mut n = 0;
    for v in table {
        if *v != 0 {
            n += 1;
        }
    }
    n
}

// How many copies of the tag's fingerprint its candidate buckets hold: the tag is held where there is one.
pub fn lookup(s: Settings, table: &[u16], tag: &[u8]) -> Result<u32, Refusal>
    ensures { outcome (lookup_is result) table.now ≡ lookup_of s table.now tag.now }
{
    table_check(s, table)?;
    let entry = index::entry_of(s, tag)?;
    let list = index::candidates(s, entry.print, entry.home).unwrap();
    Ok(count(table, list.as_slice(), entry.print))
}

// One copy of the tag's fingerprint is taken out: the lowest in the first candidate that has one.
pub fn release(s: Settings, table: &mut [u16], tag: &[u8]) -> Result<Removal, Refusal>
    ensures { outcome (release_is result) table.new ≡ release_of s table.old tag.now }
{
    table_check(s, table)?;
    let entry = index::entry_of(s, tag)?;
    let list = index::candidates(s, entry.print, entry.home).unwrap();
    let Some(i) = find(table, list.as_slice(), entry.print) else {
        return Ok(Removal::Absent);
    };
    write_cell(table, i, 0);
    Ok(Removal::Released)
}
