// The search for an empty cell, breadth first, and the moves along the path that it finds.
ghost use Rattle.std.specs.Prelude.{◌≡◌, [], ◌∷◌, ℕ, ◌+◌, ◌*◌, ◌-◌, ◌<◌, ◌≤◌, length};
ghost use Rattle.lemmas.specs.Count.{◌among◌};
ghost use Rattle.calls.specs.Cells.{first_holding, lowest_empty, in_first};
ghost use Rattle.calls.specs.Search.{search_from, roots_from, relocate as relocated};
ghost use Rattle.calls.specs.Calls.{Sound};
ghost use Rattle.table.specs.Answers.{Holds};
ghost use Rattle.table.specs.Scratch.{queue_in, path_in};
ghost use Rattle.table.specs.Probes.{Probes};
ghost use Rattle.table.specs.Internal.{place_is, Visits, Sought};

use super::queue::Queue;
use super::{Placement, table_check, write_cell};
use index::Settings;
use refusals::Refusal;

// The lower empty cell of a pair. Both cells are read, and the product is 0 exactly if one of them is empty:
// one branch for the two, and none for which of them it is.
fn empty_of_pair(pair: &[u16]) -> Option<usize>
    requires { length pair.now ≡ 2 }
    ensures { place_is result ≡ first_holding pair.now 0 (0 ∷ 1 ∷ []) }
{
    let low = pair[0];
    let high = pair[1];
    if u32::from(low) * u32::from(high) != 0 {
        return None;
    }
    Some(usize::from(low != 0))
}

// The lowest empty cell of bucket b, pair by pair. A turn lends its pair alone, so that no cell after the first
// pair with an empty one is read.
fn lowest_empty(table: &[u16], b: usize) -> Option<usize>
    requires { 4 * b + 4 ≤ length table.now }
    ensures { place_is result ≡ lowest_empty table.now b }
{
    for j in 0..2 {
        let a = 4 * b + 2 * j;
        let e = a + 2;
        if let Some(i) = empty_of_pair(&table[a..e]) {
            return Some(a + i);
        }
    }
    None
}

// The lowest empty cell of the first of the listed buckets that has one.
fn first_empty(table: &[u16], buckets: &[u32]) -> Option<usize>
    requires { (b : ℕ) → b among buckets.now → 4 * b + 4 ≤ length table.now }
    ensures { place_is result ≡ in_first (lowest_empty table.now) buckets.now }
{
    for b in buckets {
        if let Some(i) = lowest_empty(table, *b as usize) {
            return Some(i);
        }
    }
    None
}

// Looks at bucket b, reached from cell k of the bucket of entry h. If it was not marked, it is queued, and its lowest empty cell is answered; else
// none is.
fn visit(queue: &mut Queue, table: &[u16], b: usize, h: usize, k: usize) -> Option<usize>
    requires { (b < queue.old.buckets) × (h ≤ queue.old.tail - 1) × (k < 4) × (4 * queue.old.buckets ≤ length table.now) }
    ensures same_reference { queue.new.scratch.ghost_name ≡ queue.old.scratch.ghost_name }
    ensures same_buckets { queue.new.buckets ≡ queue.old.buckets }
    ensures visited { Visits table.now queue.old.buckets b h k queue.old.scratch.now queue.old.tail queue.new.scratch.now queue.new.tail result }
{
    if queue.is_marked(b) {
        return None;
    }
    queue.push(b, h, k);
    lowest_empty(table, b)
}

// Queues the listed buckets, each once, as the roots.
fn seed(queue: &mut Queue, buckets: &[u32])
    requires empty { queue.old.tail ≡ 0 }
    requires by_index { (x : ℕ) → x among buckets.now → x < queue.old.buckets }
    ensures same_reference { queue.new.scratch.ghost_name ≡ queue.old.scratch.ghost_name }
    ensures same_buckets { queue.new.buckets ≡ queue.old.buckets }
    ensures roots { queue_in queue.new.buckets queue.new.scratch.now queue.new.tail queue.new.tail ≡ roots_from buckets.now [] }
{
    for b in buckets {
        let b = *b as usize;
        if !queue.is_marked(b) {
            queue.push(b, 0, 0);
        }
    }
}

// The search from the roots. It ends as soon as a bucket is marked that has an empty cell, which is answered: the bucket then stands last
// in the queue.
fn find_path(s: Settings, table: &[u16], queue: &mut Queue) -> Option<usize>
    requires sound { Sound s table.now }
    requires of_table { queue.old.buckets ≡ s.buckets }
    requires some_root { 1 ≤ queue.old.tail }
    ensures same_reference { queue.new.scratch.ghost_name ≡ queue.old.scratch.ghost_name }
    ensures same_buckets { queue.new.buckets ≡ queue.old.buckets }
    ensures grows { queue.old.tail ≤ queue.new.tail }
    ensures sought { let roots = queue.old.tail in
        let q = queue_in s.buckets queue.old.scratch.now roots roots in
        Sought (search_from s table.now s.buckets 0 q) s.buckets queue.new.scratch.now roots queue.new.tail result }
{
    let mut head = 0;
    let mut answer = None;
    'queue: while head < queue.tail {
        let b = queue.bucket_of(head);
        'cell: for c in 0..4 {
            let list = index::candidates(s, table[4 * b + c], b as u32).unwrap();
            'other: for other in &list.as_slice()[1..] {
                let place = visit(queue, table, *other as usize, head, c);
                if let Some(i) = place {
                    answer = Some(i);
                    break 'queue;
                }
            }
        }
        head += 1;
    }
    answer
}

// Moves the entries on the path of the queue's last entry, the last one first, into the space ahead of each, and puts p in the space that is
// left. Answers the number of moves.
fn relocate(table: &mut [u16], queue: &Queue, roots: usize, free: usize, p: u16) -> u32
    requires some_root { (1 ≤ roots) × (1 ≤ queue.now.tail) }
    requires free_inside { (length table.old ≡ 4 * queue.now.buckets) × (free < length table.old) }
    ensures table_after { table.new ≡ relocated table.old free (path_in queue.now.buckets queue.now.scratch.now roots (queue.now.tail - 1)) p }
    ensures value { result ≡ length (path_in queue.now.buckets queue.now.scratch.now roots (queue.now.tail - 1)) }
{
    let mut at = queue.tail - 1;
    let mut space = free;
    let mut moves = 0;
    while at >= roots {
        let from = queue.origin_of(at);
        let moved = table[from];
        write_cell(table, space, moved);
        space = from;
        at = queue.parent_of(at);
        moves += 1;
    }
    write_cell(table, space, p);
    moves
}

// Where the entry of a tag would go: to the lowest empty cell of the first of its candidates that has one, else where the search ends. The
// checks are those of a hold, and no cell is changed.
pub fn probe(
    s: Settings,
    table: &[u16],
    scratch: &mut [u32],
    tag: &[u8],
) -> Result<Placement, Refusal>
    ensures { Probes result s table.now scratch.old scratch.new tag.now }
{
    table_check(s, table)?;
    let buckets = s.buckets as usize;
    if scratch.len() < 2 * buckets {
        return Err(Refusal::Scratch);
    }
    let entry = index::entry_of(s, tag)?;
    let list = index::candidates(s, entry.print, entry.home).unwrap();
    let candidates = list.as_slice();
    if let Some(cell) = first_empty(table, candidates) {
        return Ok(Placement::Free {
            print: entry.print,
            cell,
        });
    }
    let mut queue = Queue::new(scratch, buckets);
    seed(&mut queue, candidates);
    let roots = queue.tail;
    let Some(cell) = find_path(s, table, &mut queue) else {
        return Ok(Placement::Exhausted(queue.tail));
    };
    Ok(Placement::Path {
        print: entry.print,
        cell,
        roots,
        last: queue.tail - 1,
    })
}

// Holds a tag: in the lowest empty cell of the first of its candidates that has one, else in the space that a relocation path leaves.
// Answers how many entries moved. It places the entry where probe says, and does not call it: most holds find an empty cell at once, and
// what it would hand over takes them a fifth longer.
pub fn hold(s: Settings, table: &mut [u16], scratch: &mut [u32], tag: &[u8]) -> Result<u32, Refusal>
    ensures { Holds result s table.old table.new scratch.old scratch.new tag.now }
{
    table_check(s, table)?;
    let m = s.buckets as usize;
    if scratch.len() < 2 * m {
        return Err(Refusal::Scratch);
    }
    let entry = index::entry_of(s, tag)?;
    let list = index::candidates(s, entry.print, entry.home).unwrap();
    let candidates = list.as_slice();
    if let Some(i) = first_empty(table, candidates) {
        write_cell(table, i, entry.print);
        return Ok(0);
    }
    let mut queue = Queue::new(scratch, m);
    seed(&mut queue, candidates);
    let roots = queue.tail;
    let Some(i) = find_path(s, table, &mut queue) else {
        return Err(Refusal::Full);
    };
    Ok(relocate(table, &queue, roots, i, entry.print))
}
