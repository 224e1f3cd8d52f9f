// What a hold would answer now. The search is a hold's own, which changes no cell; the moves are counted on the path that it leaves in
// scratch.
#![tactic(auto)]

ghost use Rattle.std.specs.Prelude.{◌+◌, ◌/◌, ◌≤◌, ◌≡◌, length};
ghost use Rattle.table.specs.Scratch.{path_in, Sparse};
ghost use Rattle.forecast.specs.Forecasts.{Forecasts};

use index::Settings;
use refusals::Refusal;
use table::Placement;

// How many entries move on the path of entry last of the queue.
fn path_moves(scratch: &[u32], m: usize, roots: usize, last: usize) -> u32
    requires sparse { Sparse m scratch.now (last + 1) }
    requires le_roots { 1 ≤ roots }
    ensures { result ≡ length (path_in m scratch.now roots last) }
{
    let mut at = last;
    let mut moves = 0;
    while at >= roots {
        at = scratch[at] as usize / 65536;
        moves += 1;
    }
    moves
}

// The answer that a hold of the tag would give: how many entries would move. No cell is changed, and scratch is what a hold may make of it.
pub fn forecast(s: Settings, table: &[u16], scratch: &mut [u32], tag: &[u8]) -> Result<u32, Refusal>
    ensures { Forecasts result s table.now table.now scratch.old scratch.new tag.now }
{
    match table::probe(s, table, scratch, tag)? {
        Placement::Free { .. } => Ok(0),
        Placement::Path { roots, last, .. } => Ok(path_moves(
            scratch,
            s.buckets as usize,
            roots,
            last,
        )),
        Placement::Exhausted(_) => Err(Refusal::Full),
    }
}
