// The length of the hold file of a table, told before it is written: the writer's checks but for that of the output, and its first pass.
#![tactic(auto)]

ghost use Rattle.std.specs.Prelude.{◌≡◌, ◌≤◌, length};
ghost use Rattle.refusals.specs.Refusals.{told};
ghost use Rattle.file_form.specs.Writer.{length_of_file};
ghost use Rattle.file_length.specs.Internal.{Seen};

use index::Settings;
use refusals::Refusal;

// Cells whose number fits 16 bits.
const BLOCK: usize = 32768;

// The largest of a block's cells, and how many are filled, counted in 16 bits, of which a register has eight.
fn block_seen(block: &[u16]) -> (u16, u16)
    requires { length block.now ≤ 32768 }
    ensures { Seen block.now result }
{
    let mut top = 0;
    let mut filled = 0;
    for x in block {
        top = top.max(*x);
        filled += u16::from(*x != 0);
    }
    (top, filled)
}

// The largest cell, and how many are filled. A loop that may stop at each cell is far slower.
fn cells_seen(table: &[u16]) -> (u16, usize)
    requires { length table.now ≤ 262144 }
    ensures { Seen table.now result }
{
    let mut top = 0;
    let mut filled = 0;
    for block in table.chunks(BLOCK) {
        let (high, few) = block_seen(block);
        top = top.max(high);
        filled += usize::from(few);
    }
    (top, filled)
}

// The number of bytes that the hold file of the table will have.
pub fn file_length(s: Settings, table: &[u16]) -> Result<usize, Refusal>
    ensures { told result ≡ length_of_file s table.now }
{
    table::table_check(s, table)?;
    let (top, filled) = cells_seen(table);
    if u32::from(top) >= 1 << s.width {
        return Err(Refusal::WideCell);
    }
    let header = file_header::header_size(s);
    Ok(header + s.buckets as usize + 2 * filled)
}
