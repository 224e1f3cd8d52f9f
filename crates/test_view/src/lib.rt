// The bucket view for tests that are not written in Rattle. An exported function hands back no part of
// a slice, so that this one tells the part cell by cell.
#![tactic(auto)]

ghost use Rattle.std.specs.Prelude.{◌≡◌, get_or};
ghost use Rattle.calls.specs.Calls.{viewed};
ghost use Rattle.test_view.specs.Lent.{settings_of};

use index::Settings;

// Cell i of the view of a bucket, 65536 where the view has no such cell.
#[unsafe(no_mangle)]
pub extern "C" fn test_view_cell(
    rule: u32,
    width: u32,
    buckets: u32,
    mask: u32,
    table: &[u16],
    bucket: u32,
    i: u32,
) -> u32
    ensures { result ≡ get_or (viewed (settings_of rule width buckets mask) table.now bucket) i 65536 }
{
    let s = Settings {
        rule,
        width,
        buckets,
        mask,
        salt: Settings::SALT,
    };
    match bucket_view::view(s, table, bucket).get(i as usize) {
        Some(cell) => u32::from(*cell),
        None => 65536,
    }
}
