// The bucket view: the four cells of one bucket, as a part of the table that the caller lends.
#![tactic(auto)]

ghost use Rattle.std.specs.Prelude.{◌≡◌};
ghost use Rattle.refusals.specs.Checks.{first_met};
ghost use Rattle.refusals.specs.Refusals.{refused_by};
ghost use Rattle.calls.specs.Calls.{view_checks};
ghost use Rattle.bucket_view.specs.Views.{Views};

use index::Settings;
use refusals::Refusal;

// Whether a bucket can be seen.
pub fn view_check(s: Settings, table: &[u16], bucket: u32) -> Result<(), Refusal>
    ensures { refused_by result ≡ first_met (view_checks s table.now bucket) }
{
    table::table_check(s, table)?;
    let m = s.buckets;
    if bucket >= m {
        return Err(Refusal::Bucket);
    }
    Ok(())
}

// The four cells of a bucket, none where view_check refuses.
pub fn view(s: Settings, table: &[u16], bucket: u32) -> &[u16]
    ensures { Views s table.now bucket table.entry.ref_ptr result.ref_ptr result.now }
{
    let Ok(()) = view_check(s, table, bucket) else {
        return &table[0..0];
    };
    let a = 4 * (bucket as usize);
    let e = a + 4;
    &table[a..e]
}
