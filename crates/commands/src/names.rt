// Tables of names.
ghost use Rattle.std.specs.Prelude.{◌≡◌};
ghost use Rattle.commands.specs.Internal.{beside};

// What stands beside a name in a table.
#[tactic(auto, unfolding(crate::specs::Internal::beside))]
pub(crate) fn find<T: Copy>(table: &[(&str, T)], name: &[u8]) -> Option<T>
    ensures { result ≡ beside name.now table.now }
{
    table
        .iter()
        .find(|row| name == row.0.as_bytes())
        .map(|row| row.1)
}
