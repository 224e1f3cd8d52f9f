// What the tool tells of its list.
ghost use Rattle.std.specs.Prelude.{◌≡◌, max};
ghost use Rattle.commands.specs.Figures.{permille_of};

// A part in thousandths of a whole.
#[tactic(auto, using(std::proofs::lemmas::Bool::Decides::nat_tests), unfolding(crate::specs::Figures::permille_of))]
pub fn permille(part: u32, whole: u32) -> u32
    ensures { result ≡ permille_of part whole }
{
    if whole == 0 {
        return 0;
    }
    (1000 * u64::from(part) / u64::from(whole)).min(1000) as u32
}

// The longest relocation, after one more.
pub fn longest(before: u32, moves: u32) -> u32
    ensures { result ≡ max before moves }
{
    before.max(moves)
}
