// Settings that passed their checks, and what is reduced by them.
ghost use Rattle.std.specs.Prelude.{◌≡◌, ◌+◌, ◌-◌, ◌*◌, ◌%◌, ◌^◌, ◌<◌, ◌≤◌, ◌≢◌, [], ◌∷◌};
ghost use Rattle.std.proofs.Math.Option.{none};
ghost use Rattle.index.specs.Settings.{settings_refusal, modulus};
ghost use Rattle.index.specs.Hash.{fingerprint_of};
ghost use Rattle.index.specs.Candidates.{offset as offset_of, across as across_of, candidates as candidates_of};

use super::{FNV_START, Settings, step};

#[derive(Clone, Copy)]
pub(crate) struct Passed {
    pub(crate) settings: Settings,
    ghost passes: { settings_refusal settings ≡ none },
}

// The other end of b's pair on the ring. Both sums are below twice l, so that one test takes the
// remainder, and b is at least d where d is taken off.
fn across(l: u32, d: u32, b: u32) -> u32
    requires { (d < l) × (l ≤ 32768) × (b < 2 * l) }
    ensures { result ≡ across_of l d b }
{
    if b < l {
        let x = b + d;
        if x < l { l + x } else { x }
    } else {
        let x = b - d;
        if x < l { x } else { x - l }
    }
}

impl Passed {
    // A hash reduced to a bucket: a remainder under the ring rule, low bits where M is a power of two.
    pub(crate) fn reduce(self, h: u64) -> u32
        ensures { result ≡ h % modulus self.settings }
    {
        let rule = self.settings.rule;
        let buckets = self.settings.buckets as u64;
        if rule == 1 {
            (h % (buckets / 2)) as u32
        } else {
            (h & (buckets - 1)) as u32
        }
    }

    // The lower 32 bits of a hash, spread over the fingerprints that there are. They are divided as 32 bits, which takes less time than 64.
    pub(crate) fn fingerprint(self, h: u64) -> u16
        ensures { result ≡ fingerprint_of self.settings h }
    {
        let width = self.settings.width;
        let lower = (h % 4294967296) as u32;
        let prints = (1u32 << width) - 1;
        (1 + lower % prints) as u16
    }

    // The offset of any 16-bit value.
    pub(crate) fn offset(self, p: u16) -> u32
        ensures { result ≡ offset_of self.settings p }
    {
        let [low, high] = p.to_le_bytes();
        self.reduce(step(step(FNV_START, low), high))
    }

    // The other candidate under the rules that have two, for offset d.
    pub(crate) fn partner(self, fingerprint: u16, d: u32, bucket: u32) -> u32
        requires { (self.settings.rule ≢ 2) × (bucket < self.settings.buckets) × (d ≡ offset_of self.settings fingerprint) }
        ensures { candidates_of self.settings fingerprint bucket ≡ bucket ∷ result ∷ [] }
    {
        let rule = self.settings.rule;
        let m = self.settings.buckets;
        if rule == 1 {
            across(m / 2, d, bucket)
        } else {
            bucket ^ d
        }
    }
}
