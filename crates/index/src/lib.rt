// The index rules of a cuckoo filter: settings, hash, fingerprint, offset and candidates. The table
// above relies on the laws of specs/Laws.antt and on nothing else.
#![tactic(auto)]

ghost use Rattle.std.specs.Prelude.{◌≡◌, ◌+◌, ◌-◌, ◌*◌, ◌%◌, ◌^◌, ◌<◌, ◌≤◌, not, ◌||◌, ◌≢◌, [], ◌∷◌, ◌++◌, bit_xor, IfOk, IfErr};
ghost use Rattle.std.proofs.Math.Option.{some};
ghost use Rattle.refusals.specs.Checks.{first_met};
ghost use Rattle.refusals.specs.Refusals.{number_told, refused_by, told};
ghost use Rattle.index.specs.Settings.{by_rule, default_settings, Representable, overlong, degenerate, form_checks, former_refusal, settings_checks, settings_refusal, modulus, power_of_two, odd};
ghost use Rattle.index.specs.Hash.{fnv_start, fnv_step, fnv_prime, fingerprint_of, fnv_from as hash_from, fnv1a as hash_of, tag_hash as hash_of_tag};
ghost use Rattle.index.specs.Candidates.{offset as offset_of, across as across_of, candidates as candidates_of, bucket_checks};
ghost use Rattle.index.specs.Answers.{checked_settings, entry_of, offset_answer, Lists, candidates_answer};

use refusals::Refusal;

mod candidate_list;
mod passed;

pub use candidate_list::Candidates;
use passed::Passed;

// The settings of a table. Any numbers can be handed in, so each call checks them.
#[derive(Clone, Copy, Debug, PartialEq, Eq)]
pub struct Settings {
    pub rule: u32,
    pub width: u32,
    pub buckets: u32,
    pub mask: u32,
    pub salt: u64,
}

// The fingerprint and the home bucket of a tag.
#[derive(Clone, Copy, Debug, PartialEq, Eq)]
pub struct Entry {
    pub print: u16,
    pub home: u32,
}

// The limits of the checks.
const LAST_RULE: u32 = 2;

const LEAST_WIDTH: u32 = 4;

const MOST_WIDTH: u32 = 16;

const MOST_BUCKETS: u32 = 65536;

const LONGEST_TAG: usize = 64;

// The bits that no count of the rule's form has: the lowest on the ring, where it is even, else those of
// the number one below, as in no power of two.
fn barred_bits(rule: u32, buckets: u32) -> u32
    requires { 0 < buckets }
    ensures { result ≡ by_rule rule (buckets - 1) 1 (buckets - 1) }
{
    if rule == 1 { 1 } else { buckets - 1 }
}

// Whether the count has not the form that its rule asks.
fn misshapen(rule: u32, buckets: u32) -> bool
    requires { (0 < buckets) × (buckets ≤ 65536) }
    ensures { result ≡ by_rule rule (not (power_of_two buckets)) (odd buckets) (not (power_of_two buckets)) }
{
    let barred = barred_bits(rule, buckets);
    buckets & barred != 0
}

// What the mask is below: the count under the masked rule, else 1, so that it is 0.
fn mask_limit(rule: u32, buckets: u32) -> u32
    requires { rule ≤ 2 }
    ensures { result ≡ by_rule rule 1 1 buckets }
{
    if rule == 2 { buckets } else { 1 }
}

// Whether the mask is out of its range: 1 to the count less 2 under the masked rule, as one of no bit or of every bit splits no offset,
// else 0. One range for all rules: every call makes this test.
fn mask_refused(s: Settings) -> bool
    requires { (s.rule ≤ 2) × (0 < s.buckets) }
    ensures { result ≡ (overlong s || degenerate s) }
{
    let rule = s.rule;
    let mask = s.mask;
    let least = (rule == 2) as u32;
    let limit = mask_limit(rule, s.buckets) - least;
    (mask < least) | (mask >= limit)
}

impl Settings {
    // The default of each field.
    pub const RULE: u32 = 0;

    pub const WIDTH: u32 = 12;

    pub const BUCKETS: u32 = 4096;

    pub const MASK: u32 = 0;

    pub const SALT: u64 = 0;

    pub fn defaults() -> Self
        ensures { result ≡ default_settings }
    {
        Settings {
            rule: Self::RULE,
            width: Self::WIDTH,
            buckets: Self::BUCKETS,
            mask: Self::MASK,
            salt: Self::SALT,
        }
    }

    // The checks before the mask's.
    fn check_form(self) -> Result<(), Refusal>
        ensures { refused_by result ≡ first_met (form_checks self) }
    {
        let rule = self.rule;
        let width = self.width;
        let buckets = self.buckets;
        if rule > LAST_RULE {
            return Err(Refusal::Rule);
        }
        if width < LEAST_WIDTH || width > MOST_WIDTH {
            return Err(Refusal::Width);
        }
        if buckets == 0 || buckets > MOST_BUCKETS || misshapen(rule, buckets) {
            return Err(Refusal::BucketCount);
        }
        Ok(())
    }

    // The checks while a degenerate mask still passed: files of that time are converted.
    pub fn former_check(self) -> Result<(), Refusal>
        ensures { refused_by result ≡ former_refusal self }
    {
        self.check_form()?;
        if self.mask >= mask_limit(self.rule, self.buckets) {
            return Err(Refusal::Mask);
        }
        Ok(())
    }

    // Whether the settings pass.
    pub fn check(self) -> Result<(), Refusal>
        ensures { refused_by result ≡ settings_refusal self }
    {
        self.check_form()?;
        if mask_refused(self) {
            return Err(Refusal::Mask);
        }
        Ok(())
    }

    // The settings, where they pass.
    fn passed(self) -> Result<Passed, Refusal>
        ensures same { IfOk result (λ p. p.settings ≡ self) }
        ensures refused { IfErr result (λ e. some (number_told e) ≡ settings_refusal self) }
    {
        self.check()?;
        Ok(Passed { settings: self })
    }

    pub fn new(rule: u32, width: u32, buckets: u32, mask: u32, salt: u64) -> Result<Self, Refusal>
        ensures result_value { told result ≡ checked_settings (record { rule = rule; width = width; buckets = buckets; mask = mask; salt = salt }) }
        ensures representable { Representable (record { rule = rule; width = width; buckets = buckets; mask = mask; salt = salt }) }
    {
        let s = Settings {
            rule,
            width,
            buckets,
            mask,
            salt,
        };
        Ok(s.passed()?.settings)
    }
}

// The hash of no bytes.
const FNV_START: u64 = 14695981039346656037;

// h times the FNV prime, modulo 2^64. The prime is 2^40 + 435, and 435 is 16 times 27 and 3.
fn times_prime(h: u64) -> u64
    ensures { result ≡ h * fnv_prime % 2 ^ 64 }
{
    let h3 = std::num::wrapping_add_u64(h, h << 1);
    let h27 = std::num::wrapping_add_u64(h3, h3 << 3);
    let h435 = std::num::wrapping_add_u64(h27 << 4, h3);
    std::num::wrapping_add_u64(h << 40, h435)
}

// One byte into the hash.
fn step(h: u64, b: u8) -> u64
    ensures { result ≡ fnv_step h b }
{
    times_prime(h ^ (b as u64))
}

// The hash that any bytes make of a hash before them.
pub fn fnv_from(start: u64, bytes: &[u8]) -> u64
    ensures { result ≡ hash_from start bytes.now }
{
    let mut h = start;
    for &b in bytes {
        h = step(h, b);
    }
    h
}

// The 64-bit FNV-1a hash of any bytes.
pub fn fnv1a(bytes: &[u8]) -> u64
    ensures { result ≡ hash_of bytes.now }
{
    fnv_from(FNV_START, bytes)
}

// Where the hash of a tag starts: the salt of a season changes it.
fn start_of(salt: u64) -> u64
    ensures { result ≡ bit_xor fnv_start salt }
{
    FNV_START ^ salt
}

// The hash of a tag.
fn tag_hash(salt: u64, tag: &[u8]) -> u64
    ensures { result ≡ hash_of_tag salt tag.now }
{
    fnv_from(start_of(salt), tag)
}

// The fingerprint and the home bucket of a tag, from one hash. It is inlined: the checks of the settings are then those that the caller has
// made, and the entry does not go through memory, in two stores and one load, which takes a hold or a release an eighth longer.
#[inline(always)]
pub fn entry_of(s: Settings, tag: &[u8]) -> Result<Entry, Refusal>
    ensures { told result ≡ entry_of s tag.now }
{
    let passed = s.passed()?;
    if tag.is_empty() || tag.len() > LONGEST_TAG {
        return Err(Refusal::Tag);
    }
    let h = tag_hash(s.salt, tag);
    Ok(Entry {
        print: passed.fingerprint(h),
        home: passed.reduce(h >> 32),
    })
}

// The offset of any 16-bit value.
pub fn offset(s: Settings, fingerprint: u16) -> Result<u32, Refusal>
    ensures { told result ≡ offset_answer s fingerprint }
{
    Ok(s.passed()?.offset(fingerprint))
}

// Settings that pass, with a bucket that there is.
fn checked_bucket(s: Settings, bucket: u32) -> Result<Passed, Refusal>
    ensures same { IfOk result (λ p. p.settings ≡ s) }
    ensures inside { IfOk result (λ p. bucket < s.buckets) }
    ensures refused { IfErr result (λ e. some (number_told e) ≡ first_met (settings_checks s ++ bucket_checks s bucket)) }
{
    let passed = s.passed()?;
    if bucket >= s.buckets {
        return Err(Refusal::Bucket);
    }
    Ok(passed)
}

// The candidates of a fingerprint in a bucket, in order. An answer is put together in as few places as may be, by which the compiler
// makes a lookup one piece.
pub fn candidates(s: Settings, fingerprint: u16, bucket: u32) -> Result<Candidates, Refusal>
    ensures { Lists result (candidates_answer s fingerprint bucket) }
{
    let passed = checked_bucket(s, bucket)?;
    let d = passed.offset(fingerprint);
    let rule = s.rule;
    if rule != 2 {
        let other = passed.partner(fingerprint, d, bucket);
        return Ok(Candidates {
            count: 2,
            buckets: [bucket, other, 0, 0],
        });
    }
    // what the mask leaves of the offset is the offset without what it takes
    let taken = d & s.mask;
    let last = bucket ^ d;
    Ok(Candidates {
        count: 4,
        buckets: [bucket, bucket ^ taken, last ^ taken, last],
    })
}
