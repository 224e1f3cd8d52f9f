// The hold file's header: a map, and the fields whose bit stands. The functions at the top name the fields, as the definitions in
// file_form's specs/Header.antt do, and the loops go over the lists that they give.
#![tactic(auto)]

ghost use Rattle.std.specs.Prelude.{◌≡◌, ◌+◌, ◌≤◌, length, drop, get_or};
ghost use Rattle.std.proofs.Math.Option.{none};
ghost use Rattle.lemmas.specs.Bytes.{bytes_of};
ghost use Rattle.lemmas.specs.Stores.{Put};
ghost use Rattle.refusals.specs.Checks.{first_met};
ghost use Rattle.refusals.specs.Refusals.{told, refused_by};
ghost use Rattle.file_form.specs.Fields.{spelled, Fit, take_number, field};
ghost use Rattle.file_form.specs.Header.{sizes, values_of, settings_from, map_of, map_checks};
ghost use Rattle.file_form.specs.Writer.{header};
ghost use Rattle.file_form.specs.Reader.{read_fields, read_header, header_answer};
ghost use Rattle.file_header.specs.Answers.{HeaderTaken, HeaderPut};
ghost use Rattle.file_header.specs.Internal.{NumberTaken};

use index::Settings;
use refusals::Refusal;

// ── the fields ──

// How many there are.
const FIELDS: usize = 5;

// The bytes that each takes where it is there.
const SIZES: [usize; FIELDS] = [1, 1, 2, 2, 8];

// The numbers that stand for the settings.
fn values_of(s: Settings) -> [u64; FIELDS]
    ensures { result ≡ values_of s }
{
    [
        u64::from(s.rule),
        u64::from(s.width),
        u64::from(s.buckets.saturating_sub(1)),
        u64::from(s.mask),
        s.salt,
    ]
}

// The settings that these numbers stand for.
fn settings_from(values: [u64; FIELDS]) -> Settings
    requires { Fit sizes (spelled (length sizes) (λ i. get_or values i 0)) }
    ensures { result ≡ settings_from values }
{
    let [rule, width, less, mask, salt] = values;
    Settings {
        rule: rule as u32,
        width: width as u32,
        buckets: less as u32 + 1,
        mask: mask as u32,
        salt,
    }
}

// Bit 5 of every map: the fingerprints are spread evenly. No field is behind it.
const EVEN: u8 = 1;

// The map: whether each is there, from bit 0 on.
fn map_of(s: Settings) -> u8
    ensures { result ≡ map_of s }
{
    u8::from(s.rule != Settings::RULE)
        + 2 * (u8::from(s.width != Settings::WIDTH)
            + 2 * (u8::from(s.buckets != Settings::BUCKETS)
                + 2 * (u8::from(s.rule == 2)
                    + 2 * (u8::from(s.salt != Settings::SALT) + 2 * EVEN))))
}

// The map's own tests. Below 64 bit 5 stands exactly from 32 on.
#[tactic(auto, unfolding(file_form::specs::Header::map_checks))]
fn check_map(map: u64) -> Result<(), Refusal>
    ensures { refused_by result ≡ first_met (map_checks map) }
{
    if map >= 64 {
        return Err(Refusal::Header);
    }
    if map < 32 {
        return Err(Refusal::EarlierKind);
    }
    Ok(())
}

// ── written ──

// The low bytes of a number, to a part of their length. They are shifted out one by one: a copy would want `memcpy` of whoever links
// the library for C.
fn emit(part: &mut [u8], v: u64)
    requires { length part.old ≤ 8 }
    ensures { part.new ≡ bytes_of (length part.old) v }
{
    let mut rest = v;
    for i in 0..part.len() {
        part[i] = (rest % 256) as u8;
        rest /= 256;
    }
}

// n bytes of a number, low byte first; the place after them.
fn put_number(out: &mut [u8], from: usize, n: usize, v: u64) -> usize
    requires { (n ≤ 8) × (from + n ≤ length out.old) }
    ensures { Put out.old out.new from (bytes_of n v) result }
{
    let end = from + n;
    emit(&mut out[from..end], v);
    end
}

// The map, and the fields behind it; the place after them.
fn store_header(out: &mut [u8], s: Settings) -> usize
    requires { length (header s) ≤ length out.old }
    ensures { Put out.old out.new 0 (header s) result }
{
    let values = values_of(s);
    let map = map_of(s);
    out[0] = map;
    let mut at = 1;
    let mut m = map;
    for i in 0..FIELDS {
        at = put_number(out, at, SIZES[i] * usize::from(m % 2 == 1), values[i]);
        m /= 2;
    }
    at
}

// The header's size, by writing it into a space of its own.
pub fn header_size(s: Settings) -> usize
    ensures { result ≡ length (header s) }
{
    let mut space = [0; 16];
    store_header(&mut space, s)
}

// The header to the start of the output, where it has room there, and its size. Where it has none nothing is written.
pub fn put_header(s: Settings, out: &mut [u8]) -> usize
    ensures { HeaderPut s out.old out.new result }
{
    let n = header_size(s);
    if out.len() < n {
        return n;
    }
    store_header(out, s)
}

// ── read ──

// A number of n bytes, low byte first, and the place after it, where so many are left.
fn number_at(bytes: &[u8], at: usize, n: usize) -> Option<(u64, usize)>
    requires { (n ≤ 8) × (at ≤ length bytes.now) }
    ensures { NumberTaken bytes.now result (take_number n (drop at bytes.now)) }
{
    if bytes.len() - at < n {
        return None;
    }
    let end = at + n;
    let mut low = [0; 8];
    low[..n].copy_from_slice(&bytes[at..end]);
    Some((u64::from_le_bytes(low), end))
}

// A field where its bit stands, else its default, which takes no bytes.
fn field_at(bytes: &[u8], at: usize, stands: bool, n: usize, default: u64) -> Option<(u64, usize)>
    requires { (n ≤ 8) × (at ≤ length bytes.now) }
    ensures { NumberTaken bytes.now result (field stands default (take_number n) (drop at bytes.now)) }
{
    if stands {
        return number_at(bytes, at, n);
    }
    Some((default, at))
}

// The settings of the fields. The map has to be the one that the writer makes of them: a field that is there though it has its
// default, and a mask's bit that does not fit the rule, make another.
fn fields_at(bytes: &[u8], from: usize, map: u64) -> Result<(Settings, usize), Refusal>
    requires { (first_met (map_checks map) ≡ none) × (from ≤ length bytes.now) }
    ensures { HeaderTaken bytes.now result (read_fields map (drop from bytes.now)) }
{
    let mut values = values_of(Settings::defaults());
    let mut at = from;
    let mut m = map;
    for i in 0..FIELDS {
        let Some((v, next)) = field_at(bytes, at, m % 2 == 1, SIZES[i], values[i]) else {
            return Err(Refusal::EndsEarly);
        };
        values[i] = v;
        at = next;
        m /= 2;
    }
    let s = settings_from(values);
    if map != u64::from(map_of(s)) {
        return Err(Refusal::Header);
    }
    Ok((s, at))
}

// The settings that the header names, which are not checked, and the place after it.
pub fn header_at(bytes: &[u8]) -> Result<(Settings, usize), Refusal>
    ensures { HeaderTaken bytes.now result (read_header bytes.now) }
{
    let Some((map, at)) = number_at(bytes, 0, 1) else {
        return Err(Refusal::EndsEarly);
    };
    check_map(map)?;
    fields_at(bytes, at, map)
}

// The settings that a file's header names, where they pass, so that a caller can lend as many cells as the reader asks for. It looks at
// nothing behind the header, and whatever it refuses the reader refuses too, for the same cause.
pub fn settings_of(bytes: &[u8]) -> Result<Settings, Refusal>
    ensures { told result ≡ header_answer bytes.now }
{
    let (s, _) = header_at(bytes)?;
    s.check()?;
    Ok(s)
}
