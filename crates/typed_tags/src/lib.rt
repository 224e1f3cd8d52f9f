// A tag as it is typed.
#![tactic(auto)]

ghost use Rattle.std.specs.Prelude.{◌≡◌, true, List, ℕ, ◌++◌, ◌+◌, ◌*◌, ◌≤◌, ◌/◌, length, drop, IfOk};
ghost use Rattle.std.specs.List.{list_all};
ghost use Rattle.std.proofs.Math.Option.{some};
ghost use Rattle.digits.specs.Digits.{hex_value as value_of, hex_digit};
ghost use Rattle.refusals.specs.Checks.{first_met};
ghost use Rattle.refusals.specs.Outcomes.{outcome};
ghost use Rattle.refusals.specs.Refusals.{refused_by};
ghost use Rattle.index.specs.Hash.{tag_checks};
ghost use Rattle.typed_tags.specs.Tags.{hex_bytes, tag_bytes, tag_is, tag_out, tag_length, Starts};
ghost use Rattle.typed_tags.specs.Internal.{hex_passes, hex_pairs};

use digits::{after_mark, hex_value};
use refusals::Refusal;
use std::error::Error;
use std::fmt;

// Why what was typed is no tag.
#[derive(Clone, Copy, Debug, PartialEq, Eq)]
pub enum TagError {
    // by the check of tags
    Refused(Refusal),
    // what stands after 0x
    NotHex,
}

impl fmt::Display for TagError {
    fn fmt<W: fmt::Write>(&self, f: &mut fmt::Formatter<W>) -> fmt::Result {
        match self {
            TagError::Refused(refusal) => write!(f, "{refusal}"),
            TagError::NotHex => {
                f.write_str("what stands after 0x is not pairs of hexadecimal digits")
            }
        }
    }
}

impl Error for TagError {}

impl From<Refusal> for TagError {
    ghost use Rattle.typed_tags.specs.declared.TagError.{TagError};

    ghost from_gives = { λ refusal error. error ≡ TagError.Refused refusal };

    fn from(refusal: Refusal) -> TagError {
        TagError::Refused(refusal)
    }
}

fn is_digit(b: u8) -> bool
    ensures { result ≡ hex_digit b }
{
    hex_value(b).is_some()
}

fn all_digits(text: &[u8]) -> bool
    ensures { result ≡ list_all hex_digit text.now }
{
    text.iter().all(|b| is_digit(*b))
}

// Whether these are hexadecimal digits, two to a byte.
fn is_hex(digits: &[u8]) -> bool
    ensures { result ≡ hex_passes digits.now }
{
    digits.len() % 2 == 0 && all_digits(digits)
}

// The byte that two digits stand for.
fn byte_of(high: u8, low: u8) -> u8
    requires { (value_of high ≤ 15) × (value_of low ≤ 15) }
    ensures { result ≡ 16 * value_of high + value_of low }
{
    16 * hex_value(high).unwrap_or(0) + hex_value(low).unwrap_or(0)
}

// The bytes of digits that pass, to the start of the output.
fn decode(digits: &[u8], out: &mut [u8])
    requires { (hex_passes digits.now ≡ true) × (length digits.now / 2 ≤ length out.old) }
    ensures { out.new ≡ hex_pairs digits.now ++ drop (length digits.now / 2) out.old }
{
    for (i, pair) in digits.chunks_exact(2).enumerate() {
        out[i] = byte_of(pair[0], pair[1]);
    }
}

// The check of tags, which looks at the length alone.
#[tactic(auto, using(index::proofs::Checks::tag_passes, index::proofs::Checks::tag_refused))]
fn check(n: usize) -> Result<(), Refusal>
    ensures passes { IfOk result (λ _. n ≤ 64) }
    ensures first { (tag : List ℕ) → length tag ≡ n → first_met (tag_checks tag) ≡ refused_by result }
{
    if n == 0 || n > 64 {
        return Err(Refusal::Tag);
    }
    Ok(())
}

// A tag in hexadecimal digits. Nothing is written before the digits and their number have passed.
#[tactic(auto, using(crate::proofs::Digits::decoding))]
fn digits_tag(digits: &[u8], out: &mut [u8; 64]) -> Result<usize, TagError>
    ensures { outcome (tag_is result) out.new ≡ tag_out (hex_bytes digits.now) out.old }
{
    if !is_hex(digits) {
        return Err(TagError::NotHex);
    }
    let count = digits.len() / 2;
    check(count)?;
    decode(digits, out);
    Ok(count)
}

// A tag that is its own text.
fn text_tag(text: &[u8], out: &mut [u8; 64]) -> Result<usize, TagError>
    ensures { outcome (tag_is result) out.new ≡ tag_out (some text.now) out.old }
{
    let n = text.len();
    check(n)?;
    out[..n].copy_from_slice(text);
    Ok(n)
}

// The tag that was typed, to the start of the output, whose later bytes stay as they are.
#[tactic(auto, unfolding(crate::specs::Tags::tag_bytes))]
pub fn tag(text: &[u8], out: &mut [u8; 64]) -> Result<usize, TagError>
    ensures out_after { outcome (tag_is result) out.new ≡ tag_out (tag_bytes text.now) out.old }
    ensures starts { Starts (tag_length result) out.new }
{
    match after_mark(text) {
        Some(digits) => digits_tag(digits, out),
        None => text_tag(text, out),
    }
}
