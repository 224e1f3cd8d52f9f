// Digits as they are typed, and the numbers that they make.
#![tactic(auto)]

ghost use Rattle.std.specs.Prelude.{◌≡◌, ◌≤◌, true, false, IfSome, IfNone, drop};
ghost use Rattle.digits.specs.Digits.{digit_of, hex_mark};
ghost use Rattle.digits.specs.Numbers.{value_of, decimal_of, number_of};

// The value of a hexadecimal digit. Any other byte has none.
#[tactic(auto, using(std::proofs::lemmas::Bool::Decides::nat_tests), unfolding(crate::specs::Digits::hex_value))]
pub fn hex_value(b: u8) -> Option<u8>
    ensures { result ≡ digit_of b }
{
    match b {
        b'0'..=b'9' => Some(b - b'0'),
        b'a'..=b'f' => Some(b - b'a' + 10),
        b'A'..=b'F' => Some(b - b'A' + 10),
        _ => None,
    }
}

// What follows 0x, where text starts with it.
#[tactic(auto, using(crate::proofs::Digits::mark))]
pub fn after_mark(text: &[u8]) -> Option<&[u8]>
    ensures none { IfNone result (hex_mark text.now ≡ false) }
    ensures rest { IfSome result (λ rest. (hex_mark text.now ≡ true) × (rest.now ≡ drop 2 text.now)) }
{
    text.strip_prefix(b"0x")
}

// The number that the digits of one base make. There is none without a digit, and none above the limit.
#[tactic(auto, using(crate::proofs::Numbers::steps))]
fn number_in(text: &[u8], base: u64, most: u64) -> Option<u64>
    requires { (2 ≤ base) × (base ≤ 16) }
    ensures result_value { result ≡ value_of base most text.now }
    ensures result_bound { IfSome result (λ n. n ≤ most) }
{
    if text.is_empty() {
        return None;
    }
    let mut n = 0u64;
    for &b in text {
        let digit = u64::from(hex_value(b)?);
        if digit >= base {
            return None;
        }
        n = base.checked_mul(n)?.checked_add(digit)?;
        if n > most {
            return None;
        }
    }
    Some(n)
}

// A number in decimal digits, at most the limit.
pub fn decimal(text: &[u8], most: u64) -> Option<u64>
    ensures result_value { result ≡ decimal_of most text.now }
    ensures result_bound { IfSome result (λ n. n ≤ most) }
{
    number_in(text, 10, most)
}

// A number in decimal digits, or in hexadecimal ones after 0x, at most the limit.
#[tactic(auto, unfolding(crate::specs::Numbers::number_of))]
pub fn number(text: &[u8], most: u64) -> Option<u64>
    ensures result_value { result ≡ number_of most text.now }
    ensures result_bound { IfSome result (λ n. n ≤ most) }
{
    match after_mark(text) {
        Some(digits) => number_in(digits, 16, most),
        None => decimal(text, most),
    }
}
