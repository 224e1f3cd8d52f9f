// The converter: the hold file of a list that was kept under a degenerate mask, made one of the plain rule. It looks at the file twice,
// as the reader does: once at all of it, to check, and once at what is copied.
#![tactic(auto)]

ghost use Rattle.std.specs.Prelude.{◌≡◌, length};
ghost use Rattle.refusals.specs.Outcomes.{outcome};
ghost use Rattle.refusals.specs.Refusals.{told};
ghost use Rattle.index.specs.Settings.{unmasked as unmasked_settings};
ghost use Rattle.file_convert.specs.Converter.{convert_file};

use index::Settings;
use refusals::Refusal;

// The same width, bucket count and salt under the plain rule.
fn unmasked(s: Settings) -> Settings
    ensures { result ≡ unmasked_settings s }
{
    Settings {
        rule: 0,
        mask: 0,
        ..s
    }
}

// Bytes to a part of their length, one by one: the library's own copy would want `memcpy` of whoever links the library for C.
fn copy(part: &mut [u8], bytes: &[u8])
    requires { length part.old ≡ length bytes.now }
    ensures { part.new ≡ bytes.now }
{
    for i in 0..bytes.len() {
        part[i] = bytes[i];
    }
}

// A file of a degenerate mask under the plain rule: its byte count. Settings that pass now are of another rule or mask. Nothing is
// written before every check has passed.
pub fn convert(bytes: &[u8], out: &mut [u8]) -> Result<usize, Refusal>
    ensures { outcome (told result) out.new ≡ convert_file bytes.now out.old }
{
    let (s, at) = holdfile::examine(bytes)?;
    let passes = s.check().is_ok();
    if passes {
        return Err(Refusal::NotDegenerate);
    }
    let t = unmasked(s);
    let rest = &bytes[at..];
    let needed = file_header::header_size(t) + rest.len();
    if out.len() < needed {
        return Err(Refusal::Output);
    }
    let to = file_header::put_header(t, out);
    copy(&mut out[to..needed], rest);
    Ok(needed)
}
