// The filter for C. Each call takes settings, numbers and lent buffers, and its result is one signed number: 0
// or more is the answer, below 0 is minus the number of a refusal. Nothing is asked of a caller but that its
// buffers are there, and that one which is written overlaps no other.
#![tactic(auto)]

ghost use Rattle.std.specs.Prelude.{◌≡◌, ℕ, ◌<◌, ◌^◌, length};
ghost use Rattle.std.specs.Result.{ForOk};
ghost use Rattle.std.proofs.Math.Option.{some};
ghost use Rattle.refusals.specs.Checks.{first_met};
ghost use Rattle.refusals.specs.Refusals.{number_told, told};
ghost use Rattle.index.specs.Answers.{entry_of, offset_answer, candidates_answer};
ghost use Rattle.calls.specs.Calls.{clear_table, lookup as lookup_of, release as release_of, hold as hold_of, hold_checks};
ghost use Rattle.forecast.specs.Forecasts.{forecast as forecast_of};
ghost use Rattle.file_form.specs.Writer.{write_file, length_of_file};
ghost use Rattle.file_form.specs.Reader.{read_file, header_answer};
ghost use Rattle.file_convert.specs.Converter.{convert_file};
ghost use Rattle.packed_form.specs.Writer.{write_packed};
ghost use Rattle.packed_form.specs.Reader.{read_packed};
ghost use Rattle.holdlist.specs.Numbers.{settings_at, numbers_of, minus, signed, itself, said_number};
ghost use Rattle.holdlist.specs.Calls.{settings_answer, view_answer, print_of, home_of, candidates_out, no_number, settings_out};

use index::Settings;
use refusals::Refusal;
use table::Removal;

// Settings as they are lent: rule, width, bucket count, mask and the two halves of the salt, low half first, as C's struct has them in
// memory.
type Lent = [u32; 6];

// The settings that are lent: the one place where they are made.
fn lent_settings(settings: &Lent) -> Settings
    ensures { result ≡ settings_at settings.now }
{
    Settings {
        rule: settings[0],
        width: settings[1],
        buckets: settings[2],
        mask: settings[3],
        salt: u64::from(settings[4]) + (u64::from(settings[5]) << 32),
    }
}

// A refusal.
fn refused(refusal: Refusal) -> i64
    ensures { result ≡ minus (number_told refusal) }
{
    -i64::from(refusal.number())
}

// An answer that is a number.
fn signed(answer: Result<u32, Refusal>) -> i64
    ensures { result ≡ signed itself (told answer) }
{
    match answer {
        Ok(n) => i64::from(n),
        Err(refusal) => refused(refusal),
    }
}

// An answer that counts bytes or cells.
fn signed_count(answer: Result<usize, Refusal>) -> i64
    requires { ForOk answer (λ n. n < 2 ^ 63) }
    ensures { result ≡ signed itself (told answer) }
{
    match answer {
        Ok(n) => n as i64,
        Err(refusal) => refused(refusal),
    }
}

// The settings of a file, where it gives some: the one place where they are handed out, with the answer 0.
fn hand_out(answer: Result<Settings, Refusal>, settings: &mut Lent) -> i64
    ensures value { result ≡ signed no_number (told answer) }
    ensures settings_after { settings.new ≡ settings_out (told answer) settings.old }
{
    match answer {
        Ok(s) => {
            let low = (s.salt % 4294967296) as u32;
            let high = (s.salt >> 32) as u32;
            let all = [s.rule, s.width, s.buckets, s.mask, low, high];
            *settings = all;
            0
        }
        Err(refusal) => refused(refusal),
    }
}

// 0, or minus the number that refuses the settings.
#[unsafe(no_mangle)]
pub extern "C" fn holdlist_settings_check(settings: &Lent) -> i64
    ensures { result ≡ signed itself (settings_answer (settings_at settings.now)) }
{
    signed(lent_settings(settings).check().and(Ok(0)))
}

// The fingerprint of a tag.
#[unsafe(no_mangle)]
pub extern "C" fn holdlist_fingerprint(settings: &Lent, tag: &[u8]) -> i64
    ensures { result ≡ signed print_of (entry_of (settings_at settings.now) tag.now) }
{
    signed(index::entry_of(lent_settings(settings), tag).map(|entry| u32::from(entry.print)))
}

// The home bucket of a tag.
#[unsafe(no_mangle)]
pub extern "C" fn holdlist_home(settings: &Lent, tag: &[u8]) -> i64
    ensures { result ≡ signed home_of (entry_of (settings_at settings.now) tag.now) }
{
    signed(index::entry_of(lent_settings(settings), tag).map(|entry| entry.home))
}

// The offset of any 16-bit value.
#[unsafe(no_mangle)]
pub extern "C" fn holdlist_offset(settings: &Lent, fingerprint: u16) -> i64
    ensures { result ≡ signed itself (offset_answer (settings_at settings.now) fingerprint) }
{
    signed(index::offset(lent_settings(settings), fingerprint))
}

// The candidates of a fingerprint in a bucket, to out, and how many there are. Places past them are 0.
#[unsafe(no_mangle)]
pub extern "C" fn holdlist_candidates(
    settings: &Lent,
    fingerprint: u16,
    bucket: u32,
    out: &mut [u32; 4],
) -> i64
    ensures value { result ≡ signed length (candidates_answer (settings_at settings.now) fingerprint bucket) }
    ensures out_after { out.new ≡ candidates_out (candidates_answer (settings_at settings.now) fingerprint bucket) out.old }
{
    match index::candidates(lent_settings(settings), fingerprint, bucket) {
        Ok(list) => {
            let buckets = list.buckets;
            *out = buckets;
            list.count as i64
        }
        Err(refusal) => refused(refusal),
    }
}

// Every cell empty: 0.
#[unsafe(no_mangle)]
pub extern "C" fn holdlist_clear(settings: &Lent, table: &mut [u16]) -> i64
    ensures value { result ≡ signed said_number (clear_table (settings_at settings.now) table.old).answer }
    ensures table_after { table.new ≡ (clear_table (settings_at settings.now) table.old).leaves }
{
    signed(table::clear(lent_settings(settings), table).and(Ok(0)))
}

// How many copies of the tag's fingerprint its candidates hold: above 0 where the tag is held.
#[unsafe(no_mangle)]
pub extern "C" fn holdlist_lookup(settings: &Lent, table: &[u16], tag: &[u8]) -> i64
    ensures { result ≡ signed said_number (lookup_of (settings_at settings.now) table.now tag.now).answer }
{
    signed(table::lookup(lent_settings(settings), table, tag))
}

// 1 where a copy of the tag's fingerprint was taken out, 0 where there is none.
#[unsafe(no_mangle)]
pub extern "C" fn holdlist_release(settings: &Lent, table: &mut [u16], tag: &[u8]) -> i64
    ensures value { result ≡ signed said_number (release_of (settings_at settings.now) table.old tag.now).answer }
    ensures table_after { table.new ≡ (release_of (settings_at settings.now) table.old tag.now).leaves }
{
    match table::release(lent_settings(settings), table, tag) {
        Ok(Removal::Released) => 1,
        Ok(Removal::Absent) => 0,
        Err(refusal) => refused(refusal),
    }
}

// The number of entries that moved to make room for the tag.
#[unsafe(no_mangle)]
pub extern "C" fn holdlist_hold(
    settings: &Lent,
    table: &mut [u16],
    scratch: &mut [u32],
    tag: &[u8],
) -> i64
    ensures value { result ≡ signed said_number (hold_of (settings_at settings.now) table.old (length scratch.old) tag.now).answer }
    ensures table_after { table.new ≡ (hold_of (settings_at settings.now) table.old (length scratch.old) tag.now).leaves }
    ensures by_index { (n : ℕ) → first_met (hold_checks (settings_at settings.now) table.old (length scratch.old) tag.now) ≡ some n → scratch.new ≡ scratch.old }
{
    signed(table::hold(lent_settings(settings), table, scratch, tag))
}

// What holdlist_hold would answer now. No cell is written.
#[unsafe(no_mangle)]
pub extern "C" fn holdlist_forecast(
    settings: &Lent,
    table: &[u16],
    scratch: &mut [u32],
    tag: &[u8],
) -> i64
    ensures value { result ≡ signed said_number (forecast_of (settings_at settings.now) table.now (length scratch.old) tag.now).answer }
    ensures table_value { table.now ≡ (forecast_of (settings_at settings.now) table.now (length scratch.old) tag.now).leaves }
    ensures by_index { (n : ℕ) → first_met (hold_checks (settings_at settings.now) table.now (length scratch.old) tag.now) ≡ some n → scratch.new ≡ scratch.old }
{
    signed(forecast::forecast(lent_settings(settings), table, scratch, tag))
}

// 0 where the bucket can be seen.
#[unsafe(no_mangle)]
pub extern "C" fn holdlist_view_check(settings: &Lent, table: &[u16], bucket: u32) -> i64
    ensures { result ≡ signed itself (view_answer (settings_at settings.now) table.now bucket) }
{
    signed(bucket_view::view_check(lent_settings(settings), table, bucket).and(Ok(0)))
}

// The number of bytes that the hold file of the table will have.
#[unsafe(no_mangle)]
pub extern "C" fn holdlist_file_length(settings: &Lent, table: &[u16]) -> i64
    ensures { result ≡ signed itself (length_of_file (settings_at settings.now) table.now) }
{
    signed_count(file_length::file_length(lent_settings(settings), table))
}

// The hold file of the table, to out, and how many bytes it takes. Later bytes of out stay as they are.
#[unsafe(no_mangle)]
pub extern "C" fn holdlist_file_write(settings: &Lent, table: &[u16], out: &mut [u8]) -> i64
    ensures value { result ≡ signed itself (write_file (settings_at settings.now) table.now out.old).answer }
    ensures out_after { out.new ≡ (write_file (settings_at settings.now) table.now out.old).leaves }
{
    signed_count(holdfile::write(lent_settings(settings), table, out))
}

// A hold file read: its cells to the table, and its settings to settings. 0.
#[unsafe(no_mangle)]
pub extern "C" fn holdlist_file_read(bytes: &[u8], table: &mut [u16], settings: &mut Lent) -> i64
    ensures value { result ≡ signed no_number (read_file bytes.now table.old).answer }
    ensures table_after { table.new ≡ (read_file bytes.now table.old).leaves }
    ensures settings_after { settings.new ≡ settings_out (read_file bytes.now table.old).answer settings.old }
{
    hand_out(holdfile::read(bytes, table), settings)
}

// The settings that a hold file names, to settings, for a caller that has to lend a table of their size. 0.
#[unsafe(no_mangle)]
pub extern "C" fn holdlist_file_settings(bytes: &[u8], settings: &mut Lent) -> i64
    ensures value { result ≡ signed no_number (header_answer bytes.now) }
    ensures settings_after { settings.new ≡ settings_out (header_answer bytes.now) settings.old }
{
    hand_out(file_header::settings_of(bytes), settings)
}

// A hold file of a mask that splits no offset, to out as one of the plain rule, and how many bytes it takes. Later bytes of out stay as
// they are.
#[unsafe(no_mangle)]
pub extern "C" fn holdlist_file_convert(bytes: &[u8], out: &mut [u8]) -> i64
    ensures value { result ≡ signed itself (convert_file bytes.now out.old).answer }
    ensures out_after { out.new ≡ (convert_file bytes.now out.old).leaves }
{
    signed_count(file_convert::convert(bytes, out))
}

// The packed form of the table, to out, and how many bytes it takes. Later bytes of out stay as they are.
#[unsafe(no_mangle)]
pub extern "C" fn holdlist_packed_write(settings: &Lent, table: &[u16], out: &mut [u8]) -> i64
    ensures value { result ≡ signed itself (write_packed (settings_at settings.now) table.now out.old).answer }
    ensures out_after { out.new ≡ (write_packed (settings_at settings.now) table.now out.old).leaves }
{
    signed_count(packed::write(lent_settings(settings), table, out))
}

// A packed form read: its cells to the table, and how many of them are filled.
#[unsafe(no_mangle)]
pub extern "C" fn holdlist_packed_read(settings: &Lent, bytes: &[u8], table: &mut [u16]) -> i64
    ensures value { result ≡ signed itself (read_packed (settings_at settings.now) bytes.now table.old).answer }
    ensures table_after { table.new ≡ (read_packed (settings_at settings.now) bytes.now table.old).leaves }
{
    signed_count(packed::read(lent_settings(settings), bytes, table))
}
