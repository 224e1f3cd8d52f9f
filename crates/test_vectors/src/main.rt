// Answers requests on the index rules. Each line of standard input is a request, and is written to
// standard output with " = " and the answer after it:
//
//     hash HEX
//     settings RULE WIDTH BUCKETS MASK SALT
//     tag RULE WIDTH BUCKETS MASK SALT HEX
//     offset RULE WIDTH BUCKETS MASK SALT VALUE
//     candidates RULE WIDTH BUCKETS MASK SALT VALUE BUCKET
#![tactic(auto)]

use index::Settings;
use programs::{Fields, Refused, Spaced};
use std::io;
use std::io::Write;

fn answer_hash(out: &mut impl Write, fields: Fields) -> io::Result<()> {
    let mut bytes = [0u8; 4096];
    let n = fields.bytes(&mut bytes);
    let hash = index::fnv1a(&bytes[..n]);
    write!(out, "{hash:016x}")
}

fn answer_settings(out: &mut impl Write, mut fields: Fields) -> io::Result<()> {
    let s = fields.settings();
    match Settings::new(s.rule, s.width, s.buckets, s.mask, s.salt) {
        Ok(_) => out.write_all(b"good"),
        Err(why) => write!(out, "{}", Refused(why)),
    }
}

fn answer_tag(out: &mut impl Write, mut fields: Fields) -> io::Result<()> {
    let s = fields.settings();
    let mut bytes = [0u8; 4096];
    let n = fields.bytes(&mut bytes);
    match index::entry_of(s, &bytes[..n]) {
        Ok(entry) => {
            let print = entry.print;
            let home = entry.home;
            write!(out, "{print} {home}")
        }
        Err(why) => write!(out, "{}", Refused(why)),
    }
}

fn answer_offset(out: &mut impl Write, mut fields: Fields) -> io::Result<()> {
    let s = fields.settings();
    match index::offset(s, fields.half_word()) {
        Ok(offset) => write!(out, "{offset}"),
        Err(why) => write!(out, "{}", Refused(why)),
    }
}

fn answer_candidates(out: &mut impl Write, mut fields: Fields) -> io::Result<()> {
    let s = fields.settings();
    let value = fields.half_word();
    let bucket = fields.word();
    match index::candidates(s, value, bucket) {
        Ok(list) => write!(out, "{}", Spaced(list.as_slice())),
        Err(why) => write!(out, "{}", Refused(why)),
    }
}

// The first letter tells the kind of a request.
fn answer(out: &mut impl Write, line: &[u8]) -> io::Result<()> {
    let mut fields = Fields::of(line);
    match fields.next() {
        [b'h', ..] => answer_hash(out, fields),
        [b's', ..] => answer_settings(out, fields),
        [b't', ..] => answer_tag(out, fields),
        [b'o', ..] => answer_offset(out, fields),
        [b'c', ..] => answer_candidates(out, fields),
        _ => Ok(()),
    }
}

fn answer_all(out: &mut impl Write, requests: &[u8]) -> io::Result<()> {
    for line in requests.split_inclusive(|b| *b == b'\n') {
        let line = line.strip_suffix(b"\n").unwrap_or(line);
        out.write_all(line)?;
        out.write_all(b" = ")?;
        answer(out, line)?;
        out.write_all(b"\n")?;
    }
    Ok(())
}

fn main(rt: HostRuntime) -> io::Result<()> {
    let mut requests = programs::space::<u8, 262144>(0);
    let n = programs::read_full(&mut rt.stdin(), &mut requests)?;
    let mut out = rt.stdout();
    answer_all(&mut out, &requests[..n])?;
    out.flush()
}
