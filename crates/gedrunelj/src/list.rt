// The list in memory: each command's call, and its answer.
ghost use Rattle.std.specs.Prelude.{◌≤◌, length, IfSome};

use super::errors::Cause;
use super::files;
use super::tell::{Count, Log, Shown};
use index::Settings;
use programs::Spaced;
use refusals::Refusal;
use table::Removal;
use typed_tags::TagError;

// One list, what is kept of it from line to line, and the space that its files are read to and written
// from: its settings, its longest relocation, and whether a list that should have been read was not.
// With it goes the log, to which every command answers. Where a method lends two fields at once it lends both
// as `&mut`, also one that is only read: other loans of two fields have no rule in the check yet.
#[derive(Drop)]
pub(crate) struct Session<'a> {
    pub(crate) log: Log,
    settings: Settings,
    longest: u32,
    lost: bool,
    // the rest of a line that is too long is still to come
    pub(crate) skipping: bool,
    cells: &'a mut [u16],
    words: &'a mut [u32],
    space: &'a mut [u8],
}

// How many cells a list of these settings has, if there are as many.
fn lent(s: Settings, cells: &[u16]) -> usize
    ensures { result ≤ length cells.now }
{
    (4 * s.buckets as usize).min(cells.len())
}

fn to_u32(n: usize) -> u32 {
    u32::try_from(n).unwrap_or(u32::MAX)
}

// The list of a hold file, its settings, and how many entries it has.
fn read_file(_s: Settings, bytes: &[u8], cells: &mut [u16]) -> Result<(Settings, usize), Refusal> {
    let s = file_header::settings_of(bytes)?;
    let n = lent(s, cells);
    let part = &mut cells[..n];
    let s = holdfile::read(bytes, part)?;
    Ok((s, table::filled(part)))
}

// The same of a packed form, whose settings have to be known.
fn read_packed(s: Settings, bytes: &[u8], cells: &mut [u16]) -> Result<(Settings, usize), Refusal> {
    let n = lent(s, cells);
    let count = packed::read(s, bytes, &mut cells[..n])?;
    Ok((s, count))
}

impl<'a> Session<'a> {
    pub(crate) fn new(
        log: Log,
        cells: &'a mut [u16],
        words: &'a mut [u32],
        space: &'a mut [u8],
    ) -> Session<'a> {
        Session {
            log,
            settings: Settings::defaults(),
            longest: 0,
            lost: false,
            skipping: false,
            cells,
            words,
            space,
        }
    }

    // ── tags ──

    // What a call on the tag that was typed answers. A text that is no tag is answered, and so is a call
    // that is refused.
    fn call<T, F: FnOnce(Settings, &mut [u16], &mut [u32], &[u8]) -> Result<T, Refusal>>(
        &mut self,
        text: &[u8],
        call: F,
    ) -> Option<T>
        requires { F.IsAlwaysCallable call }
    {
        let mut space = [0u8; 64];
        let length = match typed_tags::tag(text, &mut space) {
            Ok(length) => length,
            Err(TagError::Refused(why)) => {
                self.log.refused(why);
                return None;
            }
            Err(why) => {
                self.log.bad(why);
                return None;
            }
        };
        let settings = self.settings;
        let n = lent(settings, self.cells);
        let cells = &mut self.cells[..n];
        match call(settings, cells, self.words, &space[..length]) {
            Ok(answer) => Some(answer),
            Err(why) => {
                self.log.refused(why);
                None
            }
        }
    }

    pub(crate) fn hold(&mut self, text: &[u8]) {
        if let Some(moves) = self.call(
            text,
            |s, cells, words, tag| table::hold(s, cells, words, tag),
        ) {
            self.log
                .print(format_args!("accepted, {}\n", Count::moves(moves)));
            self.longest = commands::longest(self.longest, moves);
        }
    }

    pub(crate) fn release(&mut self, text: &[u8]) {
        match self.call(text, |s, cells, _, tag| table::release(s, cells, tag)) {
            Some(Removal::Released) => self.log.print("released\n"),
            Some(Removal::Absent) => self.log.print("absent\n"),
            None => {}
        }
    }

    // One release takes one order off, so that their number is told.
    pub(crate) fn lookup(&mut self, text: &[u8]) {
        match self.call(text, |s, cells, _, tag| table::lookup(s, cells, tag)) {
            Some(0) => self.log.print("clear\n"),
            Some(copies) => self
                .log
                .print(format_args!("held, {}\n", Count::orders(copies))),
            None => {}
        }
    }

    // What a hold of the tag would answer, by the same words.
    pub(crate) fn forecast(&mut self, text: &[u8]) {
        if let Some(moves) = self.call(text, |s, cells, words, tag| {
            forecast::forecast(s, cells, words, tag)
        }) {
            self.log.print(format_args!("would be accepted, {}\n", Count::moves(moves)));
        }
    }

    // ── the list as a whole ──

    pub(crate) fn view(&mut self, bucket: u32) {
        let settings = self.settings;
        let n = lent(settings, self.cells);
        let table = &mut self.cells[..n];
        let log = &mut self.log;
        match bucket_view::view_check(settings, table, bucket) {
            Ok(()) => {
                let cells = Spaced(bucket_view::view(settings, table, bucket));
                log.print(format_args!("bucket {bucket}: {cells}\n"));
            }
            Err(why) => log.refused(why),
        }
    }

    // The list in memory is one of these settings, begun anew.
    fn begin(&mut self, settings: Settings) {
        self.settings = settings;
        self.longest = 0;
        self.lost = false;
    }

    // A list of these settings with nothing in it.
    pub(crate) fn set(&mut self, settings: Settings) {
        let n = lent(settings, self.cells);
        match table::clear(settings, &mut self.cells[..n]) {
            Ok(()) => {
                self.log.print("cleared\n");
                self.begin(settings);
            }
            Err(why) => self.log.refused(why),
        }
    }

    pub(crate) fn clear(&mut self) {
        self.set(self.settings);
    }

    pub(crate) fn tell_settings(&mut self) {
        self.log.print(format_args!("{}\n", Shown(self.settings)));
    }

    pub(crate) fn stats(&mut self) {
        let n = lent(self.settings, self.cells);
        let entries = table::filled(&self.cells[..n]);
        let buckets = self.settings.buckets;
        let longest = self.longest;
        let load = commands::permille(to_u32(entries), to_u32(n));
        self.log.print(format_args!(
            "entries {entries}, buckets {buckets}, load {}.{} %, longest relocation {longest}\n",
            load / 10,
            load % 10
        ));
    }

    // ── files ──

    // The bytes that save would write.
    pub(crate) fn length(&mut self) {
        let n = lent(self.settings, self.cells);
        match file_length::file_length(self.settings, &self.cells[..n]) {
            Ok(count) => self.log.print(format_args!("{count} bytes\n")),
            Err(why) => self.log.refused(why),
        }
    }

    // The list in one of the two forms, to the start of the space, and how many bytes that is.
    fn formed<F: FnOnce(Settings, &[u16], &mut [u8]) -> Result<usize, Refusal>>(
        &mut self,
        form: F,
    ) -> Result<usize, Refusal>
        requires { F.IsAlwaysCallable form }
    {
        let settings = self.settings;
        let n = lent(settings, self.cells);
        let cells = &mut self.cells[..n];
        form(settings, cells, self.space)
    }

    // Writes the list to a file in one of the two forms: not where the file that should have been read
    // last was not.
    fn write<F: FnOnce(Settings, &[u16], &mut [u8]) -> Result<usize, Refusal>>(
        &mut self,
        done: &str,
        name: &[u8],
        form: F,
    )
        requires { F.IsAlwaysCallable form }
    {
        if self.lost {
            self.log.bad(
                "not written: the last load or unpack failed, so this is not its list; after clear, settings or a good load or unpack it can be",
            );
            return;
        }
        match self.formed(form) {
            Ok(count) => {
                let space = &mut self.space[..];
                let log = &mut self.log;
                log.store(done, name, space, count);
            }
            Err(why) => self.log.refused(why),
        }
    }

    pub(crate) fn save(&mut self, name: &[u8]) {
        self.write("saved", name, holdfile::write);
    }

    pub(crate) fn pack(&mut self, name: &[u8]) {
        self.write("packed", name, packed::write);
    }

    // A file's bytes, to the start of the space, and how many they are. A file that cannot be read is
    // answered.
    fn fetch(&mut self, name: &[u8]) -> Option<usize>
        ensures { IfSome result (λ n. n ≤ length self.new.space.now) }
    {
        match files::fetch(self.log.rt, name, self.space) {
            Ok(n) => Some(n),
            Err(e) => {
                self.log.not_read(name, Cause::from(e));
                None
            }
        }
    }

    // A hold file of a mask that splits no offset, written as one of the plain rule. The list has no
    // part in it.
    pub(crate) fn convert(&mut self, from: &[u8], to: &[u8]) {
        let Some(n) = self.fetch(from) else {
            return;
        };
        let mut out = programs::space::<u8, { super::FILE }>(0);
        match file_convert::convert(&self.space[..n], &mut out) {
            Ok(count) => self.log.store("converted", to, &out, count),
            Err(why) => self.log.refused(why),
        }
    }

    // Reads a file in one of the two forms, and answers how many entries it has. After one that could
    // not be read, what is in memory is not what a file of that name should get.
    fn read<F: FnOnce(Settings, &[u8], &mut [u16]) -> Result<(Settings, usize), Refusal>>(
        &mut self,
        name: &[u8],
        form: F,
    ) -> Option<Count>
        requires { F.IsAlwaysCallable form }
    {
        self.lost = true;
        let n = self.fetch(name)?;
        let settings = self.settings;
        let bytes = &mut self.space[..n];
        match form(settings, bytes, self.cells) {
            Ok((settings, entries)) => {
                self.begin(settings);
                Some(Count::entries(entries))
            }
            Err(why) => {
                self.log.refused(why);
                None
            }
        }
    }

    pub(crate) fn load(&mut self, name: &[u8]) {
        if let Some(entries) = self.read(name, read_file) {
            let settings = Shown(self.settings);
            self.log
                .print(format_args!("loaded, {entries}, {settings}\n"));
        }
    }

    pub(crate) fn unpack(&mut self, name: &[u8]) {
        if let Some(entries) = self.read(name, read_packed) {
            self.log.print(format_args!("unpacked, {entries}\n"));
        }
    }
}
