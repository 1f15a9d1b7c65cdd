// The tracker's address for a torrent by a sheet.
use crate::report;
use sheets::Source;
use std::io::Stdout;

// Which text it stands in, and its bytes. One lifetime, since they may be a part of either.
pub fn address<'a>(output: Stdout, torrent: &'a [u8], sheet: &'a [u8]) {
    let found = sheets::find(torrent, sheet);
    match found.part {
        Ok(_) => show(output, found.source, sheets::address(torrent, sheet)),
        Err(r) => report::refused(output, r),
    }
}

fn show(output: Stdout, source: Source, bytes: &[u8]) {
    match source {
        Source::Torrent => report::say(output, b"torrent "),
        Source::Sheet => report::say(output, b"sheet "),
    }
    report::hex(output, bytes);
}
