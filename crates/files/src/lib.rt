// The files of a day in a folder: they are loaded, and the report on them is printed (document 01, "The program's day").
#![tactic(auto)]

ghost use Rattle.std.specs.Io.{ReadsAtMost};
ghost use Rattle.std.specs.Io.KnownBytes.{ReadConsumes};
ghost use Rattle.files.specs.Loads.{Loads, ReadsFront};

use decode::FILE_BYTES;
use report::REPORT_BYTES;
use std::fs::File;
use std::io::{Cursor, ErrorKind, Read, Write};
use std::rt::Files;
use std::{io, str};
use text::Page;

// The longest name of a folder that is taken.
const FOLDER_BYTES: usize = 4000;

// .. and of a file in it.
const NAME_BYTES: usize = 90;

// Room for the path that they make.
const PATH_BYTES: usize = 4096;

// A line on standard error: what failed, and the system's words for why, without the number that std puts behind them. Where even
// that cannot be written, nobody can be told.
fn fail(rt: &impl Eprint, what: &str, error: &io::Error) {
    let mut said = Cursor::new([0u8; 256]);
    let _ = write!(said, "{error}");
    let end = said.position().min(256) as usize;
    let said = said.into_inner();
    let words = str::from_utf8(&said[..end]).unwrap_or("");
    let words = words
        .split_once(" (os error ")
        .map_or(words, |(front, _)| front);
    let _ = eprintln!(rt; "{what}: {words}");
}

// One read, tried again where a signal breaks it off. The count is there because each loop is proved to end.
fn read_some<F: Read>(file: &mut F, buf: &mut [u8]) -> io::Result<usize>
    ensures bound { ReadsAtMost result buf.new }
    ensures bytes { ReadConsumes (F.remaining file.old) (F.remaining file.new) result buf.new }
{
    for _ in 0..u64::MAX {
        match file.read(buf) {
            Err(error) if error.kind() == ErrorKind::Interrupted => {}
            answer => return answer,
        }
    }
    file.read(buf)
}

// The first bytes of what a file has left, as many as `buf` holds; one read may give fewer.
fn read_front<F: Read>(file: &mut F, buf: &mut [u8]) -> io::Result<usize>
    ensures bound { ReadsAtMost result buf.new }
    ensures bytes { ReadsFront (F.remaining file.old) (F.remaining file.new) result buf.new }
{
    let mut done = 0;
    // No index is counted: this goes on until the buffer is full or the file ends.
    while done < buf.len() {
        let n = read_some(file, &mut buf[done..])?;
        if n == 0 {
            break;
        }
        done += n;
    }
    Ok(done)
}

// The first bytes of a file, as many as `buf` holds, and how many they are; a missing file is empty. None where the file is there and
// cannot be read: a message has said so.
fn load(rt: &(impl Files + Eprint), path: &[u8], buf: &mut [u8]) -> Option<usize>
    ensures { Loads result buf.new }
{
    let Ok(path) = str::from_utf8(path) else {
        let _ = rt.eprintln("a file's path is not UTF-8");
        return None;
    };
    let mut file = match File::open(rt, path) {
        Ok(file) => file,
        Err(error) if error.kind() == ErrorKind::NotFound => return Some(0),
        Err(error) => {
            fail(rt, path, &error);
            return None;
        }
    };
    match read_front(&mut file, buf) {
        Ok(n) => Some(n),
        Err(error) => {
            fail(rt, path, &error);
            None
        }
    }
}

// The same of a file in a folder. A folder's name of over 4,000 bytes is not taken. The path is put together in an array, since std's
// `join` allocates.
fn load_from(
    rt: &(impl Files + Eprint),
    folder: &[u8],
    name: &[u8],
    buf: &mut [u8],
) -> Option<usize>
    ensures { Loads result buf.new }
{
    if folder.len() > FOLDER_BYTES {
        let _ = rt.eprintln("a folder's name is too long");
        return None;
    }
    if name.len() > NAME_BYTES {
        let _ = rt.eprintln("a file's name is too long");
        return None;
    }
    let mut bytes = [0u8; PATH_BYTES];
    let mut path = Page {
        bytes: &mut bytes,
        end: 0,
    };
    path.put_word(folder);
    path.put_word(b"/");
    path.put_word(name);
    let end = path.end;
    load(rt, &bytes[..end], buf)
}

// Prints the report on these bytes; its buffer has always room.
fn print(rt: &(impl Print + Eprint), journal: &[u8], table: &[u8], bad: &[u8]) {
    let mut out = [0u8; REPORT_BYTES];
    if let Some(n) = day_report::report_files(journal, table, bad, &mut out)
        && let Err(error) = rt.write_all(&out[..n])
    {
        fail(rt, "standard output", &error);
    }
}

// Prints the report on the three files of the folder. Where one is there and cannot be read, or the folder's name is too long or is
// not UTF-8, only a message on standard error is printed.
pub fn print_report(rt: &(impl Files + Print + Eprint), folder: &[u8]) {
    // No heap: each file has an array for the longest, and a count of the bytes that are filled.
    let mut journal = [0u8; FILE_BYTES];
    let Some(j) = load_from(rt, folder, b"journal.bin", &mut journal) else {
        return;
    };
    let mut table = [0u8; FILE_BYTES];
    let Some(t) = load_from(rt, folder, b"table.bin", &mut table) else {
        return;
    };
    let mut bad = [0u8; FILE_BYTES];
    let Some(b) = load_from(rt, folder, b"bad.bin", &mut bad) else {
        return;
    };
    print(rt, &journal[..j], &table[..t], &bad[..b]);
}
