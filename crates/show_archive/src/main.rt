// Shows an archive of a submission book (docs/ARCHIVE.md) as text, the payments on top, from the file that the argument names or from standard input. With
// --hex in front, the archive's bytes too.
#![tactic(auto)]

mod dump;
mod failure;
mod input;
mod refusal;

use failure::fail;
use std::env::{Env, FillError};
use std::fs::Files;
use std::io::Read;
use std::{fs, io, str};

// `ReadArchive` is a mark with the book beside it: a `Result` of a book costs each call a copy (tried, in `archive_read`).
// The bytes in hand and whether there may be more of them.
fn show(rt: &impl Print, s: &[u8], more: bool, hex: bool) -> io::Result<()> {
    let r = archive_read::read_archive(s);
    if r.ok {
        tool_book_report::show_book(rt, s.len(), &base_sha256::sha256(s), &r.book)?;
    } else {
        refusal::show_refusal(rt, s, r.place, more)?;
    }
    if hex {
        dump::show_bytes(rt, s)?;
    }
    Ok(())
}

fn show_file<R: Read>(
    rt: &(impl Print + Eprint),
    file: &mut R,
    name: &str,
    hex: bool,
) -> io::Result<()> {
    // A room of one byte more than are shown: a full one says that the input goes on behind them.
    let mut room = [0u8; 65537];
    match input::read_all(file, &mut room) {
        Ok(count) => show(rt, &room[..count.min(65536)], count > 65536, hex),
        Err(error) => {
            fail(rt, name, &error);
            rt.write_all(b"not read: an error of the file\n")
        }
    }
}

// The file that an argument names.
fn show_named(rt: &(impl Files + Print + Eprint), path: &str, hex: bool) -> io::Result<()> {
    match fs::open(rt, path) {
        Ok(mut file) => show_file(rt, &mut file, path, hex),
        Err(error) => {
            fail(rt, path, &error);
            rt.write_all(b"not read: the file cannot be opened\n")
        }
    }
}

// A path is text for the library: no other name can be opened.
fn show_path(rt: &(impl Files + Print + Eprint), path: &[u8], hex: bool) -> io::Result<()> {
    match str::from_utf8(path) {
        Ok(path) => show_named(rt, path, hex),
        Err(_) => {
            let _ = rt.eprintln("file name: not UTF-8");
            rt.write_all(b"not read: the file cannot be opened\n")
        }
    }
}

// The argument i names the file; without it, standard input.
fn show_argument(
    rt: &(impl Env + Files + Input + Print + Eprint),
    i: usize,
    hex: bool,
) -> io::Result<()> {
    let mut path = [0u8; 4096];
    match rt.arg(i, &mut path) {
        Ok(n) => show_path(rt, &path[..n], hex),
        Err(FillError::NotPresent) => show_file(rt, &mut rt.reader(), "standard input", hex),
        Err(FillError::TooLong) => {
            let _ = rt.eprintln("file name: File name too long");
            rt.write_all(b"not read: the file name is too long\n")
        }
    }
}

fn say_usage(rt: &impl Print) -> io::Result<()> {
    rt.write_all(b"not read: usage: show_archive [--hex] [FILE]\n")
}

fn is_present(rt: &impl Env, i: usize) -> bool {
    let mut word = [0u8; 1];
    !matches!(rt.arg(i, &mut word), Err(FillError::NotPresent))
}

// An argument that begins with two dashes is an option, and no file's name. Of a longer one the first two bytes are left in the word.
fn is_option(rt: &impl Env, i: usize) -> bool {
    let mut word = [0u8; 2];
    let _ = rt.arg(i, &mut word);
    word == *b"--"
}

fn is_hex_option(rt: &impl Env, i: usize) -> bool {
    let mut word = [0u8; 5];
    matches!(rt.arg(i, &mut word), Ok(5)) && word == *b"--hex"
}

// The file's name is the argument at `file`, and none stands at `end` or behind it.
fn show_checked(
    rt: &(impl Env + Files + Input + Print + Eprint),
    file: usize,
    end: usize,
    hex: bool,
) -> io::Result<()> {
    if is_option(rt, file) || is_present(rt, end) {
        return say_usage(rt);
    }
    show_argument(rt, file, hex)
}

fn main(rt: HostRuntime) -> io::Result<()> {
    if is_hex_option(&rt, 1) {
        show_checked(&rt, 2, 3, true)
    } else {
        show_checked(&rt, 1, 2, false)
    }
}
