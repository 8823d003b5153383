// The command `tidy`: two files written again in the one form of their case.
use crate::file::answer;
use file_io::arguments::{argument, argument_room, is_help};
use file_io::file::{file_room, first, read_file};
use file_io::message::{say, say_name};
use std::fs::{File, OpenOptions};
use std::io::Write;
use std::rt::Files;
use std::{fs, io, str};
use write_case::Texts;
use write_case::rewrite::rewrite_files;

// Writes the usage text to standard error.
pub fn tidy_usage(err: &impl Print) -> io::Result<()> {
    say(
        err,
        b"usage: tidy TARIFF PRODUCTION NEW_TARIFF NEW_PRODUCTION\n",
    )?;
    say(
        err,
        b"Reads a case from two CSV files and writes it as two new ones, in one form. It writes over no file.\n",
    )
}

// Opens a new file to write; none where its name is taken, or it cannot be made. A path that is not text in UTF-8 makes no file.
fn new_file(rt: &HostRuntime, path: &[u8]) -> Option<File> {
    let path = str::from_utf8(path).ok()?;
    OpenOptions::new()
        .write(true)
        .create_new(true)
        .open(rt, path)
        .ok()
}

// Removes a file that was made here, if it can be.
fn remove(rt: &impl Files, path: &[u8]) {
    if let Ok(path) = str::from_utf8(path) {
        let _ = fs::remove_file(rt, path);
    }
}

// Writes an open file, and closes it; false where it cannot be written.
fn filled(mut file: File, text: &[u8]) -> bool {
    file.write_all(text).is_ok()
}

// Makes a file and writes it; false where its name is taken or it cannot be written, and then nothing is left of it.
fn write_new(rt: &HostRuntime, path: &[u8], text: &[u8]) -> bool {
    let Some(file) = new_file(rt, path) else {
        return false;
    };
    let written = filled(file, text);
    if !written {
        remove(rt, path);
    }
    written
}

// Says that a file was not written.
fn not_written(err: &impl Print, path: &[u8]) -> io::Result<()> {
    say_name(err, path)?;
    say(
        err,
        b" was not written: there is a file of that name, or it cannot be made.\n",
    )
}

// Writes to standard output.
fn put(out: &impl Print, text: &[u8]) -> io::Result<()> {
    out.write_all(text)
}

// Does a name need quotes as a field of RFC 4180? It has a comma, a quote or a line end.
fn needs_quotes(name: &[u8]) -> bool {
    name.iter()
        .any(|&b| matches!(b, b'\n' | b'\r' | b'"' | b','))
}

// Writes a name as a field in quotes, each quote in it twice.
fn put_quoted(out: &impl Print, name: &[u8]) -> io::Result<()> {
    put(out, b"\"")?;
    for &byte in name {
        if byte == b'"' {
            put(out, b"\"")?;
        }
        put(out, &[byte])?;
    }
    put(out, b"\"")
}

// Writes a name as a field.
fn put_name(out: &impl Print, name: &[u8]) -> io::Result<()> {
    if needs_quotes(name) {
        return put_quoted(out, name);
    }
    put(out, name)
}

// Writes a record of a new file and its length.
fn tell(out: &impl Print, path: &[u8], length: usize) -> io::Result<()> {
    put_name(out, path)?;
    put(out, b",")?;
    out.print(length)?;
    put(out, b"\r\n")
}

// Writes both new files and their lengths to standard output.
fn tell_all(
    out: &impl Print,
    tariff_path: &[u8],
    tariff: usize,
    production_path: &[u8],
    production: usize,
) -> io::Result<()> {
    put(out, b"file,bytes\r\n")?;
    tell(out, tariff_path, tariff)?;
    tell(out, production_path, production)
}

// Says both new files and their lengths on standard output.
fn tell_both(
    rt: &HostRuntime,
    tariff_path: &[u8],
    tariff: usize,
    production_path: &[u8],
    production: usize,
) -> io::Result<()> {
    if tell_all(rt, tariff_path, tariff, production_path, production).is_err() {
        say(
            &rt.stderr(),
            b"Both files are written; standard output could not be.\n",
        )?;
    }
    Ok(())
}

// Writes the two new files, both or none.
fn write_both(
    rt: &HostRuntime,
    tariff_path: &[u8],
    tariff: &[u8],
    production_path: &[u8],
    production: &[u8],
) -> io::Result<()> {
    if !write_new(rt, tariff_path, tariff) {
        return not_written(&rt.stderr(), tariff_path);
    }
    if !write_new(rt, production_path, production) {
        remove(rt, tariff_path);
        return not_written(&rt.stderr(), production_path);
    }
    tell_both(
        rt,
        tariff_path,
        tariff.len(),
        production_path,
        production.len(),
    )
}

// Writes the case of two files' bytes as two new files, or prints its refusal as `plan` does.
fn rewrite(
    rt: &HostRuntime,
    tariff: &[u8],
    production: &[u8],
    tariff_path: &[u8],
    production_path: &[u8],
    new_tariff_path: &[u8],
    new_production_path: &[u8],
) -> io::Result<()> {
    let mut new_tariff = file_room();
    let mut new_production = file_room();
    let texts = rewrite_files(tariff, production, &mut new_tariff, &mut new_production);
    match texts {
        Texts::Refused { .. } => answer(rt, tariff, production, tariff_path, production_path),
        Texts::Written {
            tariff: t,
            production: p,
        } => write_both(
            rt,
            new_tariff_path,
            first(&new_tariff, t),
            new_production_path,
            first(&new_production, p),
        ),
    }
}

// Writes the case of the files of two paths as new files of two others.
pub fn tidy_paths(
    rt: &HostRuntime,
    tariff_path: &[u8],
    production_path: &[u8],
    new_tariff_path: &[u8],
    new_production_path: &[u8],
) -> io::Result<()> {
    let mut tariff = file_room();
    let mut production = file_room();
    let t = read_file(rt, tariff_path, &mut tariff);
    let p = read_file(rt, production_path, &mut production);
    rewrite(
        rt,
        first(&tariff, t),
        first(&production, p),
        tariff_path,
        production_path,
        new_tariff_path,
        new_production_path,
    )
}

// Writes the case of two paths as two others, unless one is the word for help.
fn tidy_or_help(
    rt: &HostRuntime,
    tariff: &[u8],
    production: &[u8],
    new_tariff: &[u8],
    new_production: &[u8],
) -> io::Result<()> {
    if is_help(tariff) || is_help(production) {
        return tidy_usage(&rt.stderr());
    }
    if is_help(new_tariff) || is_help(new_production) {
        return tidy_usage(&rt.stderr());
    }
    tidy_paths(rt, tariff, production, new_tariff, new_production)
}

// The four paths. An argument longer than any path is empty here, and no file has that name.
pub fn tidy_with_arguments(rt: &HostRuntime) -> io::Result<()> {
    let mut tariff = argument_room();
    let mut production = argument_room();
    let mut new_tariff = argument_room();
    let mut new_production = argument_room();
    let a = argument(rt, 1, &mut tariff);
    let b = argument(rt, 2, &mut production);
    let c = argument(rt, 3, &mut new_tariff);
    let d = argument(rt, 4, &mut new_production);
    tidy_or_help(
        rt,
        first(&tariff, a),
        first(&production, b),
        first(&new_tariff, c),
        first(&new_production, d),
    )
}

// Writes the file of a path to standard output; nothing where it is not read.
pub fn show_path(rt: &HostRuntime, path: &[u8]) -> io::Result<()> {
    let mut room = file_room();
    let length = read_file(rt, path, &mut room);
    if length < 65537 {
        rt.write_all(first(&room, length))?;
    }
    Ok(())
}
