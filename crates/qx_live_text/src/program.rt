//! The program over the standard streams.

use crate::options::{Options, OptionsFault, read_options};
use crate::serve::{End, serve_all};
use std::env::Env;
use std::io::{BufReader, ErrorKind, Write};
use std::process::ExitCode;
use std::{env, fs, io};

/// A session over the standard streams, behind the lines of a file that the command line may name.
pub fn qxlive(rt: &HostRuntime) -> ExitCode {
    let end = end_of(rt);
    let _ = rt.stderr().write_all(end.text());
    ExitCode::from(end.status())
}

/// How it ends.
fn end_of(rt: &HostRuntime) -> End {
    let words = match words(rt) {
        Ok(words) => words,
        Err(error) => return unread(&error, End::Words),
    };
    match read_options(rt.alloc(), words.as_slice()) {
        Ok(options) => served(rt, &options),
        Err(OptionsFault::Words) => End::Words,
        Err(OptionsFault::NoMemory) => End::Memory,
    }
}

/// How it ends with these options.
fn served(rt: &HostRuntime, options: &Options<'_>) -> End {
    let first = match first_text(rt, options.file) {
        Ok(first) => first,
        Err(error) => return unread(&error, End::Input),
    };
    let Ok(mut reader) = BufReader::new(rt.alloc(), rt.reader()) else {
        return End::Memory;
    };
    let mut writer = io::writer(rt);
    serve_all(rt.alloc(), options.keeps, &first, &mut reader, &mut writer)
}

/// What a file holds, or nothing where none is named.
fn first_text(rt: &HostRuntime, file: Option<&str>) -> io::Result<Vec<u8>> {
    match file {
        Some(file) => fs::read(rt, file),
        None => Ok(Vec::new(rt.alloc())),
    }
}

/// The words of the command line, the program's name first.
fn words(rt: &(impl Env + AllocGlobal)) -> io::Result<Vec<String>> {
    Ok(env::args(rt)?.collect(rt.alloc())?)
}

/// The end where something could not be read: want of memory, or another one.
fn unread(error: &io::Error, other: End) -> End {
    match error.kind() {
        ErrorKind::OutOfMemory => End::Memory,
        _ => other,
    }
}
