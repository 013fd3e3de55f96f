// Reads a book, checks it, and prints what is to be told of it. All that it says is worked out in `report`.
#![tactic(auto)]

use anyhow::{Context, anyhow};
use report::{Untold, report_above, report_on, report_text};
use std::alloc::Global;
use std::process::ExitCode;
use std::{env, fs};

const HELP: &str = "\
bookcheck [FILE] [--floor CODE | --text TEXT]

Checks the book in FILE, or in book.bin where no file is named.

An accepted book is told by its kind, its words with their numbers of arguments,
and for each word the words that it is alike to and at what degree: a mark from
1 to 1000, or the firmware lines on which the two words mean the same.

  --floor CODE   tells only what is left above a floor: the likenesses that are
                 at least the degree with this code, a number from 0 to 65535
  --text TEXT    tells whether TEXT is a text over the words of the book
  --help         prints this text

A refused book, floor or text is told by a line `fault LAYER NUMBER PLACE` and a
sentence that says what is wrong first, for a text with a caret under the place.
The exit status is then 1.
";

/// What is to be told of a book.
#[derive(Drop)]
enum Task {
    Account,
    Above(u16),
    Text(String),
}

/// What the arguments ask for.
#[derive(Drop)]
struct Request {
    path: String,
    task: Task,
}

/// What the arguments ask for, or nothing where help is asked for; an error that says which argument is not understood.
fn asked(rt: &HostRuntime) -> anyhow::Result<Option<Request>> {
    let mut path = String::from_str(rt.alloc(), "book.bin")?;
    let mut floor = None;
    let mut text = None;
    let mut help = false;
    let mut arguments = env::args(rt)?.skip(1);
    while let Some(argument) = arguments.next() {
        match argument.as_str() {
            "--help" => help = true,
            "--floor" => {
                let code = arguments.next().context("an option lacks its value")?;
                floor = Some(
                    code.as_str()
                        .parse::<u16>()
                        .context("a floor is a number from 0 to 65535")?,
                );
            }
            "--text" => text = Some(arguments.next().context("an option lacks its value")?),
            other => {
                if other.starts_with("-") {
                    return Err(anyhow!("there is an option that is not known"));
                }
                path = String::from_str(rt.alloc(), other)?;
            }
        }
    }
    if help {
        return Ok(None);
    }
    // a text goes before a floor, wherever they stand
    let task = match (text, floor) {
        (Some(text), _) => Task::Text(text),
        (None, Some(code)) => Task::Above(code),
        (None, None) => Task::Account,
    };
    Ok(Some(Request { path, task }))
}

/// What is to be told of the book in the bytes.
fn told(heap: Global, bytes: &[u8], task: &Task) -> Result<String, Untold> {
    match task {
        Task::Account => report_on(heap, bytes),
        Task::Above(code) => report_above(heap, bytes, *code),
        Task::Text(text) => report_text(heap, bytes, text.as_str()),
    }
}

fn main(rt: HostRuntime) -> anyhow::Result<ExitCode> {
    let request = match asked(&rt) {
        Ok(Some(request)) => request,
        Ok(None) => {
            print!(rt; "{HELP}")?;
            return Ok(ExitCode::SUCCESS);
        }
        Err(error) => {
            eprintln!(rt; "bookcheck: {error}; see bookcheck --help")?;
            return Ok(ExitCode::FAILURE);
        }
    };
    let bytes = match fs::read(&rt, request.path.as_str()) {
        Ok(bytes) => bytes,
        Err(error) => {
            eprintln!(rt; "bookcheck: {} will not open: {error}", request.path)?;
            return Ok(ExitCode::FAILURE);
        }
    };
    match told(rt.alloc(), bytes.as_slice(), &request.task) {
        Ok(text) => {
            print!(rt; "{text}")?;
            Ok(ExitCode::SUCCESS)
        }
        Err(Untold::Refused(text)) => {
            print!(rt; "{text}")?;
            Ok(ExitCode::FAILURE)
        }
        Err(Untold::NoMemory(error)) => Err(error.into()),
    }
}
