// Carries out a script of sheet calls over a book, and prints an answer to each line. All that it answers is worked out in `transcript`.
#![tactic(auto)]

use anyhow::anyhow;
use book::{Kind, LinesBook, MarksBook, check};
use fault::Cause;
use scale::Coded;
use std::io::Read;
use std::process::ExitCode;
use std::{env, fs};
use transcript::{answers, lines_of};
use vocabulary::{Lexicon, Vocabulary};

const HELP: &str = "\
replay [BOOK]

Carries out a script of calls, read from standard input, on a fresh sheet over
the book in the file BOOK, or in book.bin where no file is named, and prints one
line for each line of the script:

  variable LABEL          row N        the row of the label
  compose WORD ROW ..     row N        a new row of the word, by its number,
                                       and the rows of its arguments
  read TEXT               row N        the row of the text
  equate ROW ROW          ok           one more equation between two rows
  back ROWS EQUATIONS     ok           keeps so many rows and equations
  mark                    mark ROWS EQUATIONS
  degree                  degree CODE
  resolve ROW             row N        the representative of the row

Fields are parted by one blank, numbers are decimal, 0 to 65535. A refused call
is answered by `fault LAYER NUMBER PLACE` and changes nothing; a line that is
none of these by `unknown line`.

A refused book prints its fault and nothing else; the exit status is then 1.

  --help                  prints this text
";

/// The file that is named, or nothing where help is asked for; an error that says what is not understood.
fn asked(rt: &HostRuntime) -> anyhow::Result<Option<String>> {
    let mut path = String::from_str(rt.alloc(), "book.bin")?;
    for argument in env::args(rt)?.skip(1) {
        match argument.as_str() {
            "--help" => return Ok(None),
            other => {
                if other.starts_with("-") {
                    return Err(anyhow!("there is an option that is not known"));
                }
                path = String::from_str(rt.alloc(), other)?;
            }
        }
    }
    Ok(Some(path))
}

/// Prints the answers to the lines of the script over the book.
fn print_answers<D: Coded, B: Vocabulary<Degree = D> + Lexicon>(
    rt: &HostRuntime,
    book: &B,
    script: &[u8],
) -> anyhow::Result<()> {
    let lines = lines_of(rt.alloc(), script)?;
    let answers = answers(rt.alloc(), book, lines.as_slice())?;
    for answer in answers.iter() {
        println!(rt; "{answer}")?;
    }
    Ok(())
}

/// Checks the book, and prints its fault or the answers.
fn run(rt: &HostRuntime, bytes: &[u8], script: &[u8]) -> anyhow::Result<ExitCode> {
    match check(bytes) {
        Ok(Kind::Marks) => print_answers(rt, &MarksBook::new(bytes), script)?,
        Ok(Kind::Lines) => print_answers(rt, &LinesBook::new(bytes), script)?,
        Err(cause) => {
            println!(rt; "{}", cause.fault())?;
            return Ok(ExitCode::FAILURE);
        }
    }
    Ok(ExitCode::SUCCESS)
}

fn main(rt: HostRuntime) -> anyhow::Result<ExitCode> {
    let path = match asked(&rt) {
        Ok(Some(path)) => path,
        Ok(None) => {
            print!(rt; "{HELP}")?;
            return Ok(ExitCode::SUCCESS);
        }
        Err(error) => {
            eprintln!(rt; "replay: {error}; see replay --help")?;
            return Ok(ExitCode::FAILURE);
        }
    };
    let bytes = match fs::read(&rt, path.as_str()) {
        Ok(bytes) => bytes,
        Err(error) => {
            eprintln!(rt; "replay: {path} will not open: {error}")?;
            return Ok(ExitCode::FAILURE);
        }
    };
    let mut script = Vec::new(rt.alloc());
    rt.stdin().read_to_end(&mut script)?;
    run(&rt, bytes.as_slice(), script.as_slice())
}
