//! What the words of the command line ask for.

use iw_server::{Crew, Request, Terms, WordsRefusal, request_of};
use std::alloc::Global;
use std::test::Fail;

fn asked(alloc: Global, line: &str) -> Result<Result<Request, WordsRefusal>, Fail> {
    let mut words = Vec::new(alloc);
    for word in line.split_whitespace() {
        words.push(String::from_str(alloc, word)?)?;
    }
    Ok(request_of(&words))
}

// The terms, as text: the three options, seconds, whether it is quiet.
fn told_terms(alloc: Global, terms: Terms) -> Result<String, Fail> {
    let markers = terms.markers;
    let crc = terms.crc;
    let enhanced = terms.enhanced;
    let start = terms.start;
    let stall = terms.stall;
    let quiet = terms.quiet;
    Ok(format!(in alloc; "{markers} {crc} {enhanced} {start} {stall} {quiet}")?)
}

// What is asked for, as text.
fn told(alloc: Global, line: &str) -> Result<String, Fail> {
    let text = match asked(alloc, line)? {
        Err(refusal) => format!(in alloc; "{refusal:?}")?,
        Ok(Request::Help) => String::from_str(alloc, "help")?,
        Ok(Request::Serve { count, terms, port }) => {
            let terms = told_terms(alloc, terms)?;
            format!(in alloc; "{count} at {port}: {terms}")?
        }
        Ok(Request::Lead { crew, terms, port }) => {
            let terms = told_terms(alloc, terms)?;
            let Crew { processes, keep } = crew;
            format!(in alloc; "{processes} {keep} at {port}: {terms}")?
        }
        Ok(Request::Work { terms, port }) => {
            let terms = told_terms(alloc, terms)?;
            format!(in alloc; "one at {port}: {terms}")?
        }
    };
    Ok(text)
}

#[test]
fn words_are_read(rt: HostRuntime) -> Result<(), Fail> {
    let alloc = rt.alloc();
    for (line, wanted) in [
        ("3", "3 at 0: false false false 10 60 false"),
        ("0 5", "0 at 0: true false true 10 60 false"),
        (
            "--start 2 7 2 --quiet 4420 --stall 86400",
            "7 at 4420: false true false 2 86400 true",
        ),
        ("7 --processes 1", "7 at 0: false false false 10 60 false"),
        (
            "0 7 4420 --processes 64",
            "64 false at 4420: true true true 10 60 false",
        ),
        ("0 --keep", "1 true at 0: false false false 10 60 false"),
        (
            "0 6 4420 --start 2 --worker",
            "one at 4420: false true true 2 60 false",
        ),
        ("--help", "help"),
    ] {
        assert_eq!(rt; told(alloc, line)?.as_str(), wanted);
    }
    Ok(())
}

#[test]
fn words_are_refused(rt: HostRuntime) -> Result<(), Fail> {
    let alloc = rt.alloc();
    for line in [
        "",
        "x",
        "-1",
        "3 8",
        "3 0 65536",
        "3 0 0 0",
        "3 --help",
        "3 --start",
        "3 --start 0",
        "3 --stall 86401",
        "--quiet",
        "0 --worker --keep",
        "0 --worker --processes 2",
    ] {
        assert_eq!(rt; told(alloc, line)?.as_str(), "Words");
    }
    for line in [
        "0 --processes",
        "0 --processes 0",
        "0 --processes 65",
        "0 --processes two",
        "0 --processes --keep",
    ] {
        assert_eq!(rt; told(alloc, line)?.as_str(), "Processes");
    }
    for line in ["3 --processes 2", "3 --keep", "1 --worker"] {
        assert_eq!(rt; told(alloc, line)?.as_str(), "Count");
    }
    Ok(())
}
