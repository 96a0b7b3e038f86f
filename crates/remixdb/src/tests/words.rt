//! The words of a command line.
use crate::arguments::ArgumentsError;
use crate::tests::running::{Given, Wanted, run, run_program};
use crate::tests::samples::{OUT_OF_MEMORY, PUT, QUIT, UNKNOWN};
use std::test::Fail;

#[test]
fn other_words_are_refused(rt: HostRuntime) -> Result<(), Fail> {
    let cases: &[&[&str]] = &[
        &[],
        &["script"],
        &["mem"],
        &["script", "mem", "mem"],
        &["script", "-"],
        &["script", "-x"],
        &["script", "--", "mem"],
        &["mem", "script"],
        &["chek", "x"],
        &["Script", "mem"],
        &["script", ""],
        &["--help"],
    ];
    for words in cases {
        let wanted = Wanted {
            status: 2,
            output: &[],
            left: PUT,
            strip: &[],
            notes: UNKNOWN,
        };
        run(&rt, words, Given::input(PUT), wanted)?;
    }
    Ok(())
}

/// Nothing is taken, put or written.
fn ends_at_once(status: u8, notes: &'static [u8]) -> Wanted<'static> {
    Wanted {
        status,
        output: &[],
        left: QUIT,
        strip: &[],
        notes,
    }
}

#[test]
fn arguments_that_cannot_be_read_have_a_line(rt: HostRuntime) -> Result<(), Fail> {
    let given = Given::input(QUIT);
    let no_text = Err(ArgumentsError::NotText);
    run_program(&rt, no_text, given, ends_at_once(2, UNKNOWN))?;
    let memory = Err(ArgumentsError::Memory);
    run_program(&rt, memory, given, ends_at_once(6, OUT_OF_MEMORY))
}
