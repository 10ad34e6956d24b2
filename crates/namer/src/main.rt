// namer [FILE [ROW]]: reads a network from FILE, or from standard input, and names each row of its programme, or ROW alone, by who made it, on standard output.
// A network that is refused gets its line N, and so does a ROW that the programme has not.
// What goes wrong is said on standard error, with nothing on standard output but what was written before: the program's exit status is 0.
#![tactic(auto)]

use program_store::Runs;
use program_streams::{Program, read_all, read_named};
use program_words::{asks_help, has_word, is_option, read_number, word_at};
use pywr::Sentinel;
use std::env::Env;
use std::io::{Read, Write};
use std::rt::Files;

// How many bytes of a network and of a word are read. A file that can be accepted has at most 63,488 bytes, and a longer one is refused by its first 63,490.
const NETWORK_ROOM: usize = 65536;

const WORD_ROOM: usize = 4096;

const NAMER: Program = Program {
    name: "namer",
    usage: "usage: namer [FILE [ROW]]\nNames each row of the linear programme of the network in FILE, or on standard input, or ROW alone, by who made it.\n",
};

// Names the row that is asked for, or all rows.
fn name<O: Write, E: Write>(out: &mut O, err: &mut E, file: &[u8], row: Option<usize>) {
    let mut runs = Runs::zeros();
    let answer = runs.build(file, Sentinel::Infinity);
    let named = match row {
        Some(row) => runs.name_row_answer(out, answer, row),
        None => runs.name_answer(out, answer),
    };
    NAMER.tell_unwritten(err, named.written);
}

fn name_input<I: Read, O: Write, E: Write>(input: &mut I, out: &mut O, err: &mut E) {
    let mut buffer = [0u8; NETWORK_ROOM];
    match read_all(input, &mut buffer) {
        Ok(n) => name(out, err, &buffer[..n], None),
        Err(error) => NAMER.tell(err, b"standard input", &error),
    }
}

fn name_file<S: Files, O: Write, E: Write>(
    system: &S,
    out: &mut O,
    err: &mut E,
    file: &[u8],
    row: Option<usize>,
) {
    let mut buffer = [0u8; NETWORK_ROOM];
    match read_named(system, file, &mut buffer) {
        Ok(n) => name(out, err, &buffer[..n], row),
        Err(error) => NAMER.tell(err, file, &error),
    }
}

// Names the row that a word says.
fn name_one<S: Files, O: Write, E: Write>(
    system: &S,
    out: &mut O,
    err: &mut E,
    file: &[u8],
    word: &[u8],
) {
    match read_number(word) {
        Some(row) => name_file(system, out, err, file, Some(row)),
        None => NAMER.tell_wrong(err, "not a row number:", word),
    }
}

// Names the row that word 2 says, or all rows where there is none.
fn name_asked<S: Env + Files, O: Write, E: Write>(
    system: &S,
    out: &mut O,
    err: &mut E,
    file: &[u8],
) {
    let mut word = [0u8; WORD_ROOM];
    match word_at(system, 2, &mut word) {
        Ok(Some(n)) => name_one(system, out, err, file, &word[..n]),
        Ok(None) => name_file(system, out, err, file, None),
        Err(error) => NAMER.tell(err, b"argument", &error),
    }
}

fn run<S: Env + Files, O: Write, E: Write>(system: &S, out: &mut O, err: &mut E, word: &[u8]) {
    if asks_help(word) {
        NAMER.help(out, err);
    } else if is_option(word) {
        NAMER.tell_wrong(err, "unknown option", word);
    } else if has_word(system, 3) {
        let _ = NAMER.write_usage(err);
    } else {
        name_asked(system, out, err, word);
    }
}

fn main(rt: HostRuntime) {
    let mut out = rt.stdout();
    let mut err = rt.stderr();
    let mut word = [0u8; WORD_ROOM];
    match word_at(&rt, 1, &mut word) {
        Ok(Some(n)) => run(&rt, &mut out, &mut err, &word[..n]),
        Ok(None) => name_input(&mut rt.stdin(), &mut out, &mut err),
        Err(error) => NAMER.tell(&mut err, b"argument", &error),
    }
}
