// lister [FILE]: reads a network from FILE, or from standard input, and lists its programme, or the refusal, on standard output.
// What goes wrong is said on standard error, with nothing on standard output but what was written before: the program's exit status is 0.
#![tactic(auto)]

use program_store::Runs;
use program_streams::{Program, read_all, read_named};
use program_words::{asks_help, has_word, is_option, word_at};
use pywr::Sentinel;
use std::env::Env;
use std::io::{Read, Write};
use std::rt::Files;

// How many bytes of a network and of a word are read. A file that can be accepted has at most 63,488 bytes, and a longer one is refused by its first 63,490.
const NETWORK_ROOM: usize = 65536;

const WORD_ROOM: usize = 4096;

const LISTER: Program = Program {
    name: "lister",
    usage: "usage: lister [FILE]\nLists the linear programme of the network in FILE, or on standard input.\n",
};

fn list<O: Write, E: Write>(out: &mut O, err: &mut E, file: &[u8]) {
    let mut runs = Runs::zeros();
    let answer = runs.build(file, Sentinel::Infinity);
    let listed = runs.list_answer(out, answer);
    LISTER.tell_unwritten(err, listed.written);
}

fn list_input<I: Read, O: Write, E: Write>(input: &mut I, out: &mut O, err: &mut E) {
    let mut buffer = [0u8; NETWORK_ROOM];
    match read_all(input, &mut buffer) {
        Ok(n) => list(out, err, &buffer[..n]),
        Err(error) => LISTER.tell(err, b"standard input", &error),
    }
}

fn list_file<S: Files, O: Write, E: Write>(system: &S, out: &mut O, err: &mut E, name: &[u8]) {
    let mut buffer = [0u8; NETWORK_ROOM];
    match read_named(system, name, &mut buffer) {
        Ok(n) => list(out, err, &buffer[..n]),
        Err(error) => LISTER.tell(err, name, &error),
    }
}

fn run<S: Env + Files, O: Write, E: Write>(system: &S, out: &mut O, err: &mut E, word: &[u8]) {
    if asks_help(word) {
        LISTER.help(out, err);
    } else if is_option(word) {
        LISTER.tell_wrong(err, "unknown option", word);
    } else if has_word(system, 2) {
        let _ = LISTER.write_usage(err);
    } else {
        list_file(system, out, err, word);
    }
}

fn main(rt: HostRuntime) {
    let mut out = rt.stdout();
    let mut err = rt.stderr();
    let mut word = [0u8; WORD_ROOM];
    match word_at(&rt, 1, &mut word) {
        Ok(Some(n)) => run(&rt, &mut out, &mut err, &word[..n]),
        Ok(None) => list_input(&mut rt.stdin(), &mut out, &mut err),
        Err(error) => LISTER.tell(&mut err, b"argument", &error),
    }
}
