// stepper [--finite] NETWORK [STEP]..: builds the network, then runs each step file on the store as the call before left it.
// A step gets the line S with its number, from 0, and then the programme or, if it is refused, the line N: the store stays as it was.
// Without steps the fresh build is listed; a network that is refused gets its line N alone. --finite picks the largest finite double as high
// sentinel in place of infinity. What goes wrong is said on standard error and ends the run: the program's exit status is 0.
#![tactic(auto)]

ghost use Rattle.std.specs.Prelude.{◌≤◌, length, IfSome};

use program_store::Runs;
use program_streams::{Program, read_named};
use program_words::{asks_help, has_word, is_option, word_at};
use pywr::Sentinel;
use std::env::Env;
use std::io;
use std::io::Write;
use std::rt::Files;

// How many bytes of a file and of a word are read. A network file that can be accepted has at most 63,488 bytes and a step file 10,700: a longer one is refused by
// what the buffer holds of it.
const FILE_ROOM: usize = 65536;

const WORD_ROOM: usize = 4096;

const STEPPER: Program = Program {
    name: "stepper",
    usage: "usage: stepper [--finite] NETWORK [STEP]..\nBuilds the network and runs the step files in turn; lists the linear programme after each, or the fresh build without steps.\n",
};

// Reads the file of a name, or says why it cannot.
fn read_file<S: Files, E: Write>(
    system: &S,
    err: &mut E,
    name: &[u8],
    buffer: &mut [u8],
) -> Option<usize>
    ensures { IfSome result (λ n. n ≤ length buffer.new) }
{
    let read = read_named(system, name, buffer);
    STEPPER.ok_or_tell(err, name, read)
}

// Reads the word at k, or says why it cannot.
fn read_word<S: Env, E: Write>(
    system: &S,
    err: &mut E,
    k: usize,
    word: &mut [u8],
) -> Option<Option<usize>>
    ensures { IfSome result (λ found. IfSome found (λ n. n ≤ length word.new)) }
{
    let read = word_at(system, k, word);
    STEPPER.ok_or_tell(err, b"argument", read)
}

// Runs a step file and writes its number and what it answers.
fn run_step<O: Write>(out: &mut O, number: usize, file: &[u8], runs: &mut Runs) -> io::Result<()> {
    listing::list_step(out, number).written?;
    let answer = runs.step(file);
    runs.list_answer(out, answer).written
}

// Runs the step files that the words from `first` on name, up to one that cannot be read or listed.
fn run_steps<S: Env + Files, O: Write, E: Write>(
    system: &S,
    out: &mut O,
    err: &mut E,
    first: usize,
    buffer: &mut [u8],
    runs: &mut Runs,
) {
    for k in first..usize::MAX {
        let mut name = [0u8; WORD_ROOM];
        let Some(Some(n)) = read_word(system, err, k, &mut name) else {
            return;
        };
        let Some(n) = read_file(system, err, &name[..n], buffer) else {
            return;
        };
        if let Err(error) = run_step(out, k - first, &buffer[..n], runs) {
            STEPPER.tell(err, b"cannot write", &error);
            return;
        }
    }
}

// Builds a network, and runs the steps that the words from `first` on name.
fn run<S: Env + Files, O: Write, E: Write>(
    system: &S,
    out: &mut O,
    err: &mut E,
    network: &[u8],
    first: usize,
    sentinel: Sentinel,
) {
    let mut buffer = [0u8; FILE_ROOM];
    let Some(n) = read_file(system, err, network, &mut buffer) else {
        return;
    };
    let mut runs = Runs::zeros();
    let answer = runs.build(&buffer[..n], sentinel);
    if has_word(system, first) && answer.is_ok() {
        run_steps(system, out, err, first, &mut buffer, &mut runs);
        return;
    }
    let listed = runs.list_answer(out, answer);
    STEPPER.tell_unwritten(err, listed.written);
}

// Starts with the network's name at word `network`.
fn start<S: Env + Files, O: Write, E: Write>(
    system: &S,
    out: &mut O,
    err: &mut E,
    network: usize,
    sentinel: Sentinel,
) {
    let mut word = [0u8; WORD_ROOM];
    let Some(found) = read_word(system, err, network, &mut word) else {
        return;
    };
    let Some(n) = found else {
        let _ = STEPPER.write_usage(err);
        return;
    };
    let word = &word[..n];
    if asks_help(word) {
        STEPPER.help(out, err);
    } else if is_option(word) {
        STEPPER.tell_wrong(err, "unknown option", word);
    } else {
        run(system, out, err, word, network.saturating_add(1), sentinel);
    }
}

// Whether word 1 is `--finite`.
fn is_finite(system: &impl Env) -> bool {
    let mut word = [0u8; WORD_ROOM];
    match word_at(system, 1, &mut word) {
        Ok(Some(n)) => &word[..n] == b"--finite".as_slice(),
        Ok(None) | Err(_) => false,
    }
}

fn main(rt: HostRuntime) {
    let mut out = rt.stdout();
    let mut err = rt.stderr();
    if is_finite(&rt) {
        start(&rt, &mut out, &mut err, 2, Sentinel::Largest);
    } else {
        start(&rt, &mut out, &mut err, 1, Sentinel::Infinity);
    }
}
