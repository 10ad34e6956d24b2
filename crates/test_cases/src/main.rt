// Builds networks and runs steps on one store, as commands on standard input say. A command is a letter and two numbers of two bytes, low byte first:
//   T 0 n   writes the n bytes that follow as a line
//   B s n   builds the network of the n bytes that follow, with the infinite sentinel (s 0) or the finite one (s 1)
//   S k n   runs the step file of the n bytes that follow; run k is lent one short: 0 to 8 the store's in their order, 9 the work run, 10 none
//   H i w   changes word i of the shape run to w; C i w the column run; R i w the row starts: a line says what stood there and what stands there now
//   P 0 0   writes the programme's columns, rows, varying rows and elements
//   L 0 0   lists the programme
//   Z 0 0   sets the whole store to zero, as it is at the start
// A build and a step answer by the line A, or N with the refusal's number and place. The work run is lent as ones: where it is not all zero
// after a step, the line `work` says how many of its elements are not.
#![tactic(auto)]

ghost use Rattle.std.specs.Prelude.{◌≤◌, length};

use layout::{
    EDGE_COLUMN_COUNT_AT, ELEMENT_COUNT_AT, FIXED_COUNT_AT, SET_COUNT_AT, STEP_WORK_LENGTH,
    VARYING_COUNT_AT,
};
use program_store::Runs;
use program_streams::read_all;
use pywr::{Answer, Sentinel};
use std::fmt::Display;
use std::io;
use std::io::Read;

// How many bytes a file has at most.
const FILE_ROOM: usize = 65536;

fn print_line(rt: &impl Print, line: &[u8]) -> io::Result<()> {
    rt.write_all(line)?;
    rt.write_all(b"\n")
}

fn print_answer(rt: &impl Print, answer: Answer) -> io::Result<()> {
    match answer {
        Ok(()) => print_line(rt, b"A"),
        Err(refusal) => listing::list_refusal(&mut io::writer(rt), refusal).written,
    }
}

fn sentinel(number: u16) -> Sentinel {
    if number == 0 {
        Sentinel::Infinity
    } else {
        Sentinel::Largest
    }
}

fn build(rt: &impl Print, file: &[u8], number: u16, store: &mut Runs) -> io::Result<()> {
    let answer = store.build(file, sentinel(number));
    print_answer(rt, answer)
}

fn print_work(rt: &impl Print, work: &[f64]) -> io::Result<()> {
    let count = work.iter().filter(|x| **x != 0.0).count();
    if 0 < count {
        println!(rt; "work {count}")?;
    }
    Ok(())
}

// How much of a run of this length is lent.
fn lent(length: usize, short: bool) -> usize
    ensures { result ≤ length }
{
    length.saturating_sub(usize::from(short))
}

// A run that a step reads, or the run without its last element.
fn front<T>(run: &[T], short: bool) -> &[T] {
    &run[..lent(run.len(), short)]
}

// A run that a step writes, or the run without its last element.
fn front_mut(run: &mut [f64], short: bool) -> &mut [f64] {
    let end = lent(run.len(), short);
    &mut run[..end]
}

fn step(rt: &impl Print, file: &[u8], short: u16, store: &mut Runs) -> io::Result<()> {
    let mut work = [1.0; STEP_WORK_LENGTH];
    let answer = built_solver::step(
        file,
        front(&store.col_lower, short == 0),
        front(&store.col_upper, short == 1),
        front_mut(&mut store.col_obj_coef, short == 2),
        front_mut(&mut store.row_lower, short == 3),
        front_mut(&mut store.row_upper, short == 4),
        front_mut(&mut store.elements, short == 5),
        front(&store.columns, short == 6),
        front(&store.row_starts, short == 7),
        front(&store.shape, short == 8),
        front_mut(&mut work, short == 9),
    );
    print_answer(rt, answer)?;
    print_work(rt, &work)
}

// Changes a word of a run; one that is not there stays.
fn change<T: Copy + Display + From<u16>>(
    rt: &impl Print,
    name: &str,
    run: &mut [T],
    at: usize,
    word: u16,
) -> io::Result<()> {
    if at < run.len() {
        let old = run[at];
        println!(rt; "{name} {at} {old} {word}")?;
        run[at] = T::from(word);
    }
    Ok(())
}

// The counts that the shape run starts with: columns of edges and of sets, varying and fixed rows, elements.
fn print_counts(rt: &impl Print, store: &Runs) -> io::Result<()> {
    let columns = usize::from(store.shape[EDGE_COLUMN_COUNT_AT])
        + usize::from(store.shape[SET_COUNT_AT]);
    let varying = usize::from(store.shape[VARYING_COUNT_AT]);
    let rows = varying + usize::from(store.shape[FIXED_COUNT_AT]);
    let elements = store.shape[ELEMENT_COUNT_AT];
    println!(rt; "P {columns} {rows} {varying} {elements}")
}

// Runs a command on the store; a letter that is none does nothing.
fn run(rt: &impl Print, command: [u8; 5], file: &[u8], store: &mut Runs) -> io::Result<()> {
    let [letter, a, b, c, d] = command;
    let first = u16::from_le_bytes([a, b]);
    let second = u16::from_le_bytes([c, d]);
    let at = usize::from(first);
    match letter {
        b'T' => print_line(rt, file),
        b'B' => build(rt, file, first, store),
        b'S' => step(rt, file, first, store),
        b'H' => change(rt, "shape", &mut store.shape, at, second),
        b'C' => change(rt, "column", &mut store.columns, at, second),
        b'R' => change(rt, "start", &mut store.row_starts, at, second),
        b'P' => print_counts(rt, store),
        b'L' => store.list(&mut io::writer(rt)).written,
        b'Z' => {
            *store = Runs::zeros();
            Ok(())
        }
        _ => Ok(()),
    }
}

// How many bytes follow a command.
fn file_length(command: [u8; 5]) -> usize
    ensures { result ≤ 65535 }
{
    if matches!(command[0], b'T' | b'B' | b'S') {
        usize::from(u16::from_le_bytes([command[3], command[4]]))
    } else {
        0
    }
}

// Reads n bytes; answers whether there were as many.
fn read(reader: &mut impl Read, buffer: &mut [u8], n: usize) -> io::Result<bool>
    requires { n ≤ length buffer.old }
{
    let got = read_all(reader, &mut buffer[..n])?;
    Ok(got == n)
}

// At most 65,536 commands.
fn main(rt: HostRuntime) -> io::Result<()> {
    let mut input = rt.stdin();
    let mut buffer = [0u8; FILE_ROOM];
    let mut store = Runs::zeros();
    for _ in 0..65536u32 {
        let mut command = [0u8; 5];
        if !read(&mut input, &mut command, 5)? {
            return Ok(());
        }
        let n = file_length(command);
        if !read(&mut input, &mut buffer, n)? {
            return Ok(());
        }
        run(&rt, command, &buffer[..n], &mut store)?;
    }
    Ok(())
}
