// Bytes written whole, and files read whole: a call that moves a part is followed by one for the rest, one that a signal
// interrupts is made again, and a failure is told apart from the end of a file. Why a call failed is said in the system's words.
#![tactic(auto)]

ghost use Rattle.std.specs.Prelude.{◌≡◌, ◌<◌, ◌≤◌, ℕ, length, take, IsOk, IfOk, OnOk, OnErr};
ghost use Rattle.std.specs.Result.{result_ok};
ghost use Rattle.std.specs.Io.KnownBytes.{Appends, Consumes, IsAtEnd};
ghost use Rattle.program_streams.specs.Streams.{Grows};

use std::io::{Cursor, ErrorKind, Read, Write};
use std::rt::Files;
use std::{fs, io, str};

// How often a call is made again that signals interrupt.
const TRIES: usize = 1000;

// What the system answers to bytes that are no text.
const EILSEQ: i32 = 84;

// Writes the bytes, or fails and has written some of them.
pub fn write_all<W: Write>(writer: &mut W, bytes: &[u8]) -> io::Result<()>
    ensures nothing { length bytes.now ≡ 0 → IsOk result }
    ensures whole { OnOk result (Appends (W.contents writer.old) (W.contents writer.new) bytes.now) }
    ensures part { OnErr result ((n : ℕ) × (n < length bytes.now) × Appends (W.contents writer.old) (W.contents writer.new) (take n bytes.now)) }
{
    let mut done: usize = 0;
    let mut tries: usize = TRIES;
    while done < bytes.len() {
        match writer.write(&bytes[done..]) {
            Ok(0) => return Err(io::Error::from(ErrorKind::WriteZero)),
            Ok(taken) => done += taken,
            Err(e) => {
                if tries == 0 || e.kind() != ErrorKind::Interrupted {
                    return Err(e);
                }
                tries -= 1;
            }
        }
    }
    Ok(())
}

// Reads to the end, or as much as the buffer holds, and answers how many bytes of the buffer that takes.
pub fn read_all<R: Read>(reader: &mut R, buffer: &mut [u8]) -> io::Result<usize>
    ensures within { IfOk result (λ n. n ≤ length buffer.new) }
    ensures bytes { IfOk result (λ n. Consumes (R.remaining reader.old) (R.remaining reader.new) (take n buffer.new)) }
    ensures end { IfOk result (λ n. n < length buffer.new → IsAtEnd (R.remaining reader.new)) }
{
    let mut done: usize = 0;
    let mut tries: usize = TRIES;
    while done < buffer.len() {
        match reader.read(&mut buffer[done..]) {
            Ok(0) => return Ok(done),
            Ok(more) => done += more,
            Err(e) => {
                if tries == 0 || e.kind() != ErrorKind::Interrupted {
                    return Err(e);
                }
                tries -= 1;
            }
        }
    }
    Ok(done)
}

// Reads a file by its name, which has to be text.
pub fn read_named(files: &impl Files, name: &[u8], buffer: &mut [u8]) -> io::Result<usize>
    ensures { IfOk result (λ n. n ≤ length buffer.new) }
{
    let Ok(name) = str::from_utf8(name) else {
        return Err(io::Error::from_raw_os_error(EILSEQ));
    };
    let mut file = fs::open(files, name)?;
    read_all(&mut file, buffer)
}

// How many bytes of the system's words come before the number of the error, which std writes behind them in brackets.
fn without_number(words: &[u8]) -> usize
    ensures { result ≤ length words.now }
{
    match words.iter().rposition(|b| *b == b'(') {
        Some(bracket) => bracket.saturating_sub(1),
        None => words.len(),
    }
}

// Puts the words of a failure at the front of the buffer, as many as it holds, and answers how many bytes they have.
fn put_reason(error: &io::Error, words: &mut [u8]) -> usize
    ensures { result ≤ length words.new }
{
    let room = words.len() as u64;
    let mut cursor = Cursor::new(&mut words[..]);
    let _ = write!(cursor, "{error}");
    let end = cursor.position().min(room) as usize;
    match error.raw_os_error() {
        Some(_) => without_number(&words[..end]),
        None => end,
    }
}

// Writes a line that says what failed, and why.
pub fn write_failure<W: Write>(writer: &mut W, what: &[u8], error: &io::Error) -> io::Result<()>
    ensures { Grows (W.contents writer.old) (W.contents writer.new) }
{
    let mut words = [0u8; 256];
    let n = put_reason(error, &mut words);
    write_all(writer, what)?;
    write_all(writer, b": ")?;
    write_all(writer, &words[..n])?;
    write_all(writer, b"\n")
}

// What a program is called, and how it is used.
#[derive(Clone, Copy)]
pub struct Program {
    pub name: &'static str,
    pub usage: &'static str,
}

impl Program {
    pub fn write_usage<W: Write>(&self, writer: &mut W) -> io::Result<()>
        ensures whole { OnOk result (Appends (W.contents writer.old) (W.contents writer.new) self.now.usage.now) }
        ensures grows { Grows (W.contents writer.old) (W.contents writer.new) }
    {
        write_all(writer, self.usage.as_bytes())
    }

    fn write_name<W: Write>(&self, writer: &mut W) -> io::Result<()>
        ensures { Grows (W.contents writer.old) (W.contents writer.new) }
    {
        write_all(writer, self.name.as_bytes())?;
        write_all(writer, b": ")
    }

    fn write_fault<E: Write>(&self, err: &mut E, what: &[u8], error: &io::Error) -> io::Result<()>
        ensures { Grows (E.contents err.old) (E.contents err.new) }
    {
        self.write_name(err)?;
        write_failure(err, what, error)
    }

    // Says what could not be done, and why.
    pub fn tell<E: Write>(&self, err: &mut E, what: &[u8], error: &io::Error)
        ensures { Grows (E.contents err.old) (E.contents err.new) }
    {
        let _ = self.write_fault(err, what, error);
    }

    pub fn tell_unwritten<E: Write>(&self, err: &mut E, written: io::Result<()>)
        ensures grows { Grows (E.contents err.old) (E.contents err.new) }
        ensures silent { IsOk written → E.contents err.new ≡ E.contents err.old }
    {
        if let Err(error) = written {
            self.tell(err, b"cannot write", &error);
        }
    }

    // The value, or what could not be done and why, said.
    pub fn ok_or_tell<E: Write, T>(
        &self,
        err: &mut E,
        what: &[u8],
        outcome: io::Result<T>,
    ) -> Option<T>
        ensures { result ≡ result_ok outcome }
    {
        match outcome {
            Ok(value) => Some(value),
            Err(error) => {
                self.tell(err, what, &error);
                None
            }
        }
    }

    // Writes the usage that was asked for.
    pub fn help<O: Write, E: Write>(&self, out: &mut O, err: &mut E)
        ensures asked { Grows (O.contents out.old) (O.contents out.new) }
        ensures told { Grows (E.contents err.old) (E.contents err.new) }
    {
        let written = self.write_usage(out);
        self.tell_unwritten(err, written);
    }

    fn write_wrong<E: Write>(&self, err: &mut E, wrong: &str, word: &[u8]) -> io::Result<()>
        ensures { Grows (E.contents err.old) (E.contents err.new) }
    {
        self.write_name(err)?;
        write_all(err, wrong.as_bytes())?;
        write_all(err, b" ")?;
        write_all(err, word)?;
        write_all(err, b"\n")?;
        self.write_usage(err)
    }

    // Says what is wrong with a word that the program was started with, and how it is used.
    pub fn tell_wrong<E: Write>(&self, err: &mut E, wrong: &str, word: &[u8])
        ensures { Grows (E.contents err.old) (E.contents err.new) }
    {
        let _ = self.write_wrong(err, wrong, word);
    }
}
