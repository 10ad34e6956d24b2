// The words that a program is started with: what they ask for, and a number among them.
#![tactic(auto)]

ghost use Rattle.std.specs.Prelude.{◌≡◌, ◌≤◌, true, length, IfOk, IfSome};
ghost use Rattle.program_words.specs.Words.{AsksHelp, is_option, number_in};

use std::env::{Env, FillError};
use std::io;

// What the system says of a name that is too long.
const ENAMETOOLONG: i32 = 36;

// Puts word i that the program was started with at the front of the buffer, and answers how many bytes it has, or that there is none. Word 0 is the program's name.
pub fn word_at(system: &impl Env, i: usize, buffer: &mut [u8]) -> io::Result<Option<usize>>
    ensures { IfOk result (λ word. IfSome word (λ n. n ≤ length buffer.new)) }
{
    match system.arg(i, buffer) {
        Ok(n) => Ok(Some(n)),
        Err(FillError::NotPresent) => Ok(None),
        Err(FillError::TooLong) => Err(io::Error::from_raw_os_error(ENAMETOOLONG)),
    }
}

// Whether the program was started with a word i.
pub fn has_word(system: &impl Env, i: usize) -> bool {
    !matches!(system.arg(i, &mut []), Err(FillError::NotPresent))
}

pub fn asks_help(word: &[u8]) -> bool
    ensures { (result ≡ true → AsksHelp word.now) × (AsksHelp word.now → result ≡ true) }
{
    word == b"--help".as_slice() || word == b"-h".as_slice()
}

#[tactic(auto, unfolding(crate::specs::Words::is_option))]
pub fn is_option(word: &[u8]) -> bool
    ensures { result ≡ is_option word.now }
{
    2 <= word.len() && word[0] == b'-'
}

// Reads a word as a decimal number, at most 999,999.
pub fn read_number(word: &[u8]) -> Option<usize>
    ensures { result ≡ number_in word.now }
{
    if word.is_empty() {
        return None;
    }
    let mut value: usize = 0;
    for b in word {
        if !b.is_ascii_digit() || 99999 < value {
            return None;
        }
        value = 10 * value + usize::from(*b - b'0');
    }
    Some(value)
}
