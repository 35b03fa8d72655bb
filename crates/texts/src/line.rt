// Lines of words.
ghost use Rattle.std.specs.Prelude.{◌≡◌, ◌+◌, ◌<◌, ◌≤◌, length, drop};
ghost use Rattle.texts.specs.Line.{word_text, separator, line};
ghost use Rattle.texts.specs.Put.{Put};
ghost use Rattle.texts.specs.Room.{room_behind};
ghost use Rattle.texts.specs.Write.{Writes};

use crate::digits::{number_len, put_byte, put_digits};
use crate::{TooShort, Word};

// Puts the bytes of a text at a place, and returns the place behind them.
fn put_text(memory: &mut [u8], at: usize, text: &[u8]) -> usize
    requires { at + length text.now ≤ length memory.old }
    ensures { Put memory.old at text.now memory.new result }
{
    let end = at + text.len();
    memory[at..end].copy_from_slice(text);
    end
}

// How many bytes a word takes.
fn word_len(word: Word) -> usize
    ensures value { result ≡ length (word_text word) }
    ensures few { result ≤ 20 }
{
    match word {
        Word::Number(n) => number_len(n),
        Word::NoQuote => b"none".len(),
        Word::Refused => b"refused".len(),
        Word::Same => b"same".len(),
        Word::First => b"first".len(),
        Word::Second => b"second".len(),
    }
}

// Puts a word at a place, and returns the place behind it.
fn put_word(memory: &mut [u8], at: usize, word: Word) -> usize
    requires { at + length (word_text word) ≤ length memory.old }
    ensures { Put memory.old at (word_text word) memory.new result }
{
    match word {
        Word::Number(n) => put_digits(memory, at, n),
        Word::NoQuote => put_text(memory, at, b"none"),
        Word::Refused => put_text(memory, at, b"refused"),
        Word::Same => put_text(memory, at, b"same"),
        Word::First => put_text(memory, at, b"first"),
        Word::Second => put_text(memory, at, b"second"),
    }
}

// How much of the room a line leaves, none where it is longer. Each word takes its own bytes and one behind it.
pub fn line_room(words: &[Word], room: usize) -> Option<usize>
    ensures { result ≡ room_behind (line words.now) room }
{
    let mut left = room;
    for word in words {
        left = left.checked_sub(word_len(*word) + 1)?;
    }
    Some(left)
}

// The byte behind the word at a place: a space where words follow, else the line's end.
fn separator_behind(words: &[Word], place: usize) -> u8
    requires { place < length words.now }
    ensures { result ≡ separator (drop (place + 1) words.now) }
{
    if place + 1 < words.len() { b' ' } else { b'\n' }
}

// Puts a line at the start of memory that has room for it, and returns the place behind it.
fn put_words(words: &[Word], memory: &mut [u8]) -> usize
    requires { length (line words.now) ≤ length memory.old }
    ensures { Put memory.old 0 (line words.now) memory.new result }
{
    let mut end = 0;
    for (place, word) in words.iter().enumerate() {
        let behind = put_word(memory, end, *word);
        end = put_byte(memory, behind, separator_behind(words, place));
    }
    end
}

// Writes the words as a line at the start of the memory, and returns how many bytes that took.
pub fn write_line(words: &[Word], memory: &mut [u8]) -> Result<usize, TooShort>
    ensures { Writes (line words.now) memory.old memory.new result }
{
    line_room(words, memory.len()).ok_or(TooShort)?;
    Ok(put_words(words, memory))
}
