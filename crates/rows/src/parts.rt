// The words of a line: numbers, and bytes that are spelled.
use std::alloc::Global;
use std::io;

/// What is answered to a line that is none.
pub fn no_line() -> io::Error {
    io::Error::from(io::ErrorKind::InvalidData)
}

/// A word and the rest behind the space.
pub fn first_word(line: &str) -> (&str, &str) {
    match line.split_once(' ') {
        Some((word, rest)) => (word, rest),
        None => (line, ""),
    }
}

/// The words of a line.
pub fn words(alloc: Global, line: &str) -> io::Result<Vec<String>> {
    let mut words = Vec::new(alloc);
    for word in line.split_whitespace() {
        words.push(String::from_str(alloc, word)?)?;
    }
    Ok(words)
}

/// The numbers of a line.
pub fn numbers(alloc: Global, line: &str) -> io::Result<Vec<u32>> {
    let mut numbers = Vec::new(alloc);
    for word in line.split_whitespace() {
        numbers.push(number(word)?)?;
    }
    Ok(numbers)
}

/// The number of a word.
pub fn number(word: &str) -> io::Result<u32> {
    word.parse::<u32>().map_err(|_| no_line())
}

/// The bytes of a line of parts, each in hexadecimal digits, and `*` and how often it stands, where that isn't once.
pub fn bytes(alloc: Global, line: &str) -> io::Result<Vec<u8>> {
    let mut bytes = Vec::new(alloc);
    for part in line.split_whitespace() {
        push_part(alloc, &mut bytes, part)?;
    }
    Ok(bytes)
}

fn push_part(alloc: Global, bytes: &mut Vec<u8>, part: &str) -> io::Result<()> {
    let (digits, times) = match part.split_once('*') {
        Some((digits, times)) => (digits, number(times)?),
        None => (part, 1),
    };
    let piece = hex::decode(alloc, digits).map_err(|_| no_line())?;
    for _ in 0..times {
        bytes.extend_from_slice(&piece)?;
    }
    Ok(())
}
