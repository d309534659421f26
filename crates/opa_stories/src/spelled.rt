// Lines that are spelled shorter than they are: `{n}` is the number of the line, from 1, `{n+2}` and `{n-1}` are numbers near
// it, `{/}` is a line feed, `{x0d}` a byte, `{1,000*ab}` a text so many times, and `{3..9*p@}` the text for each number from
// the one to the other, which stands in the place of its `@`.
use crate::numbers::number;
use crate::story::Fault;
use std::alloc::Global;

/// The number that is meant by `n`, `n+2` or `n-1`.
fn counted(inside: &str, turn: u64) -> Option<u64> {
    if inside == "n" {
        return Some(turn);
    }
    if let Some(more) = inside.strip_prefix("n+") {
        return turn.checked_add(number(more)?);
    }
    turn.checked_sub(number(inside.strip_prefix("n-")?)?)
}

/// Adds a text so many times.
fn add_times(out: &mut Vec<u8>, text: &str, times: u64) -> Result<(), Fault> {
    for _ in 0..times {
        out.extend_from_slice(text.as_bytes())?;
    }
    Ok(())
}

/// Adds a text for each number from the first to the last, with the number in the place of each `@`.
fn add_numbered(
    alloc: Global,
    out: &mut Vec<u8>,
    text: &str,
    first: u64,
    last: u64,
) -> Result<(), Fault> {
    for turn in first..last.saturating_add(1) {
        let number = format!(in alloc; "{turn}")?;
        let mut is_first = true;
        for piece in text.split('@') {
            if !is_first {
                out.extend_from_slice(number.as_bytes())?;
            }
            is_first = false;
            out.extend_from_slice(piece.as_bytes())?;
        }
    }
    Ok(())
}

/// Adds a text as often as is said. Answers whether that has a meaning.
fn add_repeated(alloc: Global, out: &mut Vec<u8>, times: &str, text: &str) -> Result<bool, Fault> {
    if let Some((first, last)) = times.split_once("..") {
        let (Some(first), Some(last)) = (number(first), number(last)) else {
            return Ok(false);
        };
        add_numbered(alloc, out, text, first, last)?;
        return Ok(true);
    }
    let Some(times) = number(times) else {
        return Ok(false);
    };
    add_times(out, text, times)?;
    Ok(true)
}

/// Adds what stands for the text between braces. Answers whether it has a meaning.
fn add_meant(alloc: Global, out: &mut Vec<u8>, inside: &str, turn: u64) -> Result<bool, Fault> {
    if inside == "/" {
        out.extend_from_slice(b"\n")?;
        return Ok(true);
    }
    if let Some((times, text)) = inside.split_once('*') {
        return add_repeated(alloc, out, times, text);
    }
    if let Some(hexadecimal) = inside.strip_prefix('x') {
        let Ok(byte) = u8::from_str_radix(hexadecimal, 16) else {
            return Ok(false);
        };
        out.extend_from_slice(&[byte])?;
        return Ok(true);
    }
    let Some(count) = counted(inside, turn) else {
        return Ok(false);
    };
    let text = format!(in alloc; "{count}")?;
    out.extend_from_slice(text.as_bytes())?;
    Ok(true)
}

/// Adds what the text spells at this turn. Answers whether it has a meaning.
pub fn add_spelled(alloc: Global, out: &mut Vec<u8>, text: &str, turn: u64) -> Result<bool, Fault> {
    let mut is_first = true;
    for piece in text.split('{') {
        if is_first {
            is_first = false;
            out.extend_from_slice(piece.as_bytes())?;
        } else {
            let Some((inside, plain)) = piece.split_once('}') else {
                return Ok(false);
            };
            if !add_meant(alloc, out, inside, turn)? {
                return Ok(false);
            }
            out.extend_from_slice(plain.as_bytes())?;
        }
    }
    Ok(true)
}
