// A piece of bytes, written with escapes.
use crate::fault::Fault;

/// Where the reading of a piece stands.
#[derive(Clone, Copy)]
enum Escape {
    /// At a byte that means itself, or the `\` that begins an escape.
    Outside,
    /// Behind a `\`.
    Begun,
    /// Behind `\x`.
    High,
    /// Behind `\x` and a first hexadecimal digit, which has this value.
    Low(u8),
}

/// The value of a hexadecimal digit.
fn digit(byte: u8) -> Option<u8> {
    (byte as char)
        .to_digit(16)
        .and_then(|value| u8::try_from(value).ok())
}

/// What follows one byte more; a byte that is complete is added.
fn step(into: &mut Vec<u8>, escape: Escape, byte: u8) -> Result<Escape, Fault> {
    match (escape, byte) {
        (Escape::Outside, b'\\') => return Ok(Escape::Begun),
        (Escape::Outside, _) => into.push(byte)?,
        (Escape::Begun, b'x') => return Ok(Escape::High),
        (Escape::Begun, b'n') => into.push(b'\n')?,
        (Escape::Begun, b't') => into.push(b'\t')?,
        (Escape::Begun, b'\\') => into.push(b'\\')?,
        (Escape::Begun, _) => return Err(Fault::NoEscape),
        (Escape::High, _) => return Ok(Escape::Low(digit(byte).ok_or(Fault::NoEscape)?)),
        (Escape::Low(high), _) => {
            let low = digit(byte).ok_or(Fault::NoEscape)?;
            into.push(high.wrapping_mul(16).wrapping_add(low))?;
        }
    }
    Ok(Escape::Outside)
}

/// Adds the bytes that a piece stands for: `\n`, `\t`, `\\` and `\xHH` are escapes, and any other byte means itself.
pub fn push_piece(into: &mut Vec<u8>, piece: &str) -> Result<(), Fault> {
    let mut escape = Escape::Outside;
    for byte in piece.as_bytes() {
        escape = step(into, escape, *byte)?;
    }
    match escape {
        Escape::Outside => Ok(()),
        _ => Err(Fault::NoEscape),
    }
}

/// Adds what `N piece` stands for: N times the bytes of the piece.
pub fn push_times(into: &mut Vec<u8>, counted: &str) -> Result<(), Fault> {
    let (count, piece) = counted.split_once(' ').ok_or(Fault::NoNumber)?;
    let count = count.parse::<u32>().map_err(|_| Fault::NoNumber)?;
    for _ in 0..count {
        push_piece(into, piece)?;
    }
    Ok(())
}

/// Adds a line's bytes as they stand, and a newline.
pub fn push_line(into: &mut Vec<u8>, line: &str) -> Result<(), Fault> {
    into.extend_from_slice(line.as_bytes())?;
    into.push(b'\n')?;
    Ok(())
}
