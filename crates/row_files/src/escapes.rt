//! What a `\` stands for in a row, and how the bytes of an answer are printed.
//!
//! `\n`, `\t` and `\r` are a line feed, a tab and a carriage return; `\s` is a space, which isn't trimmed; `\xHH` is the byte with
//! this number; `\M` is 2^127 - 1 in digits, the greatest whole number of a fraction; `\L` is one byte more than a file may have, all
//! spaces.
use std::alloc::{AllocError, Global};

const GREATEST: &str = "170141183460469231731687303715884105727";

const TOO_LONG: usize = 67_108_865;

/// The bytes of a row's text.
pub fn bytes_of(alloc: Global, text: &str) -> Result<Vec<u8>, AllocError> {
    let mut bytes = Vec::new(alloc);
    let mut pieces = text.split('\\');
    bytes.extend_from_slice(pieces.next().unwrap_or("").as_bytes())?;
    for piece in pieces {
        add_escaped(&mut bytes, piece)?;
    }
    Ok(bytes)
}

/// Adds what an escape stands for, and the text behind it.
fn add_escaped(bytes: &mut Vec<u8>, piece: &str) -> Result<(), AllocError> {
    let (letter, rest) = piece.split_at_checked(1).unwrap_or(("", piece));
    match letter {
        "n" => bytes.push(b'\n')?,
        "t" => bytes.push(b'\t')?,
        "r" => bytes.push(b'\r')?,
        "s" => bytes.push(b' ')?,
        "M" => bytes.extend_from_slice(GREATEST.as_bytes())?,
        "L" => bytes.resize(TOO_LONG, b' ')?,
        "x" => return add_numbered(bytes, rest),
        other => bytes.extend_from_slice(other.as_bytes())?,
    }
    bytes.extend_from_slice(rest.as_bytes())
}

/// Adds the byte of two digits, and the text behind them.
fn add_numbered(bytes: &mut Vec<u8>, piece: &str) -> Result<(), AllocError> {
    let (digits, rest) = piece.split_at_checked(2).unwrap_or(("", piece));
    if let Ok(byte) = u8::from_str_radix(digits, 16) {
        bytes.push(byte)?;
    }
    bytes.extend_from_slice(rest.as_bytes())
}

/// Adds bytes as an answer shows them, in the form of a row.
pub fn add_shown(alloc: Global, out: &mut String, bytes: &[u8]) -> Result<(), AllocError> {
    for byte in bytes {
        match *byte {
            b'\n' => out.push_str("\\n")?,
            b'\t' => out.push_str("\\t")?,
            b'\r' => out.push_str("\\r")?,
            plain @ b' '..=b'~' => out.push(char::from(plain))?,
            other => out.push_str(format!(in alloc; "\\x{other:02x}")?.as_str())?,
        }
    }
    Ok(())
}
