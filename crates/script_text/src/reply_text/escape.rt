//! Names and texts as they are written, each on one line.

ghost use Rattle.script_text.specs.Below.{OnOk, IfOk, string_bytes, digit_char, IsUtf8, escaped, escaped_byte, quoted};
ghost use Rattle.std.specs.Prelude.{◌≡◌, ◌++◌, ◌<◌};

use py_node::OutOfMemory;
use std::alloc::Global;

/// Adds a text as names are written.
pub fn push_escaped(out: &mut Vec<u8>, text: &[u8]) -> Result<(), OutOfMemory>
    ensures { OnOk result (out.new.items ≡ out.old.items ++ escaped text.now) }
{
    for byte in text {
        push_escaped_byte(out, *byte)?;
    }
    Ok(())
}

/// Adds a text as names are written, between two quotes.
pub fn push_quoted(out: &mut Vec<u8>, text: &[u8]) -> Result<(), OutOfMemory>
    ensures { OnOk result (out.new.items ≡ out.old.items ++ quoted text.now) }
{
    out.push(b'"')?;
    push_escaped(out, text)?;
    out.push(b'"')?;
    Ok(())
}

/// A text as names are written.
pub fn escaped_string(alloc: Global, text: &str) -> Result<String, OutOfMemory>
    ensures { IfOk result (λ s. string_bytes s ≡ escaped text.now) }
{
    let mut bytes = Vec::new(alloc);
    push_escaped(&mut bytes, text.as_bytes())?;
    Ok(string_of(bytes))
}

/// A text as names are written, between two quotes.
pub fn quoted_string(alloc: Global, text: &str) -> Result<String, OutOfMemory>
    ensures { IfOk result (λ s. string_bytes s ≡ quoted text.now) }
{
    let mut bytes = Vec::new(alloc);
    push_quoted(&mut bytes, text.as_bytes())?;
    Ok(string_of(bytes))
}

// A string of these bytes.
fn string_of(bytes: Vec<u8>) -> String
    requires { IsUtf8 bytes.items }
    ensures { string_bytes result ≡ bytes.items }
{
    match String::from_utf8(bytes) {
        Ok(text) => text,
        Err(_) => unreachable!(),
    }
}

#[tactic(auto, unfolding(plain_machine::specs::Escapes::escaped_byte))]
fn push_escaped_byte(out: &mut Vec<u8>, byte: u8) -> Result<(), OutOfMemory>
    ensures { OnOk result (out.new.items ≡ out.old.items ++ escaped_byte byte) }
{
    match byte {
        b'"' => out.extend_from_slice(b"\\\"")?,
        b'\\' => out.extend_from_slice(b"\\\\")?,
        b'\n' => out.extend_from_slice(b"\\n")?,
        b'\r' => out.extend_from_slice(b"\\r")?,
        b'\t' => out.extend_from_slice(b"\\t")?,
        0..32 => out.extend_from_slice(&[b'\\', b'x', hex_digit(byte / 16), hex_digit(byte % 16)])?,
        _ => out.push(byte)?,
    }
    Ok(())
}

// The lower-case hexadecimal digit.
fn hex_digit(digit: u8) -> u8
    requires { digit < 16 }
    ensures { result ≡ digit_char digit }
{
    if digit < 10 {
        b'0' + digit
    } else {
        b'a' + (digit - 10)
    }
}
