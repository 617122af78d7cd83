//! What natives make of texts: their length, their hash, and their form in Python's syntax.

ghost use Rattle.native_containers.specs.Below.{OnOk, IfOk, string_bytes, IsUtf8};
ghost use Rattle.std.specs.Prelude.{◌≡◌, ◌++◌};
ghost use Rattle.native_containers.specs.NativeTexts.Texts.{text_length, hash_of, text_hash, repr_byte, repr_text, stands_in};

use py_node::OutOfMemory;
use std::alloc::Global;

/// How many characters a text has.
pub fn text_length(text: &str) -> usize
    ensures { result ≡ text_length text.now }
{
    text.chars().count()
}

/// The hash of a text.
pub(crate) fn text_hash(text: &str) -> i64
    ensures { result ≡ text_hash text.now }
{
    hash_of(text.as_bytes()).cast_signed()
}

// FNV-1a.
fn hash_of(bytes: &[u8]) -> u64
    ensures { result ≡ hash_of bytes.now }
{
    let mut hash: u64 = 0xcbf2_9ce4_8422_2325;
    for byte in bytes {
        hash = (hash ^ *byte as u64).wrapping_mul(0x0100_0000_01b3);
    }
    hash
}

/// Whether a text stands somewhere in another.
pub(crate) fn stands_in(part: &str, text: &str) -> bool
    ensures { result ≡ stands_in part.now text.now }
{
    text.contains(part)
}

/// A text as Python writes it.
pub(crate) fn repr_text(alloc: Global, text: &str) -> Result<String, OutOfMemory>
    ensures { IfOk result (λ s. string_bytes s ≡ repr_text text.now) }
{
    let mut bytes = Vec::new(alloc);
    bytes.push(b'\'')?;
    for byte in text.as_bytes() {
        push_repr_byte(&mut bytes, *byte)?;
    }
    bytes.push(b'\'')?;
    Ok(string_of(bytes))
}

// A string of these bytes.
fn string_of(bytes: Vec<u8>) -> String
    requires { IsUtf8 bytes.items }
    ensures { string_bytes result ≡ bytes.items }
{
    match String::from_utf8(bytes) {
        Ok(text) => text,
        Err(_) => unreachable!(),
    }
}

#[tactic(auto, unfolding(crate::specs::NativeTexts::Texts::repr_byte))]
fn push_repr_byte(out: &mut Vec<u8>, byte: u8) -> Result<(), OutOfMemory>
    ensures { OnOk result (out.new.items ≡ out.old.items ++ repr_byte byte) }
{
    match byte {
        b'\\' => out.extend_from_slice(b"\\\\")?,
        b'\'' => out.extend_from_slice(b"\\'")?,
        b'\n' => out.extend_from_slice(b"\\n")?,
        b'\r' => out.extend_from_slice(b"\\r")?,
        b'\t' => out.extend_from_slice(b"\\t")?,
        _ => out.push(byte)?,
    }
    Ok(())
}
