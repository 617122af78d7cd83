//! All that a source has to give, up to a limit.

ghost use Rattle.outside.specs.Below.{ℕ, [], length, take, drop, Some, vec_len, IfOk, OnOk, IsErrOf, ForSome};
ghost use Rattle.std.specs.Prelude.{◌≡◌, ◌+◌, ◌-◌, ◌^◌, ◌<◌, ◌≤◌, ◌++◌};
ghost use Rattle.outside.specs.Count.{Rose};

use crate::source::{Failed, Source};
use std::alloc::{AllocError, Global};
use thiserror::Error;

/// The most bytes that are read as one text.
pub const LIMIT: usize = 16_777_216;

// The most bytes that are asked for at once.
const PIECE: usize = 65_536;

#[derive(Clone, Copy, Debug, PartialEq, Eq, Error)]
pub enum ReadEnd {
    #[error("a read failed")]
    Fault,
    #[error("the text is longer than 16777216 bytes")]
    TooLarge,
    #[error("out of memory")]
    OutOfMemory,
}

/// Reads to the end.
pub fn read_all<S: Source>(alloc: Global, source: &mut S) -> Result<Vec<u8>, ReadEnd>
    ensures all { IfOk result (λ v. ForSome (S.left source.old) (λ bytes. v.items ≡ bytes)) }
    ensures limit { IfOk result (λ v. length v.items ≤ 2 ^ 24) }
    ensures rest { OnOk result (ForSome (S.left source.old) (λ _. S.left source.new ≡ Some [])) }
    ensures fault { IsErrOf result ReadEnd.Fault → Rose (S.faults source.old) (S.faults source.new) }
    ensures large { IsErrOf result ReadEnd.TooLarge → ForSome (S.left source.old) (λ bytes. 2 ^ 24 < length bytes) }

    // A text within the limit is never refused for its length.
    ensures fits { ForSome (S.left source.old) (λ bytes. length bytes ≤ 2 ^ 24 → ¬ IsErrOf result ReadEnd.TooLarge) }

    // There is no fault of its own: none where the count, which can rise, hasn't risen.
    ensures steady { S.faults source.new ≡ S.faults source.old → S.faults source.old < 2 ^ 64 - 1 →
        ¬ IsErrOf result ReadEnd.Fault }
    ensures quiet { S.quiet source.old → ¬ IsErrOf result ReadEnd.Fault }
    ensures later { S.faults source.old ≤ S.faults source.new }

    // However it ends, at most one byte past the limit has been read.
    ensures taken { ForSome (S.left source.old) (λ bytes.
        (n : ℕ) × (n ≤ 2 ^ 24 + 1) × (S.left source.new ≡ Some (drop n bytes))) }
{
    let mut buffer = vec![in alloc; 0; PIECE].map_err(|_| ReadEnd::OutOfMemory)?;
    let mut bytes = Vec::new(alloc);
    while bytes.len() <= LIMIT {
        let most = PIECE.min(LIMIT + 1 - bytes.len());
        if read_piece(source, &mut buffer[..most], &mut bytes)? == 0 {
            return Ok(bytes);
        }
    }
    Err(ReadEnd::TooLarge)
}

// Reads once, and puts what came behind the bytes.
fn read_piece<S: Source>(
    source: &mut S,
    buffer: &mut [u8],
    bytes: &mut Vec<u8>,
) -> Result<usize, ReadEnd>
    ensures count { IfOk result (λ n. n ≤ length buffer.old) }
    ensures len { IfOk result (λ n. vec_len bytes.new ≡ vec_len bytes.old + n) }
    ensures piece { IfOk result (λ n. ForSome (S.left source.old) (λ left.
        bytes.new.items ≡ bytes.old.items ++ take n left)) }
    ensures end { IfOk result (λ n. ForSome (S.left source.old) (λ left. n ≡ 0 → 0 < length buffer.old → left ≡ [])) }
    ensures rest { IfOk result (λ n. ForSome (S.left source.old) (λ left. S.left source.new ≡ Some (drop n left))) }
    ensures rest_err { ForSome (S.left source.old) (λ left. (n : ℕ) × (n ≤ length buffer.old) ×
        (S.left source.new ≡ Some (drop n left))) }
    ensures fault { IsErrOf result ReadEnd.Fault → Rose (S.faults source.old) (S.faults source.new) }
    ensures large { ¬ IsErrOf result ReadEnd.TooLarge }
    ensures later { S.faults source.old ≤ S.faults source.new }
    ensures quiet { S.quiet source.old → (¬ IsErrOf result ReadEnd.Fault) × S.quiet source.new }
{
    match source.read(buffer) {
        Ok(count) => match bytes.extend_from_slice(&buffer[..count]) {
            Ok(()) => Ok(count),
            Err(_) => Err(ReadEnd::OutOfMemory),
        },
        Err(_) => Err(ReadEnd::Fault),
    }
}
