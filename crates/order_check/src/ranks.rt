//! Ranks of classes: a class has a greater one than its bases. All have one exactly where no class derives from itself.

ghost use Rattle.order_check.specs.Below.{true, false, length, get_or, IfOk};
ghost use Rattle.std.specs.Prelude.{◌≡◌, ◌↔◌, ◌+◌, ◌<◌, ◌≤◌};
ghost use Rattle.order_check.specs.Hierarchy.{AreKeyed, keys_of};
ghost use Rattle.order_check.specs.Known.{known_in, unknown};
ghost use Rattle.order_check.specs.WellFormed.{are_ranked, have_ranks, IsRanking, IsStuckAt, IsStuckTo, AreThere, AreApart};

use crate::hierarchy::Entry;
use crate::place::place_of;
use py_node::OutOfMemory;
use std::alloc::Global;

fn rank_of(entries: &[Entry], ranks: &[Option<usize>], key: u64) -> Option<usize>
    requires keyed { AreKeyed entries.now }
    requires count { length ranks.now ≡ length entries.now }
    ensures { result ≡ known_in entries.now ranks.now key }
{
    match place_of(entries, key) {
        None => None,
        Some(place) => ranks[place],
    }
}

fn are_ranked(entries: &[Entry], ranks: &[Option<usize>], bases: &[u64]) -> bool
    requires keyed { AreKeyed entries.now }
    requires count { length ranks.now ≡ length entries.now }
    ensures { result ≡ are_ranked (known_in entries.now ranks.now) bases.now }
{
    for base in bases {
        if rank_of(entries, ranks, *base).is_none() {
            return false;
        }
    }
    true
}

// Gives the class at a place the next rank, if it has none and its bases have theirs. Tells whether it did.
fn rank_place(entries: &[Entry], ranks: &mut Vec<Option<usize>>, place: usize, next: usize) -> bool
    requires keyed { AreKeyed entries.now }
    requires count { length ranks.old.items ≡ length entries.now }
    requires inside { place < length entries.now }
    requires ranking { IsRanking entries.now ranks.old.items next }
    ensures count { length ranks.new.items ≡ length entries.now }
    ensures ranking { result ≡ true → IsRanking entries.now ranks.new.items (next + 1) }
    ensures fewer { result ≡ true → unknown ranks.new.items < unknown ranks.old.items }
    ensures same { result ≡ false → ranks.new.items ≡ ranks.old.items }
    ensures stuck { result ≡ false → IsStuckAt entries.now ranks.old.items (get_or (keys_of entries.now) place 0) }
{
    if ranks[place].is_some() {
        return false;
    }
    if !are_ranked(entries, ranks, &entries[place].bases) {
        return false;
    }
    ranks[place] = Some(next);
    true
}

// Gives ranks to classes whose bases have theirs, from the next one on. Tells the next one then.
fn rank_more(entries: &[Entry], ranks: &mut Vec<Option<usize>>, next: usize) -> usize
    requires keyed { AreKeyed entries.now }
    requires count { length ranks.old.items ≡ length entries.now }
    requires ranking { IsRanking entries.now ranks.old.items next }
    requires room { next + unknown ranks.old.items ≤ length entries.now }
    ensures count { length ranks.new.items ≡ length entries.now }
    ensures ranking { IsRanking entries.now ranks.new.items result }
    ensures room { result + unknown ranks.new.items ≤ length entries.now }
    ensures next { next ≤ result }
    ensures stuck { result ≡ next → IsStuckTo entries.now ranks.new.items (length entries.now) }
{
    let mut after = next;
    for place in 0..entries.len() {
        if rank_place(entries, ranks, place, after) {
            after += 1;
        }
    }
    after
}

fn none_ranked(alloc: Global, count: usize) -> Result<Vec<Option<usize>>, OutOfMemory>
    ensures count { IfOk result (λ v. length v.items ≡ count) }
    ensures none { IfOk result (λ v. unknown v.items ≡ count) }
{
    let mut ranks = Vec::with_capacity(alloc, count)?;
    for place in 0..count {
        ranks.push(None)?;
    }
    Ok(ranks)
}

fn have_ranks(ranks: &[Option<usize>]) -> bool
    ensures { result ≡ have_ranks ranks.now }
{
    for rank in ranks {
        if rank.is_none() {
            return false;
        }
    }
    true
}

// Whether no class derives from itself.
pub(crate) fn are_apart(alloc: Global, entries: &[Entry]) -> Result<bool, OutOfMemory>
    requires keyed { AreKeyed entries.now }
    requires there { AreThere entries.now }
    ensures { IfOk result (λ apart. (apart ≡ true) ↔ AreApart entries.now) }
{
    let mut ranks = none_ranked(alloc, entries.len())?;
    let mut next = 0;
    loop {
        let after = rank_more(entries, &mut ranks, next);
        if after == next {
            return Ok(have_ranks(&ranks));
        }
        next = after;
    }
}
