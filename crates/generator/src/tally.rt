//! A tally of replies: how many there are of each sort, and how many bodies were started.

ghost use Rattle.generator.specs.Below.{[], List, IfOk, length, map, PlainReply, reply_of};
ghost use Rattle.std.specs.Prelude.{◌≡◌, ◌+◌, ◌*◌, ◌^◌, ◌<◌, ◌≤◌, ◌++◌};

use py_node::{OutOfMemory, Reply, ReplyAnswer};
use std::alloc::Global;

/// How many replies there are, how many of them are values, faults, and ends of the budget, and how many bodies were
/// started.
#[derive(Drop)]
pub struct Tally {
    pub replies: u64,
    pub values: u64,
    pub raised: u64,
    pub budget: u64,
    pub calls: u128,
    ghost sorts: { values + raised + budget ≡ replies },
    ghost most: { calls ≤ replies * 2 ^ 64 },
}

impl Tally {
    ghost use Rattle.generator.specs.Summary.{Added, Counts, summary};

    /// The tally of no replies.
    pub fn new() -> Self
        ensures { Counts result [] }
    {
        Tally {
            replies: 0,
            values: 0,
            raised: 0,
            budget: 0,
            calls: 0,
        }
    }

    /// Counts more replies.
    pub fn add_all(&mut self, replies: &[Reply])
        requires { self.old.replies + length replies.now < 2 ^ 63 }
        ensures counts { (rs : List PlainReply) → Counts self.old rs
            → Counts self.new (rs ++ map reply_of replies.now) }
        ensures replies { self.new.replies ≡ self.old.replies + length replies.now }
    {
        for reply in replies {
            self.add(reply);
        }
    }

    // Counts one more reply.
    fn add(&mut self, reply: &Reply)
        requires { self.old.replies < 2 ^ 63 }
        ensures { Added self.old (reply_of reply.now) self.new }
    {
        match &reply.answer {
            ReplyAnswer::Value(_, _) => self.values += 1,
            ReplyAnswer::Raised(_) => self.raised += 1,
            ReplyAnswer::Budget => self.budget += 1,
        }
        self.calls += reply.calls.len() as u128;
        self.replies += 1;
    }

    /// The text of the tally: four lines, each a word and its number.
    pub fn text(&self, alloc: Global) -> Result<Vec<u8>, OutOfMemory>
        ensures { IfOk result (λ v. (rs : List PlainReply) → Counts self.now rs → v.items ≡ summary rs) }
    {
        let text = format!(in alloc;
            "values {}\nraised {}\nbudget {}\ncalls {}\n",
            self.values, self.raised, self.budget, self.calls
        )?;
        Ok(text.into_bytes())
    }
}
