//! The rule: what is published begins with all that was seen.

use crate::copy::Posting;
use atomic_table::{Join, Split};
use class_table::class_log::Replica;
use crossbeam_utils::rule::{Outcome, Protocol};
use left_right::reader::Reader;
use left_right::writer::Writer;
use std::collections::LinkedList;

/// What a reader or the writer knows. No value of it is made.
pub struct View {
    pub seen: LinkedList<Posting>,
}

pub struct Published;

impl Protocol<Replica, View> for Published {
    ghost use Rattle.class_view.specs.Rule.{Keeps, newcomer};

    ghost holds = { Keeps };

    ghost first = { newcomer };
}

pub struct Sees;

impl Outcome<Replica, View> for Sees {
    ghost use Rattle.class_view.specs.Rule.{Shows};

    ghost then = { Shows };
}

/// The writer's knowledge, copied for a reader that has none.
pub struct Notes;

impl Split<View> for Notes {
    ghost left = { λ v. v };

    ghost right = { λ v. v };
}

impl Join<View> for Notes {
    ghost use Rattle.class_view.specs.Rule.{newcomer};

    ghost both = { λ v w. w };

    ghost spent = { newcomer };
}

pub type Looker = Reader<Replica, View, Published>;

pub type Publisher = Writer<Replica, Posting, View, Published>;
