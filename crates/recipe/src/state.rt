// What the pass keeps of the nodes so far, and how a record changes it.
#![tactic(auto)]

ghost use Rattle.std.specs.Prelude.{◌≡◌, ℕ, ◌+◌, ◌≤◌, ◌<◌, [], eqb};
ghost use Rattle.format.specs.Bytes.{pick};
ghost use Rattle.format.specs.Table.{limit};
ghost use Rattle.format.specs.Form as form;
ghost use Rattle.header.specs.Header.{meant};
ghost use Rattle.recipe.specs.Answers.{shown};

use crate::{Fault, Newest, Outline, Refusal, Refused};
use header::Table;
use hmat::Width;

// The table is not too long, and each of its nodes takes a byte of it at least.
#[derive(Clone, Copy)]
pub(crate) struct State {
    pub(crate) table: Table,
    pub(crate) nodes: usize,
    pub(crate) length: usize,
    pub(crate) newest: Newest,
    ghost short: { length ≤ limit },
    ghost few: { nodes ≤ length },
}

impl State {
    ghost use Rattle.recipe.specs.Machine.{counts, state_of, stepped, ended_with, grown, made_by, counted};

    // Of no nodes.
    pub(crate) fn new(table: Table) -> Self
        ensures { (w : form.Width) → counts result ≡ state_of (meant table) w [] }
    {
        State {
            table,
            nodes: 0,
            length: table.front(),
            newest: Newest::Other,
        }
    }

    // With so many nodes, and a table that is longer by some bytes.
    pub(crate) fn grown(self, nodes: usize, by: usize, newest: Newest) -> Result<State, Fault>
        requires { (by ≤ limit) × (nodes ≤ self.length + by) }
        ensures { (p : ℕ) → stepped p result ≡ grown p (counts self) nodes by newest }
    {
        let length = self.length + by;
        if header::LIMIT < length {
            return Err(Fault::Record(Refusal::TooLong));
        }
        Ok(State {
            table: self.table,
            nodes,
            length,
            newest,
        })
    }

    // With one node more, of which the first bad field is given, if it has one, and whose record has so many bytes.
    pub(crate) fn made(self, bad: Option<usize>, len: usize, newest: Newest) -> Result<State, Fault>
        requires { (0 < len) × (len ≤ limit) }
        ensures { (p : ℕ) → stepped p result ≡ made_by p (counts self) bad len newest }
    {
        if let Some(by) = bad {
            return Err(Fault::Field(by));
        }
        self.grown(self.nodes + 1, len, newest)
    }

    // The counts of the newest node, if it is a matrix and they are written so wide.
    pub(crate) fn counted(self, width: Width) -> Result<(u32, u32), Fault>
        ensures { result ≡ counted self.newest width }
    {
        let Newest::Matrix(counted, initiators, targets) = self.newest else {
            return Err(Fault::Record(Refusal::Misplaced));
        };
        if width != counted {
            return Err(Fault::Record(Refusal::Misplaced));
        }
        Ok((initiators, targets))
    }

    // The place of the newest node's record: at, if there are more nodes than before, else where it was.
    pub(crate) fn newer(self, before: usize, at: usize, made: usize) -> usize
        ensures { result ≡ pick (eqb self.nodes before) made at }
    {
        if self.nodes == before {
            return made;
        }
        at
    }

    // The answer at the end of a recipe; made: the place of the newest node's record.
    pub(crate) fn ended(self, made: usize) -> Result<Outline, Refused>
        ensures { shown result ≡ ended_with (counts self) made }
    {
        if self.newest.lacks(None) {
            return Err(Refusal::Incomplete.at(made));
        }
        Ok(Outline {
            table: self.table,
            len: self.length,
        })
    }
}
