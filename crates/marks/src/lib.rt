// Marks: records that a pass over a PPTT has come to, so that a walk to what a reference names need not start at the first one.
// A pass keeps them under a key, which is what its references say: a number of nodes, or a place. As many neighbouring keys share a mark
// as a shift makes one of. That a mark is right is for the pass that keeps it to say, and marks keep it right, wherever they stand.
#![tactic(auto)]

ghost use Rattle.std.specs.Prelude.{◌≡◌, ◌-◌};
ghost use Rattle.format.specs.Table.{pptt};
ghost use Rattle.std.specs.Prelude.{replicate};
ghost use Rattle.marks.specs.Marks.{first_mark, spread_of, kept, mark_in, there, noted, under, toward_node, toward_place};

use header::Table;

// How many marks a pass keeps: for a short table, for a long one, and for one that is longer than LONG. In the longest table 1,024 bytes share
// one of MOST, and in one of LONG 256 share one of MANY: a walk passes no more.
pub const FEW: usize = 1024;

pub const MANY: usize = 4096;

pub const MOST: usize = 65536;

pub const LONG: usize = 1048576;

// A place, and how many nodes stand before it.
#[derive(Clone, Copy)]
pub struct Mark {
    pub nodes: u32,
    pub place: u32,
}

// The least shift that makes n keys no more than so many, as far as a word reaches.
pub fn spread(n: usize, count: usize) -> u32
    ensures { result ≡ spread_of 63 0 (n - 1) count }
{
    let last = n.saturating_sub(1);
    for shift in 0..63 {
        if last >> shift < count {
            return shift;
        }
    }
    63
}

impl Mark {
    // The first record of a PPTT.
    pub fn first() -> Self
        ensures { result ≡ first_mark pptt }
    {
        Self {
            nodes: 0,
            place: Table::PPTT_FRONT as u32,
        }
    }

    // Both numbers in one; 0 is no mark, since no record stands at 0.
    fn kept(self) -> u64
        ensures { result ≡ kept self }
    {
        self.nodes as u64 * 4294967296 + self.place as u64
    }

    fn of(number: u64) -> Option<Self>
        ensures { result ≡ there (mark_in number) }
    {
        let place = (number % 4294967296) as u32;
        if place == 0 {
            return None;
        }
        Some(Self {
            nodes: (number / 4294967296) as u32,
            place,
        })
    }

    // Keeps the mark under a key, unless one is kept there: the first of those that share it serves them all.
    #[tactic(auto, unfolding(crate::specs::Marks::noted))]
    pub fn note(self, marks: &mut [u64], shift: u32, key: usize)
        ensures { marks.new ≡ noted self shift key marks.old }
    {
        let i = key >> (shift % 64);
        if i < marks.len() && marks[i] == 0 {
            marks[i] = self.kept();
        }
    }

    // The mark under a key.
    #[tactic(auto, unfolding(crate::specs::Marks::under))]
    fn under(marks: &[u64], shift: u32, key: usize) -> Option<Self>
        ensures { result ≡ there (under marks.now shift key) }
    {
        Self::of(*marks.get(key >> (shift % 64))?)
    }

    // From where to walk to node i, counted from 0: from the mark under its number, unless there is none or it is past it; then from here.
    #[tactic(auto, using(crate::proofs::Laws::from_there), unfolding(crate::specs::Marks::toward_node))]
    pub fn toward_node(self, marks: &[u64], shift: u32, i: u32) -> Self
        ensures { result ≡ toward_node self shift i marks.now }
    {
        match Self::under(marks, shift, i as usize) {
            Some(mark) if mark.nodes <= i => mark,
            _ => self,
        }
    }

    // The same to a place, from the mark under it.
    #[tactic(auto, using(crate::proofs::Laws::from_there), unfolding(crate::specs::Marks::toward_place))]
    pub fn toward_place(self, marks: &[u64], shift: u32, v: usize) -> Self
        ensures { result ≡ toward_place self shift v marks.now }
    {
        match Self::under(marks, shift, v) {
            Some(mark) if mark.place as usize <= v => mark,
            _ => self,
        }
    }
}

// The marks of a pass, each in one number, and by how many bits their keys are shifted. An Option<Mark> would take half as much stack again.
#[derive(Drop)]
pub struct Marks<const N: usize> {
    pub slots: [u64; N],
    pub shift: u32,
}

impl<const N: usize> Marks<N> {
    // No mark yet, for so many keys.
    pub fn none(keys: usize) -> Self
        ensures slots { result.slots ≡ replicate N 0 }
        ensures shift { result.shift ≡ spread_of 63 0 (keys - 1) N }
    {
        Self {
            slots: [0; N],
            shift: spread(keys, N),
        }
    }

    // Keeps a mark under a key (Mark::note).
    pub fn note(&mut self, mark: Mark, key: usize)
        ensures slots { self.new.slots ≡ noted mark self.old.shift key self.old.slots }
        ensures shift { self.new.shift ≡ self.old.shift }
    {
        mark.note(&mut self.slots, self.shift, key);
    }

    // From where to walk to node i (Mark::toward_node).
    pub fn toward_node(&self, from: Mark, i: u32) -> Mark
        ensures { result ≡ toward_node from self.now.shift i self.now.slots }
    {
        from.toward_node(&self.slots, self.shift, i)
    }

    // From where to walk to a place (Mark::toward_place).
    pub fn toward_place(&self, from: Mark, v: usize) -> Mark
        ensures { result ≡ toward_place from self.now.shift v self.now.slots }
    {
        from.toward_place(&self.slots, self.shift, v)
    }
}
