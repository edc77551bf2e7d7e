// The entries of a matrix, in columns as wide as they need.
use crate::lines::Line;
use hmat::SystemLocality;
use std::io;
use std::ops::Range;

// The width of a column that has room for a number behind two spaces, and is not narrower than w.
fn wider(w: usize, n: u32) -> usize {
    w.max(n.checked_ilog10().map_or(3, |log| log as usize + 3))
}

// Of a row or a column what is left out: nothing where all are asked for or they are few; else all but eight at either end.
fn left_out(count: u32, all: bool) -> Range<u32> {
    if all || count <= 64 {
        count..count
    } else {
        8..count - 8
    }
}

// Says how many are left out, if some are.
fn say_left_out(rt: &impl Print, gap: &Range<u32>, word: &str) -> io::Result<()> {
    if gap.is_empty() {
        return Ok(());
    }
    println!(rt; "  .. {} {word} left out", gap.end - gap.start)
}

// A matrix of a table: where it stands, what it is about, which of its columns are left out, and how wide they are.
#[derive(Drop)]
struct Grid<'a> {
    table: &'a [u8],
    place: usize,
    matrix: SystemLocality,
    gap: Range<u32>,
    label: usize,
    entry: usize,
}

impl Grid<'_> {
    fn initiator(&self, i: u32) -> u32 {
        SystemLocality::initiator_value(self.table, self.place, i as usize)
    }

    fn target(&self, t: u32) -> u32 {
        SystemLocality::target_value(
            self.table,
            self.place,
            self.matrix.initiators as usize,
            t as usize,
        )
    }

    // An entry, if it is set.
    fn entry(&self, i: u32, t: u32) -> Option<u32> {
        let SystemLocality {
            initiators,
            targets,
            ..
        } = self.matrix;
        let v = SystemLocality::entry_value(self.table, self.place, initiators, targets, i, t);
        (v != SystemLocality::UNREACHABLE_DOMAIN).then_some(v as u32)
    }

    // Lays some of the targets.
    fn lay_targets(&self, rt: &impl Print, line: &mut Line, columns: Range<u32>) -> io::Result<()> {
        for t in columns {
            line.number(rt, self.entry, self.target(t) as u64)?;
        }
        Ok(())
    }

    // Lays some of an initiator's entries; one that is not set is a dash.
    fn lay_entries(
        &self,
        rt: &impl Print,
        line: &mut Line,
        i: u32,
        columns: Range<u32>,
    ) -> io::Result<()> {
        for t in columns {
            match self.entry(i, t) {
                Some(v) => line.number(rt, self.entry, v as u64)?,
                None => line.right(rt, self.entry, b"-")?,
            }
        }
        Ok(())
    }

    // Lays what stands in some columns of a row: the targets themselves above the entries, then each initiator's entries.
    fn lay(
        &self,
        rt: &impl Print,
        line: &mut Line,
        row: Option<u32>,
        columns: Range<u32>,
    ) -> io::Result<()> {
        match row {
            None => self.lay_targets(rt, line, columns),
            Some(i) => self.lay_entries(rt, line, i, columns),
        }
    }

    // A row: the targets, above their columns, or an initiator and its entries.
    fn row(&self, rt: &impl Print, row: Option<u32>) -> io::Result<()> {
        let mut line = Line::new();
        match row {
            None => line.right(rt, self.label, b"initiator")?,
            Some(i) => line.number(rt, self.label, self.initiator(i) as u64)?,
        }
        self.lay(rt, &mut line, row, 0..self.gap.start)?;
        if !self.gap.is_empty() {
            line.right(rt, self.entry, b"..")?;
        }
        self.lay(rt, &mut line, row, self.gap.end..self.matrix.targets)?;
        line.end(rt)
    }

    // A line for each of some initiators.
    fn rows(&self, rt: &impl Print, initiators: Range<u32>) -> io::Result<()> {
        for i in initiators {
            self.row(rt, Some(i))?;
        }
        Ok(())
    }
}

// A line for the targets and one for each initiator; of many, those at either end.
pub fn entries(
    rt: &impl Print,
    table: &[u8],
    place: usize,
    matrix: SystemLocality,
    all: bool,
) -> io::Result<()> {
    let mut g = Grid {
        table,
        place,
        matrix,
        gap: left_out(matrix.targets, all),
        label: 13,
        entry: 7,
    };
    g.label = (0..matrix.initiators).fold(g.label, |w, i| wider(w, g.initiator(i)));
    g.entry = (0..matrix.targets).fold(g.entry, |w, t| wider(w, g.target(t)));
    let gap = left_out(matrix.initiators, all);
    say_left_out(rt, &g.gap, "targets")?;
    g.row(rt, None)?;
    g.rows(rt, 0..gap.start)?;
    say_left_out(rt, &gap, "initiators")?;
    g.rows(rt, gap.end..matrix.initiators)
}
