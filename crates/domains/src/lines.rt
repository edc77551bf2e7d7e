// Lines that are laid column by column before they are written: a write for each column would be many.
ghost use Rattle.std.specs.Prelude.{◌+◌, ◌≤◌, OnOk};

use std::io;
use text::Text;

// How many columns are laid before they are written.
const ROOM: usize = 4096;

// What is laid of a line and not yet written.
#[derive(Drop)]
pub struct Line {
    bytes: [u8; ROOM],
    at: usize,
    ghost within: { at ≤ 4096 },
}

impl Line {
    pub fn new() -> Line {
        Line {
            bytes: [0; ROOM],
            at: 0,
        }
    }

    // Makes room for some columns more: writes what is laid where there is none.
    fn clear(&mut self, rt: &impl Print, width: usize) -> io::Result<()>
        requires { width ≤ 4096 }
        ensures { OnOk result (self.new.at + width ≤ 4096) }
    {
        if ROOM - self.at < width {
            rt.write_all(&self.bytes[..self.at])?;
            self.at = 0;
        }
        Ok(())
    }

    // Lays a word so that it ends a column; nothing where the column is narrower than the word, or wider than the room.
    #[inline(always)]
    pub fn right(&mut self, rt: &impl Print, width: usize, word: &[u8]) -> io::Result<()> {
        let n = word.len();
        if width < n || ROOM < width {
            return Ok(());
        }
        self.clear(rt, width)?;
        let (start, end) = (self.at + (width - n), self.at + width);
        self.bytes[self.at..start].fill(b' ');
        self.bytes[start..end].copy_from_slice(word);
        self.at = end;
        Ok(())
    }

    // The same for a number.
    #[inline(always)]
    pub fn number(&mut self, rt: &impl Print, width: usize, v: u64) -> io::Result<()> {
        let mut digits = [0u8; 20];
        let mut text = Text::new(&mut digits);
        text.decimal(v);
        let n = text.len();
        self.right(rt, width, field::part(&digits, 0, n))
    }

    // Writes what is laid, and ends the line.
    pub fn end(mut self, rt: &impl Print) -> io::Result<()> {
        self.clear(rt, 1)?;
        self.bytes[self.at] = b'\n';
        rt.write_all(&self.bytes[..self.at + 1])
    }
}
