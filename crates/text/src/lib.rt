// Text in a lent buffer, and what is put behind it: bytes, numbers in decimal digits, bytes in hexadecimal digits.
#![tactic(auto)]

ghost use Rattle.std.specs.Prelude.{◌≡◌, [], ◌∷◌};
ghost use Rattle.format.specs.Listing.{digits, spaced, refused_words, sum_words};
ghost use Rattle.field.specs.Whole.{number_of};
ghost use Rattle.text.specs.Text.{glyph, hexed, listed, behind, with};

use field::Whole;

// The hexadecimal digit of a number's low four bits.
fn glyph(v: u8) -> u8
    ensures { result ≡ glyph v }
{
    let low = v % 16;
    if low < 10 {
        return b'0' + low;
    }
    87 + low
}

// A text in a lent buffer: its first n bytes. What would reach past the end is left out.
#[derive(Drop)]
pub struct Text<'a> {
    out: &'a mut [u8],
    n: usize,
}

impl<'a> Text<'a> {
    pub fn new(out: &'a mut [u8]) -> Text<'a>
        ensures { result ≡ behind out.entry 0 }
    {
        Text { out, n: 0 }
    }

    // The text that stands in the first n bytes of a buffer already.
    pub fn behind(out: &'a mut [u8], n: usize) -> Text<'a>
        ensures { result ≡ behind out.entry n }
    {
        let n = n.min(out.len());
        Text { out, n }
    }

    pub fn len(&self) -> usize
        ensures { result ≡ self.now.n }
    {
        self.n
    }

    pub fn byte(&mut self, b: u8)
        ensures { self.new ≡ with self.old (b ∷ []) }
    {
        if self.n < self.out.len() {
            self.out[self.n] = b;
            self.n += 1;
        }
    }

    pub fn bytes(&mut self, s: &[u8])
        ensures { self.new ≡ with self.old s.now }
    {
        field::copy(self.out, self.n, s);
        self.n += s.len().min(self.out.len().saturating_sub(self.n));
    }

    // A number in decimal digits.
    pub fn decimal(&mut self, v: u64)
        ensures { self.new ≡ with self.old (digits 20 v) }
    {
        if v < 10 {
            return self.byte(b'0' + v as u8);
        }
        self.decimal(v / 10);
        self.byte(b'0' + (v % 10) as u8);
    }

    // A space and a number.
    #[tactic(auto, using(crate::proofs::Texts::with_with), unfolding(format::specs::Listing::spaced))]
    pub fn spaced(&mut self, v: u64)
        ensures { self.new ≡ with self.old (spaced v) }
    {
        self.byte(b' ');
        self.decimal(v);
    }

    // A number that may pass 64 bits.
    fn whole(&mut self, v: Whole)
        ensures { self.new ≡ with self.old (digits 22 (number_of v)) }
    {
        if v.high == 0 {
            return self.decimal(v.low as u64);
        }
        self.whole(v.tenth());
        self.byte(b'0' + v.digit());
    }

    // The words of a sum.
    #[tactic(auto, using(crate::proofs::Texts::with_with), unfolding(format::specs::Listing::sum_words))]
    pub fn summed(&mut self, sum: Whole)
        ensures { self.new ≡ with self.old (sum_words (number_of sum)) }
    {
        self.bytes(b"sum ");
        self.whole(sum);
    }

    // The words of a refusal: its number and its place.
    #[tactic(auto, using(crate::proofs::Texts::with_with), unfolding(format::specs::Listing::refused_words))]
    pub fn refused(&mut self, number: u64, place: u64)
        ensures { self.new ≡ with self.old (refused_words number place) }
    {
        self.bytes(b"refused");
        self.spaced(number);
        self.spaced(place);
    }

    // Bytes in two hexadecimal digits each, the higher first; '-' where there are none.
    pub fn hex(&mut self, s: &[u8])
        ensures { self.new ≡ with self.old (hexed s.now) }
    {
        if s.is_empty() {
            return self.byte(b'-');
        }
        for &b in s {
            self.byte(glyph(b / 16));
            self.byte(glyph(b));
        }
    }

    // Numbers with commas between them.
    pub fn list(&mut self, vs: &[u64])
        ensures { self.new ≡ with self.old (listed vs.now) }
    {
        let Some((first, others)) = vs.split_first() else {
            return;
        };
        self.decimal(*first);
        for &v in others {
            self.byte(b',');
            self.decimal(v);
        }
    }
}
