// The lines of the report, each written behind what a page has. Not by std's `write!`: it promises its text only where it answers Ok,
// and nothing says when it does.
#![tactic(auto)]

ghost use Rattle.std.specs.Prelude.{List, [], ◌∷◌, ℕ, ◌<◌};
ghost use Rattle.text.specs.Decimal.{digit, decimal, decimal_z, decimal_s};
ghost use Rattle.text.specs.Lines.{count_line, undone_line, change_line, sum_line, end_line, refused_line};
ghost use Rattle.text.specs.Pages.{HasRoom, Writes};
ghost use Rattle.text.specs.Parts.{text_of, texts_of};

use Part::{Amount, Number, Word};

// A signed number, as it is printed: a sign and a size.
#[derive(Clone, Copy, Debug, PartialEq, Eq)]
pub struct Signed {
    pub minus: bool,
    pub size: u64,
}

// A sum that is printed: a number, or a sign and a size.
pub trait Sum: Copy {
    ghost digits: { Self → List ℕ };

    // Writes it in decimal.
    fn put(self, page: &mut Page)
        requires { HasRoom page.old (digits self) }
        ensures { Writes page.old (digits self) page.new };
}

// A buffer, and where the text in it ends; std's `Cursor` would answer each word by a `Result`. Whoever writes asks for room for just its
// text, so no fact of the page can stand for it.
#[derive(Drop)]
pub struct Page<'a> {
    pub bytes: &'a mut [u8],
    pub end: usize,
}

// What a line is made of.
#[derive(Clone, Copy)]
enum Part<'a> {
    Word(&'a [u8]),
    Number(u64),
    Amount(i64),
}

impl Page<'_> {
    // Writes a word.
    pub fn put_word(&mut self, word: &[u8])
        requires { HasRoom self.old word.now }
        ensures { Writes self.old word.now self.new }
    {
        let start = self.end;
        let end = start + word.len();
        self.bytes[start..end].copy_from_slice(word);
        self.end = end;
    }

    // Writes a digit.
    fn put_digit(&mut self, d: u8)
        requires below { d < 10 }
        requires room { HasRoom self.old (digit d ∷ []) }
        ensures { Writes self.old (digit d ∷ []) self.new }
    {
        self.put_word(&[48 + d]);
    }

    // Writes a number in decimal.
    fn put_number(&mut self, x: u64)
        requires { HasRoom self.old (decimal x) }
        ensures { Writes self.old (decimal x) self.new }
    {
        if x < 10 {
            self.put_digit(x as u8);
        } else {
            self.put_number(x / 10);
            self.put_digit((x % 10) as u8);
        }
    }

    // Writes a signed number in decimal.
    fn put_amount(&mut self, x: i64)
        requires { HasRoom self.old (decimal_z x) }
        ensures { Writes self.old (decimal_z x) self.new }
    {
        let size = x.unsigned_abs();
        if x < 0 {
            self.put_word(b"-");
            self.put_number(size);
        } else {
            self.put_number(size);
        }
    }

    fn put_part(&mut self, part: &Part)
        requires { HasRoom self.old (text_of part.now) }
        ensures { Writes self.old (text_of part.now) self.new }
    {
        match part {
            Word(word) => self.put_word(word),
            Number(x) => self.put_number(*x),
            Amount(x) => self.put_amount(*x),
        }
    }

    // Writes the parts of a line, one behind the other.
    fn put_line(&mut self, parts: &[Part])
        requires { HasRoom self.old (texts_of parts.now) }
        ensures { Writes self.old (texts_of parts.now) self.new }
    {
        for part in parts {
            self.put_part(part);
        }
    }
}

#[tactic(auto, using(crate::proofs::LinesLaws::line_steps))]
impl Sum for i64 {
    ghost digits = { decimal_z };

    fn put(self, page: &mut Page) {
        page.put_part(&Amount(self));
    }
}

#[tactic(auto, using(crate::proofs::LinesLaws::signed_steps))]
impl Sum for Signed {
    ghost digits = { decimal_s };

    fn put(self, page: &mut Page) {
        if self.minus {
            page.put_line(&[Word(b"-"), Number(self.size)]);
        } else {
            page.put_part(&Number(self.size));
        }
    }
}

// The lines of the report: each line's words stand in one place.
#[tactic(auto, using(crate::proofs::LinesLaws::line_steps))]
impl Page<'_> {
    // JOURNAL n COPY m
    pub fn put_counts(&mut self, n: u64, m: u64)
        requires { HasRoom self.old (count_line n m) }
        ensures { Writes self.old (count_line n m) self.new }
    {
        self.put_line(&[
            Word(b"JOURNAL "),
            Number(n),
            Word(b" COPY "),
            Number(m),
            Word(b"\n"),
        ]);
    }

    // BACK s
    pub fn put_undone(&mut self, s: u64)
        requires { HasRoom self.old (undone_line s) }
        ensures { Writes self.old (undone_line s) self.new }
    {
        self.put_line(&[Word(b"BACK "), Number(s), Word(b"\n")]);
    }

    // ITEM x old new
    pub fn put_change(&mut self, x: u64, old: i32, new: i32)
        requires { HasRoom self.old (change_line x old new) }
        ensures { Writes self.old (change_line x old new) self.new }
    {
        self.put_line(&[
            Word(b"ITEM "),
            Number(x),
            Word(b" "),
            Amount(i64::from(old)),
            Word(b" "),
            Amount(i64::from(new)),
            Word(b"\n"),
        ]);
    }

    // SUM s
    pub fn put_sum<S: Sum>(&mut self, s: S)
        requires { HasRoom self.old (sum_line (S.digits s)) }
        ensures { Writes self.old (sum_line (S.digits s)) self.new }
    {
        self.put_word(b"SUM ");
        s.put(self);
        self.put_word(b"\n");
    }

    // END surviving undone aborted (document 01: kept, taken back, dropped)
    pub fn put_end(&mut self, surviving: u64, undone: u64, aborted: u64)
        requires { HasRoom self.old (end_line surviving undone aborted) }
        ensures { Writes self.old (end_line surviving undone aborted) self.new }
    {
        self.put_line(&[
            Word(b"END "),
            Number(surviving),
            Word(b" "),
            Number(undone),
            Word(b" "),
            Number(aborted),
            Word(b"\n"),
        ]);
    }

    // REFUSED number place
    pub fn put_refused(&mut self, number: u64, place: u64)
        requires { HasRoom self.old (refused_line number place) }
        ensures { Writes self.old (refused_line number place) self.new }
    {
        self.put_line(&[
            Word(b"REFUSED "),
            Number(number),
            Word(b" "),
            Number(place),
            Word(b"\n"),
        ]);
    }
}
