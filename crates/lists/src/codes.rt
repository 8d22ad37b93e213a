// Values that are written as numbers, and marks.
#![tactic(auto)]

ghost use Rattle.std.specs.Prelude.{◌≡◌, ℕ, Bool, true, false, not, eqb, get_or, map};

use crate::Number;

// A value that is written as a number: an enum as its code, a byte as itself.
pub trait Code: Copy {
    ghost code: { Self → ℕ };

    fn code(self) -> u8
        ensures { result ≡ code self };
}

impl Code for u8 {
    ghost code = { λ b. b };

    fn code(self) -> u8 {
        self
    }
}

// The code of a number's entry; behind the end of the list 0.
pub fn code_at<N: Number, C: Code>(list: &[C], i: N) -> u8
    ensures { result ≡ get_or (map C.code list.now) (N.number i) 0 }
{
    let i = i.index();
    if i < list.len() { list[i].code() } else { 0 }
}

// A mark that is set or not: a bool, or a byte, of which 0 is no mark, 1 is one and any other is neither.
pub trait Mark: Copy {
    ghost unmarked: { Self };

    ghost marked: { Self };

    ghost is_unmarked: { Self → Bool };

    ghost is_marked: { Self → Bool };

    fn unmarked() -> Self
        ensures { result ≡ unmarked };

    fn marked() -> Self
        ensures { result ≡ marked };

    fn is_unmarked(self) -> bool
        ensures { result ≡ is_unmarked self };

    fn is_marked(self) -> bool
        ensures { result ≡ is_marked self };
}

impl Mark for bool {
    ghost unmarked = { false };

    ghost marked = { true };

    ghost is_unmarked = { not };

    ghost is_marked = { λ b. b };

    fn unmarked() -> bool {
        false
    }

    fn marked() -> bool {
        true
    }

    fn is_unmarked(self) -> bool {
        !self
    }

    fn is_marked(self) -> bool {
        self
    }
}

impl Mark for u8 {
    ghost unmarked = { 0 };

    ghost marked = { 1 };

    ghost is_unmarked = { λ b. eqb b 0 };

    ghost is_marked = { λ b. eqb b 1 };

    fn unmarked() -> u8 {
        0
    }

    fn marked() -> u8 {
        1
    }

    fn is_unmarked(self) -> bool {
        self == 0
    }

    fn is_marked(self) -> bool {
        self == 1
    }
}
