// Tests over a list, lists made by index, a part of a list stored anew, counting. The code here reads and stores one entry of an
// array, by the number that it belongs to.
#![tactic(auto)]

ghost use Rattle.std.specs.Prelude.{◌≡◌, ℕ, get_or, set};

mod codes;

pub use codes::{Code, Mark, code_at};

// A numbering: each of its values is the index of an entry. Not `From`, whose contract a clause could not name as one number. A
// numbering of its own type has its own `impl`, since no macro may write one.
pub trait Number: Copy {
    ghost number: { Self → ℕ };

    fn index(self) -> usize
        ensures { result ≡ number self };
}

impl Number for usize {
    ghost number = { λ i. i };

    fn index(self) -> usize {
        self
    }
}

// The entry of a number; behind the end of the list the default.
pub fn at<N: Number, T: Copy>(list: &[T], i: N, default: T) -> T
    ensures { result ≡ get_or list.now (N.number i) default }
{
    let i = i.index();
    if i < list.len() { list[i] } else { default }
}

// Stores the entry of a number; behind the end of the list nothing.
pub fn put<N: Number, T: Copy>(list: &mut [T], i: N, v: T)
    ensures { list.new ≡ set list.old (N.number i) v }
{
    let i = i.index();
    if i < list.len() {
        list[i] = v;
    }
}
