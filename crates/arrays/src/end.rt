// How a transaction ended.
#![tactic(auto)]

ghost use Rattle.arrays.specs.Ends.{code_of};

use lists::Code;

// No end yet, a commit or an abort.
#[derive(Clone, Copy, Debug, PartialEq, Eq)]
pub enum End {
    Open = 0,
    Committed = 1,
    Aborted = 2,
}

impl Code for End {
    ghost code = { code_of };

    fn code(self) -> u8 {
        self as u8
    }
}
