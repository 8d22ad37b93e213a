// A journal whose head is right.
#![tactic(auto)]

ghost use Rattle.fields.specs.Answers.{Opened};

// The bytes of a journal, and its head's record count and item count.
#[derive(Clone, Copy)]
pub struct Journal<'j> {
    pub bytes: &'j [u8],
    pub records: u32,
    pub items: u32,
    pub ghost opened: { Opened bytes.now records items },
}
