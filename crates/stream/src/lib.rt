#![tactic(auto)]

// The answer of a session call. Its refusal has a number, and no name: a lent record may hold any byte there.

// Which of document 01's answers each case is, and with which values, says specs/Answers.antt.
#[derive(Clone, Copy, Debug, PartialEq, Eq)]
pub enum Answer {
    NeedsInput,
    NeedsRoom,
    Done,
    // the refusal's number and source line
    Refused(u8, u32),
}
