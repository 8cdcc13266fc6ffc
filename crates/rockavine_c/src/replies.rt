// Answers and marks as plain numbers, for C.
ghost use Rattle.std.specs.Prelude.{◌≡◌};
ghost use Rattle.rockavine_c.specs.Replies.Replies.{code_of, answer_number, answer_line, is_last};

use stream::Answer;

// The number of an answer, as the C interface has it.
pub fn code_of(answer: Answer) -> u32
    ensures { result ≡ code_of answer }
{
    match answer {
        Answer::NeedsInput => 0,
        Answer::NeedsRoom => 1,
        Answer::Done => 2,
        Answer::Refused(_, _) => 3,
    }
}

// The number of a refusal, 0 if it is none.
pub fn number_of(answer: Answer) -> u8
    ensures { result ≡ answer_number answer }
{
    match answer {
        Answer::NeedsInput | Answer::NeedsRoom | Answer::Done => 0,
        Answer::Refused(number, _) => number,
    }
}

// The source line of a refusal, 0 if it is none.
pub fn line_of(answer: Answer) -> u32
    ensures { result ≡ answer_line answer }
{
    match answer {
        Answer::NeedsInput | Answer::NeedsRoom | Answer::Done => 0,
        Answer::Refused(_, line) => line,
    }
}

// Any byte but 0 marks the last block.
pub fn is_last(mark: u8) -> bool
    ensures { result ≡ is_last mark }
{
    mark != 0
}
