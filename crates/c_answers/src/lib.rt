// How the C functions hand over an answer: specs/Results.antt says what of it; the code here hands over a refusal.
#![tactic(auto)]

ghost use Rattle.std.specs.Prelude.{◌≡◌};
ghost use Rattle.journal.specs.Outcomes.{answer_of};
ghost use Rattle.journal.specs.Reasons.{number_of, place_of};
ghost use Rattle.c_answers.specs.Results.{result_of, answer_with};

use journal::Reason;

// Hands over a refusal: its number as the result, its place in `answer`.
pub fn refuse(why: Reason, answer: &mut u64) -> u32
    ensures number { result ≡ number_of why }
    ensures place { answer.new ≡ place_of why }
{
    *answer = why.place();
    why.number()
}

// Hands over an answer: 0 as the result and the value in `answer`, or the refusal.
pub fn hand_over(outcome: Result<u64, Reason>, answer: &mut u64) -> u32
    ensures result { result ≡ result_of (answer_of (λ n. n) outcome) }
    ensures answer { answer.new ≡ answer_with (λ n. n) (answer_of (λ n. n) outcome) }
{
    match outcome {
        Ok(value) => {
            *answer = value;
            0
        }
        Err(why) => refuse(why, answer),
    }
}
