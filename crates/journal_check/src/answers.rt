//! Answers compared.

ghost use Rattle.std.specs.Prelude.{◌≡◌, ◌↔◌, IsTrue};
ghost use Rattle.tty_calls.specs.Plain.{answer_lent};

use tty_calls::AnswerRef;

/// Whether two answers are the same.
pub(crate) fn is_same(one: &AnswerRef, other: &AnswerRef) -> bool
    ensures { IsTrue result ↔ (answer_lent one.now ≡ answer_lent other.now) }
{
    match *one {
        AnswerRef::Done => match *other {
            AnswerRef::Done => true,
            _ => false,
        },
        AnswerRef::Count(count) => match *other {
            AnswerRef::Count(number) => count == number,
            _ => false,
        },
        AnswerRef::Got(bytes) => match *other {
            AnswerRef::Got(others) => bytes == others,
            _ => false,
        },
        AnswerRef::Number(number) => match *other {
            AnswerRef::Number(count) => number == count,
            _ => false,
        },
        AnswerRef::ModesAre(modes) => match *other {
            AnswerRef::ModesAre(others) => modes == others,
            _ => false,
        },
        AnswerRef::CountsAre(counts) => match *other {
            AnswerRef::CountsAre(others) => *counts == *others,
            _ => false,
        },
        AnswerRef::Refused(errno) => match *other {
            AnswerRef::Refused(cause) => errno == cause,
            _ => false,
        },
        AnswerRef::Idle => match *other {
            AnswerRef::Idle => true,
            _ => false,
        },
    }
}
