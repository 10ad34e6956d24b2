// How the answers of the calls cross to C and Rust: each as its numbers.
#![tactic(auto)]

ghost use Rattle.std.specs.Prelude.{◌≡◌};
ghost use Rattle.pywr.specs.Answers.{number_of, place_of, row_number_of, row_place_of};
ghost use Rattle.pywr_c_answers.specs.Crossing.{picked, Rises, part_start, part_length};

use pywr::{Answer, RowAnswer, Sentinel};

// An answer's number and place: 0 and 0 where it is accepted.
#[repr(C)]
#[derive(Clone, Copy)]
pub struct Refusal {
    pub number: u64,
    pub place: u64,
}

impl From<Answer> for Refusal {
    ghost from_gives = { λ answer r. (r.number ≡ number_of answer) × (r.place ≡ place_of answer) };

    #[tactic(auto, unfolding(pywr::specs::Answers::number_of, pywr::specs::Answers::place_of))]
    fn from(answer: Answer) -> Refusal {
        match answer {
            Ok(()) => Refusal {
                number: 0,
                place: 0,
            },
            Err(refusal) => Refusal {
                number: u64::from(refusal.number),
                place: refusal.place as u64,
            },
        }
    }
}

// An answer for a row: number and place, and the part of the column run, empty where the row is refused.
#[repr(C)]
#[derive(Clone, Copy)]
pub struct RowPart {
    pub number: u64,
    pub place: u64,
    pub start: u64,
    pub length: u64,
}

pub fn sentinel(infinite: bool) -> Sentinel
    ensures { result ≡ picked infinite }
{
    if infinite {
        Sentinel::Infinity
    } else {
        Sentinel::Largest
    }
}

#[tactic(auto, unfolding(pywr::specs::Answers::row_number_of, pywr::specs::Answers::row_place_of, crate::specs::Crossing::part_start, crate::specs::Crossing::part_length))]
pub fn part_of(answer: RowAnswer) -> RowPart
    requires { Rises answer }
    ensures { (result.number ≡ row_number_of answer) × (result.place ≡ row_place_of answer) × (result.start ≡ part_start answer) × (result.length ≡ part_length answer) }
{
    match answer {
        Ok((start, end)) => RowPart {
            number: 0,
            place: 0,
            start: start as u64,
            length: (end - start) as u64,
        },
        Err(refusal) => RowPart {
            number: u64::from(refusal.number),
            place: refusal.place as u64,
            start: 0,
            length: 0,
        },
    }
}
