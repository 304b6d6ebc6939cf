// The number of an answer or of a refusal, and its five fields.
ghost use Rattle.std.specs.Prelude.{◌≡◌};
ghost use Rattle.rules.specs.Answers.{number_by, fields_by, final_of};

use rules::{Answer, RefusalNumber, Row, Stamp};

// The number of what a call comes to.
pub fn number<R: RefusalNumber>(a: Result<Answer, R>) -> u32
    ensures { result ≡ number_by R.number a }
{
    match a {
        Ok(Answer::Moving) => 0,
        Ok(Answer::Put { .. }) => 1,
        Ok(Answer::Taken { .. }) => 2,
        Ok(Answer::Empty) => 3,
        Ok(Answer::Full) => 4,
        Err(refusal) => refusal.number(),
    }
}

// Value, sub, row, stamp and distance; zeros where it names none.
pub fn fields<R: RefusalNumber>(a: Result<Answer, R>) -> [u32; 5]
    ensures { result ≡ fields_by a }
{
    match a {
        Ok(
            Answer::Put {
                value,
                sub,
                row,
                stamp,
            },
        ) => [value, sub, row.0, stamp.0, 0],
        Ok(
            Answer::Taken {
                value,
                sub,
                row,
                stamp,
                distance,
            },
        ) => [value, sub, row.0, stamp.0, distance],
        _ => [0; 5],
    }
}

// Writes the five fields of what a call comes to; its number.
pub fn answered<R: RefusalNumber>(a: Result<Answer, R>, five: &mut [u32; 5]) -> u32
    ensures { (result ≡ number_by R.number a) × (five.new ≡ fields_by a) }
{
    *five = fields(a);
    number(a)
}

// The final answer that has a number and five fields: any number but 1 to 3 stands for 4.
// Stays: numbers, as the one function behind all steps hands them on (crate calls).
pub fn final_answer(n: u32, five: [u32; 5]) -> Answer
    ensures { result ≡ final_of n five }
{
    let [value, sub, row, stamp, distance] = five;
    let row = Row(row);
    let stamp = Stamp(stamp);
    match n {
        1 => Answer::Put {
            value,
            sub,
            row,
            stamp,
        },
        2 => Answer::Taken {
            value,
            sub,
            row,
            stamp,
            distance,
        },
        3 => Answer::Empty,
        _ => Answer::Full,
    }
}
