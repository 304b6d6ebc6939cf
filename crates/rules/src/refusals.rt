// A refusal and its number.
ghost use Rattle.std.specs.Prelude.{◌≡◌};
ghost use Rattle.rules.specs.Answers.{refusal_number, refusal_numbered};

use crate::Refusal;

impl Refusal {
    // The number that C and a listing have for it.
    pub fn number(self) -> u32
        ensures { result ≡ refusal_number self }
    {
        self as u32
    }

    // The refusal that has a number, 21 to 33.
    pub fn numbered(number: u32) -> Refusal
        ensures { result ≡ refusal_numbered number }
    {
        match number {
            21 => Refusal::TooFewWords,
            22 => Refusal::OffLimits,
            23 => Refusal::NotFit,
            24 => Refusal::NoSuchWorker,
            25 => Refusal::WorkerBusy,
            26 => Refusal::WorkerIdle,
            27 => Refusal::StepsSpent,
            28 => Refusal::FileCut,
            29 => Refusal::BadWord,
            30 => Refusal::OverBound,
            31 => Refusal::WrongEdition,
            32 => Refusal::OffSize,
            _ => Refusal::Excepted,
        }
    }
}
