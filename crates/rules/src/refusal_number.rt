// What stands for a refusal where nothing but its number is asked for: a refusal, or any number, also one that no refusal has.
ghost use Rattle.std.specs.Prelude.{◌≡◌, ℕ};
ghost use Rattle.rules.specs.Answers.{refusal_number};

use crate::Refusal;

pub trait RefusalNumber: Copy {
    ghost number: { Self → ℕ };

    fn number(self) -> u32
        ensures { result ≡ number self };
}

impl RefusalNumber for Refusal {
    ghost number = { refusal_number };

    fn number(self) -> u32 {
        Refusal::number(self)
    }
}

impl RefusalNumber for u32 {
    ghost number = { λ n. n };

    fn number(self) -> u32 {
        self
    }
}
