// What is asked of a worker, and what stands for it.
ghost use Rattle.std.specs.Prelude.{◌≡◌};
ghost use Rattle.calls.specs.Asking.{checked_asked, asked_numbered, number_unchecked};
ghost use Rattle.calls.specs.declared.asked.Asked.{Asked};
ghost use Rattle.calls.specs.declared.asked.Asked.TheVariants.{CheckedStep};

// To begin a put or a take, a step, or a step of a pool that is known to be fit.
#[derive(Clone, Copy, Debug, PartialEq, Eq)]
pub enum Asked {
    Put,
    Take,
    Step,
    CheckedStep,
}

impl Asked {
    // What is asked by a number: each from 2 on asks for a step.
    pub fn numbered(number: u32) -> Asked
        ensures { result ≡ asked_numbered number }
    {
        match number {
            0 => Asked::Put,
            1 => Asked::Take,
            3 => Asked::CheckedStep,
            _ => Asked::Step,
        }
    }
}

// What stands for what is asked: itself, or any number. `unchecked` says which of it asks for a step that goes without the check.
pub trait Asks: Copy {
    ghost asked: { Self → Asked };

    ghost unchecked: { Self → Type 0 };

    fn asked(self) -> Asked
        ensures { result ≡ asked self };

    ghost only_unchecked: { (what : Self) → asked what ≡ CheckedStep → unchecked what };
}

impl Asks for Asked {
    ghost asked = { λ what. what };

    ghost unchecked = { λ what. what ≡ CheckedStep };

    fn asked(self) -> Asked {
        self
    }

    ghost only_unchecked = { λ what e. e };
}

impl Asks for u32 {
    ghost asked = { asked_numbered };

    ghost unchecked = { λ what. what ≡ checked_asked };

    fn asked(self) -> Asked {
        Asked::numbered(self)
    }

    ghost only_unchecked = { number_unchecked };
}
