// How calls are refused: by a fault that has a number, and in a list of calls at the first that is refused.
#![tactic(auto)]

ghost use Rattle.std.specs.Prelude.{◌≡◌, ℕ};
ghost use Rattle.refusals.specs.Refusals.{refusal_by};

// Why a call is refused.
pub trait Fault: Copy {
    ghost code: { Self → ℕ };

    // The number that a user sees.
    fn number(self) -> u16
        ensures { result ≡ code self };
}

// The number of a call's refusal, 0 where it was accepted.
pub fn refusal<X, F: Fault>(told: &Result<X, F>) -> u16
    ensures { result ≡ refusal_by F.code told.now }
{
    match told {
        Ok(_) => 0,
        Err(fault) => fault.number(),
    }
}

// The place in a list of calls, counted from 0, of the first that was refused, and why it was.
#[derive(Clone, Copy, PartialEq, Eq, Debug)]
pub struct FirstRefusal<F> {
    pub position: usize,
    pub fault: F,
}
