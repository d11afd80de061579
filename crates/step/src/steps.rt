ghost use Rattle.std.specs.Prelude.{◌≡◌, take};
ghost use Rattle.step.specs.Lists.{step_of};

use records::ArrayList;

// A command's number and its places. A command takes at most four; a fifth is kept, so that a step with too many places is told apart.
#[derive(Clone, Copy, PartialEq, Eq)]
pub struct Step {
    command: u16,
    places: ArrayList<u16, 5>,
}

impl Step {
    // A step with these places, or with the first five of them.
    pub fn new(command: u16, places: &[u16]) -> Step
        ensures { step_of result ≡ record { command = command; places = take 5 places.now } }
    {
        Step {
            command,
            places: ArrayList::first_of(places, 0),
        }
    }

    pub fn command(&self) -> u16
        ensures { result ≡ (step_of self.now).command }
    {
        self.command
    }

    pub fn places(&self) -> &[u16]
        ensures { result.now ≡ (step_of self.now).places }
    {
        self.places.as_slice()
    }
}
