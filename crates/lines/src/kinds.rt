ghost use Rattle.std.specs.Prelude.{◌≡◌};
ghost use Rattle.lines.specs.Spelling.{letter_of};
ghost use Rattle.lines.specs.Found.{Found};

use std::fmt;

// What a line is, told from its letter alone.
#[derive(Clone, Copy, PartialEq, Eq, Debug)]
pub enum Kind {
    Declare,
    Command,
    Test,
    Enter,
    Delete,
    Create,
    Destroy,
    Grid,
    Grants,
    Place,
    Hold,
    Step,
    Close,
    Ask,
    Reopen,
}

impl Kind {
    // The kind whose letter this is.
    pub fn of_letter(letter: u8) -> Option<Kind>
        ensures { Found (λ k. letter_of k ≡ letter) result }
    {
        match letter as char {
            't' => Some(Kind::Declare),
            'c' => Some(Kind::Command),
            'i' => Some(Kind::Test),
            'e' => Some(Kind::Enter),
            'd' => Some(Kind::Delete),
            'n' => Some(Kind::Create),
            'x' => Some(Kind::Destroy),
            'g' => Some(Kind::Grid),
            'l' => Some(Kind::Grants),
            'p' => Some(Kind::Place),
            'h' => Some(Kind::Hold),
            'r' => Some(Kind::Step),
            'z' => Some(Kind::Close),
            'q' => Some(Kind::Ask),
            'o' => Some(Kind::Reopen),
            _ => None,
        }
    }
}

impl fmt::Display for Kind {
    ghost use Rattle.std.specs.Prelude.{Some};
    ghost use Rattle.lines.specs.Words.{kind_words};

    ghost output = { λ k. Some (kind_words k) };

    fn fmt<W: fmt::Write>(&self, f: &mut fmt::Formatter<W>) -> fmt::Result {
        f.write_str(match self {
            Kind::Declare => "declares a type",
            Kind::Command => "opens a command",
            Kind::Test => "adds a test",
            Kind::Enter => "adds an enter",
            Kind::Delete => "adds a delete",
            Kind::Create => "adds a create",
            Kind::Destroy => "adds a destroy",
            Kind::Grid => "opens a grid",
            Kind::Grants => "opens a grant list",
            Kind::Place => "fills a place",
            Kind::Hold => "enters a first right",
            Kind::Step => "runs a step",
            Kind::Close => "closes the lot",
            Kind::Ask => "asks a question",
            Kind::Reopen => "reopens the lot",
        })
    }
}
