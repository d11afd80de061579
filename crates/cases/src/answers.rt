use lines::LineFault;
use matrix::MatrixFault;
use refusals::Fault;
use scheme::SchemeFault;
use std::{fmt, io};
use step::StepFault;

// What a line of a case is answered that is not refused.
#[derive(Clone, Copy)]
pub enum Reply {
    Done,
    Held(bool),
    // the line has no meaning in this kind of case
    Foreign,
}

impl fmt::Display for Reply {
    fn fmt<W: fmt::Write>(&self, f: &mut fmt::Formatter<W>) -> fmt::Result {
        f.write_str(match self {
            Reply::Done => ".",
            Reply::Held(true) => "held",
            Reply::Held(false) => "free",
            Reply::Foreign => "?",
        })
    }
}

// Why a line of a case is refused: the fault of its text, or of the call that it makes.
#[derive(Clone, Copy, PartialEq, Eq, Debug)]
pub enum Refusal {
    Line(LineFault),
    Scheme(SchemeFault),
    Matrix(MatrixFault),
    Step(StepFault),
}

impl Refusal {
    // The number that a user sees.
    fn number(self) -> u16 {
        match self {
            Refusal::Line(fault) => fault.number(),
            Refusal::Scheme(fault) => fault.number(),
            Refusal::Matrix(fault) => fault.number(),
            Refusal::Step(fault) => fault.number(),
        }
    }
}

impl From<LineFault> for Refusal {
    fn from(fault: LineFault) -> Refusal {
        Refusal::Line(fault)
    }
}

impl From<SchemeFault> for Refusal {
    fn from(fault: SchemeFault) -> Refusal {
        Refusal::Scheme(fault)
    }
}

impl From<MatrixFault> for Refusal {
    fn from(fault: MatrixFault) -> Refusal {
        Refusal::Matrix(fault)
    }
}

impl From<StepFault> for Refusal {
    fn from(fault: StepFault) -> Refusal {
        Refusal::Step(fault)
    }
}

pub type Answer = Result<Reply, Refusal>;

// One answer: the reply in short, or the number of the refusal.
pub fn show_answer(rt: &HostRuntime, answer: Answer) -> io::Result<()> {
    match answer {
        Ok(reply) => print!(rt; " {reply}"),
        Err(refusal) => {
            let number = refusal.number();
            print!(rt; " {number}")
        }
    }
}
