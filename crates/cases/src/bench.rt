use crate::answers::{Answer, Reply, show_answer};
use lines::{Line, read_line};
use matrix::Register;
use scheme::{Scheme, SchemeWriter};
use std::io;
use step::run_step;

// A writer, and the scheme that it finishes.
#[derive(Drop)]
pub struct Desk {
    writer: SchemeWriter,
    scheme: Scheme,
}

impl Desk {
    pub fn new() -> Desk {
        Desk {
            writer: SchemeWriter::new(),
            scheme: Scheme::smallest(),
        }
    }

    // The scheme that was finished last, and the smallest one before that.
    pub fn scheme(&self) -> &Scheme {
        &self.scheme
    }

    fn write_line(&mut self, line: Line) -> Answer {
        match line {
            Line::Declare(kind) => self.writer.declare_type(kind)?,
            Line::Command(formals) => self.writer.open_command(formals.as_slice())?,
            Line::Test(access) => self.writer.add_test(access.into())?,
            Line::Enter(access) => self.writer.add_enter(access.into())?,
            Line::Delete(access) => self.writer.add_delete(access.into())?,
            Line::Create(parameter) => self.writer.add_create(parameter)?,
            Line::Destroy(parameter) => self.writer.add_destroy(parameter)?,
            Line::Grid(_) => self.writer.finish(&mut self.scheme)?,
            _ => return Ok(Reply::Foreign),
        }
        Ok(Reply::Done)
    }

    // A line of a scheme; a line that opens a grid finishes the scheme.
    fn write(&mut self, text: &str) -> Answer {
        let line = read_line(text.as_bytes())?;
        self.write_line(line)
    }

    // Writes lines of a scheme, and shows the answer to each.
    pub fn write_all(&mut self, rt: &HostRuntime, texts: &[&str]) -> io::Result<()> {
        for text in texts {
            show_answer(rt, self.write(text))?;
        }
        Ok(())
    }
}

// A scheme, and the register that its steps run on.
#[derive(Drop)]
pub struct Bench<'a, R> {
    scheme: &'a Scheme,
    register: R,
}

impl<'a, R: Register> Bench<'a, R> {
    pub fn new(scheme: &'a Scheme, register: R) -> Bench<'a, R> {
        Bench { scheme, register }
    }

    fn run_line(&mut self, line: Line) -> Answer {
        match line {
            Line::Place { place, type_number } => self.register.create(place, type_number)?,
            Line::Hold(access) => self.register.enter(access.into())?,
            Line::Step { command, places } => run_step(
                self.scheme,
                &mut self.register,
                command,
                places.as_slice(),
            )?,
            Line::Ask(access) => return Ok(Reply::Held(self.register.is_held(access.into()))),
            _ => return Ok(Reply::Foreign),
        }
        Ok(Reply::Done)
    }

    // A line on the register; a question asks what is held now.
    fn run(&mut self, text: &str) -> Answer {
        let line = read_line(text.as_bytes())?;
        self.run_line(line)
    }

    // Runs lines on the register, and shows the answer to each.
    pub fn run_all(&mut self, rt: &HostRuntime, texts: &[&str]) -> io::Result<()> {
        for text in texts {
            show_answer(rt, self.run(text))?;
        }
        Ok(())
    }
}
