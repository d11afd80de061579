use lines::read_line;
use refusals::Fault;
use std::io;

fn say_line(rt: &HostRuntime, text: &str) -> io::Result<()> {
    match read_line(text.as_bytes()) {
        Ok(line) => {
            let kind = line.kind();
            println!(rt; "`{text}` {kind}")
        }
        Err(fault) => {
            let number = fault.number();
            println!(rt; "`{text}` is refused with {number}: {fault}")
        }
    }
}

// Some lines of a lot file, and some texts that are none.
pub fn line_story(rt: &HostRuntime) -> io::Result<()> {
    say_line(rt, "t s")?;
    say_line(rt, "c 1 2 4")?;
    say_line(rt, "i 1 1 3")?;
    say_line(rt, "g 4")?;
    say_line(rt, "l 4 9999")?;
    say_line(rt, "l 4 10000")?;
    say_line(rt, "h 1 1 4")?;
    say_line(rt, "q 3 3 4")?;
    say_line(rt, "q 3 3")?;
    say_line(rt, "q 3  3 4")?;
    say_line(rt, "q 3 03 4")?;
    say_line(rt, "Q 3 3 4")?;
    say_line(rt, "r 1")?;
    say_line(rt, "r")
}
