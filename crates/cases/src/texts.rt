use lines::read_line;
use refusals::Fault;
use std::io;

// Lines, and texts that are none.
const TEXTS: [&str; 39] = [
    "t s",
    "t o",
    "t x",
    "t",
    "c",
    "c 1 1 1 1 1 1 1 1 1 1 1 1 1 1 1 1 1 1 1",
    "c 10 1 1 1 1 1 1 1 1 1 1 1 1 1 1 1 1 1 1",
    "c 10 10 1 1 1 1 1 1 1 1 1 1 1 1 1 1 1 1 1",
    "r 1",
    "r",
    "r 1 2 3",
    "g 9999",
    "g 10000",
    "g 0",
    "g 00",
    "g 01",
    "g 1 2",
    "l 1 2",
    "l 1",
    "n 1",
    "x 1",
    "i 1 2 3",
    "e 1 2 3",
    "d 1 2 3",
    "h 1 2 3",
    "q 1 2 3",
    "q 1 2",
    "p 1 2",
    "z",
    "o",
    "z 1",
    "Z",
    "C 1",
    "q  1 2 3",
    "q 1 2 3 ",
    " z",
    "q 1 -2 3",
    "b 00000 00000",
    "",
];

fn say_bytes(rt: &HostRuntime, name: &str, bytes: &[u8]) -> io::Result<()> {
    match read_line(bytes) {
        Ok(_) => println!(rt; "{name}: read"),
        Err(fault) => {
            let number = fault.number();
            println!(rt; "{name}: {number}")
        }
    }
}

fn say_texts(rt: &HostRuntime, texts: &[&str]) -> io::Result<()> {
    for text in texts {
        say_bytes(rt, text, text.as_bytes())?;
    }
    Ok(())
}

// Which bytes are a line.
pub fn text_cases(rt: &HostRuntime) -> io::Result<()> {
    say_texts(rt, &TEXTS)?;
    say_bytes(rt, "z and CR", b"z\r")?;
    say_bytes(rt, "g, tab, 1", b"g\t1")?;
    say_bytes(rt, "z and NUL", b"z\0")?;
    say_bytes(rt, "z and LF", b"z\n")?;
    say_bytes(rt, "byte 250", b"\xfa")
}
