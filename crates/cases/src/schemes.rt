use crate::bench::Desk;
use std::io;

// One subject type, one pure object type.
const TYPES: [&str; 2] = ["t s", "t o"];

fn write_often(rt: &HostRuntime, desk: &mut Desk, times: u16, texts: &[&str]) -> io::Result<()> {
    for _ in 0..times {
        desk.write_all(rt, texts)?;
    }
    Ok(())
}

// A case: the two types, first lines, the next ones so many times, and last lines.
fn case(
    rt: &HostRuntime,
    name: &str,
    first: &[&str],
    times: u16,
    repeated: &[&str],
    last: &[&str],
) -> io::Result<()> {
    let mut desk = Desk::new();
    print!(rt; "{name}:")?;
    desk.write_all(rt, &TYPES)?;
    desk.write_all(rt, first)?;
    write_often(rt, &mut desk, times, repeated)?;
    desk.write_all(rt, last)?;
    println!(rt)
}

fn counts(rt: &HostRuntime) -> io::Result<()> {
    case(rt, "16 types", &[], 14, &["t s"], &["c 16"])?;
    case(rt, "17 types", &[], 15, &["t s"], &["c 16"])?;
    case(rt, "32 commands", &[], 32, &["c 1", "x 1"], &["g 1"])?;
    case(rt, "33 commands", &[], 32, &["c 1", "x 1"], &["c 1", "g 1"])?;
    case(rt, "6 tests", &["c 1"], 6, &["i 1 1 1"], &["x 1", "g 1"])?;
    case(rt, "7 tests", &["c 1"], 7, &["i 1 1 1"], &["x 1", "g 1"])?;
    case(rt, "6 operations", &["c 1"], 6, &["e 1 1 1"], &["g 1"])?;
    case(rt, "7 operations", &["c 1"], 7, &["e 1 1 1"], &["g 1"])?;
    case(rt, "4 parameters", &["c 1 2 1 2"], 0, &[], &["e 1 1 4"])?;
    case(rt, "5 parameters", &["c 1 2 1 2 1"], 0, &[], &["g 1"])?;
    case(rt, "no parameter", &["c"], 0, &[], &["g 1"])
}

fn ranges(rt: &HostRuntime) -> io::Result<()> {
    case(
        rt,
        "types of a command",
        &["c 2", "c 3", "c 0"],
        0,
        &[],
        &[],
    )?;
    case(
        rt,
        "rights",
        &["c 1"],
        0,
        &[],
        &["e 32 1 1", "e 33 1 1", "e 0 1 1"],
    )?;
    case(
        rt,
        "parameters",
        &["c 1 2"],
        0,
        &[],
        &["e 1 1 2", "e 1 1 3", "e 1 0 1", "n 3", "x 3"],
    )?;
    case(
        rt,
        "row a pure object",
        &["c 1 2"],
        0,
        &[],
        &["i 1 2 1", "e 1 2 1", "d 1 2 1"],
    )
}

fn creations(rt: &HostRuntime) -> io::Result<()> {
    case(
        rt,
        "test after an operation",
        &["c 1", "e 1 1 1", "i 1 1 1"],
        0,
        &[],
        &[],
    )?;
    case(
        rt,
        "create after a test",
        &["c 1 2", "i 1 1 2", "n 2", "n 1"],
        0,
        &[],
        &[],
    )?;
    case(
        rt,
        "create after an enter",
        &["c 1 2", "e 1 1 2", "n 2"],
        0,
        &[],
        &[],
    )?;
    case(rt, "create twice", &["c 1", "n 1", "n 1"], 0, &[], &[])?;
    case(
        rt,
        "create then destroy",
        &["c 1", "n 1", "x 1"],
        0,
        &[],
        &[],
    )
}

fn destructions(rt: &HostRuntime) -> io::Result<()> {
    case(rt, "destroy twice", &["c 1", "x 1", "x 1"], 0, &[], &[])?;
    case(
        rt,
        "enter after destroy",
        &["c 1 2", "x 2", "e 1 1 2", "e 1 1 1"],
        0,
        &[],
        &[],
    )?;
    case(
        rt,
        "delete after destroy",
        &["c 1 2", "x 1", "d 1 1 2"],
        0,
        &[],
        &[],
    )
}

fn unfinished(rt: &HostRuntime) -> io::Result<()> {
    case(
        rt,
        "before any command",
        &["i 1 9 9", "e 33 1 1", "n 9", "x 9"],
        0,
        &[],
        &[],
    )?;
    case(
        rt,
        "no operations",
        &["c 1", "c 1", "g 1"],
        0,
        &[],
        &["x 1", "g 1"],
    )?;
    case(rt, "no command", &["g 1"], 0, &[], &[])
}

// Two grounds in one call of a command: the smaller number is given.
fn pairs_of_commands(rt: &HostRuntime) -> io::Result<()> {
    case(
        rt,
        "1 and 2: 5 parameters, one undeclared",
        &["c 1 1 1 1 3"],
        0,
        &[],
        &[],
    )?;
    case(
        rt,
        "1 and 4: 5 parameters, an empty command",
        &["c 1", "c 1 1 1 1 1"],
        0,
        &[],
        &[],
    )?;
    case(
        rt,
        "2 and 4: undeclared, an empty command",
        &["c 1", "c 3"],
        0,
        &[],
        &[],
    )
}

// Two grounds in one line.
fn pairs_of_lines(rt: &HostRuntime) -> io::Result<()> {
    case(
        rt,
        "1 and 2: 7th operation, right 33",
        &["c 1"],
        6,
        &["e 1 1 1"],
        &["e 33 1 1"],
    )?;
    case(
        rt,
        "1 and 3: 7th operation, created late",
        &["c 1"],
        6,
        &["e 1 1 1"],
        &["n 1"],
    )?;
    case(
        rt,
        "2 and 3: late test, right 0",
        &["c 1", "x 1"],
        0,
        &[],
        &["i 0 1 1"],
    )?;
    case(
        rt,
        "1 and 3: late 7th test",
        &["c 1"],
        6,
        &["i 1 1 1"],
        &["x 1", "i 1 1 1"],
    )
}

// What the writer accepts, and with which number it refuses.
pub fn scheme_cases(rt: &HostRuntime) -> io::Result<()> {
    counts(rt)?;
    ranges(rt)?;
    creations(rt)?;
    destructions(rt)?;
    unfinished(rt)?;
    pairs_of_commands(rt)?;
    pairs_of_lines(rt)
}
