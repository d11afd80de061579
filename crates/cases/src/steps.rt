use crate::bench::{Bench, Desk};
use grant_list::GrantList;
use grid::Grid;
use matrix::{Grant, Register};
use scheme::Scheme;
use std::io;

// 1: enter, no tests. 2: a holder grants further. 3: delete and enter the same right. 4: enter, delete, enter.
// 5: create, then enter. 6: destroy. 7: hand a right over. 8: three new rights. 9: two tests.
const SCHEME: [&str; 32] = [
    "t s", "t o", "c 1 2", "e 1 1 2", "c 1 1 2", "i 1 1 3", "e 2 2 3", "c 1 2", "d 1 1 2",
    "e 1 1 2", "c 1 2", "e 2 1 2", "d 2 1 2", "e 2 1 2", "c 1 1", "n 2", "e 3 1 2", "c 1", "x 1",
    "c 1 1 2", "i 1 1 3", "d 1 1 3", "e 1 2 3", "c 1 2", "e 1 1 2", "e 2 1 2", "e 3 1 2", "c 1 2",
    "i 1 1 2", "i 2 1 2", "e 3 1 2", "g 4",
];

// Places 1 and 2 are subjects, 3 is a pure object, 4 is empty.
const PLACES: [&str; 3] = ["p 1 1", "p 2 1", "p 3 2"];

fn write_scheme(rt: &HostRuntime, desk: &mut Desk) -> io::Result<()> {
    print!(rt; "the scheme:")?;
    desk.write_all(rt, &SCHEME)?;
    println!(rt)
}

fn on_register<R: Register + Drop>(
    rt: &HostRuntime,
    mut bench: Bench<R>,
    texts: &[&str],
) -> io::Result<()> {
    bench.run_all(rt, &PLACES)?;
    print!(rt; " |")?;
    bench.run_all(rt, texts)?;
    println!(rt)
}

// A case on a grid, and on grant lists of three records and of two.
fn case(rt: &HostRuntime, scheme: &Scheme, name: &str, texts: &[&str]) -> io::Result<()> {
    let none = Grant {
        right: 0,
        row: 0,
        column: 0,
    };
    let mut cells = [0u32; 16];
    let mut three = [none; 3];
    let mut two = [none; 2];
    println!(rt; "{name}")?;
    print!(rt; "  grid:")?;
    on_register(rt, Bench::new(scheme, Grid::open(&mut cells, 4)), texts)?;
    print!(rt; "  list of 3:")?;
    on_register(
        rt,
        Bench::new(scheme, GrantList::open(&mut three, 4)),
        texts,
    )?;
    print!(rt; "  list of 2:")?;
    on_register(rt, Bench::new(scheme, GrantList::open(&mut two, 4)), texts)
}

fn effects(rt: &HostRuntime, scheme: &Scheme) -> io::Result<()> {
    case(rt, scheme, "no tests", &["r 1 1 3", "q 1 1 3"])?;
    case(
        rt,
        scheme,
        "granted further",
        &["r 1 1 3", "r 2 1 2 3", "q 2 2 3", "q 2 1 3"],
    )?;
    case(
        rt,
        scheme,
        "delete then enter",
        &["h 1 1 3", "r 3 1 3", "q 1 1 3"],
    )?;
    case(rt, scheme, "enter, delete, enter", &["r 4 1 3", "q 2 1 3"])?;
    case(
        rt,
        scheme,
        "create then enter, and no place is empty",
        &["r 5 1 4", "q 3 1 4", "r 1 4 3", "q 1 4 3", "r 5 1 4"],
    )?;
    case(
        rt,
        scheme,
        "destroy row and column",
        &["r 5 1 4", "r 1 4 3", "r 6 4", "q 3 1 4", "q 1 4 3"],
    )
}

fn transfers(rt: &HostRuntime, scheme: &Scheme) -> io::Result<()> {
    case(
        rt,
        scheme,
        "handed over",
        &["h 1 1 3", "r 7 1 2 3", "q 1 1 3", "q 1 2 3"],
    )?;
    case(
        rt,
        scheme,
        "handed over when full",
        &["h 1 1 3", "h 2 1 3", "h 3 1 3", "r 7 1 2 3", "q 1 2 3"],
    )?;
    case(
        rt,
        scheme,
        "three new rights",
        &["r 8 1 3", "q 1 1 3", "q 3 1 3"],
    )?;
    case(
        rt,
        scheme,
        "two of three new",
        &["h 2 1 3", "r 8 1 3", "q 1 1 3", "q 3 1 3"],
    )
}

fn refusals(rt: &HostRuntime, scheme: &Scheme) -> io::Result<()> {
    case(rt, scheme, "no such command", &["r 0 1 3", "r 10 1 3"])?;
    case(
        rt,
        scheme,
        "wrong number of places",
        &["r 1 1", "r 1 1 3 2", "r 1"],
    )?;
    case(rt, scheme, "place out of range", &["r 1 1 5", "r 1 0 3"])?;
    case(
        rt,
        scheme,
        "repeated place",
        &["h 1 1 3", "r 2 1 1 3", "q 2 1 3"],
    )?;
    case(
        rt,
        scheme,
        "wrong type or filling",
        &["r 1 3 1", "r 1 1 4", "r 5 1 2", "r 6 4"],
    )?;
    case(
        rt,
        scheme,
        "only the second test false",
        &["h 1 1 3", "r 9 1 3", "h 2 1 3", "r 9 1 3"],
    )
}

// Two grounds in one step: the smaller number is given.
fn pairs(rt: &HostRuntime, scheme: &Scheme) -> io::Result<()> {
    case(
        rt,
        scheme,
        "count and repeated place",
        &["r 2 1 1", "r 1 5"],
    )?;
    case(rt, scheme, "repeated place and false test", &["r 2 1 1 3"])?;
    case(
        rt,
        scheme,
        "wrong type and no room",
        &["h 1 2 3", "h 2 2 3", "h 3 2 3", "r 1 3 1"],
    )?;
    case(
        rt,
        scheme,
        "false test and no room",
        &["h 2 1 3", "h 3 1 3", "h 4 1 3", "r 2 1 2 3"],
    )
}

// What steps do on each kind of register, and with which number they are refused.
pub fn step_cases(rt: &HostRuntime) -> io::Result<()> {
    let mut desk = Desk::new();
    write_scheme(rt, &mut desk)?;
    let scheme = desk.scheme();
    effects(rt, scheme)?;
    transfers(rt, scheme)?;
    refusals(rt, scheme)?;
    pairs(rt, scheme)
}
