use matrix::{Grant, Matrix};
use refusals::Fault;
use std::{fmt, io};

// A call, and what became of it: the word for done, or the refusal.
pub fn tell<F: Fault + fmt::Display>(
    rt: &HostRuntime,
    call: impl fmt::Display + Drop,
    done: &str,
    told: Result<(), F>,
) -> io::Result<()> {
    match told {
        Ok(()) => println!(rt; "{call}: {done}"),
        Err(fault) => {
            let number = fault.number();
            println!(rt; "{call}: refused with {number}: {fault}")
        }
    }
}

pub fn say<F: Fault + fmt::Display>(
    rt: &HostRuntime,
    call: impl fmt::Display + Drop,
    told: Result<(), F>,
) -> io::Result<()> {
    tell(rt, call, "done", told)
}

fn show_type<M: Matrix>(rt: &HostRuntime, matrix: &M, place: u16) -> io::Result<()> {
    match matrix.type_of(place) {
        Some(kind) => print!(rt; "   {place} is {kind}"),
        None => print!(rt; "  {place} empty"),
    }
}

// The rights 1 to 4 that one cell holds, each at its own column.
fn show_cell<M: Matrix>(rt: &HostRuntime, matrix: &M, row: u16, column: u16) -> io::Result<()> {
    print!(rt; "     ")?;
    for right in 1..5u16 {
        if matrix.is_held(Grant { right, row, column }) {
            print!(rt; "{right}")?;
        } else {
            print!(rt; ".")?;
        }
    }
    Ok(())
}

fn show_row<M: Matrix>(rt: &HostRuntime, matrix: &M, row: u16) -> io::Result<()> {
    print!(rt; "    place {row}")?;
    for column in 1..5u16 {
        show_cell(rt, matrix, row, column)?;
    }
    println!(rt)
}

fn show_types<M: Matrix>(rt: &HostRuntime, matrix: &M) -> io::Result<()> {
    print!(rt; "           ")?;
    for place in 1..5u16 {
        show_type(rt, matrix, place)?;
    }
    println!(rt)
}

// The first four places as a table, with the room that is left.
pub fn show_matrix<M: Matrix>(rt: &HostRuntime, matrix: &M) -> io::Result<()> {
    show_types(rt, matrix)?;
    for row in 1..5u16 {
        show_row(rt, matrix, row)?;
    }
    let places = matrix.places();
    let room = matrix.room();
    println!(rt; "    {places} places, room for {room} more")
}
