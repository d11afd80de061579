use crate::shows::say;
use scheme::{Cell, Command, Scheme, SchemeWriter, TypeKind};
use std::io;

// A cell from its three numbers.
fn cell(right: u16, row: u16, column: u16) -> Cell {
    Cell { right, row, column }
}

fn test_cell(rt: &HostRuntime, writer: &mut SchemeWriter, cell: Cell) -> io::Result<()> {
    say(rt, format_args!("  test {cell}"), writer.add_test(cell))
}

fn enter_cell(rt: &HostRuntime, writer: &mut SchemeWriter, cell: Cell) -> io::Result<()> {
    say(rt, format_args!("  enter {cell}"), writer.add_enter(cell))
}

fn delete_cell(rt: &HostRuntime, writer: &mut SchemeWriter, cell: Cell) -> io::Result<()> {
    say(rt, format_args!("  delete {cell}"), writer.add_delete(cell))
}

// Types 1 to 3 are subjects, type 4 is a pure object.
fn write_types(rt: &HostRuntime, writer: &mut SchemeWriter) -> io::Result<()> {
    say(
        rt,
        "declare type 1, a subject (publisher)",
        writer.declare_type(TypeKind::Subject),
    )?;
    say(
        rt,
        "declare type 2, a subject (agent)",
        writer.declare_type(TypeKind::Subject),
    )?;
    say(
        rt,
        "declare type 3, a subject (bar)",
        writer.declare_type(TypeKind::Subject),
    )?;
    say(
        rt,
        "declare type 4, a pure object (title)",
        writer.declare_type(TypeKind::Object),
    )
}

// Who owns a title lets an agent sell it.
fn write_selling(rt: &HostRuntime, writer: &mut SchemeWriter) -> io::Result<()> {
    say(
        rt,
        "open a command over types 1 2 4",
        writer.open_command(&[1, 2, 4]),
    )?;
    test_cell(rt, writer, cell(1, 1, 3))?;
    enter_cell(rt, writer, cell(2, 2, 3))?;
    test_cell(rt, writer, cell(1, 2, 3))
}

// An agent who sells it lets a bar play it.
fn write_playing(rt: &HostRuntime, writer: &mut SchemeWriter) -> io::Result<()> {
    say(
        rt,
        "open a command over types 2 3 4",
        writer.open_command(&[2, 3, 4]),
    )?;
    test_cell(rt, writer, cell(2, 1, 3))?;
    enter_cell(rt, writer, cell(3, 3, 2))?;
    enter_cell(rt, writer, cell(3, 2, 3))
}

// Who owns it takes that back; the operation comes later.
fn write_taking_back(rt: &HostRuntime, writer: &mut SchemeWriter) -> io::Result<()> {
    say(
        rt,
        "open a command over types 1 2 3 4 4",
        writer.open_command(&[1, 2, 3, 4, 4]),
    )?;
    say(
        rt,
        "open a command over types 1 3 4",
        writer.open_command(&[1, 3, 4]),
    )?;
    test_cell(rt, writer, cell(1, 1, 3))
}

fn show_tests(rt: &HostRuntime, command: &Command) -> io::Result<()> {
    for test in command.tests() {
        println!(rt; "    test {test}")?;
    }
    Ok(())
}

fn show_operations(rt: &HostRuntime, command: &Command) -> io::Result<()> {
    for operation in command.operations() {
        println!(rt; "    {operation}")?;
    }
    Ok(())
}

fn show_command(rt: &HostRuntime, scheme: &Scheme, number: u16) -> io::Result<()> {
    let Some(command) = scheme.command(number) else {
        return Ok(());
    };
    let formals = command.formals();
    println!(rt; "  command {number} over types {formals:?}")?;
    show_tests(rt, command)?;
    show_operations(rt, command)
}

fn show_scheme(rt: &HostRuntime, scheme: &Scheme) -> io::Result<()> {
    let types = scheme.types();
    let commands = scheme.commands();
    println!(rt; "the scheme: {types} types, {commands} commands")?;
    for number in 1..=commands {
        show_command(rt, scheme, number)?;
    }
    if scheme.only_grants() {
        println!(rt; "  it only grants")
    } else {
        println!(rt; "  it does more than grant")
    }
}

// Writes a scheme line by line, with some refusals, and finishes it into the one that the caller holds.
pub fn scheme_story(rt: &HostRuntime, scheme: &mut Scheme) -> io::Result<()> {
    let mut writer = SchemeWriter::new();
    write_types(rt, &mut writer)?;
    write_selling(rt, &mut writer)?;
    write_playing(rt, &mut writer)?;
    write_taking_back(rt, &mut writer)?;
    say(rt, "finish", writer.finish(scheme))?;
    delete_cell(rt, &mut writer, cell(3, 2, 3))?;
    say(rt, "finish", writer.finish(scheme))?;
    show_scheme(rt, scheme)
}
