use crate::grant;
use crate::shows::{say, show_matrix};
use matrix::{Grant, Matrix, Register, enter_all};
use refusals::{Fault, FirstRefusal};
use std::io;
use trial::Trial;

fn enter<M: Matrix>(rt: &HostRuntime, matrix: &mut M, grant: Grant) -> io::Result<()> {
    say(rt, format_args!("enter {grant}"), matrix.enter(grant))
}

fn delete<R: Register>(rt: &HostRuntime, register: &mut R, grant: Grant) -> io::Result<()> {
    say(rt, format_args!("delete {grant}"), register.delete(grant))
}

fn create<R: Register>(
    rt: &HostRuntime,
    register: &mut R,
    place: u16,
    kind: u16,
) -> io::Result<()> {
    say(
        rt,
        format_args!("create place {place} with type {kind}"),
        register.create(place, kind),
    )
}

fn destroy<R: Register>(rt: &HostRuntime, register: &mut R, place: u16) -> io::Result<()> {
    say(
        rt,
        format_args!("destroy place {place}"),
        register.destroy(place),
    )
}

// Enters grants one after the other, and tells the first that is refused.
fn enter_list<M: Matrix>(rt: &HostRuntime, matrix: &mut M, grants: &[Grant]) -> io::Result<()> {
    let count = grants.len();
    print!(rt; "enter a list of {count} grants: ")?;
    match enter_all(matrix, grants) {
        Ok(()) => println!(rt; "all done"),
        Err(FirstRefusal { position, fault }) => {
            let number = fault.number();
            println!(rt; "{position} done, then refused with {number}: {fault}")
        }
    }
}

// Fills places, enters, deletes, creates and destroys, with some refusals on the way.
pub fn register_story<R: Register>(rt: &HostRuntime, register: &mut R) -> io::Result<()> {
    show_matrix(rt, register)?;
    create(rt, register, 1, 1)?;
    create(rt, register, 2, 2)?;
    create(rt, register, 4, 4)?;
    create(rt, register, 5, 4)?;
    create(rt, register, 4, 17)?;
    create(rt, register, 4, 4)?;
    enter(rt, register, grant(1, 1, 4))?;
    enter(rt, register, grant(1, 1, 4))?;
    enter(rt, register, grant(33, 1, 4))?;
    enter(rt, register, grant(3, 3, 4))?;
    change_story(rt, register)
}

fn change_story<R: Register>(rt: &HostRuntime, register: &mut R) -> io::Result<()> {
    create(rt, register, 3, 3)?;
    let sales = [grant(2, 1, 2), grant(2, 2, 4), grant(3, 3, 4)];
    enter_list(rt, register, &sales)?;
    show_matrix(rt, register)?;
    delete(rt, register, grant(2, 1, 2))?;
    delete(rt, register, grant(2, 1, 2))?;
    enter(rt, register, grant(2, 2, 2))?;
    show_matrix(rt, register)?;
    destroy(rt, register, 2)?;
    destroy(rt, register, 2)?;
    show_matrix(rt, register)?;
    create(rt, register, 2, 2)
}

// Lays a trial over a matrix, and a trial over that one; what stands below stays as it is.
pub fn trial_story<M: Matrix + Drop>(rt: &HostRuntime, below: M) -> io::Result<()> {
    let mut trial = Trial::new(below);
    show_matrix(rt, &trial)?;
    enter(rt, &mut trial, grant(1, 1, 4))?;
    let plays = [grant(3, 3, 4), grant(2, 3, 4), grant(4, 3, 5)];
    enter_list(rt, &mut trial, &plays)?;
    show_matrix(rt, &trial)?;
    println!(rt; "a second trial over the first:")?;
    let mut second = Trial::new(trial);
    enter(rt, &mut second, grant(4, 1, 3))?;
    show_matrix(rt, &second)?;
    println!(rt; "the first trial, as it was, and then emptied:")?;
    let mut trial = second.into_below();
    show_matrix(rt, &trial)?;
    trial.clear();
    show_matrix(rt, &trial)
}
