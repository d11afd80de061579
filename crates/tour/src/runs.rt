use crate::grant;
use crate::shows::{say, show_matrix};
use matrix::{Matrix, Register};
use refusals::{Fault, FirstRefusal};
use scheme::Scheme;
use std::io;
use step::{Step, StepFault, enter_step, run_step, run_steps};
use trial::Trial;

fn say_step(
    rt: &HostRuntime,
    number: u16,
    places: &[u16],
    told: Result<(), StepFault>,
) -> io::Result<()> {
    say(
        rt,
        format_args!("command {number} at places {places:?}"),
        told,
    )
}

fn on_register<R: Register>(
    rt: &HostRuntime,
    scheme: &Scheme,
    register: &mut R,
    number: u16,
    places: &[u16],
) -> io::Result<()> {
    let result = run_step(scheme, register, number, places);
    say_step(rt, number, places, result)
}

fn on_matrix<M: Matrix>(
    rt: &HostRuntime,
    scheme: &Scheme,
    matrix: &mut M,
    number: u16,
    places: &[u16],
) -> io::Result<()> {
    let result = enter_step(scheme, matrix, number, places);
    say_step(rt, number, places, result)
}

fn fill<R: Register>(register: &mut R) {
    for place in 1..5u16 {
        let _ = register.create(place, place);
    }
    let _ = register.enter(grant(1, 1, 4));
}

// A list of steps, up to the first that is refused.
fn list_of_steps<R: Register>(
    rt: &HostRuntime,
    scheme: &Scheme,
    register: &mut R,
) -> io::Result<()> {
    let steps = [
        Step::new(2, &[2, 3, 4]),
        Step::new(3, &[1, 3, 4]),
        Step::new(3, &[1, 3]),
    ];
    match run_steps(scheme, register, &steps) {
        Ok(()) => println!(rt; "a list of 3 steps: all done"),
        Err(FirstRefusal { position, fault }) => {
            let number = fault.number();
            println!(rt; "a list of 3 steps: {position} done, then refused with {number}")
        }
    }
}

// Runs steps of the scheme on a register, and on a trial over it.
pub fn step_story<R: Register + Drop>(
    rt: &HostRuntime,
    scheme: &Scheme,
    mut register: R,
) -> io::Result<()> {
    fill(&mut register);
    on_register(rt, scheme, &mut register, 2, &[2, 3, 4])?;
    on_register(rt, scheme, &mut register, 1, &[1, 2, 4])?;
    on_register(rt, scheme, &mut register, 1, &[1, 1, 4])?;
    on_register(rt, scheme, &mut register, 1, &[1, 2])?;
    on_register(rt, scheme, &mut register, 9, &[1, 2, 4])?;
    on_register(rt, scheme, &mut register, 2, &[2, 3, 4])?;
    show_matrix(rt, &register)?;
    list_of_steps(rt, scheme, &mut register)?;
    println!(rt; "on a trial over it:")?;
    let mut trial = Trial::new(register);
    on_matrix(rt, scheme, &mut trial, 2, &[2, 3, 4])?;
    on_matrix(rt, scheme, &mut trial, 3, &[1, 3, 4])?;
    show_matrix(rt, &trial)
}
