// A tour of the engine: small matrices in each kind, each call with its result in words.
#![tactic(auto)]

mod reads;
mod runs;
mod schemes;
mod shows;
mod stories;

use grant_list::GrantList;
use grid::Grid;
use matrix::{Grant, MemoryFault};
use reads::line_story;
use runs::step_story;
use scheme::Scheme;
use schemes::scheme_story;
use shows::tell;
use std::io;
use stories::{register_story, trial_story};

fn main(rt: HostRuntime) -> io::Result<()> {
    println!(rt; "Who holds which right in what: a tour of the engine.")?;
    println!(rt;
        "Places: 1 a publisher (type 1), 2 an agent (type 2), 3 a bar (type 3), 4 a title (type 4)."
    )?;
    println!(rt;
        "Rights: 1 owns, 2 sells, 3 plays. A cell shows the rights that its row holds in its column."
    )?;
    memory_story(&rt)?;
    grid_story(&rt)?;
    list_story(&rt)?;
    travel_story(&rt)?;
    println!(rt)?;
    println!(rt; "== Lines of a lot file ==")?;
    line_story(&rt)
}

// A grant from its three numbers.
pub fn grant(right: u16, row: u16, column: u16) -> Grant {
    Grant { right, row, column }
}

// Which memory serves for which register.
fn memory_story(rt: &HostRuntime) -> io::Result<()> {
    println!(rt)?;
    println!(rt; "== Memory for a register ==")?;
    serves(rt, "a grid of 4 places in 16 cells", Grid::check(4, 16))?;
    serves(rt, "a grid of 4 places in 15 cells", Grid::check(4, 15))?;
    serves(
        rt,
        "a grid of 129 places in 20000 cells",
        Grid::check(129, 20000),
    )?;
    serves(
        rt,
        "a grant list of 4 places in 3 records",
        GrantList::check(4, 3),
    )?;
    serves(
        rt,
        "a grant list of 4 places in 4097 records",
        GrantList::check(4, 4097),
    )
}

fn serves(rt: &HostRuntime, memory: &str, told: Result<(), MemoryFault>) -> io::Result<()> {
    tell(rt, memory, "it serves", told)
}

fn grid_story(rt: &HostRuntime) -> io::Result<()> {
    println!(rt)?;
    println!(rt; "== A grid of 4 places, in memory full of old numbers ==")?;
    let mut cells = [0xffff_ffffu32; 16];
    let mut grid = Grid::open(&mut cells, 4);
    register_story(rt, &mut grid)?;
    println!(rt)?;
    println!(rt; "== A trial over the grid ==")?;
    trial_story(rt, grid)
}

fn list_story(rt: &HostRuntime) -> io::Result<()> {
    println!(rt)?;
    println!(rt; "== A grant list of 4 places and 3 records, in memory full of old records ==")?;
    let mut records = [grant(3, 3, 4); 3];
    let mut list = GrantList::open(&mut records, 4);
    register_story(rt, &mut list)?;
    println!(rt)?;
    println!(rt; "== A trial over the grant list ==")?;
    trial_story(rt, list)
}

// A scheme, and its steps on each kind of register.
fn travel_story(rt: &HostRuntime) -> io::Result<()> {
    println!(rt)?;
    println!(rt; "== A scheme: how rights may travel ==")?;
    let mut scheme = Scheme::smallest();
    scheme_story(rt, &mut scheme)?;
    println!(rt)?;
    println!(rt; "== Its steps on a grid ==")?;
    let mut cells = [0u32; 16];
    step_story(rt, &scheme, Grid::open(&mut cells, 4))?;
    println!(rt)?;
    println!(rt; "== Its steps on a grant list of 2 records ==")?;
    let mut records = [grant(0, 0, 0); 2];
    step_story(rt, &scheme, GrantList::open(&mut records, 4))
}
