//! Reads scrambles and prints every shortest edge orientation on the three axes: an example of a program on the crates.
#![tactic(auto)]

ghost use Rattle.std.specs.Prelude.{◌≤◌, length};

use niss_cube::{Cube, Step};
use niss_moves::{LineText, ReadFault, put_faces, read, to_faces, unniss};
use niss_search::{Limit, Meter, Sink, Tables, TurnPath, search};
use std::io::{self, ErrorKind};

/// Prints each path that it is handed: its step, its length and its turns.
#[derive(Drop)]
struct Printer<'a> {
    rt: &'a HostRuntime,
    step: Step,
}

impl Sink for Printer<'_> {
    type Fault = io::Error;

    // what a path does to a sink; of this one nothing, since no contract sees what is printed
    ghost took = { λ old path new. Unit {0} };

    ghost refused = { λ old path new. Unit {0} };

    fn take(&mut self, path: &TurnPath) -> Result<(), io::Error> {
        let mut text = LineText::new();
        text.push(b':');
        put_faces(path.turns(), &mut text);
        let text = std::str::from_utf8(text.as_slice()).unwrap_or("");
        println!(self.rt; "{} {}{text}", self.step.name(), path.turns().len())
    }
}

/// The cube of a line: its brackets resolved, its rotations pushed to the end, its face turns made on a solved cube.
fn cube_of(line: &[u8]) -> Result<Cube, ReadFault>
    requires { length line.now ≤ 16_777_216 }
{
    let (turns, _rotation) = to_faces(&unniss(&read(line)?));
    let mut cube = Cube::solved();
    cube.apply(&turns);
    Ok(cube)
}

fn print_solutions(rt: &HostRuntime, tables: &Tables, cube: &Cube) -> io::Result<()> {
    if tables.step().may_start(cube) {
        let position = tables.position(cube);
        let mut path = TurnPath::new(Limit::new(20).unwrap());
        let mut meter = Meter::new();
        let step = tables.step();
        let mut sink = Printer { rt, step };
        let slack = Limit::ZERO;
        search(tables, &position, slack, &mut path, &mut meter, &mut sink)?;
    }
    Ok(())
}

fn main(rt: HostRuntime) -> io::Result<()> {
    let mut tables = Vec::new(rt.alloc());
    for step in [Step::Eofb, Step::Eorl, Step::Eoud] {
        let built = Tables::build(rt.alloc(), step, &mut Meter::new());
        tables.push(built.map_err(|_| io::Error::from(ErrorKind::OutOfMemory))?)?;
    }
    for line in rt.lines(rt.alloc()) {
        let line = line?;
        if line.len() > 16_777_216 {
            return Err(ErrorKind::InvalidData.into());
        }
        match cube_of(line.as_bytes()) {
            Ok(cube) => {
                for table in &tables {
                    print_solutions(&rt, table, &cube)?;
                }
            }
            Err(fault) => println!(rt; "column {}: {}", fault.column(), fault.text())?,
        }
    }
    Ok(())
}
