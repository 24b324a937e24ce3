//! The examples of the crates' first pages, as they stand there: a script compares the two line by line.
ghost use Rattle.std.specs.Prelude.{◌≤◌, length};

use crate::checks::check_bytes;
use niss_cube::{Axis, Cube, OutOfMemory, Step, TurnTables};
use niss_moves::{
    Face, LineText, Power, ReadFault, Rotation, Turn, put_niss_clean, put_tokens, read, to_faces,
    unniss,
};
use niss_search::random_turns;
use rand_pcg::Lcg64Xsh32;
use std::alloc::Global;

fn joined(bytes: &[u8]) -> Result<LineText, ReadFault>
    requires { length bytes.now ≤ 16_777_216 }
{
    let line = read(bytes)?;
    let mut text = LineText::new();
    put_tokens(&unniss(&line), &mut text);
    Ok(text)
}

fn cleaned(bytes: &[u8]) -> Result<LineText, ReadFault>
    requires { length bytes.now ≤ 16_777_216 }
{
    let line = read(bytes)?;
    let mut text = LineText::new();
    put_niss_clean(&line, &mut text);
    Ok(text)
}

#[test]
fn lines_are_joined_and_cleaned(rt: HostRuntime) {
    let text = joined(b"R (U F') D").expect(&rt, "a line");
    check_bytes(&rt, text.as_slice(), b"R D F U'");
    let text = cleaned(b"Rw U").expect(&rt, "a line");
    check_bytes(&rt, text.as_slice(), b"L F x");
    assert!(&rt; joined(b"R '").err() == Some(ReadFault::NotAMove { column: 3 }));
}

fn cube_of(bytes: &[u8]) -> Result<Cube, ReadFault>
    requires { length bytes.now ≤ 16_777_216 }
{
    let line = read(bytes)?;
    let (turns, _rotation) = to_faces(&unniss(&line));
    let mut cube = Cube::solved();
    cube.apply(&turns);
    Ok(cube)
}

fn same_number(alloc: Global) -> Result<bool, OutOfMemory> {
    let front = Turn {
        face: Face::F,
        power: Power::Quarter,
    };
    let mut cube = Cube::solved();
    cube.turn(front);
    let number = cube.flip(Axis::Fb);
    let tables = TurnTables::build(alloc)?;
    let same = tables.next_flip(Axis::Fb, 0, front);
    Ok(same == number)
}

#[test]
fn lines_give_cubes_and_numbers(rt: HostRuntime) {
    let cube = cube_of(b"x U").expect(&rt, "a line");
    let text = cube.facelets(Rotation::IDENTITY);
    let letters = b"UUUUUULLLURRURRURRFFFFFFFFFRRRDDDDDDLLDLLDLLDBBBBBBBBB";
    check_bytes(&rt, text.as_slice(), letters);
    let number = cube.flip(Axis::Fb);
    let reached = Step::Eofb.reached(&cube);
    let may_start = Step::DrudEofb.may_start(&cube);
    assert!(&rt; number == 550 && !reached && !may_start);
    assert!(&rt; same_number(rt.alloc()) == Ok(true));
}

#[test]
fn a_seed_gives_its_turns(rt: HostRuntime) {
    let mut rng = Lcg64Xsh32::new(42, 54);
    let scramble = random_turns(&mut rng, 6);
    let mut text = LineText::new();
    niss_moves::put_faces(&scramble, &mut text);
    check_bytes(&rt, text.as_slice(), b"L' D' F' R2 F' L'");
}
