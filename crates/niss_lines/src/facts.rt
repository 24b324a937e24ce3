//! What is told of lines without a search: by what solvers choose among them, and whether a solution solves a scramble.
ghost use Rattle.std.specs.Prelude.{◌≡◌, ◌≤◌, ℕ, List, Ok, Err};
ghost use Rattle.std.specs.List.{list_any};
ghost use Rattle.niss_moves.specs.Solving.{move_count, clean_count};
ghost use Rattle.niss_cube.specs.Map.{map_of};
ghost use Rattle.niss_shell.specs.Output.{home};
ghost use Rattle.niss_lines.specs.LineFacts.{IsReadAs, axis_facts, facts_of, facts_of_cube, check_of, checked, forms_of, flag};
ghost use Rattle.niss_lines.specs.LineFacts.{is_slice_letter, is_small_letter, is_bracket, is_apostrophe};
ghost use Rattle.niss_lines.specs.LineFacts.{begins_with_apostrophe, has_half_prime};

use crate::answer::Status;
use crate::fact_answers::{AxisFacts, CheckAnswer, FactsAnswer};
use crate::texts::read_by;
use niss_cube::laws::{bad_places_see_places, home_sees_places, reached_steps_see_places};
use niss_cube::{Axis, Coordinate, Cube, Step};
use niss_moves::{LineReader, Niss};
use niss_shell::{MOST_BYTES, clean_count, cube_of, move_count, solves};

/// The bad pieces of a cube on an axis.
fn axis_facts(cube: &Cube, axis: Axis) -> AxisFacts
    ensures { result ≡ axis_facts axis (map_of cube.now) }
{
    let edges = Coordinate::Flip.bad_places(axis, cube);
    let corners = Coordinate::Twist.bad_places(axis, cube);
    let misplaced = Coordinate::Slice.bad_places(axis, cube);
    AxisFacts {
        bad_edge_places: edges,
        bad_corner_places: corners,
        misplaced_edge_places: misplaced,
        bad_edges: edges.count_ones() as u8,
        bad_corners: corners.count_ones() as u8,
        misplaced_edges: misplaced.count_ones() as u8,
    }
}

/// What is seen of a cube, with so many moves of its line.
fn facts_of_cube(cube: &Cube, moves: u16, clean_moves: u16) -> FactsAnswer
    ensures { result ≡ facts_of_cube (map_of cube.now) moves clean_moves }
{
    FactsAnswer {
        status: Status::Done.number(),
        fault: 0,
        solved: cube.is_solved(),
        column: 0,
        moves,
        clean_moves,
        holds: Step::all_reached(cube),
        fb: axis_facts(cube, Axis::Fb),
        rl: axis_facts(cube, Axis::Rl),
        ud: axis_facts(cube, Axis::Ud),
    }
}

/// How many moves a line counts as it is written.
fn written_moves(line: &Niss) -> u16
    ensures { result ≡ move_count line.now }
{
    move_count(line) as u16
}

/// How many face turns its one sequence has once it is cleaned.
fn cleaned_moves(line: &Niss) -> u16
    ensures { result ≡ clean_count line.now }
{
    clean_count(line) as u16
}

/// What is seen of the cube of a line.
fn facts_of_moves(line: &Niss) -> FactsAnswer
    ensures { result ≡ facts_of_cube (home line.now) (move_count line.now) (clean_count line.now) }
{
    bad_places_see_places();
    home_sees_places();
    reached_steps_see_places();
    let (cube, _) = cube_of(line);
    facts_of_cube(&cube, written_moves(line), cleaned_moves(line))
}

/// What is seen of any bytes: of the line's cube with its centres home, and of its moves; or the line's fault, or that it has
/// too many bytes.
pub fn facts_of_line(line: &[u8]) -> FactsAnswer
    ensures { result ≡ facts_of line.now }
{
    if line.len() > MOST_BYTES {
        return FactsAnswer::too_long();
    }
    let mut reader = LineReader::new();
    match read_by(&mut reader, line) {
        Ok(moves) => facts_of_moves(moves),
        Err(fault) => FactsAnswer::unread(fault),
    }
}

/// Whether a byte is the letter of a slice turn.
fn is_slice_letter(byte: u8) -> bool
    ensures { result ≡ is_slice_letter byte }
{
    byte == b'M' || (byte == b'E' || byte == b'S')
}

/// Whether a byte is a small letter for a turn of an outer block.
pub fn is_small_letter(byte: u8) -> bool
    ensures { result ≡ is_small_letter byte }
{
    byte == b'u'
        || (byte == b'd' || (byte == b'r' || (byte == b'l' || (byte == b'f' || byte == b'b'))))
}

/// Whether an apostrophe is first.
fn begins_with_apostrophe(bytes: &[u8]) -> bool
    ensures { result ≡ begins_with_apostrophe bytes.now }
{
    match bytes.first() {
        Some(byte) => *byte == b'\'' || *byte == 0xe2,
        None => false,
    }
}

/// Whether a 2 is followed by an apostrophe.
fn has_half_prime(line: &[u8]) -> bool
    ensures { result ≡ has_half_prime line.now }
{
    let mut rest = line;
    while let Some((byte, after)) = rest.split_first() {
        if *byte == b'2' && begins_with_apostrophe(after) {
            return true;
        }
        rest = after;
    }
    false
}

/// The number if it holds, and else 0.
fn flag(holds: bool, number: u8) -> u8
    ensures value { result ≡ flag holds number }
    ensures at_most { result ≤ number }
{
    if holds { number } else { 0 }
}

/// Whether a line has slice turns.
fn has_slices(line: &[u8]) -> bool
    ensures { result ≡ list_any is_slice_letter line.now }
{
    line.iter().any(|byte| is_slice_letter(*byte))
}

/// Whether a line has small letters for turns of outer blocks.
fn has_small_letters(line: &[u8]) -> bool
    ensures { result ≡ list_any is_small_letter line.now }
{
    line.iter().any(|byte| is_small_letter(*byte))
}

/// Whether a line has brackets.
pub fn has_brackets(line: &[u8]) -> bool
    ensures { result ≡ list_any is_bracket line.now }
{
    line.iter().any(|byte| *byte == b'(')
}

/// Whether a line has U+2019, as one that is read does if it has its first byte.
fn has_apostrophes(line: &[u8]) -> bool
    ensures { result ≡ list_any is_apostrophe line.now }
{
    line.iter().any(|byte| *byte == 0xe2)
}

/// The forms of a line that the WCA's notation hasn't.
fn forms_of(line: &[u8]) -> u8
    ensures { result ≡ forms_of line.now }
{
    let slices = flag(has_slices(line), 1);
    let small = flag(has_small_letters(line), 2);
    let brackets = flag(has_brackets(line), 4);
    let apostrophes = flag(has_apostrophes(line), 8);
    slices + (small + (brackets + (apostrophes + flag(has_half_prime(line), 16))))
}

/// Whether a solution solves a scramble, and how many moves it counts.
fn check_moves(scramble: &Niss, solution: &Niss, forms: u8) -> CheckAnswer
    ensures { result ≡ checked scramble.now solution.now forms }
{
    CheckAnswer {
        status: Status::Done.number(),
        fault: 0,
        line: 0,
        solved: solves(scramble, solution),
        column: 0,
        moves: written_moves(solution),
        clean_moves: cleaned_moves(solution),
        forms,
    }
}

/// Whether the line of a solution solves that of a scramble, however the cube is held then, how many moves it counts, and
/// in which forms it is written; or which line has a fault or too many bytes, the scramble's first.
pub fn check_line(scramble: &[u8], solution: &[u8]) -> CheckAnswer
    ensures { result ≡ check_of scramble.now solution.now }
{
    if scramble.len() > MOST_BYTES {
        return CheckAnswer::too_long(1);
    }
    if solution.len() > MOST_BYTES {
        return CheckAnswer::too_long(2);
    }
    let mut first = LineReader::new();
    let mut second = LineReader::new();
    match (
        read_by(&mut first, scramble),
        read_by(&mut second, solution),
    ) {
        (Ok(first), Ok(second)) => check_moves(first, second, forms_of(solution)),
        (Err(fault), _) => CheckAnswer::unread(1, fault),
        (_, Err(fault)) => CheckAnswer::unread(2, fault),
    }
}

/// Whether a solution that was read solves the line of a scramble.
pub fn is_solved(scramble: &[u8], solution: &Niss) -> bool
    ensures { (line : List ℕ) → IsReadAs line solution.now → result ≡ (check_of scramble.now line).solved }
{
    if scramble.len() > MOST_BYTES {
        return false;
    }
    let mut reader = LineReader::new();
    match read_by(&mut reader, scramble) {
        Ok(scramble) => solves(scramble, solution),
        Err(_) => false,
    }
}
