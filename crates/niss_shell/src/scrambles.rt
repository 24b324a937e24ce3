//! The scrambles that a run writes.
ghost use Rattle.std.specs.Prelude.{◌≡◌, ◌≤◌, ℕ, [], None, Ok};
ghost use Rattle.niss_search.specs.Draw.{next_words, after_words, draw};
ghost use Rattle.niss_shell.specs.Engine.{Answers, output_state};
ghost use Rattle.niss_shell.specs.Output.{unsearched, turns_line, scramble, scramble_text, generator_of};

use crate::device::Target;
use crate::output::Output;
use crate::stop::Stop;
use niss_moves::{LineText, put_faces};
use niss_search::random_turns;
use rand_pcg::Lcg64Xsh32;

/// Sets the text to the next scramble of `turns` turns, on a line.
fn draw_line(rng: &mut Lcg64Xsh32, turns: usize, line: &mut LineText)
    requires { turns ≤ 256 }
    ensures line { line.new.items ≡ turns_line (draw None (next_words turns rng.old)) }
    ensures words { rng.new ≡ after_words turns rng.old }
{
    line.clear();
    put_faces(random_turns(rng, turns).as_slice(), line);
    line.push(b'\n');
}

/// Sets the text to the first scramble of `turns` turns by the generator of a state and a stream, on a line.
#[tactic(auto, using(crate::proofs::ScrambleLemmas::one_scramble))]
pub fn set_scramble(state: u64, stream: u64, turns: usize, line: &mut LineText)
    requires { turns ≤ 256 }
    ensures { line.new.items ≡ turns_line (scramble turns (generator_of state stream) 0) }
{
    draw_line(&mut Lcg64Xsh32::new(state, stream), turns, line);
}

/// Writes `count` scrambles of `turns` turns, each on a line, all by one generator.
pub fn write_scrambles<W: Target>(
    mut rng: Lcg64Xsh32,
    turns: usize,
    count: usize,
    output: &mut Output<W>,
) -> Result<(), Stop>
    requires turns { turns ≤ 256 }
    ensures answers { (looks : ℕ) →
        Answers W.call (unsearched (scramble_text turns count rng) (Ok tt)) result
        (output_state output.old looks) (output_state output.new looks) }
    ensures empty { output.new.pending.items ≡ [] }
{
    for _ in 0..count {
        draw_line(&mut rng, turns, &mut output.next);
        output.put()?;
    }
    Ok(output.send()?)
}
