//! The call that checks the attempts of a text as solvers write it.
ghost use Rattle.std.specs.Prelude.{◌≡◌, ◌≤◌, ◌*◌, ◌+◌, ◌&&◌, ◌==◌, ◌⊎◌, length, take, drop};
ghost use Rattle.niss_text.specs.Moves.{most_bytes};
ghost use Rattle.niss_attempts.specs.Attempts.{ChecksAttempts, number_of_checks};

use niss_attempts::{AttemptCheck, Attempts, AttemptsAnswer, Known, check_attempts};
use niss_text::{KnownPart, TextLine};

/// Checks all attempts of a text by its lines, or its parts if it has only solutions of known scrambles, which end at
/// these places, as `check_attempts` of `niss_attempts`.
#[unsafe(no_mangle)]
pub extern "C" fn nissy_check_attempts(
    text: &[u8],
    lines: &[TextLine],
    parts: &[KnownPart],
    scrambles: &[u8],
    ends: &[u64],
    out: &mut [u8],
    places: &mut [u64],
    checks: &mut [AttemptCheck],
) -> AttemptsAnswer
    ensures are { result.status ≡ 0 → ChecksAttempts ((length parts.now == 0) && (length ends.now == 0)) text.now lines.now parts.now
        scrambles.now ends.now (take result.attempts checks.new) }
    ensures fits { result.status ≡ 0 → result.attempts ≤ length checks.old }
    ensures room { 2 * most_bytes lines.now ≤ length out.old → 2 * most_bytes lines.now ≤ length places.old →
        length lines.now + length parts.now ≤ length checks.old → result.status ≡ 0 }
    ensures known { (result.status ≡ 0) ⊎ (result.status ≡ 4) }
    ensures number { 2 * most_bytes lines.now ≤ length out.old → 2 * most_bytes lines.now ≤ length places.old →
        result.attempts ≡ number_of_checks ((length parts.now == 0) && (length ends.now == 0)) lines.now parts.now }
    ensures or_none { (result.attempts ≡ 0)
        ⊎ (result.attempts ≡ number_of_checks ((length parts.now == 0) && (length ends.now == 0)) lines.now parts.now) }
    ensures behind { result.status ≡ 0 → drop result.attempts checks.new ≡ drop result.attempts checks.old }
{
    let attempts = Attempts {
        text,
        lines,
        parts,
        known: Known { scrambles, ends },
    };
    check_attempts(&attempts, out, places, checks)
}
