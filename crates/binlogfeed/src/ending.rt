//! How a run ends.
ghost use Rattle.std.specs.Prelude.{◌≡◌, ◌≢◌, ◌⊎◌, true, false, Err};
ghost use Rattle.binlogfeed.specs.LineSteps.{Finishes, FinishesAll, Grows};

use crate::fault::RunFault;
use line_output::write_text;
use std::io::Write;

/// Whether a run ended because a write failed.
fn has_failed_write(answer: &Result<u64, RunFault>) -> bool
    ensures yes { result ≡ true → answer.now ≡ Err RunFault.Write }
    ensures no { result ≡ false → answer.now ≢ Err RunFault.Write }
{
    matches!(answer, Err(RunFault::Write))
}

/// Sends what waits and flushes, unless a write has failed.
pub(crate) fn finish<W: Write>(
    out: &mut W,
    waiting: &[u8],
    answer: Result<u64, RunFault>,
) -> Result<u64, RunFault>
    ensures answers { Finishes (W.contents out.old) (W.contents out.new) waiting.now answer result }
    ensures all { FinishesAll (W.contents out.old) (W.contents out.new) waiting.now answer result }
    ensures grows { Grows (W.contents out.old) (W.contents out.new) }
    ensures keeps { (result ≡ answer) ⊎ (result ≡ Err RunFault.Write) }
{
    if has_failed_write(&answer) {
        return answer;
    }
    match write_text(out, waiting) {
        Err(_) => Err(RunFault::Write),
        Ok(()) => match out.flush() {
            Err(_) => Err(RunFault::Write),
            Ok(()) => answer,
        },
    }
}
