// What two looks are answered with: a refusal of one of the replays, or what compare answers of the tables that they left (J4).
// The buffers of the first and of the second table are `before` and `after`.
ghost use Rattle.std.specs.Prelude.{◌≡◌};
ghost use Rattle.place.specs.State.{state};
ghost use Rattle.play.specs.Numbers.{told};
ghost use Rattle.play.specs.Looks.{between};

use crate::{Seen, in_numbers};
use compare::compare;

// The refusal of the first replay, else that of the second, else what compare answers of the two tables. Any number comes back as it is.
#[tactic(auto, using(crate::proofs::NumbersLaws::told_numbers), unfolding(crate::specs::Looks::between))]
pub fn between(
    first: Seen,
    before: &[u8],
    second: Seen,
    after: &[u8],
    list: &mut [u8],
) -> Result<usize, u8>
    ensures { told result list.new ≡ between first.answer (state first.table before.now) second.answer (state second.table after.now) list.old }
{
    first.answer?;
    second.answer?;
    in_numbers(compare(first.table, before, second.table, after, list))
}
