// The sums of a proposal's positive and negative parts, and their difference.
#![tactic(auto)]

ghost use Rattle.std.specs.Prelude.{◌≤◌, ◌≡◌, length};
ghost use Rattle.std.proofs.Math.IntN.{sub_ℕ};
ghost use Rattle.answer_forms.specs.Answer.{accepted};
ghost use Rattle.answers.specs.Checks.{proposal_check};
ghost use Rattle.proposal.specs.Parts.{Summed};
ghost use Rattle.limits.specs.Limits.{most_arcs};

// a less b.
pub fn less(a: u64, b: u64) -> i64
    requires a_bound { a ≤ 9000000000000000000 }
    requires b_bound { b ≤ 9000000000000000000 }
    ensures { result ≡ sub_ℕ a b }
{
    a as i64 - b as i64
}

// The sums of the positive and of the negative parts.
#[derive(Clone, Copy, Debug, PartialEq, Eq)]
pub struct Parts {
    pub plus: u64,
    pub minus: u64,
}

pub fn parts_of(proposal: &[i64]) -> Parts
    requires proposal_value { proposal_check (length proposal.now) proposal.now ≡ accepted }
    requires proposal_len_bound { length proposal.now ≤ most_arcs }
    ensures { Summed proposal.now result.plus result.minus }
{
    let mut above: u64 = 0;
    let mut below: u64 = 0;
    for share in proposal {
        above += numbers::plus(*share);
        below += numbers::minus(*share);
    }
    Parts {
        plus: above,
        minus: below,
    }
}
