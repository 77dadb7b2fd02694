// Each arc's costs added over the classes.
ghost use Rattle.std.specs.Prelude.{◌≡◌, suc, ◌*◌, ◌≤◌, ◌<◌, length};
ghost use Rattle.basics.specs.Sum.{sum₀, list, smaller};
ghost use Rattle.game.specs.Tree.{of_arc};
ghost use Rattle.limits.specs.Limits.{most_arcs, most_classes, most_cost};
ghost use Rattle.answers.specs.Classes.{part};

use limits::MOST_COST;

// The least cost above the limit.
const TOO_DEAR: u64 = MOST_COST as u64 + 1;

// The sum over the classes at place i of each class's part, of m entries.
fn sum_at(costs: &[u32], m: usize, classes: usize, i: usize) -> u64
    requires i_lt_m { i < m }
    requires m_le_most_arcs { m ≤ most_arcs }
    requires classes_le_most_classes { classes ≤ most_classes }
    requires costs_len { length costs.now ≡ classes * m }
    ensures { result ≡ sum₀ classes (λ c. of_arc (part m c costs.now) (suc i)) }
{
    let mut total: u64 = 0;
    for c in 0..classes {
        total += u64::from(costs[c * m + i]);
    }
    total
}

// Writes each arc's sum; where it is above the limit, the least cost that is, so that it fits 32 bits.
pub fn write_sums(costs: &[u32], classes: usize, out: &mut [u32])
    requires out_len_bound { length out.old ≤ most_arcs }
    requires classes_le_most_classes { classes ≤ most_classes }
    requires costs_len { length costs.now ≡ classes * length out.old }
    ensures { out.new ≡ list (length out.old)
        (λ k. smaller (sum₀ classes (λ c. of_arc (part (length out.old) c costs.now) k))
        (suc most_cost)) }
{
    let m = out.len();
    for i in 0..m {
        out[i] = sum_at(costs, m, classes, i).min(TOO_DEAR) as u32;
    }
}
