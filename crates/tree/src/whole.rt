// The whole cost.
ghost use Rattle.std.specs.Prelude.{◌≡◌, ◌≤◌, length};
ghost use Rattle.basics.specs.Sum.{sum};
ghost use Rattle.game.specs.Tree.{of_arc};
ghost use Rattle.limits.specs.Limits.{most_arcs};

// The sum of all costs.
pub fn whole_cost(costs: &[u32]) -> u64
    requires { length costs.now ≤ most_arcs }
    ensures { result ≡ sum (length costs.now) (of_arc costs.now) }
{
    costs.iter().map(|cost| u64::from(*cost)).sum()
}
