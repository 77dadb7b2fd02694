// The sum of shares.
ghost use Rattle.std.specs.Prelude.{◌≡◌, ◌≤◌};
ghost use Rattle.basics.specs.Sum.{total};
ghost use Rattle.limits.specs.Inner.{most_whole};

pub fn total_of(shares: &[u64]) -> u64
    requires { total (λ x. x) shares.now ≤ most_whole }
    ensures { result ≡ total (λ x. x) shares.now }
{
    shares.iter().sum()
}
