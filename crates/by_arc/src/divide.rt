// One arc's cost divided by the number of its users.
ghost use Rattle.std.specs.Prelude.{◌≡◌, ◌-◌, ◌/◌, ◌%◌, ◌≤◌, ◌<◌};

// A user's equal part; nothing where there are no users.
pub fn part_of(cost: u32, users: u32) -> u32
    ensures { result ≡ cost / users }
{
    match users {
        0 => 0,
        1 => cost,
        _ => cost / users,
    }
}

// What the equal parts leave over, less than the number of users; nothing where there are none.
pub fn left_of(cost: u32, users: u32) -> u32
    ensures value { 0 < users → result ≡ cost % users }
    ensures upper_bound { result ≤ users - 1 }
{
    if users <= 1 { 0 } else { cost % users }
}
