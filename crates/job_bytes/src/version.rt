// The two versions of a job's bytes, and what differs between them.
ghost use Rattle.std.specs.Prelude.{◌≡◌, ◌≤◌};
ghost use Rattle.job_bytes.specs.Versions.{version_number, floor_width};

#[derive(Clone, Copy, Debug, PartialEq, Eq)]
pub enum Version {
    // The filler is 0, and a member row has no floor.
    One,
    // The filler is the mark, and a member row ends with a floor.
    Two,
}

impl Version {
    // The number in the trailer.
    #[tactic(auto, unfolding(crate::specs::Versions::version_number))]
    pub fn number(self) -> u64
        ensures { result ≡ version_number self }
    {
        match self {
            Version::One => 1,
            Version::Two => 2,
        }
    }

    // The bytes of a floor in a member row.
    #[tactic(auto, unfolding(crate::specs::Versions::floor_width))]
    pub fn floor_width(self) -> usize
        ensures value { result ≡ floor_width self }
        ensures upper_bound { result ≤ 8 }
    {
        match self {
            Version::One => 0,
            Version::Two => 8,
        }
    }
}
