// What a member has at a key.
ghost use Rattle.std.specs.Prelude.{◌≡◌};
ghost use Rattle.key_passes.specs.Passes.{share_at};

use crate::KEYS_PER_LEVEL;

pub fn share_at(cap: u64, number: u64, key: u64) -> u64
    ensures { result ≡ share_at cap number key }
{
    let level = key / KEYS_PER_LEVEL + u64::from(number < key % KEYS_PER_LEVEL);
    cap.min(level)
}
