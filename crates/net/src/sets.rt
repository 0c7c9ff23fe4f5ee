// Sets of places as 64-bit numbers.
ghost use Rattle.std.specs.Prelude.{◌≡◌, ◌-◌, ◌^◌, ◌<◌, min, Decides};
ghost use Rattle.net.specs.Sets.{has};
ghost use Rattle.net.specs.Lowest.{Lowest};

// Whether the place is in the set. A set is of 64 places, so none is in it from 64 on.
pub fn has(set: u64, place: u8) -> bool
    ensures { result ≡ has set place }
{
    place < 64 && set >> place & 1 == 1
}

// The set of the places below `count`; of all 64 where `count` is more.
pub fn below(count: u8) -> u64
    ensures { result ≡ 2 ^ min count 64 - 1 }
{
    if count < 64 {
        (1 << count) - 1
    } else {
        u64::MAX
    }
}

// Whether each member of the set is below `count`.
pub fn within(set: u64, count: u8) -> bool
    ensures { Decides result (set < 2 ^ count) }
{
    set <= below(count)
}

// The lowest member of the set, or none where it is empty.
pub fn lowest(set: u64) -> Option<u8>
    ensures { Lowest 64 (has set) result }
{
    if set == 0 {
        None
    } else {
        Some(set.trailing_zeros() as u8)
    }
}
