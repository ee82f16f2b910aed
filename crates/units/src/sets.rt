// Sets of positions 0 to 15, one bit each.
ghost use Rattle.std.specs.Prelude.{◌≡◌};
ghost use Rattle.units.specs.Folds.{lowest};
ghost use Rattle.units.specs.Sets.{has, with, how_many};

// Whether the position is in the set.
#[tactic(auto, using(crate::proofs::Laws::Sets::has_bit, crate::proofs::Laws::Sets::has_none))]
pub fn has(set: u16, position: usize) -> bool
    ensures { result ≡ has set position }
{
    position < 16 && (set >> position) & 1 == 1
}

// The set with the position; the set itself where there is no such position.
#[tactic(auto, using(crate::proofs::Laws::Sets::with_or, crate::proofs::Laws::Sets::with_past))]
pub fn with(set: u16, position: usize) -> u16
    ensures { result ≡ with set position }
{
    if 16 <= position {
        return set;
    }
    set | 1u16 << position
}

// How many positions are in the set.
#[tactic(auto, using(crate::proofs::Laws::Sets::ones_many))]
pub fn how_many(set: u16) -> u32
    ensures { result ≡ how_many set }
{
    set.count_ones()
}

// The lowest position in the set; 16 where it is empty, which is where its zeros end.
#[tactic(auto, using(crate::proofs::Laws::Sets::zeros_lowest))]
pub fn lowest(set: u16) -> u32
    ensures { result ≡ lowest (has set) 16 }
{
    set.trailing_zeros()
}
