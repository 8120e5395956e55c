// What can be served out of a volume, and in what order.
ghost use Rattle.std.specs.Prelude.{◌≡◌, ℕ, Bool};
ghost use Rattle.allocation.specs.Rankings.{RankLaws};

// A claim asks for a volume, carries a stamp, and says whether it goes before another of its kind.
pub trait Claim {
    ghost asks: { Self → ℕ };

    ghost stamp: { Self → ℕ };

    ghost before: { Self → Self → Bool };

    fn asked(&self) -> u64
        ensures { result ≡ asks self.now };

    fn goes_before(&self, other: &Self) -> bool
        ensures { result ≡ before self.now other.now };

    ghost ranked: { RankLaws stamp before };
}
