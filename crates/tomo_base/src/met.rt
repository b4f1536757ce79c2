// The nodes met so far, of which no more than two are kept.
ghost use Rattle.std.specs.Prelude.{◌≡◌, ◌<◌, ◌||◌, ◌==◌, ℕ, Bool, min};
ghost use Rattle.tomo_base.specs.Sets.{count};
ghost use Rattle.tomo_base.specs.Met.{AreMet};

// No node, one, two different ones, or at least three.
#[derive(Clone, Copy)]
pub enum Met {
    None,
    One(u32),
    Two(u32, u32),
    More,
}

impl Met {
    // The nodes met, after one more, which may have been met before.
    pub fn with(self, v: u32) -> Met
        ensures { (n : ℕ) (q : ℕ → Bool) → v < n → AreMet n q self → AreMet n (λ w. (v == w) || q w) result }
    {
        match self {
            Met::None => Met::One(v),
            Met::One(a) => { if a == v { self } else { Met::Two(v, a) } }
            Met::Two(a, b) => { if a == v || b == v { self } else { Met::More } }
            Met::More => Met::More,
        }
    }

    // How many different nodes were met, and 3 where there are more.
    pub fn count(self) -> u32
        ensures { (n : ℕ) (q : ℕ → Bool) → AreMet n q self → result ≡ min 3 (count n q) }
    {
        match self {
            Met::None => 0,
            Met::One(_) => 1,
            Met::Two(_, _) => 2,
            Met::More => 3,
        }
    }
}
