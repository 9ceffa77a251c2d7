//! `No`, `Maybe` and `Yes`.

/// An answer. `No` is the least, `Yes` the greatest.
#[derive(Clone, Copy, Debug, PartialEq, Eq)]
pub enum Tri {
    No,
    Maybe,
    Yes,
}

impl Tri {
    ghost use Rattle.std.specs.Prelude.{◌≡◌, ◌-◌, min, max};
    ghost use Rattle.stan_tri.specs.Tri.{rank_of};

    /// The least of both.
    pub fn and(self, other: Tri) -> Tri
        ensures { rank_of result ≡ min (rank_of self) (rank_of other) }
    {
        match self {
            Tri::No => Tri::No,
            Tri::Maybe => match other {
                Tri::No => Tri::No,
                Tri::Maybe => Tri::Maybe,
                Tri::Yes => Tri::Maybe,
            },
            Tri::Yes => other,
        }
    }

    /// The greatest of both.
    pub fn or(self, other: Tri) -> Tri
        ensures { rank_of result ≡ max (rank_of self) (rank_of other) }
    {
        match self {
            Tri::No => other,
            Tri::Maybe => match other {
                Tri::No => Tri::Maybe,
                Tri::Maybe => Tri::Maybe,
                Tri::Yes => Tri::Yes,
            },
            Tri::Yes => Tri::Yes,
        }
    }

    /// `Yes` for `No` and `No` for `Yes`; `Maybe` stays.
    pub fn not(self) -> Tri
        ensures { rank_of result ≡ 2 - rank_of self }
    {
        match self {
            Tri::No => Tri::Yes,
            Tri::Maybe => Tri::Maybe,
            Tri::Yes => Tri::No,
        }
    }
}
