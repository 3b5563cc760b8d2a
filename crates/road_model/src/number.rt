use std::marker::Model;

/// A vertex, by its number, counted from 1.
#[derive(Clone, Copy, Debug, PartialEq, Eq, PartialOrd, Ord, Hash)]
pub struct Vertex(pub u32);

impl Model for Vertex {
    ghost use Rattle.std.specs.Prelude.{ℕ};

    ghost Value = { ℕ };

    ghost view = { λ v. v.0 };

    ghost inverse = { λ n. record { 0 = n } };
}

impl Vertex {
    ghost use Rattle.std.specs.Prelude.{◌≡◌, ◌<◌, ◌^◌};

    /// Its number.
    pub fn number(self) -> u32
        ensures value { result ≡ self }
        ensures fits { self < 2 ^ 32 }
    {
        self.0
    }
}

/// An arc, by its number: arc `k` is the `k`-th of its graph, counted from 1.
#[derive(Clone, Copy, Debug, PartialEq, Eq, PartialOrd, Ord, Hash)]
pub struct ArcNo(pub u32);

impl Model for ArcNo {
    ghost use Rattle.std.specs.Prelude.{ℕ};

    ghost Value = { ℕ };

    ghost view = { λ a. a.0 };

    ghost inverse = { λ n. record { 0 = n } };
}

impl ArcNo {
    ghost use Rattle.std.specs.Prelude.{◌≡◌, ◌<◌, ◌^◌};

    /// Its number.
    pub fn number(self) -> u32
        ensures value { result ≡ self }
        ensures fits { self < 2 ^ 32 }
    {
        self.0
    }
}
