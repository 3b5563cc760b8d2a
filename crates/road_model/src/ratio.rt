ghost use Rattle.std.specs.Prelude.{◌≡◌, ◌<◌, ◌≤◌, ◌+◌, ◌*◌, ◌^◌, ◌↔◌, ◌⊎◌, ℕ, IsTrue, IfOk, IsErrOf};
ghost use Rattle.road_model.specs.Fraction.{Fraction, IsRatio, Allows, IsAbove, IsBelow, Stretches};

use std::error::Error;
use std::fmt;
use std::marker::Model;

/// Why a ratio was refused.
#[derive(Clone, Copy, Debug, PartialEq, Eq)]
pub enum RatioFault {
    /// The denominator is outside 1 to 1000000.
    Denominator,
    /// The ratio is above its cap.
    TooLarge,
}

impl fmt::Display for RatioFault {
    ghost use Rattle.std.specs.Prelude.{Some};
    ghost use Rattle.road_model.specs.Messages.{ratio_text};

    ghost output = { λ fault. Some (ratio_text fault) };

    fn fmt<W: fmt::Write>(&self, f: &mut fmt::Formatter<W>) -> fmt::Result {
        f.write_str(match self {
            RatioFault::Denominator => "the denominator is outside 1 to 1000000",
            RatioFault::TooLarge => "the ratio is above its cap",
        })
    }
}

impl Error for RatioFault {}

/// A ratio of at most 4, kept as it was given and not reduced. Comparisons are cross products in 128 bits.
#[derive(Clone, Copy, Debug, PartialEq, Eq)]
pub struct Ratio {
    num: u64,
    den: u64,
}

impl Model for Ratio {
    ghost use Rattle.road_model.specs.Fraction.{Fraction, IsRatio};

    ghost Value = { Fraction };

    ghost view = { λ r. record { num = r.num; den = r.den } };

    ghost invariant = { λ r. IsRatio 4 (record { num = r.num; den = r.den }) };

    ghost inverse = { λ f. record { num = f.num; den = f.den } };
}

impl Ratio {
    /// The ratio `num / den`, where it is at most `cap`.
    pub fn new(num: u64, den: u64, cap: u64) -> Result<Ratio, RatioFault>
        requires { cap ≤ 4 }
        ensures ok { IfOk result (λ r. (r ≡ record { num = num; den = den }) × IsRatio cap r) }
        ensures denominator { IsErrOf result RatioFault.Denominator ↔ ((den ≡ 0) ⊎ (1000000 < den)) }
        ensures too_large { IsErrOf result RatioFault.TooLarge
            ↔ ((1 ≤ den) × (den ≤ 1000000) × (cap * den < num)) }
    {
        if den == 0 || den > 1000000 {
            return Err(RatioFault::Denominator);
        }
        if num > cap * den {
            return Err(RatioFault::TooLarge);
        }
        Ok(Ratio { num, den })
    }

    /// The numerator, as it was given.
    pub fn num(&self) -> u64
        ensures value { result ≡ self.now.num }
        ensures limits { IsRatio 4 self.now }
    {
        self.num
    }

    /// The denominator, as it was given.
    pub fn den(&self) -> u64
        ensures value { result ≡ self.now.den }
        ensures limits { IsRatio 4 self.now }
    {
        self.den
    }

    /// `part` is at most this ratio of `whole`.
    pub fn allows(&self, part: u64, whole: u64) -> bool
        ensures { IsTrue result ↔ Allows self.now part whole }
    {
        part as u128 * self.den as u128 <= self.num as u128 * whole as u128
    }

    /// `part` is above this ratio of `whole`.
    pub fn above(&self, part: u64, whole: u64) -> bool
        ensures { IsTrue result ↔ IsAbove self.now part whole }
    {
        part as u128 * self.den as u128 > self.num as u128 * whole as u128
    }

    /// `part` is below this ratio of `whole`.
    pub fn below(&self, part: u64, whole: u64) -> bool
        ensures { IsTrue result ↔ IsBelow self.now part whole }
    {
        (part as u128 * self.den as u128) < self.num as u128 * whole as u128
    }

    /// `part` is at most `whole` and this ratio of `whole` more.
    pub fn stretches(&self, part: u64, whole: u64) -> bool
        ensures { IsTrue result ↔ Stretches self.now part whole }
    {
        part as u128 * self.den as u128 <= (self.den as u128 + self.num as u128) * whole as u128
    }

    /// The greatest length that [`Ratio::stretches`] accepts.
    pub fn bound(&self, whole: u64) -> u64
        requires { whole < 2 ^ 58 }
        ensures within { Stretches self.now result whole }
        ensures greatest { (p : ℕ) → Stretches self.now p whole → p ≤ result }
    {
        ((self.den as u128 + self.num as u128) * whole as u128 / self.den as u128) as u64
    }
}
