// The two equations that newton_raphson_onesided solves.

ghost use Rattle.std.specs.Prelude.{◌≡◌, map};
ghost use Rattle.algebra.specs.newton.Ratios.{ratio_of};

// The Rust hands the rounds two closures. 01: "Closures become a choice by cone kind": the variant holds what the closures of its kind
// capture. What does not change from round to round the Rust takes anew in each; here it is taken once, before the rounds: the logarithms,
// which are all that the equations read of phi and of the heads, and (1+α)/α of each exponent.
#[derive(Clone, Copy)]
pub enum Equation<'a> {
    Power {
        s3: f64,
        logphi: f64,
        alpha: f64,
        t0: f64,
    },
    Generalized(Generalized<'a>),
}

// logs are those of the point's heads, normr is the norm of its tail.
#[derive(Clone, Copy)]
pub struct Generalized<'a> {
    pub normr: f64,
    pub alpha: &'a [f64],
    pub ratios: &'a [f64],
    pub logs: &'a [f64],
    pub ghost ratios_of_alpha: { ratios.now ≡ map ratio_of alpha.now },
}
