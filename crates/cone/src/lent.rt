// A scaling record where it lies: its numbers by value and its arrays by address, so that a call that takes it copies no record. The calls
// in place are given one part by part; a call that has a record by value lends it (`LentScaling::of`).
ghost use Rattle.std.specs.Prelude.{◌≡◌};
ghost use Rattle.cone.specs.Lent.{cone_at, three_at, wide_at, scaling_at};

use crate::{Cone, Scaling, Three, Wide};

#[derive(Clone, Copy)]
pub struct LentCone<'a> {
    pub kind: u32,
    pub dim1: u32,
    pub dim2: u32,
    pub rule: u32,
    pub exps: &'a [f64; 32],
}

#[derive(Clone, Copy)]
pub struct LentThree<'a> {
    pub z: &'a [f64; 3],
    pub grad: &'a [f64; 3],
    pub hdual: &'a [f64; 6],
    pub hs: &'a [f64; 6],
}

#[derive(Clone, Copy)]
pub struct LentWide<'a> {
    pub z: &'a [f64; 64],
    pub mu: f64,
    pub grad: &'a [f64; 64],
    pub p: &'a [f64; 64],
    pub q: &'a [f64; 32],
    pub r: &'a [f64; 32],
    pub d1: &'a [f64; 32],
    pub d2: f64,
}

#[derive(Clone, Copy)]
pub struct LentScaling<'a> {
    pub cone: LentCone<'a>,
    pub scaled: u32,
    pub serial: u32,
    pub three: LentThree<'a>,
    pub wide: LentWide<'a>,
}

impl<'a> LentCone<'a> {
    pub fn copied(&self) -> Cone
        ensures { result ≡ cone_at self.now }
    {
        Cone {
            kind: self.kind,
            dim1: self.dim1,
            dim2: self.dim2,
            rule: self.rule,
            exps: *self.exps,
        }
    }
}

impl<'a> LentThree<'a> {
    pub fn copied(&self) -> Three
        ensures { result ≡ three_at self.now }
    {
        Three {
            z: *self.z,
            grad: *self.grad,
            hdual: *self.hdual,
            hs: *self.hs,
        }
    }
}

impl<'a> LentWide<'a> {
    pub fn copied(&self) -> Wide
        ensures { result ≡ wide_at self.now }
    {
        Wide {
            z: *self.z,
            mu: self.mu,
            grad: *self.grad,
            p: *self.p,
            q: *self.q,
            r: *self.r,
            d1: *self.d1,
            d2: self.d2,
        }
    }
}

impl<'a> LentScaling<'a> {
    pub fn of(scaling: &'a Scaling) -> LentScaling<'a>
        ensures { scaling_at result ≡ scaling.now }
    {
        LentScaling {
            cone: LentCone {
                kind: scaling.cone.kind,
                dim1: scaling.cone.dim1,
                dim2: scaling.cone.dim2,
                rule: scaling.cone.rule,
                exps: &scaling.cone.exps,
            },
            scaled: scaling.scaled,
            serial: scaling.serial,
            three: LentThree {
                z: &scaling.three.z,
                grad: &scaling.three.grad,
                hdual: &scaling.three.hdual,
                hs: &scaling.three.hs,
            },
            wide: LentWide {
                z: &scaling.wide.z,
                mu: scaling.wide.mu,
                grad: &scaling.wide.grad,
                p: &scaling.wide.p,
                q: &scaling.wide.q,
                r: &scaling.wide.r,
                d1: &scaling.wide.d1,
                d2: scaling.wide.d2,
            },
        }
    }

    pub fn copied(&self) -> Scaling
        ensures { result ≡ scaling_at self.now }
    {
        Scaling {
            cone: self.cone.copied(),
            scaled: self.scaled,
            serial: self.serial,
            three: self.three.copied(),
            wide: self.wide.copied(),
        }
    }
}
