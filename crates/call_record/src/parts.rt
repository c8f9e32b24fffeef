// A record by its parts, in the header's order, as the calls of `in_place` take it.
ghost use Rattle.std.specs.Prelude.{◌≡◌};
ghost use Rattle.cone.specs.Lent.{scaling_at};
ghost use Rattle.call_record.specs.Parts.{triple_of, wide_of, record_of};

use cone::lent::{LentCone, LentScaling, LentThree, LentWide};

// The exports over a lent record have these nineteen from C, where each stands alone.
pub fn lent<'a>(
    kind: u32,
    dim1: u32,
    dim2: u32,
    rule: u32,
    exps: &'a [f64; 32],
    scaled: u32,
    serial: u32,
    z3: &'a [f64; 3],
    grad3: &'a [f64; 3],
    hdual: &'a [f64; 6],
    hs: &'a [f64; 6],
    z: &'a [f64; 64],
    mu: f64,
    grad: &'a [f64; 64],
    p: &'a [f64; 64],
    q: &'a [f64; 32],
    r: &'a [f64; 32],
    d1: &'a [f64; 32],
    d2: f64,
) -> LentScaling<'a>
    ensures { scaling_at result ≡ record_of kind dim1 dim2 rule exps.now scaled serial
        (triple_of z3.now grad3.now hdual.now hs.now)
        (wide_of z.now mu grad.now p.now q.now r.now d1.now d2) }
{
    LentScaling {
        cone: LentCone {
            kind,
            dim1,
            dim2,
            rule,
            exps,
        },
        scaled,
        serial,
        three: LentThree {
            z: z3,
            grad: grad3,
            hdual,
            hs,
        },
        wide: LentWide {
            z,
            mu,
            grad,
            p,
            q,
            r,
            d1,
            d2,
        },
    }
}
