// The primal-dual scaling of 003 where its tests hold, from what they measured. Blocks are packed: (0,0),(0,1),(1,1),(0,2),(1,2),(2,2).
ghost use Rattle.std.specs.Prelude.{◌≡◌};
ghost use Rattle.scaling.specs.primal_dual.Block.{frobenius_of, less_at, less_both, rest_at, cross_of, axis_of, sum_place, sum_at, primal_dual_block};

use algebra::sym3::{mul, norm_fro, outer};
use algebra::vector::normalize3;

// What the choice between the two scalings looks at: ⟨s,z⟩, μ, μt, δs, ⟨δs,δz⟩, de1 and de2.
#[derive(Clone, Copy)]
pub struct Measures {
    pub dotsz: f64,
    pub mu: f64,
    pub mutilde: f64,
    pub ds: [f64; 3],
    pub dotdsz: f64,
    pub de1: f64,
    pub de2: f64,
}

pub(crate) fn use_primal_dual_scaling(
    h: [f64; 6],
    st: [f64; 3],
    zt: [f64; 3],
    s: [f64; 3],
    z: [f64; 3],
    m: Measures,
) -> [f64; 6]
    ensures { result ≡ primal_dual_block h st zt s z m }
{
    // compute t
    let t = frobenius(h, st, zt, m.mu, m.mutilde, m.de2);

    // generate the remaining axis
    let axis = axis_of(z, zt);
    let a0 = axis[0];
    let a1 = axis[1];
    let a2 = axis[2];
    let ta = [t * a0, t * a1, t * a2];

    // Hs = s*s'/⟨s,z⟩ + δs*δs'/⟨δs,δz⟩ + t*axis_z*axis_z'
    let ds = m.ds;
    let ss = outer(s, s);
    let dd = outer(ds, ds);
    let aa = outer(ta, axis);
    sum_of(ss, m.dotsz, dd, m.dotdsz, aa)
}

// t = μ times the Frobenius norm of H - st*st'/3 - tmp*tmp'/de2
fn frobenius(h: [f64; 6], st: [f64; 3], zt: [f64; 3], mu: f64, mutilde: f64, de2: f64) -> f64
    ensures { result ≡ frobenius_of h st zt mu mutilde de2 }
{
    // tmp = μt*st - H*zt
    let hzt = mul(h, zt);
    let tmp = less(mutilde, st, hzt);
    let ss = outer(st, st);
    let tt = outer(tmp, tmp);
    let w = rest(h, ss, tt, de2);
    mu * norm_fro(w)
}

fn less(mutilde: f64, st: [f64; 3], hzt: [f64; 3]) -> [f64; 3]
    ensures { result ≡ less_at mutilde st hzt }
{
    [
        mutilde * st[0] - hzt[0],
        mutilde * st[1] - hzt[1],
        mutilde * st[2] - hzt[2],
    ]
}

// a place of Hs -= st*st'/3 + tmp*tmp'/de2: one subtraction, of the sum
fn less_both(h: f64, ss: f64, tt: f64, de2: f64) -> f64
    ensures { result ≡ less_both h ss tt de2 }
{
    h - (ss / 3.0 + tt / de2)
}

// only the upper triangle
fn rest(h: [f64; 6], ss: [[f64; 3]; 3], tt: [[f64; 3]; 3], de2: f64) -> [f64; 6]
    ensures { result ≡ rest_at h ss tt de2 }
{
    let w00 = less_both(h[0], ss[0][0], tt[0][0], de2);
    let w01 = less_both(h[1], ss[0][1], tt[0][1], de2);
    let w11 = less_both(h[2], ss[1][1], tt[1][1], de2);
    let w02 = less_both(h[3], ss[0][2], tt[0][2], de2);
    let w12 = less_both(h[4], ss[1][2], tt[1][2], de2);
    let w22 = less_both(h[5], ss[2][2], tt[2][2], de2);
    [w00, w01, w11, w02, w12, w22]
}

fn cross(z: [f64; 3], zt: [f64; 3]) -> [f64; 3]
    ensures { result ≡ cross_of z zt }
{
    let z0 = z[0];
    let z1 = z[1];
    let z2 = z[2];
    let t0 = zt[0];
    let t1 = zt[1];
    let t2 = zt[2];
    [z1 * t2 - z2 * t1, z2 * t0 - z0 * t2, z0 * t1 - z1 * t0]
}

fn axis_of(z: [f64; 3], zt: [f64; 3]) -> [f64; 3]
    ensures { result ≡ axis_of z zt }
{
    // axis_z = cross(z,zt)
    let axis = cross(z, zt);
    normalize3(axis)
}

// a place of Hs: the two quotients and the last product, from the left
fn sum_place(ss: f64, dotsz: f64, dd: f64, dotdsz: f64, aa: f64) -> f64
    ensures { result ≡ sum_place ss dotsz dd dotdsz aa }
{
    ss / dotsz + dd / dotdsz + aa
}

// only the upper triangle
fn sum_of(
    ss: [[f64; 3]; 3],
    dotsz: f64,
    dd: [[f64; 3]; 3],
    dotdsz: f64,
    aa: [[f64; 3]; 3],
) -> [f64; 6]
    ensures { result ≡ sum_at ss dotsz dd dotdsz aa }
{
    let w00 = sum_place(ss[0][0], dotsz, dd[0][0], dotdsz, aa[0][0]);
    let w01 = sum_place(ss[0][1], dotsz, dd[0][1], dotdsz, aa[0][1]);
    let w11 = sum_place(ss[1][1], dotsz, dd[1][1], dotdsz, aa[1][1]);
    let w02 = sum_place(ss[0][2], dotsz, dd[0][2], dotdsz, aa[0][2]);
    let w12 = sum_place(ss[1][2], dotsz, dd[1][2], dotdsz, aa[1][2]);
    let w22 = sum_place(ss[2][2], dotsz, dd[2][2], dotdsz, aa[2][2]);
    [w00, w01, w11, w02, w12, w22]
}
