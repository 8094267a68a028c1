// An estimate of a root: a polynomial for each of 16 parts. The answer does not hang on it, since `certain` tells whether it is the nearest number.
ghost use Rattle.std.specs.Prelude.{◌^◌, ◌<◌, ◌≤◌};

// All times `CURVE_UNIT`, 2 ^ 12: the root at the last number of a part, raised by a half, and how it falls towards the first, by the powers of the way there.
#[derive(Clone, Copy)]
struct Curve(u64, u32, u32, u32, u32);

const CURVE_UNIT: u64 = 4096;

// Eight parts for n = m * 2 ^ 24, then eight for m * 2 ^ 23. This is no array, since a constant array is stored anew whenever a function with it is called.
fn part(i: u32) -> Curve {
    match i {
        0 => Curve(51539606811, 2863308793, 79559357, 4355782, 375665),
        1 => Curve(54327515947, 2716374197, 67923366, 3357066, 254412),
        2 => Curve(56979179586, 2589961716, 58871732, 2650962, 179170),
        3 => Curve(59512812256, 2479699874, 51666387, 2136091, 130280),
        4 => Curve(61942899014, 2382418773, 45819862, 1750811, 97286),
        5 => Curve(64281184287, 2295756299, 40998567, 1456086, 74302),
        6 => Curve(66537347167, 2217911380, 36967310, 1226323, 57854),
        7 => Curve(68719476732, 2147483515, 33556004, 1044231, 45805),
        8 => Curve(36444006076, 2024665064, 56256961, 3080003, 265635),
        9 => Curve(38415355531, 1920766615, 48029072, 2373804, 179896),
        10 => Curve(40290364872, 1831379492, 41628601, 1874513, 126692),
        11 => Curve(42081913714, 1753412596, 36533653, 1510444, 92122),
        12 => Curve(43800244539, 1684624470, 32399535, 1238010, 68792),
        13 => Curve(45453661912, 1623344847, 28990365, 1029609, 52540),
        14 => Curve(47049009984, 1568300177, 26139836, 867142, 40909),
        _ => Curve(48592008597, 1518500156, 23727678, 738383, 32389),
    }
}

// s times u / 2 ^ 20.
fn share(s: u64, u: u64) -> u64
    requires { (s < 2 ^ 40) × (u < 2 ^ 20) }
    ensures { result ≤ s }
{
    s * u / 1048576
}

// About the root of m * 2 ^ (24 - odd), for an m of 24 digits.
pub fn estimate(m: u32, odd: u32) -> u64
    requires { odd < 2 }
    ensures { result < 2 ^ 25 }
{
    let p = part(odd * 8 + m / 1048576 % 8);
    let u = (1048575 - m % 1048576) as u64;
    let third = (p.3 as u64) + share(p.4 as u64, u);
    let second = (p.2 as u64) + share(third, u);
    let first = (p.1 as u64) + share(second, u);
    std::num::wrapping_sub_u64(p.0, share(first, u)) / CURVE_UNIT % 33554432
}
