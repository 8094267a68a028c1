// Proved functions as exports, for the bench and for the comparison with Rust. No part of the user's archive.
#![tactic(auto)]

ghost use Rattle.std.specs.Prelude.{◌≡◌, true, ℕ, ◌*◌, ◌<◌, ◌≤◌, length};
ghost use Rattle.angle.specs.Angle.{angle};
ghost use Rattle.definition.specs.Handed.{handed};
ghost use Rattle.definition.specs.Desk.{shown, verdict};
ghost use Rattle.desk.specs.Verdict.{as_verdict};
ghost use Rattle.exports.specs.Packed.{packed};
ghost use Rattle.root.specs.Root.{sqrt};
ghost use Rattle.table.specs.Columns.{columns, link_column};
ghost use Rattle.table.specs.Table.{cell};

use mesh::Mesh;

// The root of document 01.
#[unsafe(no_mangle)]
pub extern "C" fn export_sqrt(x: f32) -> f32
    ensures { result ≡ sqrt x }
{
    root::sqrt(x)
}

// The angle of document 01 as request E3 amends it, with a table of its own.
#[unsafe(no_mangle)]
pub extern "C" fn export_acos(x: f32) -> f32
    ensures { result ≡ angle x }
{
    angle::acos(x)
}

// The angles of many cosines with one table, as a step takes them: as many as both lists have room for.
#[unsafe(no_mangle)]
pub extern "C" fn export_acos_all(xs: &[f32], out: &mut [f32]) {
    let table = angle::table();
    for (y, &x) in out.iter_mut().zip(xs) {
        *y = angle::acos_by(&table, x);
    }
}

// The desk's verdict as one number: the refusal's number times 2 ^ 32, and its place.
#[tactic(auto, unfolding(crate::specs::Packed::packed, desk::specs::Verdict::told))]
#[unsafe(no_mangle)]
pub extern "C" fn export_judge(
    sizes: &[u8],
    positions: &[f32],
    normals: &[f32],
    texture: &[f32],
    threshold: f32,
    answer: usize,
    work: usize,
) -> u64
    ensures { result ≡ packed (as_verdict (verdict (shown (handed sizes.now positions.now normals.now texture.now) threshold answer work))) }
{
    let mesh = Mesh {
        sizes,
        positions,
        normals,
        texture,
    };
    match desk::judge(&mesh, threshold, answer, work) {
        Ok(()) => 0,
        Err(refusal) => (refusal.number() as u64) * 0x1_0000_0000 + refusal.place() as u64,
    }
}

// A count as a word.
fn word(n: usize) -> u32 {
    (n % 0x1_0000_0000) as u32
}

// ---- the two walks of step 6, to compare them: on columns that hold anything whatever

// The rows of 4,096 faces: so far the old walk is for comparison.
const OLD_ROWS: usize = 24576;

// Whether each link leads to a side of the triangles.
fn links_fit(work: &[u32], rows: usize, tris: usize) -> bool
    requires { (3 * tris ≤ rows) × (columns * rows ≤ length work.now) }
    ensures { result ≡ true → (r : ℕ) → r < 3 * tris → cell rows link_column r work.now ≤ 3 * tris }
{
    for r in 0..3 * tris {
        if 3 * tris < work[table::LINK * rows + r] as usize {
            return false;
        }
    }
    true
}

// Whether a walk may be called on a list of at most so many rows.
fn may_walk(work: &[u32], rows: usize, tris: usize, most: usize) -> bool
    ensures { result ≡ true → (3 * tris ≤ rows) × (columns * rows ≤ length work.now) × (rows < 4294967295) × ((r : ℕ) → r < 3 * tris → cell rows link_column r work.now ≤ 3 * tris) }
{
    if most < rows || 4294967294 < rows || rows < tris || rows < 3 * tris {
        return false;
    }
    work.len() >= table::COLUMNS * rows && links_fit(work, rows, tris)
}

// Groups times 2 ^ 32, and members; all ones where a walk may not be called, and then nothing is done.
fn both(c: groups::GroupCounts) -> u64 {
    (c.groups as u64) * 0x1_0000_0000 + word(c.members) as u64
}

// The old walk, up to 4,096 faces.
#[unsafe(no_mangle)]
pub extern "C" fn export_walk_old(work: &mut [u32], rows: usize, tris: usize) -> u64 {
    if may_walk(work, rows, tris, OLD_ROWS) {
        return both(groups::build_4_rule_groups(work, rows, tris));
    }
    0xffff_ffff_ffff_ffff
}

// The flat walk, which the public call takes.
#[unsafe(no_mangle)]
pub extern "C" fn export_walk_flat(work: &mut [u32], rows: usize, tris: usize) -> u64 {
    if may_walk(work, rows, tris, rows) {
        return both(flat::build_4_rule_groups(work, rows, tris));
    }
    0xffff_ffff_ffff_ffff
}
