// The examiner of somebody else's links, groups and orientations for a mesh, which are not trusted, and our own handed out as it reads them (request E10).
#![tactic(auto)]

ghost use Rattle.std.specs.Prelude.{◌≡◌, Bool, ℕ, ◌*◌, ◌≤◌, ◌<◌, length, MatchResult};
ghost use Rattle.std.proofs.Math.Option.{none};
ghost use Rattle.std.proofs.lemmas.List.Edits.{sets};
ghost use Rattle.table.specs.Columns.{columns, vertex_column};
ghost use Rattle.lists.specs.Loops.{list_of};
ghost use Rattle.table.specs.Table.{cell};
ghost use Rattle.view.specs.Frame.{Only};
ghost use Rattle.neighbors.specs.Sides.{end_row};
ghost use Rattle.desk.specs.Verdict as desk;
ghost use Rattle.mesh.specs.Parts.{given};
ghost use Rattle.examiner.specs.Said.{number_in, place_in};
ghost use Rattle.examine.specs.Contract as spec;
ghost use Rattle.examine.specs.Deciding.{OnLengths, Overall, all_columns};
ghost use Rattle.definition.specs.Handed.{handed};
ghost use Rattle.definition.specs.Limits.{face_limit};

use desk::Refusal;
use examiner::{Fault, Objection};
use mesh::Mesh;

// What the examiner says: the number of the desk's refusal, or 0; the number of an objection, or 0; the place of either.
#[repr(C)]
#[derive(Clone, Copy)]
pub struct Examined {
    pub refusal: u32,
    pub objection: u32,
    pub place: u32,
}

// What is said with our own lists: the number of a refusal and its place, or 0 and 0; and how many triangles are sound.
#[repr(C)]
#[derive(Clone, Copy)]
pub struct Owned {
    pub number: u32,
    pub place: u32,
    pub sound: u32,
}

// How many triangles are sound, or why none were looked at, as it is handed out.
impl From<Result<u32, Refusal>> for Owned {
    ghost from_gives = { λ made owned. owned ≡ spec.owned_of made };

    #[tactic(auto, unfolding(crate::specs::Contract::owned_of))]
    fn from(made: Result<u32, Refusal>) -> Owned {
        match made {
            Ok(sound) => Owned {
                number: 0,
                place: 0,
                sound,
            },
            Err(refusal) => Owned {
                number: refusal.number(),
                place: refusal.place(),
                sound: 0,
            },
        }
    }
}

// The desk, asked with a threshold of 0 and as long an answer list as there can be, so that refusals 3 and 5 never apply.
fn ask(mesh: &Mesh, work: usize) -> Result<(), Refusal>
    ensures { desk.told result ≡ desk.as_verdict (spec.refusal (given mesh.now) work) }
{
    desk::judge(mesh, 0.0, mikktspace::LONGEST_ANSWER, work)
}

// ---- the examiner

// Objection 1 to the list of this number, unless it has the length wanted.
fn refuse_misfit(list: u32, length: usize, wanted: usize) -> Result<(), Objection>
    ensures { MatchResult result (λ _. length ≡ wanted) (λ o. (o.fault ≡ Fault.Misfit) × (o.place ≡ list) × (length ≡ wanted → ⊥)) }
{
    if length == wanted {
        return Ok(());
    }
    Err(Objection {
        fault: Fault::Misfit,
        place: list,
    })
}

// Objection 1, for so many triangles.
fn examine_lengths(
    tris: usize,
    links: &[u32],
    groups: &[u32],
    ways: &[u32],
) -> Result<(), Objection>
    requires { 3 * tris < 4294967295 }
    ensures { OnLengths tris links.now groups.now ways.now (number_in result) (place_in result) }
{
    refuse_misfit(0, links.len(), 3 * tris)?;
    refuse_misfit(1, groups.len(), 3 * tris)?;
    refuse_misfit(2, ways.len(), tris)
}

// Objections 1 to 12, for so many sound triangles, which stand in the columns.
fn examine_all(
    links: &[u32],
    groups: &[u32],
    ways: &[u32],
    work: &mut [u32],
    rows: usize,
    tris: usize,
) -> Result<(), Objection>
    requires { (3 * tris ≤ rows) × (columns * rows ≤ length work.old) × (rows < 4294967295) × ((r : ℕ) → r < 3 * tris → cell rows vertex_column r work.old ≡ cell rows vertex_column (end_row r) work.old → ⊥) }
    ensures verdict { Overall rows tris work.old links.now groups.now ways.now (number_in result) (place_in result) }
    ensures only { Only all_columns rows work.old work.new }
{
    examine_lengths(tris, links, groups, ways)?;
    examiner::examine_links(work, rows, tris, links)?;
    fellows::examine_groups(work, rows, tris, links, groups, ways)
}

// The same for a mesh that the desk accepts; the work list is cleared.
fn decide(
    mesh: &Mesh,
    links: &[u32],
    groups: &[u32],
    ways: &[u32],
    work: &mut [u32],
) -> Result<(), Objection>
    requires { spec.refusal (given mesh.now) (length work.old) ≡ none }
    ensures decides { spec.Decides (spec.sound_of (given mesh.now)) links.now groups.now ways.now (number_in result) (place_in result) }
    ensures clears { work.new ≡ spec.cleared_for mesh.now.sizes.now work.old }
{
    let faces = mesh.sizes.len();
    let counts = grouped::link_mesh(mesh, work);
    let o = examine_all(links, groups, ways, work, 6 * faces, counts.sound);
    table::clear_first(work, definition::WORK_WORDS * faces);
    o
}

// Somebody else's lists for a mesh: three words of links and three of groups for each sound triangle and one of orientation. 0, 0 and 0: they are accepted.
// The work list is lent, and WORK_WORDS words a face of it are cleared; a refusal does not alter it.
pub fn examine(
    sizes: &[u8],
    positions: &[f32],
    normals: &[f32],
    texture: &[f32],
    links: &[u32],
    groups: &[u32],
    orientations: &[u32],
    work: &mut [u32],
) -> Examined
    ensures { spec.Examines (handed sizes.now positions.now normals.now texture.now) links.now groups.now orientations.now work.old result work.new }
{
    let mesh = Mesh {
        sizes,
        positions,
        normals,
        texture,
    };
    if let Err(refusal) = ask(&mesh, work.len()) {
        return Examined {
            refusal: refusal.number(),
            objection: 0,
            place: refusal.place(),
        };
    }
    match decide(&mesh, links, groups, orientations, work) {
        Ok(()) => Examined {
            refusal: 0,
            objection: 0,
            place: 0,
        },
        Err(o) => Examined {
            refusal: 0,
            objection: u32::from(o.fault),
            place: o.place,
        },
    }
}

// ---- our own lists

// The first n words of a column, copied to the front of a list.
fn copy_out(work: &[u32], rows: usize, column: usize, n: usize, list: &mut [u32])
    requires { (n ≤ rows) × (column < columns) × (columns * rows ≤ length work.now) × (n ≤ length list.old) }
    ensures { list.new ≡ sets list.old 0 (list_of n (λ i. cell rows column i work.now)) }
{
    let from = column * rows;
    for (i, w) in list[..n].iter_mut().enumerate() {
        *w = work[from + i];
    }
}

// Whether one of the three lists, of these lengths, is too short for so many faces.
#[tactic(auto, unfolding(crate::specs::Contract::too_short))]
fn short(faces: usize, links: usize, groups: usize, orientations: usize) -> bool
    requires { faces ≤ face_limit }
    ensures { result ≡ spec.too_short faces links groups orientations }
{
    links < 6 * faces || groups < 6 * faces || orientations < 2 * faces
}

// Steps 1 to 6 for a mesh that the desk accepts, and the lists out of their columns; the work list is cleared. The result is how many triangles are sound.
fn hand_out(
    mesh: &Mesh,
    links: &mut [u32],
    groups: &mut [u32],
    orientations: &mut [u32],
    work: &mut [u32],
) -> u32
    requires { (spec.refusal (given mesh.now) (length work.old) ≡ none) × (6 * length mesh.now.sizes.now ≤ length links.old) × (6 * length mesh.now.sizes.now ≤ length groups.old) × (2 * length mesh.now.sizes.now ≤ length orientations.old) }
    ensures { spec.HandedOut (given mesh.now) links.old groups.old orientations.old work.old result links.new groups.new orientations.new work.new }
{
    let rows = 6 * mesh.sizes.len();
    let counts = grouped::group_mesh(mesh, work);
    let n = counts.sound;
    copy_out(work, rows, table::LINK, 3 * n, links);
    copy_out(work, rows, table::GROUP, 3 * n, groups);
    copy_out(work, rows, table::ORIENTATION, n, orientations);
    table::clear_first(work, definition::WORK_WORDS * mesh.sizes.len());
    n as u32
}

// The desk, the room in the three lists, and then the lists: how many triangles are sound, or why nothing was handed out.
fn try_links(
    mesh: &Mesh,
    links: &mut [u32],
    groups: &mut [u32],
    orientations: &mut [u32],
    work: &mut [u32],
) -> Result<u32, Refusal>
    ensures { spec.Hands (given mesh.now) links.old groups.old orientations.old work.old (spec.owned_of result) links.new groups.new orientations.new work.new }
{
    ask(mesh, work.len())?;
    let faces = mesh.sizes.len();
    let few = short(faces, links.len(), groups.len(), orientations.len());
    if few {
        return Err(Refusal::ShortOwn);
    }
    Ok(hand_out(mesh, links, groups, orientations, work))
}

// Our own links, groups and orientations of a mesh: three words, three and one for each sound triangle, at the front of the three lists. They must have room for two triangles a face, else the refusal is 9.
// The work list is lent, and WORK_WORDS words a face of it are cleared; a refusal alters no list.
pub fn own_links(
    sizes: &[u8],
    positions: &[f32],
    normals: &[f32],
    texture: &[f32],
    links: &mut [u32],
    groups: &mut [u32],
    orientations: &mut [u32],
    work: &mut [u32],
) -> Owned
    ensures { spec.Hands (handed sizes.now positions.now normals.now texture.now) links.old groups.old orientations.old work.old result links.new groups.new orientations.new work.new }
{
    let mesh = Mesh {
        sizes,
        positions,
        normals,
        texture,
    };
    Owned::from(try_links(&mesh, links, groups, orientations, work))
}
