// The archive: the public calls for programs in other languages. `rt lib` here writes libdokphalun.a.
// A list is handed over as a pointer to its first element and a number of elements.
#![tactic(auto)]

ghost use Rattle.definition.specs.Handed.{call, handed};
ghost use Rattle.std.specs.Prelude.{◌≡◌};
ghost use Rattle.mikktspace.specs.Contract.{Contract};
ghost use Rattle.reasons.specs.Contract.{Explains};
ghost use Rattle.worth.specs.Contract.{Judges};
ghost use Rattle.mesh.specs.Parts.{span_of};
ghost use Rattle.labels.specs.Labels.{Labels};
ghost use Rattle.apart.specs.Call.{lists, Contract as Islands};
ghost use Rattle.appends.specs.Contract.{Follows, Appends};
ghost use Rattle.blocks.specs.declared.Kind.TheVariants.{Ten, Twelve};
ghost use Rattle.cards.specs.Contract.{Writes, Reads};
ghost use Rattle.packed.specs.Contract.{Packs, Unpacks};
ghost use Rattle.examine.specs.Contract.{Examines, Hands};
ghost use Rattle.tangent.specs.Slot.{slot_words};
ghost use Rattle.dokphalun.specs.Interface.{interface_edition};

use appends::{Appended, Next};
use blocks::Kind;
use cards::{CardFound, Written};
use examine::{Examined, Owned};
use labels::Labelled;
use mesh::Span;
use mikktspace::Outcome;
use packed::{Packed, Unpacked};
use worth::Judged;

// The words of a slot.
const SLOT_WORDS: u32 = tangent::SLOT_WORDS as u32;

// The edition of the interface.
const INTERFACE: u32 = 3;

// How many words a slot has.
#[unsafe(no_mangle)]
pub extern "C" fn dokphalun_slot_words() -> u32
    ensures { result ≡ slot_words }
{
    SLOT_WORDS
}

// Which edition of the interface this is: a program that was made for another has to refuse it.
#[unsafe(no_mangle)]
pub extern "C" fn dokphalun_interface() -> u32
    ensures { result ≡ interface_edition }
{
    INTERFACE
}

// See mikktspace::generate_tangent_space.
#[unsafe(no_mangle)]
pub extern "C" fn dokphalun_frames(
    sizes: &[u8],
    positions: &[f32],
    normals: &[f32],
    texture: &[f32],
    threshold: f32,
    answer: &mut [u32],
    work: &mut [u32],
) -> Outcome
    ensures { Contract (call (handed sizes.now positions.now normals.now texture.now) threshold answer.old work.old) result answer.new work.new }
{
    mikktspace::generate_tangent_space(sizes, positions, normals, texture, threshold, answer, work)
}

// See reasons::explain.
#[unsafe(no_mangle)]
pub extern "C" fn dokphalun_reasons(
    sizes: &[u8],
    positions: &[f32],
    normals: &[f32],
    texture: &[f32],
    threshold: f32,
    answer: &mut [u32],
    work: &mut [u32],
    reasons: &mut [u8],
) -> Outcome
    ensures { Explains (call (handed sizes.now positions.now normals.now texture.now) threshold answer.old work.old) reasons.old result answer.new work.new reasons.new }
{
    reasons::explain(
        sizes, positions, normals, texture, threshold, answer, work, reasons,
    )
}

// See worth::judge.
#[unsafe(no_mangle)]
pub extern "C" fn dokphalun_judge(answer: &[u32], verdicts: &mut [u8]) -> Judged
    ensures { Judges answer.now verdicts.old result verdicts.new }
{
    worth::judge(answer, verdicts)
}

// See mesh::span_of.
#[unsafe(no_mangle)]
pub extern "C" fn dokphalun_part(
    sizes: &[u8],
    positions: &[f32],
    normals: &[f32],
    texture: &[f32],
    list: u32,
    face: usize,
) -> Span
    ensures { result ≡ span_of (handed sizes.now positions.now normals.now texture.now) list face }
{
    mesh::span_of(sizes, positions, normals, texture, list, face)
}

// See labels::label_faces.
#[unsafe(no_mangle)]
pub extern "C" fn dokphalun_labels(
    sizes: &[u8],
    positions: &[f32],
    normals: &[f32],
    texture: &[f32],
    labels: &mut [u32],
    work: &mut [u32],
) -> Labelled
    ensures { Labels (handed sizes.now positions.now normals.now texture.now) labels.old work.old result labels.new work.new }
{
    labels::label_faces(sizes, positions, normals, texture, labels, work)
}

// See apart::frames_by_islands.
#[unsafe(no_mangle)]
pub extern "C" fn dokphalun_frames_by_islands(
    sizes: &[u8],
    positions: &[f32],
    normals: &[f32],
    texture: &[f32],
    threshold: f32,
    answer: &mut [u32],
    work: &mut [u32],
    labels: &mut [u32],
    chains: &mut [u32],
    own_sizes: &mut [u8],
    own_numbers: &mut [f32],
    own_frames: &mut [u32],
) -> Outcome
    ensures { Islands (call (handed sizes.now positions.now normals.now texture.now) threshold answer.old work.old) (lists labels.old chains.old own_sizes.old own_numbers.old own_frames.old) result answer.new work.new (lists labels.new chains.new own_sizes.new own_numbers.new own_frames.new) }
{
    apart::frames_by_islands(
        sizes,
        positions,
        normals,
        texture,
        threshold,
        answer,
        work,
        labels,
        chains,
        own_sizes,
        own_numbers,
        own_frames,
    )
}

// See cards::write.
#[unsafe(no_mangle)]
pub extern "C" fn dokphalun_card_write(answer: &[u32], card: &mut [u8]) -> Written
    ensures { Writes Twelve answer.now card.old result card.new }
{
    cards::write(answer, card)
}

// See cards::read.
#[unsafe(no_mangle)]
pub extern "C" fn dokphalun_card_read(card: &[u8], total: u32, answer: &mut [u32]) -> CardFound
    ensures { Reads Twelve card.now total answer.old result answer.new }
{
    cards::read(card, total, answer)
}

// See appends::next_block.
#[unsafe(no_mangle)]
pub extern "C" fn dokphalun_card_next(long: usize, total: u32) -> Next
    ensures { Follows Twelve long total result }
{
    appends::next_block(long, total)
}

// See appends::append.
#[unsafe(no_mangle)]
pub extern "C" fn dokphalun_card_append(
    long: usize,
    total: u32,
    records: &[u32],
    lent: &mut [u8],
) -> Appended
    ensures { Appends Twelve long total records.now lent.old result lent.new }
{
    appends::append(long, total, records, lent)
}

// The four calls for a card of the old kind, of ten words a record: see cards::write_as.
#[unsafe(no_mangle)]
pub extern "C" fn dokphalun_old_card_write(records: &[u32], card: &mut [u8]) -> Written
    ensures { Writes Ten records.now card.old result card.new }
{
    cards::write_as(Kind::Ten, records, card)
}

// See cards::read_as.
#[unsafe(no_mangle)]
pub extern "C" fn dokphalun_old_card_read(card: &[u8], total: u32, records: &mut [u32]) -> CardFound
    ensures { Reads Ten card.now total records.old result records.new }
{
    cards::read_as(Kind::Ten, card, total, records)
}

// See appends::next_block_as.
#[unsafe(no_mangle)]
pub extern "C" fn dokphalun_old_card_next(long: usize, total: u32) -> Next
    ensures { Follows Ten long total result }
{
    appends::next_block_as(Kind::Ten, long, total)
}

// See appends::append_as.
#[unsafe(no_mangle)]
pub extern "C" fn dokphalun_old_card_append(
    long: usize,
    total: u32,
    records: &[u32],
    lent: &mut [u8],
) -> Appended
    ensures { Appends Ten long total records.now lent.old result lent.new }
{
    appends::append_as(Kind::Ten, long, total, records, lent)
}

// See packed::pack.
#[unsafe(no_mangle)]
pub extern "C" fn dokphalun_pack(answer: &[u32], numbers: &mut [u16]) -> Packed
    ensures { Packs answer.now numbers.old result numbers.new }
{
    packed::pack(answer, numbers)
}

// See packed::unpack.
#[unsafe(no_mangle)]
pub extern "C" fn dokphalun_unpack(numbers: &[u16], answer: &mut [u32]) -> Unpacked
    ensures { Unpacks numbers.now answer.old result answer.new }
{
    packed::unpack(numbers, answer)
}

// See examine::examine.
#[unsafe(no_mangle)]
pub extern "C" fn dokphalun_examine(
    sizes: &[u8],
    positions: &[f32],
    normals: &[f32],
    texture: &[f32],
    links: &[u32],
    groups: &[u32],
    orientations: &[u32],
    work: &mut [u32],
) -> Examined
    ensures { Examines (handed sizes.now positions.now normals.now texture.now) links.now groups.now orientations.now work.old result work.new }
{
    examine::examine(
        sizes,
        positions,
        normals,
        texture,
        links,
        groups,
        orientations,
        work,
    )
}

// See examine::own_links.
#[unsafe(no_mangle)]
pub extern "C" fn dokphalun_links(
    sizes: &[u8],
    positions: &[f32],
    normals: &[f32],
    texture: &[f32],
    links: &mut [u32],
    groups: &mut [u32],
    orientations: &mut [u32],
    work: &mut [u32],
) -> Owned
    ensures { Hands (handed sizes.now positions.now normals.now texture.now) links.old groups.old orientations.old work.old result links.new groups.new orientations.new work.new }
{
    examine::own_links(
        sizes,
        positions,
        normals,
        texture,
        links,
        groups,
        orientations,
        work,
    )
}
