// The C interface: include/vejgodat.h says what each function takes, checks and answers. A slice is a pointer and a count.
#![tactic(auto)]

ghost use Rattle.std.specs.Prelude.{◌≡◌};
ghost use Rattle.offsets.specs.Calls.{table_refusal, table_range};
ghost use Rattle.offsets_write.specs.Calls.{table_length_answer, write_table};
ghost use Rattle.records.specs.Shape.{corners};
ghost use Rattle.leaves.specs.Calls.{table_from_leaves, table_from_weights, table_from_blocks};
ghost use Rattle.mesh.specs.Mesh.{mesh_refusal};
ghost use Rattle.brick.specs.Calls.{brick_length_of, write_brick_of};
ghost use Rattle.build_all.specs.Calls.{build_all_length_of, build_all_of};
ghost use Rattle.deliver_all.specs.Calls.{deliver_all_of};
ghost use Rattle.area_open.specs.Calls.{area_length_of, open_area_of, progress_of};
ghost use Rattle.area.specs.Close.{close_length_of, close_of};
ghost use Rattle.area.specs.Deliver.{deliver_of};
ghost use Rattle.message.specs.Calls.{message_refusal, message_length_of, build_message_of};
ghost use Rattle.part_cut.specs.Calls.{part_length_of, cut_part_of};
ghost use Rattle.part_check.specs.Calls.{part_refusal};
ghost use Rattle.part_neighbour.specs.Calls.{neighbour_answer};
ghost use Rattle.lookup.specs.Lookup.{found_record};
ghost use Rattle.part_neighbour.specs.Neighbour.{flat_answer};
ghost use Rattle.ele_mesh.specs.Calls.{triangle_length, import_triangle};
ghost use Rattle.refinement.specs.Calls.{count_leaves};
ghost use Rattle.refinement_list.specs.Calls.{leaf_counts};
ghost use Rattle.pattern.specs.Calls.{sender_of, trees_sent, send_set_of, receive_set_of};
ghost use Rattle.regions.specs.Calls.{region_counts_of};
ghost use Rattle.probes.specs.Calls.{trees_near};
ghost use Rattle.table_fault.specs.Calls.{table_fault_of};
ghost use Rattle.faults.specs.Calls.{mesh_fault_of};
ghost use Rattle.part_fault.specs.Calls.{part_fault_of};
ghost use Rattle.headers.specs.Calls.{part_header_of, mesh_header_of};
ghost use Rattle.columns.specs.Calls.{part_to_columns, columns_to_part};
ghost use Rattle.restart.specs.Calls.{pad_table, empty_part_of, relabel_part};

use area_open::Progress;
use build_all::Messages;
use encoding::answer::{Count, Length};
use encoding::refusal::number_of;
use faults::answer::Fault;
use headers::answer::WrongField;
use lookup::Found;
use offsets::Range;
use part_neighbour::link::NeighbourAnswer;
use pattern::holder::sender_answer;
use pattern::set::ranks_answer;
use pattern::{Ranks, SenderAnswer};
use probes::Probe;
use records::index::{GlobalIndex, LocalIndex};
use refinement::Leaves;

// 10000 major + 100 minor + patch
#[unsafe(no_mangle)]
pub extern "C" fn vejgodat_version() -> u32
    ensures { result ≡ 600 }
{
    600
}

#[unsafe(no_mangle)]
pub extern "C" fn vejgodat_check_table(table: &[u8]) -> u32
    ensures { result ≡ table_refusal table.now }
{
    number_of(offsets::check_table(table))
}

#[unsafe(no_mangle)]
pub extern "C" fn vejgodat_table_length(ranks: u32) -> Length
    ensures { result ≡ table_length_answer ranks }
{
    Length::from(offsets_write::table_length(ranks))
}

#[unsafe(no_mangle)]
pub extern "C" fn vejgodat_table_range(table: &[u8], rank: u32) -> Range
    ensures { result ≡ table_range table.now rank }
{
    Range::from(offsets::table_range(table, rank))
}

#[unsafe(no_mangle)]
pub extern "C" fn vejgodat_write_table(
    ranks: u32,
    first: &[u32],
    count: &[u32],
    out: &mut [u8],
) -> Length
    ensures { (result, out.new) ≡ write_table ranks first.now count.now out.old }
{
    Length::from(offsets_write::write_table(ranks, first, count, out))
}

#[unsafe(no_mangle)]
pub extern "C" fn vejgodat_table_from_leaves(ranks: u32, leaves: &[u32], out: &mut [u8]) -> Length
    ensures { (result, out.new) ≡ table_from_leaves ranks leaves.now out.old }
{
    Length::from(leaves::table_from_leaves(ranks, leaves, out))
}

#[unsafe(no_mangle)]
pub extern "C" fn vejgodat_sender_of(
    old: &[u8],
    new: &[u8],
    tree: u32,
    receiver: u32,
) -> SenderAnswer
    ensures { result ≡ sender_of old.now new.now tree receiver }
{
    sender_answer(pattern::sender_of(old, new, tree, receiver))
}

#[unsafe(no_mangle)]
pub extern "C" fn vejgodat_trees_sent(old: &[u8], new: &[u8], sender: u32, receiver: u32) -> Range
    ensures { result ≡ trees_sent old.now new.now sender receiver }
{
    Range::from(pattern::trees_sent(old, new, sender, receiver))
}

#[unsafe(no_mangle)]
pub extern "C" fn vejgodat_send_set(old: &[u8], new: &[u8], rank: u32, out: &mut [u32]) -> Ranks
    ensures { (result, out.new) ≡ send_set_of old.now new.now rank out.old }
{
    let answer = pattern::send_set(old, new, rank, &mut *out);
    ranks_answer(answer, out)
}

#[unsafe(no_mangle)]
pub extern "C" fn vejgodat_receive_set(old: &[u8], new: &[u8], rank: u32, out: &mut [u32]) -> Ranks
    ensures { (result, out.new) ≡ receive_set_of old.now new.now rank out.old }
{
    let answer = pattern::receive_set(old, new, rank, &mut *out);
    ranks_answer(answer, out)
}

#[unsafe(no_mangle)]
pub extern "C" fn vejgodat_corners(shape: u32, face: u32) -> u32
    ensures { result ≡ corners shape face }
{
    records::corners(shape, face)
}

#[unsafe(no_mangle)]
pub extern "C" fn vejgodat_check_mesh(mesh: &[u8]) -> u32
    ensures { result ≡ mesh_refusal mesh.now }
{
    number_of(mesh::check_mesh(mesh))
}

#[unsafe(no_mangle)]
pub extern "C" fn vejgodat_brick_length(a: u32, b: u32, c: u32) -> Length
    ensures { result ≡ brick_length_of a b c }
{
    Length::from(brick::brick_length(a, b, c))
}

#[unsafe(no_mangle)]
pub extern "C" fn vejgodat_write_brick(
    a: u32,
    b: u32,
    c: u32,
    p: u32,
    q: u32,
    r: u32,
    out: &mut [u8],
) -> Length
    ensures { (result, out.new) ≡ write_brick_of a b c p q r out.old }
{
    Length::from(brick::write_brick(a, b, c, p, q, r, out))
}

#[unsafe(no_mangle)]
pub extern "C" fn vejgodat_part_length(mesh: &[u8], table: &[u8], rank: u32) -> Length
    ensures { result ≡ part_length_of mesh.now table.now rank }
{
    Length::from(part_cut::part_length(mesh, table, rank))
}

#[unsafe(no_mangle)]
pub extern "C" fn vejgodat_cut_part(mesh: &[u8], table: &[u8], rank: u32, out: &mut [u8]) -> Length
    ensures { (result, out.new) ≡ cut_part_of mesh.now table.now rank out.old }
{
    Length::from(part_cut::cut_part(mesh, table, rank, out))
}

#[unsafe(no_mangle)]
pub extern "C" fn vejgodat_check_part(part: &[u8], table: &[u8], rank: u32) -> u32
    ensures { result ≡ part_refusal part.now table.now rank }
{
    number_of(part_check::check_part(part, table, rank))
}

#[unsafe(no_mangle)]
pub extern "C" fn vejgodat_neighbour_of(
    part: &[u8],
    table: &[u8],
    rank: u32,
    local: u32,
    face: u32,
) -> NeighbourAnswer
    ensures { result ≡ flat_answer (neighbour_answer part.now table.now rank local face) }
{
    NeighbourAnswer::from(part_neighbour::neighbour_of(part, table, rank, LocalIndex(local), face))
}

#[unsafe(no_mangle)]
pub extern "C" fn vejgodat_lookup(trees: &[u8], ghosts: &[u8], number: u32) -> Found
    ensures { result ≡ found_record trees.now ghosts.now number }
{
    Found::from(lookup::find_record(trees, ghosts, GlobalIndex(number)))
}

#[unsafe(no_mangle)]
pub extern "C" fn vejgodat_check_message(message: &[u8]) -> u32
    ensures { result ≡ message_refusal message.now }
{
    number_of(message::check_message(message))
}

#[unsafe(no_mangle)]
pub extern "C" fn vejgodat_message_length(
    part: &[u8],
    old: &[u8],
    new: &[u8],
    sender: u32,
    receiver: u32,
) -> Length
    ensures { result ≡ message_length_of part.now old.now new.now sender receiver }
{
    Length::from(message_build::message_length(part, old, new, sender, receiver))
}

#[unsafe(no_mangle)]
pub extern "C" fn vejgodat_build_message(
    part: &[u8],
    old: &[u8],
    new: &[u8],
    sender: u32,
    receiver: u32,
    epoch: u32,
    out: &mut [u8],
) -> Length
    ensures { (result, out.new) ≡ build_message_of part.now old.now new.now sender receiver epoch out.old }
{
    Length::from(message_build::build_message(part, old, new, sender, receiver, epoch, out))
}

#[unsafe(no_mangle)]
pub extern "C" fn vejgodat_build_all_length(
    part: &[u8],
    old: &[u8],
    new: &[u8],
    sender: u32,
) -> Messages
    ensures { result ≡ build_all_length_of part.now old.now new.now sender }
{
    Messages::from(build_all::build_all_length(part, old, new, sender))
}

#[unsafe(no_mangle)]
pub extern "C" fn vejgodat_build_all(
    part: &[u8],
    old: &[u8],
    new: &[u8],
    sender: u32,
    epoch: u32,
    out: &mut [u8],
) -> Messages
    ensures { (result, out.new) ≡ build_all_of part.now old.now new.now sender epoch out.old }
{
    Messages::from(build_all::build_all(part, old, new, sender, epoch, out))
}

#[unsafe(no_mangle)]
pub extern "C" fn vejgodat_area_length(old: &[u8], new: &[u8], rank: u32, dimension: u32) -> Length
    ensures { result ≡ area_length_of old.now new.now rank dimension }
{
    Length::from(area_open::area_length(old, new, rank, dimension))
}

#[unsafe(no_mangle)]
pub extern "C" fn vejgodat_open_area(
    old: &[u8],
    new: &[u8],
    rank: u32,
    dimension: u32,
    epoch: u32,
    out: &mut [u8],
) -> Length
    ensures { (result, out.new) ≡ open_area_of old.now new.now rank dimension epoch out.old }
{
    Length::from(area_open::open_area(old, new, rank, dimension, epoch, out))
}

#[unsafe(no_mangle)]
pub extern "C" fn vejgodat_deliver(area: &mut [u8], message: &[u8]) -> u32
    ensures { (result, area.new) ≡ deliver_of area.old message.now }
{
    number_of(deliver::deliver(area, message))
}

#[unsafe(no_mangle)]
pub extern "C" fn vejgodat_deliver_all(
    area: &mut [u8],
    messages: &[u8],
    answers: &mut [u32],
) -> Count
    ensures { (result, (area.new, answers.new)) ≡ deliver_all_of area.old messages.now answers.old }
{
    Count::from(deliver_all::deliver_all(area, messages, answers))
}

#[unsafe(no_mangle)]
pub extern "C" fn vejgodat_progress_of(area: &[u8]) -> Progress
    ensures { result ≡ progress_of area.now }
{
    Progress::from(area_open::progress_of(area))
}

#[unsafe(no_mangle)]
pub extern "C" fn vejgodat_part_of_area_length(area: &[u8]) -> Length
    ensures { result ≡ close_length_of area.now }
{
    Length::from(close::part_of_area_length(area))
}

#[unsafe(no_mangle)]
pub extern "C" fn vejgodat_close_area(area: &[u8], out: &mut [u8]) -> Length
    ensures { (result, out.new) ≡ close_of area.now out.old }
{
    Length::from(close::close_area(area, out))
}

#[unsafe(no_mangle)]
pub extern "C" fn vejgodat_count_leaves(shape: u32, bits: &[u8]) -> Leaves
    ensures { result ≡ count_leaves shape bits.now }
{
    Leaves::from(refinement::count_leaves(shape, bits))
}

#[unsafe(no_mangle)]
pub extern "C" fn vejgodat_leaf_counts(
    shapes: &[u32],
    lengths: &[u32],
    bits: &[u8],
    out: &mut [u32],
) -> Count
    ensures { (result, out.new) ≡ leaf_counts shapes.now lengths.now bits.now out.old }
{
    Count::from(refinement_list::leaf_counts(shapes, lengths, bits, out))
}

#[unsafe(no_mangle)]
pub extern "C" fn vejgodat_region_counts(
    part: &[u8],
    table: &[u8],
    rank: u32,
    out: &mut [u32],
) -> u32
    ensures { (result, out.new) ≡ region_counts_of part.now table.now rank out.old }
{
    number_of(regions::region_counts(part, table, rank, out))
}

#[unsafe(no_mangle)]
pub extern "C" fn vejgodat_part_to_columns(
    part: &[u8],
    table: &[u8],
    rank: u32,
    out: &mut [u8],
) -> Length
    ensures { (result, out.new) ≡ part_to_columns part.now table.now rank out.old }
{
    Length::from(columns::part_to_columns(part, table, rank, out))
}

#[unsafe(no_mangle)]
pub extern "C" fn vejgodat_columns_to_part(
    columns: &[u8],
    table: &[u8],
    rank: u32,
    out: &mut [u8],
) -> Length
    ensures { (result, out.new) ≡ columns_to_part columns.now table.now rank out.old }
{
    Length::from(columns::columns_to_part(columns, table, rank, out))
}

#[unsafe(no_mangle)]
pub extern "C" fn vejgodat_pad_table(table: &[u8], ranks: u32, out: &mut [u8]) -> Length
    ensures { (result, out.new) ≡ pad_table table.now ranks out.old }
{
    Length::from(restart::pad_table(table, ranks, out))
}

#[unsafe(no_mangle)]
pub extern "C" fn vejgodat_empty_part(
    table: &[u8],
    rank: u32,
    dimension: u32,
    out: &mut [u8],
) -> Length
    ensures { (result, out.new) ≡ empty_part_of table.now rank dimension out.old }
{
    Length::from(restart::empty_part(table, rank, dimension, out))
}

#[unsafe(no_mangle)]
pub extern "C" fn vejgodat_relabel_part(
    part: &[u8],
    table: &[u8],
    rank: u32,
    other: &[u8],
    q: u32,
    out: &mut [u8],
) -> Length
    ensures { (result, out.new) ≡ relabel_part part.now table.now rank other.now q out.old }
{
    Length::from(restart::relabel_part(part, table, rank, other, q, out))
}

#[unsafe(no_mangle)]
pub extern "C" fn vejgodat_table_from_weights(
    weights: &[u32],
    leaves: &[u32],
    out: &mut [u8],
) -> Length
    ensures { (result, out.new) ≡ table_from_weights weights.now leaves.now out.old }
{
    Length::from(leaves::table_from_weights(weights, leaves, out))
}

#[unsafe(no_mangle)]
pub extern "C" fn vejgodat_table_from_blocks(
    ranks: u32,
    leaves: &[u32],
    sums: &[u64],
    out: &mut [u8],
) -> Length
    ensures { (result, out.new) ≡ table_from_blocks ranks leaves.now sums.now out.old }
{
    Length::from(leaves::table_from_blocks(ranks, leaves, sums, out))
}

#[unsafe(no_mangle)]
pub extern "C" fn vejgodat_trees_at_point(
    part: &[u8],
    table: &[u8],
    rank: u32,
    x: f32,
    y: f32,
    z: f32,
    out: &mut [u32],
) -> Count
    ensures { (result, out.new) ≡ trees_near part.now table.now rank (Probe.Point x y z) out.old }
{
    Count::from(probes::trees_near(part, table, rank, Probe::Point(x, y, z), out))
}

#[unsafe(no_mangle)]
pub extern "C" fn vejgodat_trees_below(
    part: &[u8],
    table: &[u8],
    rank: u32,
    axis: u32,
    limit: f32,
    out: &mut [u32],
) -> Count
    ensures { (result, out.new) ≡ trees_near part.now table.now rank (Probe.HalfSpace axis limit) out.old }
{
    Count::from(probes::trees_near(part, table, rank, Probe::HalfSpace(axis, limit), out))
}

#[unsafe(no_mangle)]
pub extern "C" fn vejgodat_trees_between(
    part: &[u8],
    table: &[u8],
    rank: u32,
    axis: u32,
    lower: f32,
    upper: f32,
    out: &mut [u32],
) -> Count
    ensures { (result, out.new) ≡ trees_near part.now table.now rank (Probe.Slab axis lower upper) out.old }
{
    Count::from(probes::trees_near(part, table, rank, Probe::Slab(axis, lower, upper), out))
}

#[unsafe(no_mangle)]
pub extern "C" fn vejgodat_table_fault(table: &[u8]) -> Fault
    ensures { result ≡ table_fault_of table.now }
{
    Fault::from(table_fault::table_fault(table))
}

#[unsafe(no_mangle)]
pub extern "C" fn vejgodat_mesh_fault(mesh: &[u8]) -> Fault
    ensures { result ≡ mesh_fault_of mesh.now }
{
    Fault::from(faults::mesh_fault(mesh))
}

#[unsafe(no_mangle)]
pub extern "C" fn vejgodat_part_fault(part: &[u8], table: &[u8], rank: u32) -> Fault
    ensures { result ≡ part_fault_of part.now table.now rank }
{
    Fault::from(part_fault::part_fault(part, table, rank))
}

#[unsafe(no_mangle)]
pub extern "C" fn vejgodat_mesh_header(mesh: &[u8]) -> WrongField
    ensures { result ≡ mesh_header_of mesh.now }
{
    WrongField::from(headers::mesh_header(mesh))
}

#[unsafe(no_mangle)]
pub extern "C" fn vejgodat_part_header(part: &[u8], table: &[u8], rank: u32) -> WrongField
    ensures { result ≡ part_header_of part.now table.now rank }
{
    WrongField::from(headers::part_header(part, table, rank))
}

#[unsafe(no_mangle)]
pub extern "C" fn vejgodat_triangle_length(text: &[u8]) -> Length
    ensures { result ≡ triangle_length text.now }
{
    Length::from(ele_mesh::triangle_length(text))
}

#[unsafe(no_mangle)]
pub extern "C" fn vejgodat_import_triangle(text: &[u8], out: &mut [u8]) -> Length
    ensures { (result, out.new) ≡ import_triangle text.now out.old }
{
    Length::from(ele_mesh::import_triangle(text, out))
}
