// The text that the program `listing_levels` prints: the groups of one stored cost table, in either form, each with its height and its images;
// or the refusal. Every function that writes answers the place behind its text.
#![tactic(auto)]

ghost use Rattle.std.specs.Prelude.{◌<◌, ◌≤◌, length};
ghost use Rattle.listing_text.specs.Listing.{Within};
ghost use Rattle.levels_text.specs.Lines.{group_images, group_line, group_lines, groups_text, header, image_field, room};
ghost use Rattle.levels_text.specs.Listing.{Listed, levels_text, table_levels};
ghost use Rattle.text.specs.Fields.{fields};
ghost use Rattle.text.specs.Putting.{Fits, Put};

use tables::Costs;
use text::Text;

// The first line: how many images, and how many groups.
#[tactic(auto, unfolding(crate::specs::Lines::header, text::specs::Words::bytes_of))]
fn put_header(out: &mut [u8], at: usize, n: usize, groups: usize) -> usize
    requires { Fits (header n groups) at out.old }
    ensures { Put (header n groups) at out.old result out.new }
{
    let p = text::put_word(out, at, b"images");
    let q = text::put_field(out, p, n as u64);
    let w = text::put_word(out, q, b" groups");
    let e = text::put_field(out, w, groups as u64);
    text::put_byte(out, e, 10)
}

// The number of image i, counted from 1, where the group has it; else nothing.
#[tactic(auto, using(crate::proofs::Laws::Turns::one_image))]
fn put_image(out: &mut [u8], at: usize, members: u64, i: usize) -> usize
    requires { (i < 64) × Fits (image_field members i) at out.old }
    ensures { Put (image_field members i) at out.old result out.new }
{
    if ground::side(members, i) == 1 {
        return text::put_field(out, at, (i + 1) as u64);
    }
    at
}

// The numbers of all images that the group has, ascending.
#[tactic(auto, using(crate::proofs::Laws::Turns::image_turns))]
fn put_images(out: &mut [u8], at: usize, members: u64, n: usize) -> usize
    requires { (n ≤ 64) × Fits (fields (group_images members n)) at out.old }
    ensures { Put (fields (group_images members n)) at out.old result out.new }
{
    let mut place = at;
    for i in 0..n {
        place = put_image(out, place, members, i);
    }
    place
}

// The line of a group: member sum, height, images.
#[tactic(auto, unfolding(crate::specs::Lines::group_line))]
fn put_group(out: &mut [u8], at: usize, n: usize, members: u64, height: u32) -> usize
    requires { (n ≤ 64) × Fits (group_line n members height) at out.old }
    ensures { Put (group_line n members height) at out.old result out.new }
{
    let p = text::put_number(out, at, members);
    let q = text::put_field(out, p, height as u64);
    let e = put_images(out, q, members, n);
    text::put_byte(out, e, 10)
}

// The lines of all groups.
#[tactic(auto, using(crate::proofs::Laws::Turns::group_turns))]
fn put_groups(out: &mut [u8], at: usize, n: usize, members: &[u64], heights: &[u32]) -> usize
    requires { (n ≤ 64) × (length members.now ≤ length heights.now) × Fits (group_lines n members.now heights.now) at out.old }
    ensures { Put (group_lines n members.now heights.now) at out.old result out.new }
{
    let mut place = at;
    for i in 0..members.len() {
        place = put_group(out, place, n, members[i], heights[i]);
    }
    place
}

// Header and groups.
#[tactic(auto, unfolding(crate::specs::Lines::groups_text))]
fn put_levels(out: &mut [u8], n: usize, members: &[u64], heights: &[u32]) -> usize
    requires { (n ≤ 64) × (length members.now ≤ length heights.now) × Fits (groups_text n members.now heights.now) 0 out.old }
    ensures { Put (groups_text n members.now heights.now) 0 out.old result out.new }
{
    let p = put_header(out, 0, n, members.len());
    put_groups(out, p, n, members, heights)
}

// The text of a cost table: its groups, or refusal 21.
#[tactic(auto, using(crate::proofs::Laws::Table::table_ways))]
fn write_table(out: &mut [u8], t: &Costs<'_>) -> usize
    requires { room ≤ length out.old }
    ensures { Put (table_levels t.now.n t.now.entries.now) 0 out.old result out.new }
{
    let mut members = [0u64; 64];
    let mut heights = [0u32; 64];
    match levels::levels(t.n, t.entries, &mut members, &mut heights) {
        Err(q) => listing_lines::put_refusal(out, 0, q),
        Ok(count) => put_levels(out, t.n, &members[..count], &heights[..count]),
    }
}

// The text of the stored cost table at the start of the bytes, in the form that they tell.
#[tactic(auto, using(crate::proofs::Laws::Stored::stored_ways))]
fn write_stored(out: &mut [u8], bytes: &[u8]) -> usize
    requires { room ≤ length out.old }
    ensures { Put (levels_text bytes.now) 0 out.old result out.new }
{
    let mut t = [0u32; 4096];
    match stored_costs::read_costs(bytes, 0, &mut t) {
        Err(q) => listing_lines::put_refusal(out, 0, q),
        Ok(read) => {
            let n = read.n;
            write_table(
                out,
                &Costs {
                    n,
                    entries: &t[..n * n],
                },
            )
        }
    }
}

// What the program prints: the groups of the stored cost table at the start of the bytes, in either form and whatever follows it, or one
// line with the refusal.
#[tactic(auto, using(crate::proofs::Laws::Stored::whole))]
pub fn levels_listing(bytes: &[u8]) -> Text<14336>
    ensures listed { Listed bytes.now result.length result.bytes }
    ensures within { Within result.length result.bytes }
{
    let mut text = [0u8; 14336];
    let length = write_stored(&mut text, bytes);
    Text {
        length,
        bytes: text,
    }
}
