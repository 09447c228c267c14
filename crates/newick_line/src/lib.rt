// The line that the program `newick` prints: the Newick text of the exact reading of one stored cost table, in either form, or its refusal.
// Every function that writes answers the place behind its text.
#![tactic(auto)]

ghost use Rattle.std.specs.Prelude.{◌≤◌, length};
ghost use Rattle.theory.specs.LinkTables.{rows_of};
ghost use Rattle.theory.specs.Tables.{limit};
ghost use Rattle.links.specs.Links.{Links};
ghost use Rattle.listing_lines.specs.Lines.{room};
ghost use Rattle.listing_text.specs.Listing.{Within};
ghost use Rattle.newick_line.specs.Line.{Printed, line_of, newick_line, table_line};
ghost use Rattle.text.specs.Putting.{Put};

use tables::Costs;
use text::Text;

// The Newick text of a link table, and a newline. It is never refused: there is room for every text.
fn write_links(out: &mut [u8], n: usize, fars: &[u64], costs: &[u32]) -> usize
    requires { Links limit n (length fars.now) fars.now costs.now × (room ≤ length out.old) }
    ensures { Put (line_of (rows_of fars.now costs.now)) 0 out.old result out.new }
{
    match newick_writer::write_newick(n, fars.len(), fars, costs, out) {
        Err(_) => 0,
        Ok(used) => text::put_byte(out, used, 10),
    }
}

// The line of a cost table: its exact reading, by the engine that grafts, or refusal 7.
#[tactic(auto, using(table_text::proofs::Laws::Read::table_ways))]
fn write_table(out: &mut [u8], t: &Costs<'_>) -> usize
    requires { room ≤ length out.old }
    ensures { Put (table_line t.now.n t.now.entries.now) 0 out.old result out.new }
{
    let mut fars = [0u64; 128];
    let mut costs = [0u32; 128];
    match graft::exact(t.n, t.entries, &mut fars, &mut costs) {
        Err(q) => listing_lines::put_refusal(out, 0, q),
        Ok(count) => write_links(out, t.n, &fars[..count], &costs[..count]),
    }
}

// The line of the stored cost table at the start of the bytes, in the form that they tell.
#[tactic(auto, using(listing_lines::specs::Laws::Lengths::refused_fits))]
fn write_stored(out: &mut [u8], bytes: &[u8]) -> usize
    requires { room ≤ length out.old }
    ensures { Put (newick_line bytes.now) 0 out.old result out.new }
{
    let mut t = [0u32; 4096];
    match stored_costs::read_costs(bytes, 0, &mut t) {
        Err(q) => listing_lines::put_refusal(out, 0, q),
        Ok(read) => {
            let n = read.n;
            write_table(
                out,
                &Costs {
                    n,
                    entries: &t[..n * n],
                },
            )
        }
    }
}

// What the program prints: the Newick text of the exact reading of the stored cost table at the start of the bytes, whatever follows it, and
// a newline; or the line of its refusal.
#[tactic(auto, using(listing_text::proofs::Laws::Read::whole))]
pub fn newick_line(bytes: &[u8]) -> Text<10240>
    ensures printed { Printed bytes.now result.length result.bytes }
    ensures within { Within result.length result.bytes }
{
    let mut text = [0u8; 10240];
    let length = write_stored(&mut text, bytes);
    Text {
        length,
        bytes: text,
    }
}
