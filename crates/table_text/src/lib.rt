// The text of the listing of a cost table: its exact reading, by either engine, and the order from 1 with a given last image. Every function
// answers the place behind its text.
#![tactic(auto)]

ghost use Rattle.std.specs.Prelude.{◌≤◌, length};
ghost use Rattle.theory.specs.Routes.{uppers};
ghost use Rattle.theory.specs.Tables.{limit};
ghost use Rattle.links.specs.Links.{Links};
ghost use Rattle.order.specs.Outcome.{images};
ghost use Rattle.listing_lines.specs.Lines.{reading_text, room};
ghost use Rattle.table_text.specs.LastImage.{Other};
ghost use Rattle.table_text.specs.TableText.{table_text};
ghost use Rattle.text.specs.Putting.{Put};

use graft::Engine;
use tables::Costs;

// The listing of a link table and of the cost table that it reads, with its upper rows and the order from 1 with this last.
#[tactic(auto, using(crate::proofs::Laws::Read::reading_ways))]
fn write_links(out: &mut [u8], t: &Costs<'_>, last: usize, fars: &[u64], costs: &[u32]) -> usize
    requires { Other t.now.n last × Links limit t.now.n (length fars.now) fars.now costs.now × (room ≤ length out.old) }
    ensures { Put (reading_text t.now.n fars.now costs.now (uppers fars.now) (images t.now.n t.now.entries.now 1 last)) 0
        out.old result out.new }
{
    let mut above = [0u32; 128];
    let _ = routes::upper_rows(t.n, fars.len(), fars, costs, &mut above);
    let mut around = [0u32; 64];
    let _ = order::order(t.n, t.entries, 1, last, &mut around);
    listing_lines::put_reading(out, t.n, fars, costs, &above[..fars.len()], &around[..t.n])
}

// The listing of a cost table: its exact reading, by either engine, and the order from 1 with this last, or refusal 7.
#[tactic(auto, using(crate::proofs::Laws::Read::table_ways))]
pub fn write_table(out: &mut [u8], engine: Engine, t: &Costs<'_>, last: usize) -> usize
    requires { Other t.now.n last × (room ≤ length out.old) }
    ensures { Put (table_text last t.now.n t.now.entries.now) 0 out.old result out.new }
{
    let mut fars = [0u64; 128];
    let mut costs = [0u32; 128];
    match graft::exact_by(engine, t.n, t.entries, &mut fars, &mut costs) {
        Err(q) => listing_lines::put_refusal(out, 0, q),
        Ok(count) => write_links(out, t, last, &fars[..count], &costs[..count]),
    }
}
