// The term report over up to 500 stored cost tables of one n, read one after another. The figures of the tables before stand in the three
// lent slices all the time: a table is judged whole before its first store.
#![tactic(auto)]

ghost use Rattle.std.specs.Prelude.{Ok, ◌≡◌, ◌+◌, ◌-◌, length};
ghost use Rattle.theory.specs.Tables.{limit};
ghost use Rattle.report.specs.Outcome.{LeftReport, outcome, report_outcome, seen_as, short};
ghost use Rattle.counting.specs.Taking.{turn_from};
ghost use Rattle.figures.specs.Reading.{read_all};
ghost use Rattle.report.specs.Same.{other_check};
ghost use Rattle.figures.specs.Tables.{table_of};
ghost use Rattle.report.specs.Turning.{ReadTaken, SomePaused, SomeRead, Turned};
ghost use Rattle.seen.specs.Columns.{Room};

use counting::Standing;
use figures::Figures;
use ground::{Refusal, TableRefusal};

// The figures, and how the report ended: it passed, or the refusal of a table, with its number; with 0 the slices are too short.
#[derive(Clone, Copy)]
pub struct TermReport {
    pub figures: Figures,
    pub stop: Result<(), TableRefusal>,
}

// Whether one of the three slices has fewer than 1,024 places.
fn is_short(f: usize, t: usize, s: usize) -> bool
    ensures { result ≡ short f t s }
{
    f < 1024 || t < 1024 || s < 1024
}

// Refusal 15: an n other than that of the tables before, 0 where there is none.
fn check_same(images: usize, n: usize) -> Result<(), Refusal>
    ensures { result ≡ other_check images n }
{
    if images == 0 {
        return Ok(());
    }
    ground::refuse_if(n != images, 15, 0, 0)
}

// A table t over n images, of so many bytes, that the reader accepted; where the report stands then.
fn take_read(
    n: usize,
    more: usize,
    t: &[u32],
    here: &Standing,
    fars: &mut [u64],
    trees: &mut [u32],
    sums: &mut [u64],
) -> Result<Standing, Refusal>
    requires { SomeRead (table_of n more t.now) here.now fars.old trees.old sums.old }
    ensures { ReadTaken (table_of n more t.now) here.now fars.old trees.old sums.old (turn_from here.now result)
        fars.new trees.new sums.new }
{
    check_same(here.figures.images, n)?;
    counting::take_table(n, more, t, here, fars, trees, sums)
}

// The next table: the part of the lent bytes from the used count onward is handed to the same reader, which has 4,096 places t for it.
fn take_next(
    bytes: &[u8],
    t: &mut [u32],
    here: &Standing,
    fars: &mut [u64],
    trees: &mut [u32],
    sums: &mut [u64],
) -> Result<Standing, Refusal>
    requires { (length t.old ≡ 4096) × SomePaused bytes.now here.now fars.old trees.old sums.old }
    ensures { Turned bytes.now here.now fars.old trees.old sums.old (turn_from here.now result) fars.new
        trees.new sums.new }
{
    let read = stored_costs::read_costs(&bytes[here.figures.used..], 0, t)?;
    let n = read.n;
    take_read(n, read.used, &t[..n * n], here, fars, trees, sums)
}

// Table after table, up to 500, until the bytes end or a table is refused.
fn run(bytes: &[u8], fars: &mut [u64], trees: &mut [u32], sums: &mut [u64]) -> TermReport
    requires { Room 1024 fars.old trees.old sums.old }
    ensures { LeftReport (outcome limit (Ok tt) (read_all limit bytes.now) fars.old trees.old
        sums.old) (seen_as result) fars.new trees.new sums.new }
{
    let mut here = Standing {
        figures: figures::no_figures(),
        rows: 0,
        last: [0; 128],
    };
    let mut t = [0u32; 4096];
    for k in 0..500 {
        if bytes.len() <= here.figures.used {
            break;
        }
        match take_next(bytes, &mut t, &here, fars, trees, sums) {
            Ok(next) => here = next,
            Err(r) => {
                return TermReport {
                    figures: here.figures,
                    stop: Err(r.in_table(k + 1)),
                };
            }
        }
    }
    TermReport {
        figures: here.figures,
        stop: Ok(()),
    }
}

// The report over the stored cost tables in the lent bytes. The figures of each far side seen stand in front of the three slices: its
// name, in how many trees it is, and the sum of its doubled costs.
pub fn report(bytes: &[u8], fars: &mut [u64], trees: &mut [u32], sums: &mut [u64]) -> TermReport
    ensures { LeftReport (report_outcome limit bytes.now fars.old trees.old sums.old) (seen_as result)
        fars.new trees.new sums.new }
{
    match ground::refuse_if(is_short(fars.len(), trees.len(), sums.len()), 3, 0, 0) {
        Ok(()) => run(bytes, fars, trees, sums),
        Err(r) => TermReport {
            figures: figures::no_figures(),
            stop: Err(r.in_table(0)),
        },
    }
}
