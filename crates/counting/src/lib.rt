// One table more in a term report: it gets 7 and is counted apart, or its tree is counted. A table is judged whole before its first store.
#![tactic(auto)]

ghost use Rattle.std.specs.Prelude.{◌+◌, ◌-◌};
ghost use Rattle.figures.specs.Tables.{table_of};
ghost use Rattle.counting.specs.Taking.{turn_from, SomeTable, SomeTree, TableTaken, TreeTaken};

use figures::Figures;
use ground::Refusal;

// A tree's rows in the first `count` places.
#[derive(Clone, Copy)]
pub struct Rows {
    pub count: usize,
    pub fars: [u64; 128],
    pub costs: [u32; 128],
}

// Where the report stands: its figures, and the far sides of the last tree in the first `rows` places.
#[derive(Clone, Copy)]
pub struct Standing {
    pub figures: Figures,
    pub rows: usize,
    pub last: [u64; 128],
}

// An accepted table of so many bytes, with its tree: refused with 19 where more than 1,024 far sides would be kept, else counted; where the
// report stands then. All that is asked is asked before the first store.
fn take_tree(
    n: usize,
    more: usize,
    tree: &Rows,
    here: &Standing,
    fars: &mut [u64],
    trees: &mut [u32],
    sums: &mut [u64],
) -> Result<Standing, Refusal>
    requires { SomeTree n more tree.now here.now fars.old trees.old sums.old }
    ensures { TreeTaken n more tree.now here.now fars.old trees.old sums.old (turn_from here.now result) fars.new
        trees.new sums.new }
{
    let rows = &tree.fars[..tree.count];
    let sides = here.figures.sides;
    let all = sides + figures::fresh(n, fars, sides, rows);
    ground::refuse_if(1024 < all, 19, 0, 0)?;
    let pair = figures::count_pair(n, here.figures.accepted, &here.last[..here.rows], rows);
    seen::put_rows(
        n,
        &tree.fars,
        &tree.costs,
        tree.count,
        sides,
        all,
        fars,
        trees,
        sums,
    );
    Ok(Standing {
        figures: figures::with_tree(here.figures, n, more, all, pair),
        rows: tree.count,
        last: tree.fars,
    })
}

// A table t over n images, of so many bytes, with the n of those before: it gets 7 and is counted apart, or its tree is taken.
pub fn take_table(
    n: usize,
    more: usize,
    t: &[u32],
    here: &Standing,
    fars: &mut [u64],
    trees: &mut [u32],
    sums: &mut [u64],
) -> Result<Standing, Refusal>
    requires { SomeTable (table_of n more t.now) here.now fars.old trees.old sums.old }
    ensures { TableTaken (table_of n more t.now) here.now fars.old trees.old sums.old (turn_from here.now result)
        fars.new trees.new sums.new }
{
    let mut rows = Rows {
        count: 0,
        fars: [0; 128],
        costs: [0; 128],
    };
    match graft::exact(n, t, &mut rows.fars, &mut rows.costs) {
        Err(_) => Ok(Standing {
            figures: figures::with_apart(here.figures, n, more),
            ..*here
        }),
        Ok(count) => {
            rows.count = count;
            take_tree(n, more, &rows, here, fars, trees, sums)
        }
    }
}
